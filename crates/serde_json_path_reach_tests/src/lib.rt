//! The tests of the crate `serde_json_path_reach`, by its public call.
#![tactic(auto)]

#[cfg(test)]
mod tests;
