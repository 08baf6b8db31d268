//! The tests of the crate `serde_json_path` and of those below it, by their public calls.
#![tactic(auto)]

#[cfg(test)]
mod tests;
