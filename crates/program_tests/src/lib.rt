//! The tests of `jpq` and `jsonpath`: of the crates `jpq_options`, `jpq_program` and `jsonpath_program`, and of `jsonpath_lines`
//! and `jsonpath_document` below them, by their public calls.
#![tactic(auto)]

#[cfg(test)]
mod tests;
