//! Calls that are refused a request for memory. `tools/refuse_memory` refuses each request of each of these tests in turn, and
//! reads how the test ends.

mod jpq;
mod reports;
