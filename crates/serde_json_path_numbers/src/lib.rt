//! Numbers compared exactly: those of documents, and number literals of JSONPath (RFC 9535).
//!
//! A document's number is an integer of 64 bits or a finite double, and each stands for one exact number. So does a number
//! literal of a query: without a fraction it is that integer, with one the double nearest to it, as JSON's readers take it
//! (RFC 8259, section 6). Two of these are compared by their values, whatever holds them: 2^53 + 1 is greater than the double
//! 2^53, and -0.0 equals 0.
//!
//! ```text
//! let price = ExactNumber::of_number(&number);
//! price.is_less(ExactNumber::of_billionths(8_950_000_000))
//! ```
//!
//! Definitions are in `specs/`: `Numbers` has what the numbers are and how they compare, `Laws` the laws, `Views` what
//! contracts see of an [`ExactNumber`].
#![tactic(auto)]

mod comparison;
mod decimal;
mod exact_number;
mod laws;
mod literal;
mod numeral;

pub use decimal::Decimal;
pub use exact_number::ExactNumber;
pub use laws::{
    law_equality_of_numbers, law_integers_keep_their_order, law_numbers_are_finite,
    law_order_of_numbers,
};
pub use literal::literal_double;
pub use numeral::{Amount, numeral_amount};
