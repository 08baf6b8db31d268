//! What was probably meant where a text is refused as a path.
//!
//! [`hint`] names the slip that the kind of a refusal and the text around its place show. It takes no memory.
//!
//! ```text
//! let text = "$[?@.a = 1]";
//! let e = parse(alloc, &mut TextSource::new(text), &Builtin).unwrap_err();
//! assert_eq!(rt; hint(text, &e), Some("equality is written =="));
//! ```
//!
//! The slips are tables, by the kind of refusal that they explain. Definitions are in `specs/`: `Hints` says which of the
//! slips is named, `Conditions` what is said of the text on either side of a place.
#![tactic(auto)]

mod condition;
mod hints;
mod near;
mod slip;
mod slips;
#[cfg(test)]
mod tests;

pub use hints::hint;
