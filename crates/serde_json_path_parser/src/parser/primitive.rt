//! The pieces of a path's text.

mod decimal;
pub(crate) mod int;
pub(crate) mod name;
pub(crate) mod number;
pub(crate) mod numeral;
pub(crate) mod operator;
pub(crate) mod string;
pub(crate) mod word;
