//! A box as its pointer, also where there may be none: what a handle for C needs.
//!
//! A program in C holds a value of Rattle by a pointer, which is null where it holds none. `NullableBox` has a box or nothing
//! as one pointer, and `NullableRef` what a box lends. Of the structs that C knows, a `Handle` owns a box, which is put into it
//! and taken out, and what is `Lent` shows the value in that box to a call, which only reads it.
#![tactic(auto)]

mod handle;
mod lent;
mod nullable_box;
mod nullable_ref;

pub use handle::Handle;
pub use lent::{Lent, get_both};
pub use nullable_box::NullableBox;
pub use nullable_ref::NullableRef;
