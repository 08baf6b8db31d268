//! What a path selects, in many forms of output.
//!
//! [`write_nodes`] goes along a walk and writes its nodes: a line for each, with its location, its pointer, its value, or several
//! of these; or all nodes as one JSON array, or only how many there are. [`push_line`] appends one line, and [`distinct_nodes`]
//! has each location once.
//!
//! ```text
//! let output = Output { most: Some(2), ..Output::compact_lines(Form::Pointer) };
//! let walk = path.walk(alloc, &document, &Builtin)?;
//! let written = write_nodes(alloc, &output, "", String::new(alloc), walk)?;
//! ```
//!
//! [`colored`] gives such a line in the colours of a [`Palette`]. [`write_text`] writes a text, or a beginning of it.
//!
//! Definitions are in `specs/`: `Output` says what is shown, `Distinct` when distinct nodes are enough, `Coloured` what a
//! line is in colours, `Sent` what went out.
#![tactic(auto)]

mod colours;
mod distinct;
mod forms;
mod line;
mod nodes;
mod values;
mod writing;

pub use colours::{Palette, colored};
pub use distinct::distinct_nodes;
pub use forms::{Form, Layout, LineEnd, Output};
pub use line::push_line;
pub use nodes::{Written, write_nodes};
pub use writing::write_text;
