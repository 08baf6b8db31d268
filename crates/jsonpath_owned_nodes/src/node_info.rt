//! What is known of a node without its document.

ghost use Rattle.std.specs.Prelude.{◌≡◌};
ghost use Rattle.jsonpath_owned_nodes.specs.Words.{view, number_view, info_of, info_of_number};

use serde_json::{Number, Value};

/// The kind of a node with its number or its length.
#[derive(Clone, Copy, Debug, PartialEq)]
pub enum NodeInfo {
    /// `null`.
    Null,
    /// `false`.
    False,
    /// `true`.
    True,
    /// An integer that an `i64` holds.
    Integer(i64),
    /// An integer that a `u64` holds and an `i64` does not.
    Unsigned(u64),
    /// A double.
    Double(f64),
    /// A string of that many bytes.
    String(usize),
    /// An array of that many items.
    Array(usize),
    /// An object of that many members.
    Object(usize),
}

impl NodeInfo {
    /// What is known of a node with this value.
    #[tactic(auto, using(crate::proofs::Words::of_views))]
    pub fn of(value: &Value) -> NodeInfo
        ensures { result ≡ info_of (view value.now) }
    {
        match value {
            Value::Null => NodeInfo::Null,
            Value::Bool(false) => NodeInfo::False,
            Value::Bool(true) => NodeInfo::True,
            Value::Number(number) => NodeInfo::of_number(number),
            Value::String(text) => NodeInfo::String(text.len()),
            Value::Array(items) => NodeInfo::Array(items.len()),
            Value::Object(members) => NodeInfo::Object(members.len()),
        }
    }

    /// The same of a number.
    fn of_number(number: &Number) -> NodeInfo
        ensures { result ≡ info_of_number (number_view number.now) }
    {
        match (number.as_i64(), number.as_u64()) {
            (Some(n), _) => NodeInfo::Integer(n),
            (None, Some(n)) => NodeInfo::Unsigned(n),
            (None, None) => NodeInfo::Double(number.as_f64().unwrap()),
        }
    }
}
