//! Arguments and answers of functions.

ghost use Rattle.std.specs.Prelude.{◌≡◌, ◌==◌, Bool, false, None, length, map, option_map, slice_get};
ghost use Rattle.serde_json_path_functions.specs.Words.{view, node_view, nodes_view, truth_view, value_view};

use serde_json::Value;

/// The types of parameters and results (RFC 9535, section 2.4.1).
#[derive(Clone, Copy, Debug, PartialEq, Eq)]
pub enum FunctionArgType {
    /// A JSON value, or Nothing.
    Value,
    /// A list of nodes.
    Nodelist,
    /// A truth value.
    Logical,
}

/// A truth value, as an argument or an answer.
#[derive(Clone, Copy, Debug, PartialEq, Eq)]
pub enum LogicalType {
    /// The truth value true.
    True,
    /// The truth value false.
    False,
}

impl Default for LogicalType {
    ghost is_default = { λ truth. truth_view truth ≡ false };

    /// False.
    fn default() -> LogicalType {
        LogicalType::from(false)
    }
}

impl From<bool> for LogicalType {
    ghost from_gives = { λ b truth. truth_view truth ≡ b };

    fn from(truth: bool) -> LogicalType {
        if truth {
            LogicalType::True
        } else {
            LogicalType::False
        }
    }
}

/// A JSON value or Nothing, as an argument or an answer. Contracts see both kinds of value alike.
#[derive(Drop)]
pub enum ValueType<'b> {
    /// A value that a function has made.
    Value(Value),
    /// The value of a node of the document, or a literal of the query.
    Node(&'b Value),
    /// No value.
    Nothing,
}

impl<'b> ValueType<'b> {
    /// The value, or `None` for Nothing.
    pub fn as_value(&self) -> Option<&Value>
        ensures { option_map node_view result ≡ value_view self.now }
    {
        match self {
            ValueType::Value(value) => Some(value),
            ValueType::Node(value) => Some(*value),
            _ => None,
        }
    }
}

impl<'b> Default for ValueType<'b> {
    ghost is_default = { λ value. value_view value ≡ None };

    /// Nothing.
    fn default() -> ValueType<'b> {
        ValueType::Nothing
    }
}

/// A list of nodes, as an argument or an answer.
#[derive(Drop)]
pub struct NodesType<'b> {
    nodes: Vec<&'b Value>,
}

impl<'b> From<Vec<&'b Value>> for NodesType<'b> {
    ghost from_gives = { λ nodes list. nodes_view list ≡ map node_view nodes.items };

    /// The list of these nodes. Takes no memory.
    fn from(nodes: Vec<&'b Value>) -> NodesType<'b> {
        NodesType { nodes }
    }
}

impl<'b> NodesType<'b> {
    /// The nodes as a vector, in order. Takes no memory.
    pub fn all(self) -> Vec<&'b Value>
        ensures { map node_view result.items ≡ nodes_view self.entry }
    {
        self.nodes
    }

    /// The first node, or `None` if the list is empty.
    pub fn first(&self) -> Option<&'b Value>
        ensures { option_map node_view result ≡ slice_get (nodes_view self.now) 0 }
    {
        self.nodes.first().copied()
    }

    /// How many nodes there are, duplicates counted.
    pub fn len(&self) -> usize
        ensures { result ≡ length (nodes_view self.now) }
    {
        self.nodes.len()
    }

    /// Whether there is no node.
    pub fn is_empty(&self) -> bool
        ensures { result ≡ (length (nodes_view self.now) == 0) }
    {
        self.nodes.is_empty()
    }
}

/// An argument or an answer of a function.
#[derive(Drop)]
pub enum FunctionValue<'b> {
    /// A JSON value, or Nothing.
    Value(ValueType<'b>),
    /// A list of nodes.
    Nodes(NodesType<'b>),
    /// A truth value.
    Logical(LogicalType),
}
