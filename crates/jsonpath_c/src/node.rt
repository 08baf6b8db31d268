//! A selected node, as C sees it.

ghost use Rattle.std.specs.Prelude.{◌≡◌};
ghost use Rattle.jsonpath_c.specs.Handles.{told_of, told_of_kind};

use jsonpath_owned_nodes::NodeInfo;

/// What is known of a node without its document: `struct jsonpath_node`. What its kind does not have is 0.
#[repr(C)]
#[derive(Clone, Copy)]
pub struct Node {
    /// The number of the kind, `JSONPATH_NULL` and on.
    pub kind: u32,
    /// How many bytes a string has, how many items an array, how many members an object.
    pub length: usize,
    /// The number, if an `i64` holds it.
    pub integer: i64,
    /// The number, if it is an integer that a `u64` holds and an `i64` does not.
    pub unsigned: u64,
    /// The number, if it is held as a double.
    pub number: f64,
}

impl Node {
    /// A node of a kind without a number and without a length.
    fn of_kind(kind: u32) -> Node
        ensures { result ≡ told_of_kind kind }
    {
        Node {
            kind,
            length: 0,
            integer: 0,
            unsigned: 0,
            number: 0.0,
        }
    }

    /// A node of a kind that has a length.
    fn of_length(kind: u32, length: usize) -> Node
        ensures { result ≡ record (told_of_kind kind) { length = length } }
    {
        Node {
            length,
            ..Node::of_kind(kind)
        }
    }

    /// What C is told.
    pub(crate) fn of(info: NodeInfo) -> Node
        ensures { result ≡ told_of info }
    {
        match info {
            NodeInfo::Null => Node::of_kind(0),
            NodeInfo::False => Node::of_kind(1),
            NodeInfo::True => Node::of_kind(2),
            NodeInfo::Integer(integer) => Node {
                integer,
                ..Node::of_kind(3)
            },
            NodeInfo::Unsigned(unsigned) => Node {
                unsigned,
                ..Node::of_kind(4)
            },
            NodeInfo::Double(number) => Node {
                number,
                ..Node::of_kind(5)
            },
            NodeInfo::String(bytes) => Node::of_length(6, bytes),
            NodeInfo::Array(items) => Node::of_length(7, items),
            NodeInfo::Object(members) => Node::of_length(8, members),
        }
    }
}
