//! Why an answer may be empty, as the path's tree shows, and a document.

ghost use Rattle.std.specs.Prelude.{ℕ, ◌<◌, ◌≤◌, length};
ghost use Rattle.serde_json_path_syntax.specs.Words.{NamesBelow, nodes_in, number_of, parts_bound};

use serde_json_path::JsonPath;
use serde_json_path_syntax::{Basic, Checked, Node, Operand, Part, QueryKind, Segment, Selector};
use std::alloc::{AllocError, Global};
use std::slice;

/// A part of a path that is often meant otherwise.
enum Slip {
    /// This name after a dot.
    Dotted(&'static str),
    /// A name after a dot that has a sign of a comparison in it, or a bracket, as other keyboards have them.
    DottedSign,
    /// This name alone in brackets.
    Quoted(&'static str),
    /// A name alone in brackets that has a dot in it.
    QuotedDot,
    /// A slice whose step is 0.
    StepZero,
    /// A query from the root that is compared with a literal, the same for all children.
    RootCompared,
    /// A call of `match` or `search` whose arguments are the other way round.
    Swapped,
    /// A call of `match`.
    Match,
}

/// What a path has, and what that means where nothing is selected; last what means that in some documents alone.
const REASONS: &[(Slip, &str)] = &[
    (
        Slip::Dotted("length"),
        "'length' is a member's name here; length(@.a) in a filter is how long a value is",
    ),
    (
        Slip::Dotted("size"),
        "'size' is a member's name here; length(@.a) in a filter is how long a value is",
    ),
    (
        Slip::Dotted("count"),
        "'count' is a member's name here; count(@.*) in a filter is how many nodes there are",
    ),
    (
        Slip::DottedSign,
        "'≤', '≥', '≠' and wide brackets are part of a name; write <=, >=, != and plain [ and ]",
    ),
    (
        Slip::Quoted("*"),
        "'*' in quotes is a member's name; without quotes it is every child",
    ),
    (Slip::StepZero, "a slice with step 0 selects nothing"),
    (
        Slip::Swapped,
        "the text comes first, then the pattern: match(@.a, 'b.*')",
    ),
    (
        Slip::QuotedDot,
        "a name in quotes is one member's, with its dots; $.a.b goes down by two",
    ),
    (
        Slip::RootCompared,
        "'$' in a filter is the whole document, the same for each child; '@' is the child",
    ),
    (
        Slip::Match,
        "match(@.a, 'b') wants the whole text to fit the pattern; search(@.a, 'b') a part of it",
    ),
];

/// A reason that counts for a document from which this path selects something.
#[derive(Drop)]
pub(crate) struct Sign {
    pub(crate) path: String,
    pub(crate) reason: &'static str,
}

/// What stands before the dot of the first name in brackets that has one, in a path's canonical text.
fn before_dot(path: &str) -> Option<&str> {
    path.split("['").skip(1).find_map(|after| {
        let (name, _) = after.split_once("']")?;
        let (before, _) = name.split_once('.')?;
        Some(before)
    })
}

impl Slip {
    /// Whether a node of a tree is this part.
    fn is_at(&self, tree: &Checked, node: &Node) -> bool
        requires { NamesBelow (length (nodes_in tree.now)) node.now }
    {
        match (self, node) {
            (
                Slip::Dotted(name),
                Node::Segment {
                    segment: Segment::DotName(own),
                    ..
                },
            ) => own.as_str() == *name,
            (
                Slip::DottedSign,
                Node::Segment {
                    segment: Segment::DotName(own),
                    ..
                },
            ) => has_foreign_sign(own.as_str()),
            (
                Slip::Quoted(_) | Slip::QuotedDot,
                Node::Segment {
                    segment: Segment::LongHand(selectors),
                    ..
                },
            ) => match selectors.as_slice() {
                [selector] => match tree.node(*selector) {
                    Node::Selector(Selector::Name(own)) => self.is_quoted(own.as_str()),
                    _ => false,
                },
                _ => false,
            },
            _ => self.is_in_brackets(tree, node),
        }
    }

    /// Whether a node of a tree that is no segment is this part.
    fn is_in_brackets(&self, tree: &Checked, node: &Node) -> bool
        requires { NamesBelow (length (nodes_in tree.now)) node.now }
    {
        match (self, node) {
            (Slip::StepZero, Node::Selector(Selector::Slice(slice))) => slice.step == Some(0),
            (Slip::RootCompared, Node::Basic(Basic::Relation { left, right, .. })) => {
                (is_root(tree, *left) && is_literal(tree.node(*right)))
                    || (is_literal(tree.node(*left)) && is_root(tree, *right))
            }
            (
                Slip::Swapped,
                Node::Call {
                    name,
                    arguments,
                    ..
                },
            ) => {
                let [text, pattern] = arguments.as_slice() else {
                    return false;
                };
                takes_pattern(name.as_str())
                    && is_literal(tree.node(*text))
                    && matches!(tree.node(*pattern), Node::Operand(Operand::Query(_)))
            }
            (Slip::Match, Node::Call { name, .. }) => name.as_str() == "match",
            _ => false,
        }
    }

    /// A path that selects something from documents of which the reason counts, by the canonical text of the path at hand: for a
    /// name with a dot, what stands before the dot; for a query from the root, members in an array; for `match`, `search`.
    fn sign(&self, alloc: Global, path: &str) -> Result<Option<String>, AllocError> {
        match self {
            Slip::QuotedDot => match before_dot(path) {
                Some(name) => Ok(Some(format!(in alloc; "$..['{name}']")?)),
                None => Ok(None),
            },
            Slip::RootCompared => Ok(Some(String::from_str(alloc, "$..[0].*")?)),
            Slip::Match => Ok(Some(path.replace(alloc, "match(", "search(")?)),
            _ => Ok(None),
        }
    }

    /// Whether this part is a slip in some documents alone.
    fn is_of_documents(&self) -> bool {
        matches!(self, Slip::QuotedDot | Slip::RootCompared | Slip::Match)
    }

    /// Whether a name alone in brackets is this part.
    fn is_quoted(&self, own: &str) -> bool {
        match self {
            Slip::Quoted(name) => own == *name,
            _ => own.contains('.'),
        }
    }
}

/// Which rows of [`REASONS`] a tree has.
#[derive(Drop)]
pub(crate) struct Marks {
    found: Vec<bool>,
}

impl Marks {
    /// Those of a tree. It fails where memory is refused.
    pub(crate) fn of(alloc: Global, tree: &Checked) -> Result<Marks, AllocError> {
        let mut found = Vec::new(alloc);
        for _ in REASONS {
            found.push(false)?;
        }
        let mut marks = Marks { found };
        marks.mark_below(tree, tree.segments());
        Ok(marks)
    }

    /// Marks the rows of a node of a tree.
    fn mark(&mut self, tree: &Checked, node: &Node)
        requires { NamesBelow (length (nodes_in tree.now)) node.now }
    {
        for (index, (slip, _)) in REASONS.iter().enumerate() {
            if slip.is_at(tree, node) {
                if let Some(found) = self.found.get_mut(index) {
                    *found = true;
                }
            }
        }
    }

    /// Marks the rows of some parts of a tree, and of what is below them.
    #[tactic(auto, using(serde_json_path_syntax::proofs::Tree::NamedParts::within_get))]
    fn mark_below(&mut self, tree: &Checked, parts: &[Part])
        requires { parts_bound parts.now ≤ length (nodes_in tree.now) }
    {
        for part in parts {
            let node = tree.node(*part);
            let (below, others) = parts_below(node);
            if may_slip(node) {
                self.mark(tree, node);
            }
            self.mark_below(tree, below);
            self.mark_below(tree, others);
        }
    }

    /// A reason why a path selects nothing, whatever the document: the first of the table.
    pub(crate) fn reason(&self) -> Option<&'static str> {
        for ((slip, reason), found) in REASONS.iter().zip(&self.found) {
            if *found && !slip.is_of_documents() {
                return Some(*reason);
            }
        }
        None
    }

    /// The reasons why a path may select nothing, each with what must be in the document.
    pub(crate) fn signs(&self, alloc: Global, path: &JsonPath) -> Result<Vec<Sign>, AllocError> {
        let mut signs = Vec::new(alloc);
        for ((slip, reason), found) in REASONS.iter().zip(&self.found) {
            if !*found || !slip.is_of_documents() {
                continue;
            }
            if let Some(path) = slip.sign(alloc, path.to_text(alloc)?.as_str())? {
                signs.push(Sign {
                    path,
                    reason: *reason,
                })?;
            }
        }
        Ok(signs)
    }
}

/// Whether a name has a sign of a comparison in it, or a bracket, as other keyboards have them. Most names are ASCII, which takes
/// few steps to see.
fn has_foreign_sign(name: &str) -> bool {
    !name.is_ascii() && name.contains(['≤', '≥', '≠', '［', '］', '【', '】'])
}

/// Whether a node is of a kind that has a slip.
fn may_slip(node: &Node) -> bool {
    matches!(
        node,
        Node::Segment { .. }
            | Node::Selector(Selector::Slice(_))
            | Node::Basic(Basic::Relation { .. })
            | Node::Call { .. }
    )
}

/// Whether a function's second argument is a pattern.
pub(crate) fn takes_pattern(name: &str) -> bool {
    name == "match" || name == "search"
}

/// Whether a node is a literal.
fn is_literal(node: &Node) -> bool {
    matches!(node, Node::Operand(Operand::Literal(_)))
}

/// Whether a part of a tree is an operand that is a query from the root.
fn is_root(tree: &Checked, part: Part) -> bool
    requires { number_of part < length (nodes_in tree.now) }
{
    let Node::Operand(Operand::Query(query)) = tree.node(part) else {
        return false;
    };
    matches!(
        tree.node(*query),
        Node::Query {
            kind: QueryKind::Root,
            ..
        }
    )
}

/// The parts that a node names, those of the right side of a comparison by themselves.
pub(crate) fn parts_below(node: &Node) -> (&[Part], &[Part])
    ensures first { (n : ℕ) → NamesBelow n node.now → parts_bound result.0.now ≤ n }
    ensures second { (n : ℕ) → NamesBelow n node.now → parts_bound result.1.now ≤ n }
{
    match node {
        Node::Query { segments, .. } => (segments.as_slice(), &[]),
        Node::Segment {
            segment: Segment::LongHand(selectors),
            ..
        } => (selectors.as_slice(), &[]),
        Node::LogicalOr(parts) | Node::LogicalAnd(parts) => (parts.as_slice(), &[]),
        Node::Call { arguments, .. } => (arguments.as_slice(), &[]),
        Node::Basic(Basic::Relation { left, right, .. }) => {
            (slice::from_ref(left), slice::from_ref(right))
        }
        Node::Selector(Selector::Filter(part))
        | Node::Basic(Basic::Paren { inner: part, .. } | Basic::Test { operand: part, .. })
        | Node::Operand(Operand::Query(part) | Operand::Call(part)) => (slice::from_ref(part), &[]),
        Node::Segment { .. } | Node::Selector(_) | Node::Operand(_) => (&[], &[]),
    }
}
