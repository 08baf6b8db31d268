//! Singular queries (RFC 9535, section 2.3.5.1).

ghost use Rattle.std.specs.Prelude.{◌<◌, ◌≤◌, ◌↔◌, IsTrue, [], ◌∷◌, length};
ghost use Rattle.serde_json_path_syntax.specs.Words.{IsOfKind, is_query, part_query, branches, segment_parts, segment_of, segments_at, selector_at, parts_bound};
ghost use Rattle.serde_json_path_syntax.specs.Tree as tree;

use crate::arena::Arena;
use crate::node::{Node, Part, Segment, SegmentKind, Selector};

/// Whether a query is singular.
#[tactic(auto, using(crate::proofs::Tree::NamedParts::within_get))]
pub(crate) fn is_singular(arena: &Arena, query: Part) -> bool
    requires within { query.number < length arena.now.nodes.items }
    requires kind { IsOfKind is_query arena.now.nodes.items query }
    ensures { IsTrue result ↔ tree.IsSingular (part_query arena.now.nodes.items query) }
{
    for segment in arena.segments(query) {
        if !is_singular_segment(arena, *segment) {
            return false;
        }
    }
    true
}

/// Whether a segment is a child segment of one name or one index.
fn is_singular_segment(arena: &Arena, segment: Part) -> bool
    requires { segment.number < length arena.now.nodes.items }
    ensures { IsTrue result ↔ tree.AreSingular (segments_at arena.now.nodes.items (segment ∷ [])) }
{
    match arena.node(segment) {
        Node::Segment {
            kind: SegmentKind::Child,
            segment,
        } => selects_one(arena, segment),
        _ => false,
    }
}

/// Whether a segment is one name or one index.
#[tactic(auto, using(crate::proofs::Tree::NamedParts::two_selectors))]
fn selects_one(arena: &Arena, segment: &Segment) -> bool
    requires { parts_bound (segment_parts segment.now) ≤ length arena.now.nodes.items }
    ensures { IsTrue result
        ↔ tree.IsSingularSegment (segment_of (branches arena.now.nodes.items) segment.now) }
{
    match segment {
        Segment::DotName(_) => true,
        Segment::DotWildcard => false,
        Segment::LongHand(selectors) => match selectors.as_slice() {
            [] => false,
            [selector] => is_name_or_index(arena, *selector),
            [_, _, ..] => false,
        },
    }
}

/// Whether a selector is a name or an index.
fn is_name_or_index(arena: &Arena, selector: Part) -> bool
    requires { selector.number < length arena.now.nodes.items }
    ensures { IsTrue result
        ↔ tree.IsSingularSegment (tree.long_hand
        (tree.selector (selector_at arena.now.nodes.items selector) tree.no_selectors)) }
{
    matches!(
        arena.node(selector),
        Node::Selector(Selector::Name(_) | Selector::Index(_))
    )
}
