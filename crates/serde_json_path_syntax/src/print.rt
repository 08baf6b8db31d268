//! Printed paths: a query as the text that is read back as it.

ghost use Rattle.std.specs.Prelude.{◌≡◌, ◌<◌, ◌≤◌, ◌++◌, Some, codes, length, map, option_map, true};
ghost use Rattle.serde_json_path_syntax.specs.Words.{WritesOnOk, AreOfKind, IsOfKind, basic_of, basic_parts, operand_of, operand_parts, branch_at, branches, branches_named, segments_at, basic_fits, operand_fits, is_segment, is_selector, parts_bound, nodes_in, number_of, tree_of, basic_text, operand_text, joined, branch_text, query_kind_text, query_text, segments_text, sign_text, opening_text, query_kind_view};

mod literals;
mod openings;

use crate::checked::Checked;
use crate::node::{Basic, Node, Operand, Part, QueryKind, Segment, Selector};
use literals::write_literal;
use openings::{Opening, dots, negation, sign};
use serde_json_path_nodes::Quoted;
use std::fmt;
use std::fmt::{Formatter, Write};

/// The path as text, as `$.a[0, 1]`: names after dots as they are, names in brackets and texts in single quotes, one
/// blank after each comma and round each operator of a filter, and no other blank.
impl fmt::Display for Checked {
    ghost output = { λ query. Some (query_text (tree_of query)) };

    fn fmt<W: Write>(&self, f: &mut Formatter<W>) -> fmt::Result {
        write_path(f, self, self.kind(), self.segments())
    }
}

/// Writes the sign of a query, and its segments. The first segment takes the sign into its first write, since each
/// write costs.
#[cycle(printing)]
#[tactic(auto, using(crate::proofs::Printing::of_parts))]
fn write_path<W: Write>(
    f: &mut Formatter<W>,
    tree: &Checked,
    kind: QueryKind,
    segments: &[Part],
) -> fmt::Result
    requires within { parts_bound segments.now ≤ length (nodes_in tree.now) }
    requires are { AreOfKind is_segment (nodes_in tree.now) segments.now }
    ensures { WritesOnOk W.write_str_gives f.old result
        (query_kind_text (query_kind_view kind)
        ++ segments_text (segments_at (nodes_in tree.now) segments.now)) f.new }
{
    let [first, others @ ..] = segments else {
        return f.write_str(sign(kind));
    };
    write_segment(f, tree, *first, Some(kind))?;
    for segment in others {
        write_segment(f, tree, *segment, None)?;
    }
    Ok(())
}

/// Writes a segment, after the sign of its query where it is the first.
#[cycle(printing)]
#[tactic(auto, using(crate::proofs::Printing::of_kinds))]
#[inline(always)]
fn write_segment<W: Write>(
    f: &mut Formatter<W>,
    tree: &Checked,
    segment: Part,
    start: Option<QueryKind>,
) -> fmt::Result
    requires within { number_of segment < length (nodes_in tree.now) }
    requires kind { IsOfKind is_segment (nodes_in tree.now) segment }
    ensures { WritesOnOk W.write_str_gives f.old result
        (sign_text (option_map query_kind_view start)
        ++ branch_text (branch_at (nodes_in tree.now) (number_of segment))) f.new }
{
    match tree.node(segment) {
        Node::Segment { kind, segment } => match segment {
            Segment::DotName(name) => {
                f.write_str(dots(start, *kind))?;
                f.write_str(name.as_str())
            }
            Segment::DotWildcard => {
                f.write_str(dots(start, *kind))?;
                f.write_str("*")
            }
            Segment::LongHand(selectors) => {
                let opening = Opening::Bracket(start, *kind);
                write_selectors(f, tree, opening, selectors.as_slice())?;
                f.write_str("]")
            }
        },
        _ => unreachable!(),
    }
}

/// Writes an opening bracket and the selectors after it.
#[cycle(printing)]
#[tactic(auto, using(crate::proofs::Printing::of_parts))]
#[inline(always)]
fn write_selectors<W: Write>(
    f: &mut Formatter<W>,
    tree: &Checked,
    opening: Opening,
    selectors: &[Part],
) -> fmt::Result
    requires within { parts_bound selectors.now ≤ length (nodes_in tree.now) }
    requires are { AreOfKind is_selector (nodes_in tree.now) selectors.now }
    ensures { WritesOnOk W.write_str_gives f.old result
        (opening_text opening ++ joined (codes ", ")
        (map branch_text (branches_named (branches (nodes_in tree.now)) selectors.now))) f.new }
{
    let [first, others @ ..] = selectors else {
        return f.write_str(opening.text());
    };
    write_selector(f, tree, *first, opening)?;
    for selector in others {
        write_selector(f, tree, *selector, Opening::Comma)?;
    }
    Ok(())
}

/// Writes a selector after its opening.
#[cycle(printing)]
#[tactic(auto, using(crate::proofs::Printing::of_kinds))]
#[inline(always)]
fn write_selector<W: Write>(
    f: &mut Formatter<W>,
    tree: &Checked,
    selector: Part,
    opening: Opening,
) -> fmt::Result
    requires within { number_of selector < length (nodes_in tree.now) }
    requires kind { IsOfKind is_selector (nodes_in tree.now) selector }
    ensures { WritesOnOk W.write_str_gives f.old result
        (opening_text opening
        ++ branch_text (branch_at (nodes_in tree.now) (number_of selector))) f.new }
{
    match tree.node(selector) {
        Node::Selector(selector) => match selector {
            Selector::Name(name) => {
                f.write_str(opening.text())?;
                write!(f, "{}", Quoted(name.as_str()))
            }
            Selector::Wildcard => {
                f.write_str(opening.text())?;
                f.write_str("*")
            }
            Selector::Index(index) => {
                f.write_str(opening.text())?;
                write!(f, "{index}")
            }
            Selector::Slice(slice) => {
                f.write_str(opening.text())?;
                write!(f, "{slice}")
            }
            Selector::Filter(test) => {
                f.write_str(opening.text_with_filter())?;
                write_part(f, tree, *test)
            }
        },
        _ => unreachable!(),
    }
}

/// Writes a part of any kind.
#[cycle(printing)]
#[tactic(auto, using(crate::proofs::Printing::of_kinds))]
fn write_part<W: Write>(f: &mut Formatter<W>, tree: &Checked, part: Part) -> fmt::Result
    requires within { number_of part < length (nodes_in tree.now) }
    ensures { WritesOnOk W.write_str_gives f.old result
        (branch_text (branch_at (nodes_in tree.now) (number_of part))) f.new }
{
    match tree.node(part) {
        Node::Query { kind, segments } => write_path(f, tree, *kind, segments.as_slice()),
        Node::Segment { .. } => write_segment(f, tree, part, None),
        Node::Selector(_) => write_selector(f, tree, part, Opening::Nothing),
        Node::LogicalOr(parts) => write_joined(f, tree, parts.as_slice(), " || "),
        Node::LogicalAnd(parts) => write_joined(f, tree, parts.as_slice(), " && "),
        Node::Basic(basic) => write_basic(f, tree, basic),
        Node::Operand(operand) => write_operand(f, tree, operand),
        Node::Call {
            name,
            arguments,
            ..
        } => {
            f.write_str(name.as_str())?;
            f.write_str("(")?;
            write_joined(f, tree, arguments.as_slice(), ", ")?;
            f.write_str(")")
        }
    }
}

/// Writes parts, with a separator between each two.
#[cycle(printing)]
#[tactic(auto, using(crate::proofs::Printing::of_parts))]
#[inline(always)]
fn write_joined<W: Write>(
    f: &mut Formatter<W>,
    tree: &Checked,
    parts: &[Part],
    separator: &str,
) -> fmt::Result
    requires within { parts_bound parts.now ≤ length (nodes_in tree.now) }
    ensures { WritesOnOk W.write_str_gives f.old result
        (joined separator.now
        (map branch_text (branches_named (branches (nodes_in tree.now)) parts.now))) f.new }
{
    let [first, others @ ..] = parts else {
        return Ok(());
    };
    write_part(f, tree, *first)?;
    for part in others {
        f.write_str(separator)?;
        write_part(f, tree, *part)?;
    }
    Ok(())
}

/// Writes an operand of `&&`.
#[cycle(printing)]
#[tactic(auto, using(crate::proofs::Printing::of_kinds))]
#[inline(always)]
fn write_basic<W: Write>(f: &mut Formatter<W>, tree: &Checked, basic: &Basic) -> fmt::Result
    requires within { parts_bound (basic_parts basic.now) ≤ length (nodes_in tree.now) }
    requires fits { basic_fits (branches (nodes_in tree.now)) basic.now ≡ true }
    ensures { WritesOnOk W.write_str_gives f.old result
        (basic_text (basic_of (branches (nodes_in tree.now)) basic.now)) f.new }
{
    match basic {
        Basic::Paren { negated, inner } => {
            f.write_str(negation(*negated))?;
            f.write_str("(")?;
            write_part(f, tree, *inner)?;
            f.write_str(")")
        }
        Basic::Relation {
            left,
            operator,
            right,
        } => {
            write_part(f, tree, *left)?;
            f.write_str(operator.sign_in_blanks())?;
            write_part(f, tree, *right)
        }
        Basic::Test { negated, operand } => {
            f.write_str(negation(*negated))?;
            write_part(f, tree, *operand)
        }
    }
}

/// Writes an operand.
#[cycle(printing)]
#[tactic(auto, using(crate::proofs::Printing::of_kinds))]
#[inline(always)]
fn write_operand<W: Write>(f: &mut Formatter<W>, tree: &Checked, operand: &Operand) -> fmt::Result
    requires within { parts_bound (operand_parts operand.now) ≤ length (nodes_in tree.now) }
    requires fits { operand_fits (branches (nodes_in tree.now)) operand.now ≡ true }
    ensures { WritesOnOk W.write_str_gives f.old result
        (operand_text (operand_of (branches (nodes_in tree.now)) operand.now)) f.new }
{
    match operand {
        Operand::Literal(literal) => write_literal(f, literal),
        Operand::Query(query) => write_part(f, tree, *query),
        Operand::Call(call) => write_part(f, tree, *call),
    }
}
