//! What some queries ask of a document.

ghost use Rattle.std.specs.Prelude.{◌≡◌, ◌<◌, ◌%◌};

use crate::bits::{PLACE, WHOLE, is_whole, meets};
use crate::row::{Row, children_of};
use serde_json_path_core::{Checked, Part, PathElement, QueryKind, SegmentKind};
use serde_json_path_syntax::{Basic, Node, Operand, Segment, Selector};
use std::alloc::{AllocError, Global};

/// A row for each segment of each query, and of the queries in their filters, and the bits of what is pending at the root.
#[derive(Drop)]
pub(crate) struct Plan<'q> {
    pub(crate) rows: Vec<Row<'q>>,
    pub(crate) at_root: u64,
    /// The bit that was given last.
    last: u64,
    ghost given: { 0 < last },
    ghost apart: { last % 4 ≡ 0 },
}

impl<'q> Plan<'q> {
    ghost use Rattle.std.specs.Prelude.{◌≤◌, ℕ, length, false, IfOk, OnOk};
    ghost use Rattle.serde_json_path_nodes.specs.Views.{step_view};
    ghost use Rattle.serde_json_path_syntax.specs.Words.{AreOfKind, IsOfKind, branch_at, branches, branches_named, is_segment, nodes_in, number_of, parts_bound, segment_at, segments_at, segments_of, tree_of};
    ghost use Rattle.serde_json_path_reach.specs.Alike.{trees_of};
    ghost use Rattle.serde_json_path_reach.specs.Inside.Queries.{queries_in_branch, queries_in_branches, queries_in_segments};
    ghost use Rattle.serde_json_path_reach.specs.Inside.Bits.{meets};
    ghost use Rattle.serde_json_path_reach.specs.Inside.Rows.{AddsRow, AreRight, AsksAll, Gains, Includes, Leads, segment_kind_at};

    /// The plan of some queries. `places` says whether the places of their nodes are enough.
    pub(crate) fn of(
        alloc: Global,
        paths: &[&'q Checked],
        places: bool,
    ) -> Result<Plan<'q>, AllocError>
        ensures right { IfOk result (λ plan. AreRight plan.rows.items) }
        ensures asks { IfOk result (λ plan. AsksAll plan places (trees_of paths.now)) }
    {
        let mut plan = Plan {
            rows: Vec::new(alloc),
            at_root: 0,
            last: PLACE * 2,
        };
        for path in paths {
            plan.add_path(path, places)?;
        }
        Ok(plan)
    }

    /// Adds rows for the query of a path, which is pending at the root.
    fn add_path(&mut self, path: &'q Checked, places: bool) -> Result<(), AllocError>
        ensures inside { OnOk result ((asked : ℕ) × Gains self.old self.new asked
            (queries_in_segments (segments_of (tree_of path.now)))) }
        ensures itself { OnOk result (Includes self.new.rows.items self.new.at_root places
            (segments_of (tree_of path.now))) }
    {
        let (first, _) = self.add_segments(path, path.segments(), places)?;
        self.at_root |= first;
        Ok(())
    }

    /// What is pending after the step.
    #[inline(always)]
    pub(crate) fn after(&self, pending: u64, step: PathElement<'_>) -> u64
        ensures { Leads self.now.rows.items (step_view step.entry) pending result }
    {
        if is_whole(pending) {
            return WHOLE;
        }
        let mut after = 0;
        for row in self.rows.as_slice() {
            if meets(pending, row.bit) {
                after |= row.onward(step);
            }
        }
        after
    }

    /// A bit that no row has yet, or, where all are given, the last of them.
    fn fresh(&mut self) -> u64
        ensures some { 0 < result }
        ensures apart { meets 2 result ≡ false }
        ensures rows { self.new.rows ≡ self.old.rows }
        ensures root { self.new.at_root ≡ self.old.at_root }
    {
        if self.last < 1 << 63 {
            self.last *= 2;
        }
        self.last
    }

    /// Adds a row for a segment, given what is pending after it. Gives what is pending where the segment is.
    fn add_row(
        &mut self,
        query: &'q Checked,
        segment: Part,
        rest: &'q [Part],
        places: bool,
        next: u64,
    ) -> Result<u64, AllocError>
        requires within { number_of segment < length (nodes_in query.now) }
        requires kind { IsOfKind is_segment (nodes_in query.now) segment }
        ensures { IfOk result (λ bit. AddsRow self.old self.new
            (segment_kind_at (nodes_in query.now) segment) (segment_at (nodes_in query.now) segment)
            (segments_at (nodes_in query.now) rest.now) places next bit) }
    {
        let bit = self.fresh();
        let again = match query.segment_kind(segment) {
            SegmentKind::Child => 0,
            SegmentKind::Descendant => bit,
        };
        self.rows.push(Row {
            query,
            segment,
            rest,
            children: children_of(query, segment),
            places,
            bit,
            again,
            next,
        })?;
        Ok(bit)
    }

    /// Adds a row for each of the segments. Gives what is pending where they begin, and what is pending where their filters
    /// are asked. `places` says whether places are enough of what they end at.
    #[cycle(plan)]
    fn add_segments(
        &mut self,
        query: &'q Checked,
        segments: &'q [Part],
        places: bool,
    ) -> Result<(u64, u64), AllocError>
        requires within { parts_bound segments.now ≤ length (nodes_in query.now) }
        requires are { AreOfKind is_segment (nodes_in query.now) segments.now }
        ensures gains { IfOk result (λ pending. Gains self.old self.new pending.1
            (queries_in_segments (segments_at (nodes_in query.now) segments.now))) }
        ensures first { IfOk result (λ pending. Includes self.new.rows.items pending.0 places
            (segments_at (nodes_in query.now) segments.now)) }
    {
        let mut first = if places { PLACE } else { WHOLE };
        let mut asked = 0;
        let mut number = segments.len();
        'segments: while 0 < number {
            number -= 1;
            let segment = segments[number];
            let here = self.add(query, segment)?;
            let rest = &segments[number + 1..];
            first = self.add_row(query, segment, rest, places, first | here)?;
            asked |= here;
        }
        Ok((first, asked))
    }

    /// Adds rows for the queries in each of the parts.
    #[cycle(plan)]
    fn add_all(&mut self, query: &'q Checked, parts: &'q [Part]) -> Result<u64, AllocError>
        requires { parts_bound parts.now ≤ length (nodes_in query.now) }
        ensures { IfOk result (λ asked. Gains self.old self.new asked
            (queries_in_branches (branches_named (branches (nodes_in query.now)) parts.now))) }
    {
        let mut asked = 0;
        for part in parts {
            asked |= self.add(query, *part)?;
        }
        Ok(asked)
    }

    /// Adds rows for the queries in the part. Gives what is pending where the part is asked: those by `@`.
    #[cycle(plan)]
    fn add(&mut self, query: &'q Checked, part: Part) -> Result<u64, AllocError>
        requires { number_of part < length (nodes_in query.now) }
        ensures { IfOk result (λ asked. Gains self.old self.new asked
            (queries_in_branch (branch_at (nodes_in query.now) (number_of part)))) }
    {
        match query.node(part) {
            Node::Query { kind, segments } => {
                let (first, asked) = self.add_segments(query, segments.as_slice(), false)?;
                match kind {
                    QueryKind::Root => {
                        self.at_root |= first;
                        Ok(asked)
                    }
                    QueryKind::Current => Ok(first | asked),
                }
            }
            Node::Segment { segment, .. } => match segment {
                Segment::LongHand(selectors) => self.add_all(query, selectors.as_slice()),
                Segment::DotName(_) | Segment::DotWildcard => Ok(0),
            },
            Node::Selector(selector) => match selector {
                Selector::Filter(test) => self.add(query, *test),
                Selector::Name(_) | Selector::Wildcard => Ok(0),
                Selector::Index(_) | Selector::Slice(_) => Ok(0),
            },
            Node::LogicalOr(parts) => self.add_all(query, parts.as_slice()),
            Node::LogicalAnd(parts) => self.add_all(query, parts.as_slice()),
            Node::Basic(basic) => match basic {
                Basic::Paren { inner, .. } => self.add(query, *inner),
                Basic::Relation { left, right, .. } => {
                    let asked = self.add(query, *left)?;
                    Ok(asked | self.add(query, *right)?)
                }
                Basic::Test { operand, .. } => self.add(query, *operand),
            },
            Node::Operand(operand) => match operand {
                Operand::Literal(_) => Ok(0),
                Operand::Query(part) => self.add(query, *part),
                Operand::Call(part) => self.add(query, *part),
            },
            Node::Call { arguments, .. } => self.add_all(query, arguments.as_slice()),
        }
    }
}
