//! Nodes that are written as a walk gives them.

ghost use Rattle.std.specs.Prelude.{◌≡◌, [], ◌∷◌, IfErr, IfOk, OnOk, drop, map};
ghost use Rattle.serde_json_path_nodes.specs.Views.{located};
ghost use Rattle.serde_json_path_core.specs.Selects.{OnlyMemoryOrPattern};
ghost use Rattle.serde_json_path_core.specs.Walks.{document_of, query_of, rest, set_of};
ghost use Rattle.jsonpath_lines.specs.Inside.{is_reached};
ghost use Rattle.jpq_program.specs.Inside.{BeginsFirst, BeginsNodes, FilledNodes, OnlyPends, PendsNode, TookFirst, TookNodes, WritesNode};

use crate::inexact::may_be_inexact;
use crate::showing::Showing;
use crate::streams::{Stop, Streams};
use jsonpath_lines::Form;
use serde_json_path::functions::CachedPatterns;
use serde_json_path::{LocatedNode, QueryError, Walk};
use std::alloc::{AllocError, Global};
use std::io::Write;

/// The nodes of a path as they are written.
#[derive(Drop)]
pub(crate) struct Written<'v, 'p, 's, 'h, W, E> {
    pub(crate) showing: &'v Showing<'p>,
    pub(crate) streams: &'s mut Streams<W, E>,
    /// What each line, or the members of each object, begin with.
    pub(crate) head: &'h str,
    /// Whether a node of an earlier path was written in the same array.
    pub(crate) is_later: bool,
    pub(crate) limit: Option<u64>,
    /// How many nodes were written.
    pub(crate) count: u64,
    /// Why writing ended.
    pub(crate) stop: Option<Stop>,
}

impl<W: Write, E: Write> Written<'_, '_, '_, '_, W, E> {
    /// Appends what is shown of a node to what is pending.
    #[inline(always)]
    fn push_pending(&mut self, node: &LocatedNode<'_>) -> Result<(), AllocError>
        ensures kept { OnlyPends self.old self.new }
        ensures node { OnOk result (PendsNode (located node.now) self.old self.new) }
    {
        let is_later = self.is_later || self.count > 0;
        let text = &mut self.streams.pending;
        if self.showing.output.form == Form::Json {
            return self.showing.push_object(text, self.head, is_later, node);
        }
        self.showing.push_line(text, self.head, node)
    }

    /// Whether as many nodes were written as are wanted.
    pub(crate) fn is_reached(&self) -> bool
        ensures { result ≡ is_reached self.now.limit self.now.count }
    {
        match self.limit {
            Some(limit) => limit <= self.count,
            None => false,
        }
    }

    /// Takes a node. Says whether more are wanted.
    #[inline(always)]
    pub(crate) fn take_node(&mut self, node: &LocatedNode<'_>) -> Result<bool, QueryError>
        ensures taken { IfOk result (λ more.
            WritesNode W.contents (located node.now) more self.old self.new) }
        ensures begun { IfOk result (λ _.
            BeginsNodes W.contents (located node.now ∷ []) self.old self.new) }
        ensures unwritten { IfErr result (λ _. BeginsNodes W.contents [] self.old self.new) }
        ensures refused { IfErr result (λ e. e ≡ QueryError.Memory) }
    {
        self.push_pending(node)?;
        self.streams.may_be_inexact |= may_be_inexact(node.node());
        // A walk that gave one node in each nanosecond would take 584 years to come to the error.
        self.count = self.count.checked_add(1).ok_or(QueryError::Memory)?;
        if let Err(stop) = self.streams.write_if_full() {
            self.stop = Some(stop);
            return Ok(false);
        }
        Ok(!self.is_reached())
    }

    /// Takes the nodes that remain of a walk, as many as are wanted, and goes no further. Where the query is refused, those before
    /// are written.
    pub(crate) fn take_rest(
        &mut self,
        alloc: Global,
        walk: &mut Walk<'_, '_, &CachedPatterns<'_>>,
    ) -> Result<(), QueryError>
        requires { TookNodes W.contents self.old [] self.old }
        ensures filled { IfOk result (λ _.
            FilledNodes W.contents self.old (rest walk.old) self.new) }
        ensures stands { IfOk result (λ _. self.old.count ≡ 0
            → rest walk.new ≡ drop self.new.count (rest walk.old)) }
        ensures before { IfErr result (λ e. e ≡ QueryError.Pattern →
            TookFirst W.contents self.old (rest walk.old) self.new) }
        ensures begun { BeginsFirst W.contents self.old (rest walk.old) self.new }
        ensures refused { OnlyMemoryOrPattern (set_of walk.old) (query_of walk.old)
            (document_of walk.old) result }
    {
        let mut steps = Vec::new(alloc);
        'nodes: while let Some(node) = walk.next_into(steps)? {
            if !self.take_node(&node)? {
                return Ok(());
            }
            steps = node.into_steps();
        }
        Ok(())
    }

    /// Takes some nodes, as many as are wanted.
    pub(crate) fn take_each(&mut self, nodes: &[LocatedNode<'_>]) -> Result<(), QueryError>
        requires { TookNodes W.contents self.old [] self.old }
        ensures filled { IfOk result (λ _.
            FilledNodes W.contents self.old (map located nodes.now) self.new) }
        ensures begun { BeginsFirst W.contents self.old (map located nodes.now) self.new }
        ensures refused { IfErr result (λ e. e ≡ QueryError.Memory) }
    {
        for node in nodes {
            if !self.take_node(node)? {
                return Ok(());
            }
        }
        Ok(())
    }
}
