//! Walks, which give one node per call.

ghost use Rattle.serde_json.specs.View.{view};
ghost use Rattle.serde_json_path_core.specs.Inside.Rest.{IsStack};
ghost use Rattle.serde_json_path_core.specs.Inside.Views.{frames_view};

use crate::evaluation::frame::Frame;
use crate::evaluation::scope::Scope;
use crate::evaluation::sink::{Sink, Taken};
use crate::evaluation::stack::{find_next, located_at, pass_node};
use serde_json_path_functions::{Functions, QueryError};
use serde_json_path_nodes::{LocatedNode, LocatedNodeList, PathElement};

/// The nodes that a query selects, one at a time, in order.
///
/// A walk keeps no list of nodes, only one frame per level of the document that it is in. If a call of [`Walk::next`]
/// fails, the remaining nodes stay as they were.
#[derive(Drop)]
pub struct Walk<'q, 'b, F: Functions> {
    pub(crate) scope: Scope<'q, 'b, F>,
    pub(crate) frames: Vec<Frame<'b>>,
    ghost stack: { ∥ IsStack (view scope.root.now) (frames_view frames.items) ∥₁ },
}

impl<'q, 'b, F: Functions> Walk<'q, 'b, F> {
    ghost use Rattle.std.specs.Prelude.{◌≡◌, ℕ, ◌+◌, ◌<◌, ◌≤◌, [], ◌∷◌, None, Ok, IfOk, IfErr, IfSome, IfNone, MatchOption};
    ghost use Rattle.serde_json_path_core.specs.Inside.Words.{located, IsHeight, OnlyMemoryOrPattern, document_of, rest, places_of, steps_of};
    ghost use Rattle.serde_json_path_core.specs.Walks.{query_of, set_of};

    /// How many frames the walk's stack has: at most the document's height plus one. With none, no node remains.
    ///
    /// This bounds one query's stack between calls. Each query in a filter or in a call's argument that is being worked
    /// on has a stack of its own, with the same bound, and at most 128 filters, parentheses and calls are within each
    /// other. No clause adds these stacks up.
    pub fn places(&self) -> usize
        ensures count { result ≡ places_of self.now }
        ensures within { (height : ℕ) → IsHeight (document_of self.now) height
            → result ≤ height + 1 }
        ensures empty { result ≡ 0 → rest self.now ≡ [] }
    {
        self.frames.len()
    }

    /// The next node with its location, or `None` after the last one. Once [`Walk::places`] is 0, each call gives `None`,
    /// and none is refused.
    ///
    /// A refusal leaves the remaining nodes as they were, so the walk goes on with the next call. The error is `Pattern` only
    /// if some call of `match` or `search`, under whatever name, has a pattern that `regex` reads (`specs/PatternCalls`);
    /// otherwise it is `Memory`.
    pub fn next(&mut self) -> Result<Option<LocatedNode<'b>>, QueryError>
        ensures query { query_of self.new ≡ query_of self.old }
        ensures set { set_of self.new ≡ set_of self.old }
        ensures document { document_of self.new ≡ document_of self.old }
        ensures given { IfOk result (λ next. MatchOption next
            ((rest self.old ≡ []) × (rest self.new ≡ []))
            (λ node. rest self.old ≡ located node ∷ rest self.new)) }
        ensures ended { IfOk result (λ next. IfNone next (places_of self.new ≡ 0)) }
        ensures after_end { places_of self.old ≡ 0 → result ≡ Ok None }
        // Only that the number falls matters, whatever it counts: so a walk that is not refused ends.
        ensures nearer { IfOk result (λ next.
            IfSome next (λ node. steps_of self.new < steps_of self.old)) }
        ensures unchanged { IfErr result (λ e. rest self.new ≡ rest self.old) }
        ensures refused { OnlyMemoryOrPattern (set_of self.old) (query_of self.old)
            (document_of self.old) result }
    {
        let steps = Vec::new(self.scope.alloc);
        self.next_into(steps)
    }

    /// The next node, as [`Walk::next`] gives it. Its location overwrites the steps that are handed in and uses their memory; with
    /// `None` or an error that memory is given up. A loop that hands in the steps of the node before takes memory only where a
    /// location is longer than all before it:
    ///
    /// ```text
    /// let mut steps = Vec::new(alloc);
    /// while let Some(node) = walk.next_into(steps)? {
    ///     println!(rt; "{}", node.location())?;
    ///     steps = node.into_steps();
    /// }
    /// ```
    #[inline(always)]
    pub fn next_into(
        &mut self,
        steps: Vec<PathElement<'b>>,
    ) -> Result<Option<LocatedNode<'b>>, QueryError>
        ensures query { query_of self.new ≡ query_of self.old }
        ensures set { set_of self.new ≡ set_of self.old }
        ensures document { document_of self.new ≡ document_of self.old }
        ensures given { IfOk result (λ next. MatchOption next
            ((rest self.old ≡ []) × (rest self.new ≡ []))
            (λ node. rest self.old ≡ located node ∷ rest self.new)) }
        ensures ended { IfOk result (λ next. IfNone next (places_of self.new ≡ 0)) }
        ensures after_end { places_of self.old ≡ 0 → result ≡ Ok None }
        ensures nearer { IfOk result (λ next.
            IfSome next (λ node. steps_of self.new < steps_of self.old)) }
        ensures unchanged { IfErr result (λ e. rest self.new ≡ rest self.old) }
        ensures refused { OnlyMemoryOrPattern (set_of self.old) (query_of self.old)
            (document_of self.old) result }
    {
        let scope = &self.scope;
        let segments = scope.query.segments();
        match find_next(scope, segments, &mut self.frames)? {
            None => Ok(None),
            Some(found) => {
                let node = located_at(steps, self.frames.as_slice(), found)?;
                pass_node(&mut self.frames, found);
                Ok(Some(node))
            }
        }
    }
}

impl<'b, F: Functions + Drop> Walk<'_, 'b, F> {
    ghost use Rattle.std.specs.Prelude.{◌≡◌, [], Ok, false, true, IfOk};
    ghost use Rattle.serde_json_path_core.specs.Inside.Words.{located_nodes, OnlyMemoryOrPattern, document_of, rest};
    ghost use Rattle.serde_json_path_core.specs.Walks.{query_of, set_of};

    /// Gives the nodes that remain to a sink, one after the other, until it has enough. Says whether it took all.
    ///
    /// The error is of memory or, as that of [`Walk::next`], `Pattern`. No clause says what the sink has then.
    ///
    /// ```text
    /// let mut nodes = Vec::new(alloc);
    /// walk.feed(&mut nodes)? == true, and `nodes` has all nodes
    /// ```
    pub fn feed<S: Sink<'b>>(mut self, sink: &mut S) -> Result<bool, QueryError>
        requires { S.took sink.old [] sink.old }
        ensures all { result ≡ Ok true → S.took sink.old (rest self.entry) sink.new }
        ensures enough { result ≡ Ok false → S.filled sink.old (rest self.entry) sink.new }
        ensures refused { OnlyMemoryOrPattern (set_of self.entry) (query_of self.entry)
            (document_of self.entry) result }
    {
        let mut steps = Vec::new(self.scope.alloc);
        'nodes: while let Some(node) = self.next_into(steps)? {
            match sink.take(node)? {
                Taken::More(left) => steps = left,
                Taken::Enough => return Ok(false),
            }
        }
        Ok(true)
    }

    /// The nodes that remain, as a list. Errors come as those of [`Walk::next`].
    ///
    /// ```text
    /// let nodes = path.walk(alloc, &document, &Builtin)?.collect()?;
    /// ```
    pub fn collect(self) -> Result<LocatedNodeList<'b>, QueryError>
        ensures nodes { IfOk result (λ nodes. located_nodes nodes ≡ rest self.entry) }
        ensures refused { OnlyMemoryOrPattern (set_of self.entry) (query_of self.entry)
            (document_of self.entry) result }
    {
        let mut nodes = Vec::new(self.scope.alloc);
        self.feed(&mut nodes)?;
        Ok(LocatedNodeList::from(nodes))
    }
}
