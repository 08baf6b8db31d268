//! Texts that open a query, a segment or a selector, each for one write.

ghost use Rattle.std.specs.Prelude.{◌≡◌, ◌++◌, codes, option_map};
ghost use Rattle.serde_json_path_syntax.specs.Words.{query_kind_view, segment_kind_view, opening_text, dots_of, negation_text, query_kind_text, sign_text};

use crate::node::{QueryKind, SegmentKind};

/// The sign of where a query begins.
pub(crate) fn sign(kind: QueryKind) -> &'static str
    ensures { result.now ≡ query_kind_text (query_kind_view kind) }
{
    match kind {
        QueryKind::Root => "$",
        QueryKind::Current => "@",
    }
}

/// What is before a parenthesis or a test.
pub(crate) fn negation(negated: bool) -> &'static str
    ensures { result.now ≡ negation_text negated }
{
    if negated { "!" } else { "" }
}

/// What is before a name or `*`, after the sign of the query that begins with it.
pub(crate) fn dots(start: Option<QueryKind>, kind: SegmentKind) -> &'static str
    ensures { result.now
        ≡ sign_text (option_map query_kind_view start) ++ dots_of (segment_kind_view kind) }
{
    match (start, kind) {
        (None, SegmentKind::Child) => ".",
        (None, SegmentKind::Descendant) => "..",
        (Some(QueryKind::Root), SegmentKind::Child) => "$.",
        (Some(QueryKind::Root), SegmentKind::Descendant) => "$..",
        (Some(QueryKind::Current), SegmentKind::Child) => "@.",
        (Some(QueryKind::Current), SegmentKind::Descendant) => "@..",
    }
}

/// What is before a selector in brackets.
#[derive(Clone, Copy)]
pub(crate) enum Opening {
    /// A bracket with what is before it, after the sign of the query that begins with it.
    Bracket(Option<QueryKind>, SegmentKind),
    /// A comma.
    Comma,
    /// Nothing.
    Nothing,
}

impl Opening {
    /// The opening as text.
    pub(crate) fn text(self) -> &'static str
        ensures { result.now ≡ opening_text self }
    {
        match self {
            Opening::Bracket(None, SegmentKind::Child) => "[",
            Opening::Bracket(None, SegmentKind::Descendant) => "..[",
            Opening::Bracket(Some(QueryKind::Root), SegmentKind::Child) => "$[",
            Opening::Bracket(Some(QueryKind::Root), SegmentKind::Descendant) => "$..[",
            Opening::Bracket(Some(QueryKind::Current), SegmentKind::Child) => "@[",
            Opening::Bracket(Some(QueryKind::Current), SegmentKind::Descendant) => "@..[",
            Opening::Comma => ", ",
            Opening::Nothing => "",
        }
    }

    /// The opening with the question mark of a filter.
    pub(crate) fn text_with_filter(self) -> &'static str
        ensures { result.now ≡ opening_text self ++ codes "?" }
    {
        match self {
            Opening::Bracket(None, SegmentKind::Child) => "[?",
            Opening::Bracket(None, SegmentKind::Descendant) => "..[?",
            Opening::Bracket(Some(QueryKind::Root), SegmentKind::Child) => "$[?",
            Opening::Bracket(Some(QueryKind::Root), SegmentKind::Descendant) => "$..[?",
            Opening::Bracket(Some(QueryKind::Current), SegmentKind::Child) => "@[?",
            Opening::Bracket(Some(QueryKind::Current), SegmentKind::Descendant) => "@..[?",
            Opening::Comma => ", ?",
            Opening::Nothing => "?",
        }
    }
}
