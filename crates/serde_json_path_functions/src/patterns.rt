//! The patterns of `match` and `search` (RFC 9535, sections 2.4.6 and 2.4.7).

ghost use Rattle.std.specs.Prelude.{◌≡◌, IfOk, Err, IsTrue, option_map, string_bytes};
ghost use Rattle.regex.specs.Strings.{matcher_pattern, regex_pattern};
ghost use Rattle.serde_json_path_functions.specs.Patterns.{IsReadable, IsReadingOf};
ghost use Rattle.serde_json_path_functions.specs.Patterns as spec;
ghost use Rattle.serde_json_path_functions.specs.Terms.{matching_view};
ghost use Rattle.serde_json_path_functions.specs.declared.error.QueryError.TheVariants.{Pattern};

use crate::error::QueryError;
use regex::{Error, Matcher, Regex};
use std::alloc::{AllocError, Global};

/// What a pattern has to match.
#[derive(Clone, Copy, PartialEq, Eq)]
pub(crate) enum Matching {
    /// The whole text, as for `match`.
    WholeText,
    /// Some part of the text, as for `search`.
    AnyPart,
}

/// The text that `regex` reads: the pattern in a group, between `^` and `$` for `match`. Under its flag `R` a dot matches
/// neither a line feed nor a carriage return.
fn built_text(alloc: Global, matching: Matching, pattern: &str) -> Result<String, AllocError>
    ensures { IfOk result (λ text.
        string_bytes text ≡ spec.built_text (matching_view matching) pattern.now) }
{
    match matching {
        Matching::WholeText => format!(in alloc; "(?R)^({pattern})$"),
        Matching::AnyPart => format!(in alloc; "(?R)({pattern})"),
    }
}

/// What finds the patterns of `match` and `search` in texts.
pub(crate) trait FindsPatterns {
    /// Whether a text matches a pattern; false where `regex` cannot read the pattern, and `Pattern` only where it can.
    fn is_found(
        &self,
        alloc: Global,
        matching: Matching,
        pattern: &str,
        text: &str,
    ) -> Result<bool, QueryError>
        ensures means { IfOk result (λ found.
            found ≡ spec.is_found (spec.built_text (matching_view matching) pattern.now) text.now) }
        ensures refused { result ≡ Err Pattern
            → IsReadable (spec.built_text (matching_view matching) pattern.now) };
}

/// What `regex` reads in the text that is built of a pattern: `None` where it cannot read it, and `Pattern` only where it can.
#[tactic(auto, using(crate::proofs::RegexAgrees::of_patterns))]
fn regex_of(
    alloc: Global,
    matching: Matching,
    pattern: &str,
) -> Result<Option<Box<Regex>>, QueryError>
    ensures reading { IfOk result (λ regex.
        IsReadingOf (spec.built_text (matching_view matching) pattern.now)
        (option_map (λ it. regex_pattern it.value) regex)) }
    ensures refused { result ≡ Err Pattern
        → IsReadable (spec.built_text (matching_view matching) pattern.now) }
{
    let built = built_text(alloc, matching, pattern)?;
    match Regex::new(alloc, built.as_str()) {
        Ok(regex) => Ok(Some(Box::new(alloc, regex)?)),
        Err(error) => match error {
            Error::Syntax(_) => Ok(None),
            Error::OutOfMemory => Err(QueryError::Memory),
            Error::CompiledTooBig | Error::Internal => Err(QueryError::Pattern),
        },
    }
}

/// A pattern, and what `regex` reads of it.
#[derive(Drop)]
pub(crate) struct ReadPattern {
    matching: Matching,
    pattern: String,
    regex: Option<Box<Regex>>,
    ghost reading: { IsReadingOf (spec.built_text (matching_view matching) (string_bytes pattern))
        (option_map (λ it. regex_pattern it.value) regex) },
}

impl ReadPattern {
    ghost use Rattle.serde_json_path_functions.specs.Kept.{IsOf, built_of};

    /// Reads a pattern. The error is `Pattern` only where `regex` can read it.
    #[inline(never)]
    pub(crate) fn new(
        alloc: Global,
        matching: Matching,
        pattern: &str,
    ) -> Result<ReadPattern, QueryError>
        ensures of { IfOk result (IsOf (matching_view matching) pattern.now) }
        ensures refused { result ≡ Err Pattern
            → IsReadable (spec.built_text (matching_view matching) pattern.now) }
    {
        let regex = regex_of(alloc, matching, pattern)?;
        Ok(ReadPattern {
            matching,
            pattern: String::from_str(alloc, pattern)?,
            regex,
        })
    }

    /// Whether a text matches the pattern, by a matcher that is made for it.
    #[inline(never)]
    pub(crate) fn is_found(&self, alloc: Global, text: &str) -> Result<bool, AllocError>
        ensures { IfOk result (λ found. found ≡ spec.is_found (built_of self.now) text.now) }
    {
        match &self.regex {
            Some(regex) => Ok(regex.matcher(alloc)?.is_match(text)),
            None => Ok(false),
        }
    }

    /// Whether this is the pattern that was read.
    pub(crate) fn is_of(&self, matching: Matching, pattern: &str) -> bool
        ensures { IsTrue result → IsOf (matching_view matching) pattern.now self.now }
    {
        self.matching == matching && self.pattern.as_str() == pattern
    }
}

/// A pattern, and a matcher of its own, which grows as it is used.
#[derive(Drop)]
pub(crate) struct PatternMatcher<'p> {
    pub(crate) pattern: &'p ReadPattern,
    matcher: Option<Matcher<'p>>,
    ghost reading: { IsReadingOf
        (spec.built_text (matching_view pattern.now.matching) (string_bytes pattern.now.pattern))
        (option_map matcher_pattern matcher) },
}

impl<'p> PatternMatcher<'p> {
    ghost use Rattle.serde_json_path_functions.specs.Kept.{built_of};

    /// The matcher of a pattern.
    pub(crate) fn new(
        alloc: Global,
        pattern: &'p ReadPattern,
    ) -> Result<PatternMatcher<'p>, AllocError>
        ensures { IfOk result (λ made. made.pattern.now ≡ pattern.now) }
    {
        let matcher = match &pattern.regex {
            Some(regex) => Some(regex.matcher(alloc)?),
            None => None,
        };
        Ok(PatternMatcher { pattern, matcher })
    }

    /// Whether a text matches the pattern.
    pub(crate) fn is_found(&mut self, text: &str) -> bool
        ensures found { result ≡ spec.is_found (built_of self.old.pattern.now) text.now }
        ensures same { self.new.pattern.now ≡ self.old.pattern.now }
    {
        match &mut self.matcher {
            Some(matcher) => matcher.is_match(text),
            None => false,
        }
    }
}
