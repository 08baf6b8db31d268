//! Parsing a path, from left to right.

mod call;
mod decode;
mod logical;
mod operand;
pub(crate) mod primitive;
mod query;
pub(crate) mod reader;
mod segment;
mod selector;
mod slice;
mod stretch;

ghost use Rattle.std.specs.Prelude.{◌≡◌, ◌+◌, ◌-◌, ◌*◌, ◌<◌, ◌≤◌, max, true, length, IfOk, IfErr};
ghost use Rattle.serde_json_path_syntax.specs.Parts.{signatures_of};
ghost use Rattle.serde_json_path_functions.specs.Functions.{Fits};
ghost use Rattle.serde_json_path_functions.specs.Terms.{numbers_view};
ghost use Rattle.serde_json_path_parser.specs.Source.{greatest_usize};
ghost use Rattle.serde_json_path_parser.specs.Errors.{kind_of, position_of, is_seen_at_next};
ghost use Rattle.serde_json_path_parser.specs.Parse.{IsParseOf, checked_view};
ghost use Rattle.serde_json_path_parser.specs.Reported.{ReportsFirst};

use crate::error::{Failure, ParseError};
use crate::parser::query::parse_path;
use crate::parser::reader::Reader;
use crate::source::PathSource;
use serde_json_path_functions::{Functions, Numbers};
use serde_json_path_syntax::Checked;
use std::alloc::Global;

/// Parses the path that a source holds, from left to right, looking at the text only through `byte`.
///
/// Filters may call only functions of this set, and the query fits it. By `Numbers::Whole` a number literal has no exponent
/// and at most nine digits of a fraction, and an argument that is a number has no fraction. By `Numbers::All` any number
/// literal is read, up to the greatest double, and any may be an argument (RFC 9535, sections 2.3.5.1 and 2.4.3). The query's
/// comparisons take numbers by the same rule. A text of n bytes is looked at no more than
/// 32(n + 1) times. Where a root, a name, a selector or a closing bracket is missing, the parser looks at most one byte
/// past the one that does not fit.
///
/// An error says why and where ([`ParseError`]). Any error other than `NoMemory` means that the text is not a path. A text
/// of `usize::MAX` bytes, whose end would have no position, is refused as `NoMemory` before any look.
///
/// ```text
/// let mut source = TextSource::new("$..book[-1:].title");
/// let checked = parse(alloc, &mut source, &Builtin, Numbers::Whole)?;
/// ```
#[tactic(auto, using(crate::proofs::Grammar::Paths::of_parses))]
pub fn parse<S: PathSource, F: Functions>(
    alloc: Global,
    source: &mut S,
    functions: &F,
    numbers: Numbers,
) -> Result<Checked, ParseError>
    ensures parse { IsParseOf checked_view (numbers_view numbers) (F.set functions.now).signature
        (S.observed source.old).text result }
    ensures reported { ReportsFirst checked_view (numbers_view numbers)
        (F.set functions.now).signature (S.observed source.old).text result }
    // The signatures that the query keeps are those of the set.
    ensures fits { IfOk result (λ checked. Fits (F.set functions.now) (signatures_of checked)) }
    // The source's text is unchanged.
    ensures same_text { (S.observed source.new).text ≡ (S.observed source.old).text }
    // However the parse ends, there are at most 32(n + 1) further looks at n bytes.
    ensures looks { (S.observed source.new).looks
        ≤ (S.observed source.old).looks + 32 * (length (S.observed source.old).text + 1) }
    // For four kinds of refusal, nothing past the byte after the position was looked at.
    ensures farthest { IfErr result (λ e. is_seen_at_next (kind_of e) ≡ true
        → (S.observed source.new).farthest
        ≤ max (S.observed source.old).farthest (position_of e + 1)) }
    ensures unseen { length (S.observed source.old).text ≡ greatest_usize
        → S.observed source.new ≡ S.observed source.old }
{
    if source.len() == usize::MAX {
        return Err(Failure::Memory.in_text(0));
    }
    let mut reader = Reader::new(source);
    let read = parse_path(alloc, &mut reader, functions, numbers);
    let total = reader.len();
    reader.close();
    match read {
        Ok(checked) => Ok(checked),
        Err(stop) => Err(stop.in_text(total)),
    }
}

/// How many filters, parentheses and calls may be nested.
pub(crate) const DEEPEST: u8 = 128;

/// Parses pieces of a path, at one level of nesting.
#[derive(Drop)]
pub(crate) struct Parser<'f, F: Functions> {
    pub(crate) alloc: Global,
    /// The functions that may be called.
    pub(crate) functions: &'f F,
    /// Which numbers may be arguments.
    pub(crate) numbers: Numbers,
    /// How many more filters, parentheses and calls may be nested here.
    pub(crate) depth: u8,
}

impl<'f, F: Functions> Parser<'f, F> {
    /// The parser inside another filter, parenthesis or call.
    pub(crate) fn deeper(&self) -> Parser<'f, F>
        requires { 0 < self.now.depth }
        ensures functions { result.functions.now ≡ self.now.functions.now }
        ensures numbers { result.numbers ≡ self.now.numbers }
        ensures depth { result.depth ≡ self.now.depth - 1 }
    {
        Parser {
            alloc: self.alloc,
            functions: self.functions,
            numbers: self.numbers,
            depth: self.depth - 1,
        }
    }
}
