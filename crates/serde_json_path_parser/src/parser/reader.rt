//! A text that is read character by character, and each byte looked at once.

ghost use Rattle.std.specs.Prelude.{◌≡◌, ◌<◌, ◌≤◌, ◌+◌, length, slice_get, drop, true};
ghost use Rattle.std.specs.Str.{is_utf8};
ghost use Rattle.serde_json_path_parser.specs.Inside.Looking.{limit_of, IsSecond};
ghost use Rattle.serde_json_path_parser.specs.Source.{greatest_usize};

use crate::error::{Context, Failure, ParseErrorKind, Refusal};
use crate::parser::decode::{byte_at, byte_below, wide_character_at};
use crate::parser::stretch::{Class, NameChars, push_stretch};
use crate::source::PathSource;
use std::alloc::AllocError;

/// A text with one byte of look-ahead, and a second one where the next byte may begin a sign of two. A character is
/// decoded only when it is taken, so that no further byte is looked at.
pub(crate) struct Reader<'s, S: PathSource> {
    pub(crate) source: &'s mut S,
    index: usize,
    next: Option<u8>,
    /// The byte after the next one, where it was looked at.
    second: Option<Option<u8>>,
    /// Below this index a byte may be looked at: the text's length, or 0 while `second` is known.
    limit: usize,
    ghost short: { length (S.observed source.now).text < greatest_usize },
    ghost within: { index ≤ length (S.observed source.now).text },
    ghost utf8: { is_utf8 (drop index (S.observed source.now).text) ≡ true },
    ghost next_is: { next ≡ slice_get (S.observed source.now).text index },
    ghost second_is: { IsSecond second next (slice_get (S.observed source.now).text (index + 1)) },
    ghost limit_is: { limit ≡ limit_of second (length (S.observed source.now).text) },
}

impl<'s, S: PathSource> Reader<'s, S> {
    ghost use Rattle.std.specs.Prelude.{◌==◌, ◌-◌, ◌∷◌, ◌++◌};
    ghost use Rattle.serde_json_path_parser.specs.Inside.Words.{ℕ, max, None, Some, IfOk, IsTrue, is_ok, string_bytes, chars, IsScalar, Stretched, begins_operator, is_ascii, IsAhead, begins, begins_both, is_blank, is_digit, is_name_first, is_name_char, begins_test, is_small_letter, is_function_char, front, past, is_exponent, is_sign, is_hexadecimal, is_letter_escape, is_control, is_inside, encode_utf8_all, byte_count, refusal, past_blanks, is_first_digit, begins_int, opens, ◌∈◌, observed, left, seen, Moves, StopsNear, ends_argument};

    /// A reader at the start of a text.
    #[tactic(auto, using(crate::proofs::Texts::of_bytes))]
    pub(crate) fn new(source: &'s mut S) -> Reader<'s, S>
        requires { length (S.observed source.old).text < greatest_usize }
        ensures same_source { result.source.ghost_name ≡ source.entry.ghost_name }
        ensures same_text { (observed result).text ≡ (S.observed source.old).text }
        ensures left { left result ≡ chars (S.observed source.old).text }
        ensures looks { (observed result).looks ≤ (S.observed source.old).looks + seen result }
        ensures farthest { (observed result).farthest
            ≤ max (S.observed source.old).farthest (seen result) }
    {
        let limit = source.len();
        let next = byte_at(source, 0);
        Reader {
            source,
            index: 0,
            next,
            second: None,
            limit,
        }
    }

    /// The byte that is next.
    #[tactic(auto, using(crate::proofs::Texts::ahead))]
    pub(crate) fn peek(&self) -> Option<u8>
        ensures { IsAhead result (left self.now) }
    {
        self.next
    }

    /// Takes the next character.
    #[inline(always)]
    #[tactic(auto, using(crate::proofs::Texts::of_bytes))]
    pub(crate) fn take_char(&mut self) -> char
        requires { 0 < length (left self.old) }
        ensures value { left self.old ≡ result ∷ left self.new }
        ensures scalar { IsScalar result }
        ensures moves { Moves self.old self.new }
        ensures second { self.new.second ≡ None }
    {
        let lead = self.next.unwrap();
        // A character of one byte needs no decoding.
        if lead < 0x80 {
            self.index += 1;
            // One test finds both the text's end and a known byte, so that a second byte costs the others nothing.
            match byte_below(self.source, self.index, self.limit) {
                Some(next) => self.next = Some(next),
                None => match self.second {
                    Some(second) => {
                        self.next = second;
                        self.second = None;
                        self.limit = self.source.len();
                    }
                    None => self.next = None,
                },
            }
            return lead as char;
        }
        let (c, width) = wide_character_at(self.source, self.index, lead);
        self.index += width;
        self.next = byte_at(self.source, self.index);
        c
    }

    /// Takes the next two characters.
    #[inline(always)]
    pub(crate) fn take_two(&mut self)
        requires { 1 < length (left self.old) }
        ensures moves { Moves self.old self.new }
        ensures left { left self.new ≡ drop 2 (left self.old) }
    {
        self.take_char();
        self.take_char();
    }

    /// Whether `(` or `!` is next.
    pub(crate) fn sees_parenthesis_or_negation(&self) -> bool
        ensures { result ≡ begins (λ c. c ∈ "(!") (left self.now) }
    {
        self.sees(b'(') || self.sees(b'!')
    }

    /// Whether `,` or `)` is next, which end an argument.
    pub(crate) fn sees_end_of_argument(&self) -> bool
        ensures { result ≡ begins ends_argument (left self.now) }
    {
        self.sees(b',') || self.sees(b')')
    }

    /// How many bytes are left.
    #[tactic(auto, using(crate::proofs::Texts::of_bytes))]
    pub(crate) fn bytes_left(&self) -> usize
        ensures value { result ≡ byte_count (left self.now) }
        ensures sum { result + self.now.index ≡ length (observed self.now).text }
    {
        self.source.len() - self.index
    }

    /// A refusal at the next character.
    pub(crate) fn refusal(&self, kind: ParseErrorKind, context: Context) -> Failure
        ensures value { result ≡ Failure.Refused (refusal kind context (left self.now)) }
        ensures near { StopsNear result self.now }
    {
        Failure::Refused(Refusal {
            kind,
            context,
            left: self.bytes_left(),
        })
    }

    /// A refusal at the ASCII character that was just taken.
    pub(crate) fn refusal_before(&self, kind: ParseErrorKind, context: Context) -> Failure
        requires { self.now.second ≡ None }
        ensures value { (c : ℕ) → c < 128
            → result ≡ Failure.Refused (refusal kind context (c ∷ left self.now)) }
        ensures near { StopsNear result self.now }
    {
        Failure::Refused(Refusal {
            kind,
            context,
            left: self.bytes_left() + 1,
        })
    }

    /// Whether this ASCII character is next.
    pub(crate) fn sees(&self, b: u8) -> bool
        requires { b < 128 }
        ensures { result ≡ begins (λ c. c == b) (left self.now) }
    {
        self.peek().is_some_and(|next| next == b)
    }

    /// The byte after the next one; the next one must be ASCII. It is looked at only once.
    #[tactic(auto, using(crate::proofs::Texts::ahead_second))]
    fn peek_second(&mut self) -> Option<u8>
        requires { is_ascii self.old.next ≡ true }
        ensures moves { Moves self.old self.new }
        ensures stays { left self.new ≡ left self.old }
        ensures value { IsAhead result (drop 1 (left self.old)) }
    {
        if let Some(second) = self.second {
            return second;
        }
        let second = byte_at(self.source, self.index + 1);
        self.second = Some(second);
        self.limit = 0;
        second
    }

    /// Whether these two ASCII characters are next. The byte after the next one is looked at, once, only where the
    /// first one is next.
    pub(crate) fn sees_both(&mut self, first: u8, second: u8) -> bool
        requires first { first < 128 }
        requires second { second < 128 }
        ensures moves { Moves self.old self.new }
        ensures stays { left self.new ≡ left self.old }
        ensures value { result ≡ begins_both first second (left self.old) }
    {
        if !self.sees(first) {
            return false;
        }
        self.peek_second().is_some_and(|next| next == second)
    }

    /// Whether a blank is next.
    pub(crate) fn sees_blank(&self) -> bool
        ensures { result ≡ begins is_blank (left self.now) }
    {
        self.peek()
            .is_some_and(|next| matches!(next, b' ' | b'\t' | b'\n' | b'\r'))
    }

    /// Takes the blanks that are next.
    pub(crate) fn skip_blanks(&mut self)
        ensures moves { Moves self.old self.new }
        ensures left { left self.new ≡ past_blanks (left self.old) }
    {
        while self.sees_blank() {
            self.take_char();
        }
    }

    /// Whether a digit is next.
    pub(crate) fn sees_digit(&self) -> bool
        ensures { result ≡ begins is_digit (left self.now) }
    {
        self.peek().is_some_and(|next| next.is_ascii_digit())
    }

    /// Whether a small letter is next.
    pub(crate) fn sees_small_letter(&self) -> bool
        ensures { result ≡ begins is_small_letter (left self.now) }
    {
        self.peek().is_some_and(|next| next.is_ascii_lowercase())
    }

    /// Whether what may be tested begins here: a query or a name.
    pub(crate) fn sees_test(&self) -> bool
        ensures { result ≡ begins begins_test (left self.now) }
    {
        self.peek().is_some_and(|next| next == b'@' || next == b'$' || next.is_ascii_lowercase())
    }

    /// Whether a function's name goes on here.
    pub(crate) fn sees_function_char(&self) -> bool
        ensures { result ≡ begins is_function_char (left self.now) }
    {
        self.sees_small_letter() || self.sees(b'_') || self.sees_digit()
    }

    /// Whether a digit is next that is not `0`.
    pub(crate) fn sees_first_digit(&self) -> bool
        ensures { result ≡ begins is_first_digit (left self.now) }
    {
        self.peek().is_some_and(|next| next >= b'1' && next <= b'9')
    }

    /// Whether a comparison operator may begin here.
    pub(crate) fn sees_operator(&self) -> bool
        ensures { result ≡ begins begins_operator (left self.now) }
    {
        self.peek()
            .is_some_and(|next| matches!(next, b'=' | b'!' | b'<' | b'>'))
    }

    /// Whether an exponent begins here.
    pub(crate) fn sees_exponent(&self) -> bool
        ensures { result ≡ begins is_exponent (left self.now) }
    {
        self.peek().is_some_and(|next| matches!(next, b'e' | b'E'))
    }

    /// Whether `-` or `+` is next.
    pub(crate) fn sees_sign(&self) -> bool
        ensures { result ≡ begins is_sign (left self.now) }
    {
        self.sees(b'-') || self.sees(b'+')
    }

    /// Whether an integer begins here.
    pub(crate) fn sees_int(&self) -> bool
        ensures { result ≡ begins begins_int (left self.now) }
    {
        self.sees(b'-') || self.sees_digit()
    }

    /// Whether a member name begins here.
    pub(crate) fn sees_name_first(&self) -> bool
        ensures { result ≡ begins is_name_first (left self.now) }
    {
        self.peek().is_some_and(|next| next >= 128 || next.is_ascii_alphabetic() || next == b'_')
    }

    /// Whether a member name goes on here.
    pub(crate) fn sees_name_char(&self) -> bool
        ensures { result ≡ begins is_name_char (left self.now) }
    {
        self.sees_name_first() || self.sees_digit()
    }

    /// Takes the characters of a member name that are next, and appends them to a text.
    #[tactic(auto, using(crate::proofs::Texts::of_bytes))]
    pub(crate) fn take_name_chars(&mut self, text: &mut String) -> Result<(), AllocError>
        ensures moves { Moves self.old self.new }
        ensures text { IfOk result (λ u. string_bytes text.new
            ≡ string_bytes text.old ++ encode_utf8_all (front is_name_char (left self.old))) }
        ensures rest { IfOk result (λ u. left self.new ≡ past is_name_char (left self.old)) }
    {
        'chars: while self.sees_name_char() {
            let first = self.next.unwrap();
            // Many at a time only after a longer text, since a short name would gain nothing.
            if first >= 0x80 || text.len() < 32 || self.second.is_some() {
                text.push(self.take_char())?;
                continue;
            }
            self.take_stretch(&NameChars, text)?;
        }
        Ok(())
    }

    /// Whether characters of a class are next that are worth taking many at a time, after so many bytes.
    #[inline(always)]
    pub(crate) fn sees_stretch<C: Class>(&self, class: &C, taken: usize) -> bool
        requires { (c : ℕ) → C.holds class.now c ≡ true → c < 128 }
        ensures begun { IsTrue result → begins (C.holds class.now) (left self.now) ≡ true }
        ensures second { IsTrue result → self.now.second ≡ None }
    {
        // Many at a time only after a longer text, since a short one would gain nothing.
        if taken < 32 || self.second.is_some() {
            return false;
        }
        self.peek().is_some_and(|next| class.holds(next))
    }

    /// Takes one or more characters of a class, the first of which is next, and appends them to a text.
    // Out of line, so that a loop that takes one character at a time keeps its registers.
    #[inline(never)]
    #[tactic(auto, using(crate::proofs::Texts::of_bytes))]
    pub(crate) fn take_stretch<C: Class>(
        &mut self,
        class: &C,
        text: &mut String,
    ) -> Result<(), AllocError>
        requires ascii { (c : ℕ) → C.holds class.now c ≡ true → c < 128 }
        requires begun { begins (C.holds class.now) (left self.old) ≡ true }
        requires second { self.old.second ≡ None }
        ensures moves { Moves self.old self.new }
        ensures second { self.new.second ≡ None }
        ensures less { length (left self.new) < length (left self.old) }
        ensures taken { Stretched (C.holds class.now) (left self.old) (left self.new)
            (string_bytes text.old) (string_bytes text.new) (is_ok result) }
    {
        let first = self.next.unwrap();
        let (index, next, pushed) = push_stretch(self.source, self.index, first, class, text);
        self.index = index;
        self.next = next;
        pushed
    }

    /// Whether a hexadecimal digit is next.
    pub(crate) fn sees_hexadecimal(&self) -> bool
        ensures { result ≡ begins is_hexadecimal (left self.now) }
    {
        self.peek().is_some_and(|next| next.is_ascii_hexdigit())
    }

    /// Whether a character is next that a backslash may escape in a string in these quotes, other than `u`.
    pub(crate) fn sees_letter_escape(&self, quote: u8) -> bool
        requires { quote < 128 }
        ensures { result ≡ begins (is_letter_escape quote) (left self.now) }
    {
        self.peek().is_some_and(|next| {
            matches!(next, b'b' | b'f' | b'n' | b'r' | b't' | b'/' | b'\\') || next == quote
        })
    }

    /// Whether a control character is next.
    pub(crate) fn sees_control(&self) -> bool
        ensures { result ≡ begins is_control (left self.now) }
    {
        self.peek().is_some_and(|next| next < 32)
    }

    /// Whether a string in these quotes goes on here.
    pub(crate) fn sees_inside(&self, quote: u8) -> bool
        requires { quote < 128 }
        ensures { result ≡ begins (is_inside quote) (left self.now) }
    {
        self.peek().is_some_and(|next| next != quote)
    }

    /// Whether a segment begins here.
    pub(crate) fn sees_segment(&self) -> bool
        ensures { result ≡ begins opens (left self.now) }
    {
        self.sees(b'.') || self.sees(b'[')
    }

    /// The length of the text in bytes.
    pub(crate) fn len(&self) -> usize
        ensures { result ≡ length (observed self.now).text }
    {
        self.source.len()
    }

    /// Gives the source back to its owner.
    pub(crate) fn close(self)
        ensures { self.exit.0.now ≡ self.entry.source.now }
    {
        let Reader {
            source: _,
            index: _,
            next: _,
            second: _,
            limit: _,
        } = self;
    }
}
