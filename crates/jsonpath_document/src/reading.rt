//! A document that is read byte by byte, up to the byte that breaks it.

ghost use Rattle.std.specs.Prelude.{◌≡◌, ◌==◌, ◌+◌, ◌<◌, ◌≤◌, ◌&&◌, ◌++◌, ◌∷◌, [], List, ℕ};
ghost use Rattle.std.specs.Prelude.{false, is_some, length, nat_lt, option_map, slice_range, take, true};
ghost use Rattle.std.specs.Str.{IsUtf8};
ghost use Rattle.serde_json.specs.Read.{number_of};
ghost use Rattle.jsonpath_document.specs.Document.{BeginsNone, IsBeginning};
ghost use Rattle.jsonpath_document.specs.Reading.{after_byte, after_number, after_text, after_value_byte, are_high};
ghost use Rattle.jsonpath_document.specs.Reading.{after_word, before_byte, begun_by, closed, ends_before};
ghost use Rattle.jsonpath_document.specs.Reading.{is_in_plain, is_plain, is_too_large, is_within, may_end};
ghost use Rattle.jsonpath_document.specs.Reading.{only_grows, open_levels, opened, without_sign};

use crate::begins::{is_d, is_escape, is_first_half, is_second_half};
use crate::place::is_blank;
use fast_float::Numeral;

/// How many arrays and objects `serde_json` takes within each other.
pub(crate) const MOST_LEVELS: usize = 127;

/// What is open.
#[derive(Clone, Copy, PartialEq, Eq)]
enum Level {
    Array,
    Object,
}

/// What may come next in a document.
#[derive(Clone, Copy, PartialEq, Eq)]
pub(crate) enum Next {
    /// A value.
    Value,
    /// The first item of an array, or the array's end.
    FirstItem,
    /// The first name of an object, or the object's end.
    FirstName,
    /// A name, after a comma.
    Name,
    /// The colon after a name.
    Colon,
    /// What follows a value: a comma, or the end of what it stands in.
    AfterValue,
    /// The rest of `true`, `false` or `null`.
    Word(Word),
    /// More of a number, or what follows it.
    Number(Number),
    /// More of a string.
    Text(Text),
    /// More of a name.
    NameText(Text),
}

/// What is left of `true`, `false` or `null`.
#[derive(Clone, Copy, PartialEq, Eq)]
pub(crate) enum Word {
    Rue,
    Ue,
    Alse,
    Lse,
    Se,
    E,
    Ull,
    Ll,
    L,
}

/// What a number has come to.
#[derive(Clone, Copy, PartialEq, Eq)]
pub(crate) enum Number {
    Minus,
    Zero,
    Whole,
    Point,
    Fraction,
    Exponent,
    ExponentSign,
    Power,
}

/// What may come next in a string.
#[derive(Clone, Copy, PartialEq, Eq)]
pub(crate) enum Text {
    /// A character, a backslash, or the quote that ends the string.
    Plain,
    /// What a backslash escapes.
    Escaped,
    FirstDigit,
    SecondDigit,
    ThirdDigit,
    FourthDigit,
    /// The second digit after a D, which half a pair of surrogates may begin by.
    SecondAfterD,
    /// The last digits of the first half of a pair, and what the second half begins by.
    PairThirdDigit,
    PairFourthDigit,
    PairBackslash,
    PairEscaped,
    PairFirstDigit,
    PairSecondDigit,
}

impl Word {
    /// What may come after a byte of a word, or none where the word goes on otherwise.
    fn after(self, byte: u8) -> Option<Next>
        ensures { result ≡ after_word self byte }
    {
        match self {
            Word::Rue => (byte == b'r').then_some(Next::Word(Word::Ue)),
            Word::Ue => (byte == b'u').then_some(Next::Word(Word::E)),
            Word::Alse => (byte == b'a').then_some(Next::Word(Word::Lse)),
            Word::Lse => (byte == b'l').then_some(Next::Word(Word::Se)),
            Word::Se => (byte == b's').then_some(Next::Word(Word::E)),
            Word::E => (byte == b'e').then_some(Next::AfterValue),
            Word::Ull => (byte == b'u').then_some(Next::Word(Word::Ll)),
            Word::Ll => (byte == b'l').then_some(Next::Word(Word::L)),
            Word::L => (byte == b'l').then_some(Next::AfterValue),
        }
    }
}

impl Number {
    /// What a number comes to by a byte more, or none where no number goes on so.
    fn after(self, byte: u8) -> Option<Number>
        ensures { result ≡ after_number self byte }
    {
        match self {
            Number::Minus if byte == b'0' => Some(Number::Zero),
            Number::Minus => byte.is_ascii_digit().then_some(Number::Whole),
            Number::Whole | Number::Fraction if byte.is_ascii_digit() => Some(self),
            Number::Zero | Number::Whole if byte == b'.' => Some(Number::Point),
            Number::Zero | Number::Whole | Number::Fraction => {
                (byte == b'e' || byte == b'E').then_some(Number::Exponent)
            }
            Number::Point => byte.is_ascii_digit().then_some(Number::Fraction),
            Number::Exponent if byte == b'-' || byte == b'+' => Some(Number::ExponentSign),
            Number::Exponent | Number::ExponentSign | Number::Power => {
                byte.is_ascii_digit().then_some(Number::Power)
            }
        }
    }

    /// Whether a number may end so.
    fn may_end(self) -> bool
        ensures { result ≡ may_end self }
    {
        matches!(
            self,
            Number::Zero | Number::Whole | Number::Fraction | Number::Power
        )
    }

    /// Whether a number ends before a byte.
    fn ends_before(self, byte: u8) -> bool
        ensures { result ≡ ends_before self byte }
    {
        self.may_end() && self.after(byte).is_none() && !byte.is_ascii_digit()
    }
}

impl Text {
    /// What may come after a byte of a string, or none where no string goes on so.
    fn after(self, byte: u8) -> Option<Text>
        ensures { result ≡ after_text self byte }
    {
        match self {
            Text::Plain if byte == b'\\' => Some(Text::Escaped),
            Text::Plain if 32 <= byte => Some(Text::Plain),
            Text::Escaped if byte == b'u' => Some(Text::FirstDigit),
            Text::Escaped if is_escape(byte) => Some(Text::Plain),
            Text::FirstDigit if is_d(byte) => Some(Text::SecondAfterD),
            Text::FirstDigit if byte.is_ascii_hexdigit() => Some(Text::SecondDigit),
            Text::SecondDigit if byte.is_ascii_hexdigit() => Some(Text::ThirdDigit),
            Text::ThirdDigit if byte.is_ascii_hexdigit() => Some(Text::FourthDigit),
            Text::FourthDigit if byte.is_ascii_hexdigit() => Some(Text::Plain),
            Text::SecondAfterD if is_first_half(byte) => Some(Text::PairThirdDigit),
            Text::SecondAfterD if b'0' <= byte && byte <= b'7' => Some(Text::ThirdDigit),
            Text::PairThirdDigit if byte.is_ascii_hexdigit() => Some(Text::PairFourthDigit),
            Text::PairFourthDigit if byte.is_ascii_hexdigit() => Some(Text::PairBackslash),
            Text::PairBackslash if byte == b'\\' => Some(Text::PairEscaped),
            Text::PairEscaped if byte == b'u' => Some(Text::PairFirstDigit),
            Text::PairFirstDigit if is_d(byte) => Some(Text::PairSecondDigit),
            Text::PairSecondDigit if is_second_half(byte) => Some(Text::ThirdDigit),
            _ => None,
        }
    }

    /// Whether a byte is the quote that ends a string.
    fn ends_by(self, byte: u8) -> bool
        ensures { result ≡ (is_plain self && byte == 34) }
    {
        self == Text::Plain && byte == b'"'
    }
}

impl Next {
    /// What may come before a byte: it ends the number that has begun, unless that is too large.
    fn before(self, byte: u8, begun: &[u8]) -> Next
        ensures { result ≡ before_byte self byte begun.now }
    {
        match self {
            Next::Number(number) if number.ends_before(byte) && is_in_range(begun) => {
                Next::AfterValue
            }
            _ => self,
        }
    }

    /// Whether what is next belongs to what has begun: a word, a number, or an escape.
    fn is_within(self) -> bool
        ensures { result ≡ is_within self }
    {
        match self {
            Next::Word(_) | Next::Number(_) => true,
            Next::Text(text) | Next::NameText(text) => text != Text::Plain,
            _ => false,
        }
    }
}

/// A number without its minus sign.
fn without_sign(number: &[u8]) -> &[u8]
    ensures { result.now ≡ without_sign number.now }
{
    match number.split_first() {
        Some((b'-', digits)) => digits,
        _ => number,
    }
}

/// Whether a number is not beyond the floats.
fn is_in_range(number: &[u8]) -> bool
    ensures { result ≡ is_some (number_of number.now) }
{
    let nearest: f64 = Numeral::scan(without_sign(number)).to_float(false);
    nearest.is_finite()
}

/// Whether a number can only grow: its exponent has begun, and has no minus sign.
fn only_grows(state: Number, number: &[u8]) -> bool
    ensures { result ≡ only_grows state number.now }
{
    match state {
        Number::ExponentSign => number.last() == Some(&b'+'),
        Number::Power => !Numeral::scan(without_sign(number)).is_exponent_negative(),
        _ => false,
    }
}

/// Whether what may come is the rest of a number that is beyond the floats, and has ended or can only grow.
fn is_too_large(next: Next, has_ended: bool, number: &[u8]) -> bool
    ensures { result ≡ is_too_large next has_ended number.now }
{
    match next {
        Next::Number(state) => {
            (has_ended && state.may_end() || only_grows(state, number)) && !is_in_range(number)
        }
        _ => false,
    }
}

/// What is open, outermost first.
#[derive(Drop)]
struct Levels {
    levels: [Level; MOST_LEVELS],
    count: usize,
    ghost within: { count ≤ 127 },
}

impl Levels {
    /// What may come after a byte, or none where no document goes on so.
    fn after(&mut self, next: Next, byte: u8) -> Option<Next>
        ensures { option_map (λ n. (open_levels self.new.levels self.new.count, n)) result
            ≡ after_byte (open_levels self.old.levels self.old.count) next byte }
    {
        match next {
            Next::Text(text) if text.ends_by(byte) => Some(Next::AfterValue),
            Next::Text(text) => Some(Next::Text(text.after(byte)?)),
            Next::NameText(text) if text.ends_by(byte) => Some(Next::Colon),
            Next::NameText(text) => Some(Next::NameText(text.after(byte)?)),
            Next::Number(number) => Some(Next::Number(number.after(byte)?)),
            Next::Word(word) => word.after(byte),
            _ if is_blank(byte) => Some(next),
            Next::FirstItem if byte == b']' => self.close(),
            Next::FirstName if byte == b'}' => self.close(),
            Next::Value | Next::FirstItem => self.begin(byte),
            Next::FirstName | Next::Name => {
                (byte == b'"').then_some(Next::NameText(Text::Plain))
            }
            Next::Colon => (byte == b':').then_some(Next::Value),
            Next::AfterValue => self.after_value(byte),
        }
    }

    /// What may come after the first byte of a value.
    fn begin(&mut self, byte: u8) -> Option<Next>
        ensures { option_map (λ n. (open_levels self.new.levels self.new.count, n)) result
            ≡ begun_by (open_levels self.old.levels self.old.count) byte }
    {
        match byte {
            b'[' => self.open(Level::Array, Next::FirstItem),
            b'{' => self.open(Level::Object, Next::FirstName),
            b'"' => Some(Next::Text(Text::Plain)),
            b't' => Some(Next::Word(Word::Rue)),
            b'f' => Some(Next::Word(Word::Alse)),
            b'n' => Some(Next::Word(Word::Ull)),
            b'-' => Some(Next::Number(Number::Minus)),
            b'0' => Some(Next::Number(Number::Zero)),
            b'1'..=b'9' => Some(Next::Number(Number::Whole)),
            _ => None,
        }
    }

    /// What may come after a byte that follows a value.
    fn after_value(&mut self, byte: u8) -> Option<Next>
        ensures { option_map (λ n. (open_levels self.new.levels self.new.count, n)) result
            ≡ after_value_byte (open_levels self.old.levels self.old.count) byte }
    {
        let level = *self.levels.get(self.count.checked_sub(1)?)?;
        match (level, byte) {
            (Level::Array, b',') => Some(Next::Value),
            (Level::Object, b',') => Some(Next::Name),
            (Level::Array, b']') | (Level::Object, b'}') => self.close(),
            _ => None,
        }
    }

    /// Begins an array or an object, unless too many are open.
    fn open(&mut self, level: Level, next: Next) -> Option<Next>
        ensures { option_map (λ n. (open_levels self.new.levels self.new.count, n)) result
            ≡ opened level next (open_levels self.old.levels self.old.count) }
    {
        if self.count >= MOST_LEVELS {
            return None;
        }
        self.levels[self.count] = level;
        self.count += 1;
        Some(next)
    }

    /// Ends an array or an object.
    fn close(&mut self) -> Option<Next>
        ensures { option_map (λ n. (open_levels self.new.levels self.new.count, n)) result
            ≡ closed (open_levels self.old.levels self.old.count) }
    {
        self.count = self.count.checked_sub(1)?;
        Some(Next::AfterValue)
    }
}

/// Where a document breaks: the byte that no document goes on with, or the end of what was read.
#[derive(Clone, Copy)]
pub(crate) struct Stop {
    /// How many bytes stand before it.
    pub(crate) at: usize,
    /// How many bytes stand before the word, the number or the escape that it belongs to.
    pub(crate) start: usize,
    /// What might have come there.
    pub(crate) next: Next,
    /// Whether that is the rest of a number that is too large.
    pub(crate) is_too_large: bool,
}

impl Stop {
    /// Whether a character of a string might have come.
    pub(crate) fn is_in_string(&self) -> bool
        ensures { result ≡ is_in_plain self.now.next }
    {
        matches!(
            self.next,
            Next::Text(Text::Plain) | Next::NameText(Text::Plain)
        )
    }
}

/// What a text has, between two places, of the word, the number or the escape that has begun.
fn begun(text: &[u8], start: usize, at: usize) -> &[u8]
    requires { (start ≤ at) × (at ≤ length text.now) }
    ensures { result.now ≡ slice_range text.now start at }
{
    &text[start..at]
}

/// Where a text breaks at a place.
fn stop_at(text: &[u8], start: usize, at: usize, next: Next) -> Stop
    requires { (start ≤ at) × (at ≤ length text.now) }
    ensures place { (result.at ≡ at) × (result.start ≡ start) × (result.next ≡ next) }
    ensures too_large { result.is_too_large
        ≡ is_too_large next (nat_lt at (length text.now)) (slice_range text.now start at) }
{
    Stop {
        at,
        start,
        next,
        is_too_large: is_too_large(next, at < text.len(), begun(text, start, at)),
    }
}

/// Reads a text up to the byte that breaks it, or to its end.
pub(crate) fn read(text: &[u8]) -> Stop
    ensures at { result.at ≤ length text.now }
    ensures start { result.start ≤ result.at }
    ensures broken { result.at < length text.now → BeginsNone (take (result.at + 1) text.now) }
    ensures none { result.is_too_large ≡ true → BeginsNone text.now }
    ensures kept { result.is_too_large ≡ false → IsUtf8 text.now
        → IsBeginning (take result.at text.now) }
    ensures number { result.is_too_large ≡ true → IsUtf8 text.now
        → IsBeginning (take result.start text.now) }
    ensures in_string { result.at ≡ length text.now → is_in_plain result.next ≡ true
        → (more : List ℕ) → are_high more ≡ true → IsUtf8 (text.now ++ more)
        → IsBeginning (text.now ++ more) }
    ensures off_string { result.at ≡ length text.now → is_in_plain result.next ≡ false
        → (byte : ℕ) → 128 ≤ byte → BeginsNone (text.now ++ byte ∷ []) }
{
    let mut next = Next::Value;
    let mut start = 0usize;
    let mut levels = Levels {
        levels: [Level::Array; MOST_LEVELS],
        count: 0,
    };
    for (index, byte) in text.iter().enumerate() {
        next = next.before(*byte, begun(text, start, index));
        if !next.is_within() {
            start = index;
        }
        match levels.after(next, *byte) {
            Some(after) => next = after,
            None => return stop_at(text, start, index, next),
        }
    }
    stop_at(text, start, text.len(), next)
}
