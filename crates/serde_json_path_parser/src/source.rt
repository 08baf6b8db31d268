//! Texts that are looked at byte by byte.

ghost use Rattle.std.specs.Prelude.{◌≡◌, ◌<◌, length, slice_index};
ghost use Rattle.std.specs.Str.{IsUtf8};
ghost use Rattle.serde_json_path_parser.specs.Source.{Observed, looked, greatest_usize};

/// One text that does not change, as the bytes of its UTF-8. Each call of `byte` is one look.
pub trait PathSource {
    /// The text, the number of looks so far, and the farthest byte looked at.
    ghost observed: { Self → Observed };

    /// The length of the text in bytes. This does not count as a look.
    fn len(&self) -> usize
        ensures bytes { result ≡ length (observed self.now).text }
        ensures utf8 { IsUtf8 (observed self.now).text };

    /// The byte at that index, from 0.
    fn byte(&mut self, index: usize) -> u8
        requires { index < length (observed self.old).text }
        ensures value { result ≡ slice_index (observed self.old).text index }
        ensures look { observed self.new ≡ looked (observed self.old) index };
}

/// The source of a text in memory. It counts looks.
#[derive(Drop)]
pub struct TextSource<'t> {
    text: &'t str,
    /// How many bytes from the first one on were looked at in order. Where all looks are in order, this number is both
    /// the looks and the farthest byte.
    in_order: usize,
    other_looks: u128,
    other_farthest: usize,
}

impl<'t> TextSource<'t> {
    ghost use Rattle.serde_json_path_parser.specs.TextSources.{observed_by};

    /// A source that has not been looked at yet.
    pub fn new(text: &'t str) -> TextSource<'t>
        ensures { observed_by result ≡ record { text = text.now; looks = 0; farthest = 0 } }
    {
        TextSource {
            text,
            in_order: 0,
            other_looks: 0,
            other_farthest: 0,
        }
    }

    /// How often the text was looked at; at 2^128 - 1 the count stays.
    pub fn looks(&self) -> u128
        ensures { result ≡ (observed_by self.now).looks }
    {
        self.other_looks.saturating_add(self.in_order as u128)
    }

    /// Counts a look at the byte at that index, which is not the next in order.
    #[cold]
    #[inline(never)]
    fn look_elsewhere(&mut self, index: usize)
        requires { index < greatest_usize }
        ensures { observed_by self.new ≡ looked (observed_by self.old) index }
    {
        self.other_looks = self.other_looks.saturating_add(1);
        self.other_farthest = self.other_farthest.max(index + 1);
    }
}

impl PathSource for TextSource<'_> {
    ghost use Rattle.serde_json_path_parser.specs.TextSources.{observed_by};

    ghost observed = { observed_by };

    fn len(&self) -> usize {
        self.text.as_bytes().len()
    }

    fn byte(&mut self, index: usize) -> u8 {
        if index == self.in_order {
            // Not by its own last value, so that no look waits for the one before it.
            self.in_order = index + 1;
        } else {
            self.look_elsewhere(index);
        }
        self.text.as_bytes()[index]
    }
}
