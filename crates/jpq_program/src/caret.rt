//! A path's text, or the line of a document, with a caret under a place.

use std::alloc::AllocError;
use std::str::from_utf8;
use unicode_segmentation::UnicodeSegmentation;
use unicode_width::UnicodeWidthStr;

/// How many bytes before a place are shown at most; what is cut off counts as three dots.
const BEFORE: usize = 60;

/// How many bytes from a place on are shown at most.
const AFTER: usize = 40;

/// What stands in a line beside the bytes of a document: two blanks, twice three dots, and two columns that stay free.
const BESIDE: usize = 10;

/// A text that is cut round a place.
#[derive(Drop)]
struct Window<'a> {
    /// Whether text before it is left out.
    begins_late: bool,
    /// What is shown before the place.
    before: &'a str,
    /// What is shown from the place on.
    after: &'a str,
    /// Whether text after it is left out.
    ends_early: bool,
}

/// A text before a byte, or before the character that the byte is in, and the text from there on.
fn split(text: &str, index: usize) -> (&str, &str) {
    text.split_at(text.floor_char_boundary(index))
}

/// The text of the last bytes before a place, and whether bytes before it are left out. A character that is cut is left out.
fn last_text(bytes: &[u8], count: usize) -> (&str, bool) {
    let start = bytes.len().saturating_sub(count);
    let mut text = "";
    for skipped in 0usize..4 {
        let near = bytes.get(start.saturating_add(skipped)..).unwrap_or(&[]);
        if let Ok(whole) = from_utf8(near) {
            text = whole;
            break;
        }
    }
    (text, start > 0)
}

/// The text of the first bytes, and whether bytes after it are left out. It ends before a character that is cut, or is none.
fn first_text(bytes: &[u8], count: usize) -> (&str, bool) {
    let near = bytes.get(..count).unwrap_or(bytes);
    let valid = match from_utf8(near) {
        Ok(_) => near.len(),
        Err(e) => e.valid_up_to(),
    };
    let text = near
        .get(..valid)
        .and_then(|front| from_utf8(front).ok())
        .unwrap_or("");
    (text, valid < bytes.len())
}

impl<'a> Window<'a> {
    /// The line round a place in a document, which is the number of a byte from 1, without the blanks at its ends, within so many
    /// columns: three fifths of its bytes before the place, and the others from there on.
    fn of_line(bytes: &'a [u8], place: usize, columns: usize) -> Window<'a> {
        let (before, after) = bytes.split_at(place.saturating_sub(1).min(bytes.len()));
        let room = columns.saturating_sub(BESIDE);
        let room_after = room / 5 * 2;
        let (before, begins_late) = last_text(before, room.saturating_sub(room_after));
        let (after, ends_early) = first_text(after, room_after);
        let (before, begins_late) = match before.rsplit_once('\n') {
            Some((_, line)) => (line, false),
            None => (before, begins_late),
        };
        let (after, ends_early) = match after.split_once('\n') {
            Some((line, _)) => (line, false),
            None => (after, ends_early),
        };
        Window {
            begins_late,
            before: if begins_late {
                before
            } else {
                before.trim_start()
            },
            after: if ends_early { after } else { after.trim_end() },
            ends_early,
        }
    }

    /// The text round a place, which is the number of a byte from 1.
    fn new(text: &'a str, place: usize) -> Window<'a> {
        let (before, after) = split(text, place.saturating_sub(1));
        let (earlier, before) = split(before, before.len().saturating_sub(BEFORE));
        let (after, later) = split(after, AFTER);
        Window {
            begins_late: !earlier.is_empty(),
            before,
            after,
            ends_early: !later.is_empty(),
        }
    }

    /// Appends the text, with control characters as escapes.
    fn push_text(&self, to: &mut String) -> Result<(), AllocError> {
        if self.begins_late {
            to.push_str("...")?;
        }
        push_shown(to, self.before)?;
        push_shown(to, self.after)?;
        if self.ends_early {
            to.push_str("...")?;
        }
        Ok(())
    }

    /// Appends a caret under the place. A tab stands for a tab, whatever its width.
    fn push_caret(&self, to: &mut String) -> Result<(), AllocError> {
        if self.begins_late {
            to.push_str("   ")?;
        }
        for cluster in self.before.graphemes(true) {
            push_columns(to, cluster)?;
        }
        to.push('^')
    }
}

/// Appends a text, with its control characters but the tab as they are escaped in a path.
fn push_shown(to: &mut String, text: &str) -> Result<(), AllocError> {
    for c in text.chars() {
        push_char(to, c)?;
    }
    Ok(())
}

/// Appends a character; a control character but the tab as an escape.
fn push_char(to: &mut String, c: char) -> Result<(), AllocError> {
    match c {
        '\n' => to.push_str("\\n"),
        '\r' => to.push_str("\\r"),
        '\t' => to.push('\t'),
        c if c.is_control() => write!(to, "\\u{:04x}", c as u32),
        c => to.push(c),
    }
}

/// Appends as many spaces as a cluster of characters takes columns, or a tab for a tab.
fn push_columns(to: &mut String, cluster: &str) -> Result<(), AllocError> {
    if cluster == "\t" {
        return to.push('\t');
    }
    let columns = if cluster.chars().any(char::is_control) {
        escaped_columns(cluster)
    } else {
        cluster.width()
    };
    for _ in 0..columns {
        to.push(' ')?;
    }
    Ok(())
}

/// How many columns the escapes of control characters take.
fn escaped_columns(cluster: &str) -> usize {
    let mut columns = 0usize;
    for c in cluster.chars() {
        columns = columns.saturating_add(if c == '\n' || c == '\r' { 2 } else { 6 });
    }
    columns
}

/// Appends what a window shows, in a line that is indented by two spaces, and below it the caret.
fn push_window(to: &mut String, window: &Window<'_>) -> Result<(), AllocError> {
    to.push_str("  ")?;
    window.push_text(to)?;
    to.push_str("\n  ")?;
    window.push_caret(to)?;
    to.push('\n')
}

/// Appends a text in a line that is indented by two spaces, cut round a place, and below it a caret under that place, the number
/// of a byte from 1.
pub(crate) fn push_with_caret(to: &mut String, text: &str, place: usize) -> Result<(), AllocError> {
    push_window(to, &Window::new(text, place))
}

/// Appends the line of a document round a place, the number of a byte from 1, in the same way, within so many columns. Of an empty
/// line it appends nothing.
pub(crate) fn push_line_with_caret(
    to: &mut String,
    bytes: &[u8],
    place: usize,
    columns: usize,
) -> Result<(), AllocError> {
    let window = Window::of_line(bytes, place, columns);
    if window.before.is_empty() && window.after.is_empty() {
        return Ok(());
    }
    push_window(to, &window)
}
