//! Texts that are written.

ghost use Rattle.std.specs.Prelude.{◌≡◌, OnOk};
ghost use Rattle.std.specs.Io.KnownBytes.{Appends};
ghost use Rattle.jsonpath_lines.specs.Sent.{AppendsBeginning};

use std::io;
use std::io::Write;

/// Writes a text up to the first failure. An interrupted write is tried again. The error is the writer's, or `WriteZero` where it
/// takes nothing.
///
/// `write_all` would not say that what it wrote before a failure is a beginning of the text.
pub fn write_text<W: Write>(text: &str, to: &mut W) -> io::Result<()>
    ensures whole { OnOk result (Appends (W.contents to.old) (W.contents to.new) text.now) }
    ensures beginning { AppendsBeginning (W.contents to.old) (W.contents to.new) text.now }
{
    let mut rest = text.as_bytes();
    for _ in 0..u64::MAX {
        if rest.is_empty() {
            return Ok(());
        }
        match to.write(rest) {
            Ok(0) => return Err(io::Error::from(io::ErrorKind::WriteZero)),
            Ok(n) => rest = &rest[n..],
            Err(e) if e.kind() == io::ErrorKind::Interrupted => {}
            Err(e) => return Err(e),
        }
    }
    Err(io::Error::from(io::ErrorKind::TimedOut))
}
