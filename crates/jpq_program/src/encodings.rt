//! Inputs that do not begin as JSON in UTF-8 does.

ghost use Rattle.std.specs.Prelude.{◌≡◌};
ghost use Rattle.jpq_program.specs.Inputs.{without_mark};

/// The byte order mark of UTF-8.
const MARK: &[u8] = b"\xef\xbb\xbf";

/// The bytes after a byte order mark, if they begin with one: a reader may pass over it (RFC 8259, section 8.1).
pub(crate) fn without_mark(bytes: &[u8]) -> &[u8]
    ensures { result.now ≡ without_mark bytes.now }
{
    if bytes.starts_with(MARK) {
        return &bytes[MARK.len()..];
    }
    bytes
}

/// What bytes are, and which command makes UTF-8 of them, where their beginning shows that they are compressed or UTF-16.
pub(crate) fn encoding_of(bytes: &[u8]) -> Option<&'static str> {
    if bytes.starts_with(b"\x1f\x8b") {
        return Some("compressed by gzip (unpack it with gzip -dc)");
    }
    if bytes.starts_with(b"\xff\xfe") || bytes.starts_with(b"\xfe\xff") {
        return Some("UTF-16, where JSON is UTF-8 (convert it with iconv -f UTF-16 -t UTF-8)");
    }
    None
}
