//! String literals (RFC 9535, section 2.3.1.1).

/// Paths and documents, with what is selected, and texts, with their refusals.
pub(crate) const ROWS: &[&str] = &[
    r#"$[''] ~ {"":1,"a":2} -> $[''] ~ 1"#,
    r#"$['a"b'] ~ {"a\"b":1} -> $['a"b'] ~ 1"#,
    r#"$["\""] ~ {"\"":1} -> $['"'] ~ 1"#,
    r#"$['\b\f\n\r\t\/\\'] ~ {"\b\f\n\r\t/\\":1} -> $['\b\f\n\r\t/\\'] ~ 1"#,
    r#"$['\u0041\u00e9\u00E9'] ~ {"Aéé":1} -> $['Aéé'] ~ 1"#,
    r#"$['\uD83D\ude00'] ~ {"😀":1} -> $['😀'] ~ 1"#,
    "$['\\ud7ff\\ue000\\uffff'] ~ {\"\u{d7ff}\u{e000}\u{ffff}\":1} -> $['\u{d7ff}\u{e000}\u{ffff}'] ~ 1",
    "$['é😀\u{7f}'] ~ {\"é😀\u{7f}\":1} -> $['é😀\u{7f}'] ~ 1",
    "$['a'b] -> ExpectedClosingBracket 6",
    r"$['a\u12 -> BadEscape 5",
    r"$['\u00g0'] -> BadEscape 4",
    r"$['\U0041'] -> BadEscape 4",
    r"$['\ud83d\n'] -> BadEscape 4",
];
