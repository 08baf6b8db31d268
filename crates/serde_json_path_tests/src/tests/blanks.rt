//! Blanks (RFC 9535, sections 2.1.1 and 2.5.1).

/// A path, a document, and the locations and the values of what the path selects there.
pub(crate) const ROWS: &[&str] = &[
    r#"$ .a ~ {"a":1} -> $['a'] ~ 1"#,
    r#"$ ..a ~ {"a":1} -> $['a'] ~ 1"#,
    "$\t\n\r .a [0]\r\n..* ~ {\"a\":[[1]]} -> $['a'][0][0] ~ 1",
    r#"$[ 'a' , "b" ] ~ {"a":1,"b":2} -> $['a'] $['b'] ~ 1 2"#,
    r#"$[ 'a' ] ~ {"a":1} -> $['a'] ~ 1"#,
    "$[\t0\n,\r*\t, -1 , 0 : 1 ] ~ [1] -> $[0] $[0] $[0] $[0] ~ 1 1 1 1",
];
