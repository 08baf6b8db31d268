//! Comparisons (RFC 9535, section 2.3.5.2.2).

/// The document of the examples of comparisons of RFC 9535, section 2.3.5.3.
pub(crate) const EXAMPLE: &str = r#"{"obj":{"x":"y"},"arr":[2,3]}"#;

/// A path, a document, and the locations and the values of what the path selects there.
pub(crate) const ROWS: &[&str] = &[
    r#"$[?@.a == @.b] ~ [{},{"a":1},{"a":1,"b":1}] -> $[0] $[2] ~ {} {"a":1,"b":1}"#,
    r#"$[?@.a <= @.b] ~ [{},{"a":1}] -> $[0] ~ {}"#,
    r#"$[?@[0] == @[-1]] ~ [[],[1],[1,2],[2,1,2],{"0":1}] -> $[0] $[1] $[3] $[4] ~ [] [1] [2,1,2] {"0":1}"#,
    r#"$[?@.a < @['b']] ~ [{"a":1,"b":2},{"a":2,"b":1},{"b":3}] -> $[0] ~ {"a":1,"b":2}"#,
    r#"$[?@.a != $[0].a] ~ [{"a":1},{"a":2},{},[1]] -> $[1] $[2] $[3] ~ {"a":2} {} [1]"#,
    r#"$[?@.a[0].b == 1] ~ [{"a":[{"b":1}]}] -> $[0] ~ {"a":[{"b":1}]}"#,
    r#"$[?@['a'][0] == 1] ~ [{"a":[1]}] -> $[0] ~ {"a":[1]}"#,
    r#"$[?@ < 'b'] ~ ["a","b",1] -> $[0] ~ "a""#,
    r#"$[?@<'b'] ~ ["a","b",1] -> $[0] ~ "a""#,
    "$[?@\n<\r'b'\t] ~ [\"a\",\"b\",1] -> $[0] ~ \"a\"",
    "$[?@ == @] ~ [1,1.5] -> $[0] ~ 1",
    "$[?@ != 1] ~ [1,1.5] -> $[1] ~ 1.5",
    "$[?@ < 2] ~ [1,2,3] -> $[0] ~ 1",
    "$[?@ <= 2] ~ [1,2,3] -> $[0] $[1] ~ 1 2",
    "$[?@ > 2] ~ [1,2,3] -> $[2] ~ 3",
    "$[?@ >= 2] ~ [1,2,3] -> $[1] $[2] ~ 2 3",
    "$[?@ == 2] ~ [1,2,3] -> $[1] ~ 2",
    "$[?@ != 2] ~ [1,2,3] -> $[0] $[2] ~ 1 3",
];

/// Examples of RFC 9535, section 2.3.5.3, of which each holds for both members of [`EXAMPLE`] or for none.
pub(crate) const EXAMPLES: &[&str] = &[
    r#"$[?$.absent1 == $.absent2] -> $['arr'] $['obj'] ~ [2,3] {"x":"y"}"#,
    r#"$[?$.absent1 <= $.absent2] -> $['arr'] $['obj'] ~ [2,3] {"x":"y"}"#,
    "$[?$.absent == 'g'] -> nothing",
    "$[?$.absent1 != $.absent2] -> nothing",
    r#"$[?$.absent != 'g'] -> $['arr'] $['obj'] ~ [2,3] {"x":"y"}"#,
    r#"$[?1 <= 2] -> $['arr'] $['obj'] ~ [2,3] {"x":"y"}"#,
    "$[?1 > 2] -> nothing",
    "$[?13 == '13'] -> nothing",
    r#"$[?'a' <= 'b'] -> $['arr'] $['obj'] ~ [2,3] {"x":"y"}"#,
    "$[?'a' > 'b'] -> nothing",
    "$[?$.obj == $.arr] -> nothing",
    r#"$[?$.obj != $.arr] -> $['arr'] $['obj'] ~ [2,3] {"x":"y"}"#,
    r#"$[?$.obj == $.obj] -> $['arr'] $['obj'] ~ [2,3] {"x":"y"}"#,
    "$[?$.obj != $.obj] -> nothing",
    r#"$[?$.arr == $.arr] -> $['arr'] $['obj'] ~ [2,3] {"x":"y"}"#,
    "$[?$.arr != $.arr] -> nothing",
    "$[?$.obj == 17] -> nothing",
    r#"$[?$.obj != 17] -> $['arr'] $['obj'] ~ [2,3] {"x":"y"}"#,
    "$[?$.obj <= $.arr] -> nothing",
    "$[?$.obj < $.arr] -> nothing",
    r#"$[?$.obj <= $.obj] -> $['arr'] $['obj'] ~ [2,3] {"x":"y"}"#,
    r#"$[?$.arr <= $.arr] -> $['arr'] $['obj'] ~ [2,3] {"x":"y"}"#,
    "$[?1 <= $.arr] -> nothing",
    "$[?1 >= $.arr] -> nothing",
    "$[?1 > $.arr] -> nothing",
    "$[?1 < $.arr] -> nothing",
    r#"$[?true <= true] -> $['arr'] $['obj'] ~ [2,3] {"x":"y"}"#,
    "$[?true > true] -> nothing",
];
