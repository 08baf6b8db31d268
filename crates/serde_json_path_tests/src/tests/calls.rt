//! Calls of the built-in functions (RFC 9535, sections 2.4.4 to 2.4.8).

/// Eight names.
pub(crate) const NAMES: &str = concat!(
    r#"[{"name":"Homer Simpson"},{"name":"Marge Simpson"},{"name":"Bart Simpson"},"#,
    r#"{"name":"Lisa Simpson"},{"name":"Maggie Simpson"},{"name":"Ned Flanders"},"#,
    r#"{"name":"Rod Flanders"},{"name":"Todd Flanders"}]"#
);

/// A path, a document, and the locations and the values of what the path selects there.
pub(crate) const ROWS: &[&str] = &[
    r#"$[?length(@) == 1] ~ ["😀","ab",[0],{"k":1},7] -> $[0] $[2] $[3] ~ "😀" [0] {"k":1}"#,
    r#"$[?length( @ )==1] ~ ["a","ab"] -> $[0] ~ "a""#,
    r#"$[?1 == length(@)] ~ ["a","ab"] -> $[0] ~ "a""#,
    r#"$[?length('ab') == length(@)] ~ ["a","ab"] -> $[1] ~ "ab""#,
    r#"$[?length(@) < 3] ~ ["a","abc"] -> $[0] ~ "a""#,
    "$[?length(true) == 1] ~ [1] -> nothing",
    "$[?length(null) == 1] ~ [1] -> nothing",
    "$[?length(1.0) == 1] ~ [1] -> nothing",
    "$[?length(1.00) == 1] ~ [1] -> nothing",
    "$[?length(-0.0) == 1] ~ [1] -> nothing",
    r#"$[?value(@..a) == 1] ~ [{"a":1},{"a":{"a":1}}] -> $[0] ~ {"a":1}"#,
    r#"$[?value(@..color) == "red"] ~ [{"color":"red"},{"color":"blue"}] -> $[0] ~ {"color":"red"}"#,
    r#"$[?count(@.foo.*) > 1] ~ [{"foo":[1]},{"foo":[1,2]}] -> $[1] ~ {"foo":[1,2]}"#,
    r#"$[? count(@.foo) == 1] ~ [{"foo":"bar"},{"foo":"baz"}] -> $[0] $[1] ~ {"foo":"bar"} {"foo":"baz"}"#,
    "$[?count(@.*) == 1] ~ [[1],[1,2]] -> $[0] ~ [1]",
    r#"$[?count(@.*) == 2] ~ [{"a":1,"b":[2]},[1,{}],[1],2] -> $[0] $[1] ~ {"a":1,"b":[2]} [1,{}]"#,
    r#"$[?count(@.*) == 0] ~ [[],{},1,"ab",[1]] -> $[0] $[1] $[2] $[3] ~ [] {} 1 "ab""#,
    r#"$[?count(@.a.*) == 3] ~ [{"a":[4,5,6]},{"a":7},{"b":[4,5,6]}] -> $[0] ~ {"a":[4,5,6]}"#,
    "$[?count(@[1:]) == 1] ~ [[4,5],[6]] -> $[0] ~ [4,5]",
    r#"$[?count(@..a) == 2] ~ [{"a":{"a":1}},{"a":1}] -> $[0] ~ {"a":{"a":1}}"#,
    r#"$[?value(@['a'].*) == 4] ~ [{"a":[4]},{"a":{"b":4}},{"a":[4,4]}] -> $[0] $[1] ~ {"a":[4]} {"a":{"b":4}}"#,
    r#"$[?length(value(@.*)) == 1] ~ [["ab"],["c"],["d","e"]] -> $[1] ~ ["c"]"#,
    // By patterns.
    r#"$[?match(@,'b')] ~ ["abc","b"] -> $[1] ~ "b""#,
    r#"$[?search(@,'b')] ~ ["abc","b"] -> $[0] $[1] ~ "abc" "b""#,
    r#"$[?!match(@,'(')] ~ ["a"] -> $[0] ~ "a""#,
    r#"$[?!search(@,'(')] ~ ["a"] -> $[0] ~ "a""#,
    r#"$[?search(@.foo,'(')] ~ [{"foo":"bar"}] -> nothing"#,
    r#"$[?match(@, 1)] ~ ["1"] -> nothing"#,
    r#"$[?search(@, 1)] ~ ["1"] -> nothing"#,
    r#"$[?match(@, '1')] ~ [1,null,["1"],"1"] -> $[3] ~ "1""#,
    r#"$[?match(@,'a)|(b')] ~ ["ax","xb","xbx"] -> $[0] $[1] ~ "ax" "xb""#,
    r#"$[?match(@.foo,'|')] ~ [{"foo":"bar"},{"foo":"biz"}] -> nothing"#,
    r#"$[?match(@.foo,'(')] ~ [{"foo":"bar"},{"foo":"biz"}] -> nothing"#,
    r#"$[?@.a=='x'&&!match(@.b , "b")] ~ [{"a":"x","b":"b"},{"a":"x","b":"c"}] -> $[1] ~ {"a":"x","b":"c"}"#,
    r#"$[?search(@,'b') && !match(@,'b')] ~ ["abc","b","xb","b"] -> $[0] $[2] ~ "abc" "xb""#,
    r#"$[?match(@.a,@.p)].a ~ [{"a":"x","p":"x|y"},{"a":"x","p":"z*"},{"a":"y","p":"x|y"},{"a":"zz","p":"z*"},{"a":"z","p":"x|y"},{"a":"","p":"z*"}] -> $[0]['a'] $[2]['a'] $[3]['a'] $[5]['a'] ~ "x" "y" "zz" """#,
    r#"$[?search(@[0],@[1])] ~ [["a(","("],["a(","[(]"],["b(","("],["b(","[(]"],["c(","("],["c","[(]"]] -> $[1] $[3] ~ ["a(","[(]"] ["b(","[(]"]"#,
    r#"$[?match(@.timezone, 'Europe/.*')] ~ [{"timezone":"Europe/Paris"},{"timezone":"Asia/Tokyo"}] -> $[0] ~ {"timezone":"Europe/Paris"}"#,
];

/// A path, and the locations and the values of what it selects from [`NAMES`].
pub(crate) const OF_NAMES: &[&str] = &[
    r#"$[? match(@.name, 'M[A-Za-z ]*Simpson')].name -> $[1]['name'] $[4]['name'] ~ "Marge Simpson" "Maggie Simpson""#,
    r#"$[? search(@.name, 'Flanders')] -> $[5] $[6] $[7] ~ {"name":"Ned Flanders"} {"name":"Rod Flanders"} {"name":"Todd Flanders"}"#,
];
