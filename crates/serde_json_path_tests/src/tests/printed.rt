//! Paths as texts, and paths read from these again.

use serde_json_path::JsonPath;
use serde_json_path::functions::{Builtin, Functions};
use std::alloc::Global;
use std::test::Fail;
use test_rows::{Came, alike, fields, hold_row, hold_rows, holds};

/// Two paths, and whether they are equal.
const COMPARED: &[&str] = &[
    r#"$["a"] ~ $[ 'a' ] -> true"#,
    "$.a ~ $['a'] -> false",
    "$[::1] ~ $[:] -> false",
    "$[::] ~ $[:] -> true",
    "$[?@ == 2.0] ~ $[?@ == 2] -> true",
    "$[?@ == 2] ~ $[?@ == 3] -> false",
    "$[?@.a == 1] ~ $[?@.a != 1] -> false",
    "$[?@.a] ~ $[?!@.a] -> false",
    "$[?@.a && @.b] ~ $[?@.a || @.b] -> false",
    "$[?(@.a)] ~ $[?@.a] -> false",
    "$[?length(@) == 1] ~ $[? length( @ ) == 1.0 ] -> true",
    "$[?length(@) == 1] ~ $[?count(@.*) == 1] -> false",
    "$[?match(@, 'a')] ~ $[?match(@, 'b')] -> false",
    "$.a ~ $.a.b -> false",
    "$.a ~ $..a -> false",
    "$['a', 'b'] ~ $['b', 'a'] -> false",
    "$[0] ~ $[-1] -> false",
    "$[?@ == true] ~ $[?@ == null] -> false",
];

/// A path, and the text that it prints.
const PRINTED: &[&str] = &[
    "$ -> $",
    "$.foo['bar'][1:10][?@.baz > 10 && @.foo.bar < 20] -> $.foo['bar'][1:10][?@.baz > 10 && @.foo.bar < 20]",
    r#"$[ 'a' , "b" ] -> $['a', 'b']"#,
    "$['a','b'] -> $['a', 'b']",
    "$[::] -> $[:]",
    "$[::1] -> $[::1]",
    "$[1 : 2 : 3] -> $[1:2:3]",
    "$[:2:] -> $[:2]",
    "$[ -1 : : -2 ] -> $[-1::-2]",
    "$ .a ..b ..[ 0 ] -> $.a..b..[0]",
    "$.* ..* [*] -> $.*..*[*]",
    "$..[?!( @.a||@.b )] -> $..[?!(@.a || @.b)]",
    "$[?( @.a ) && ! $.b] -> $[?(@.a) && !$.b]",
    r#"$["a'b","\u0001"] -> $['a\'b', '\u0001']"#,
    r#"$["\"\\\/\b\f\n\r\t\u00e9"] -> $['"\\/\b\f\n\r\té']"#,
    r#"$[?@.a=='x'&&!match(@ , "b")] -> $[?@.a == 'x' && !match(@, 'b')]"#,
    "$[?count( @.* )>=length( 'ab' )] -> $[?count(@.*) >= length('ab')]",
    "$[?length(value(@..a))!=1] -> $[?length(value(@..a)) != 1]",
    "$[?-0 == @] -> $[?0 == @]",
    "$[?@ == 2.0] -> $[?@ == 2]",
    "$[?@ >= -0.50] -> $[?@ >= -0.5]",
    "$[?@ == -0.0] -> $[?@ == 0]",
    "$[?@ == 0.000000001] -> $[?@ == 0.000000001]",
    "$[?@ < 18446744073709551615] -> $[?@ < 18446744073709551615]",
    "$[?@ <= -9223372036854775808] -> $[?@ <= -9223372036854775808]",
    "$[?@ > -0.000000001] -> $[?@ > -0.000000001]",
    "$[?@==true||@!=false||null==@] -> $[?@ == true || @ != false || null == @]",
];

/// The text that a path prints. Fails where two ways to print it differ, or where a copy is not equal to it.
fn printed(alloc: Global, path: &JsonPath) -> Came {
    let copy = path.try_clone(alloc)?;
    holds(copy == *path, "a copy is not equal")?;
    let text = alike(path.to_text(alloc)?, copy.to_text(alloc)?)?;
    let value = path.to_json(alloc)?;
    holds(value.as_str() == Some(text.as_str()), "another JSON form")?;
    alike(path.to_string(alloc)?, text)
}

/// Reads the path of a text again from what it prints. Fails where that is another path, or prints otherwise.
pub(crate) fn reads_back<F: Functions>(
    alloc: Global,
    functions: &F,
    text: &str,
) -> Result<(), Fail> {
    let path = JsonPath::parse_with(alloc, text, functions)?;
    let text = path.to_text(alloc)?;
    let again = JsonPath::parse_with(alloc, text.as_str(), functions)?;
    holds(again == path, text.as_str())?;
    alike(printed(alloc, &again)?, text)?;
    Ok(())
}

/// The text that the path of a text prints, also when it comes through JSON. The path reads back.
fn of_path(alloc: Global, text: &str) -> Came {
    reads_back(alloc, &Builtin, text)?;
    let path = JsonPath::parse(alloc, text)?;
    let value = path.to_json(alloc)?;
    let again = JsonPath::from_json(alloc, &value)?;
    alike(printed(alloc, &path)?, printed(alloc, &again)?)
}

#[test]
fn prints_paths(rt: HostRuntime) -> Result<(), Fail> {
    hold_rows(&rt, PRINTED, of_path)?;
    let root = printed(rt.alloc(), &JsonPath::new(rt.alloc()));
    hold_row(&rt, ("no text", "the new path", "$"), root)
}

/// Whether two paths are equal, in both orders. Each is equal to itself.
fn equality(alloc: Global, given: &str) -> Came {
    let (one, other) = fields(given)?;
    let one = JsonPath::parse(alloc, one)?;
    let other = JsonPath::parse(alloc, other)?;
    let is_equal = one == other;
    holds((other == one) == is_equal, "the order matters")?;
    holds(one == one && other == other, "not equal to itself")?;
    Ok(format!(in alloc; "{is_equal}")?)
}

#[test]
fn tells_equal_paths(rt: HostRuntime) -> Result<(), Fail> {
    hold_rows(&rt, COMPARED, equality)
}
