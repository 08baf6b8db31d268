//! Paths with values for texts of their literals.

use serde_json_path::{Binding, JsonPath, Numbers};
use std::alloc::Global;
use std::test::Fail;
use test_rows::{Came, fields, hold_rows, holds};

/// A path, texts with their values, and what the path prints with these in it.
const BOUND: &[&str] = &[
    "$[?@.a == '$a'] ~ $a=x -> $[?@.a == 'x']",
    "$[?@.a == '$a'] ~ $a= -> $[?@.a == '']",
    "$[?@.a == '$a'] ~ $a=$a -> $[?@.a == '$a']",
    "$[?@.a == '$a'] ~ a=x -> $[?@.a == '$a']",
    "$[?@ == '$a'] ~ $a=x' || '1' == '1 -> $[?@ == 'x\\' || \\'1\\' == \\'1']",
    "$[?'$a' == '$b'] ~ $a=$b ~ $b=c -> $[?'$b' == 'c']",
    "$[?@ == '$a'] ~ $a=1 ~ $a=2 -> $[?@ == '1']",
    "$[?@ == '$aa' || @ == 'a' || @ == '$'] ~ $a=x -> $[?@ == '$aa' || @ == 'a' || @ == '$']",
    "$['$a'][?@['$a'] == '$a', '$a'] ~ $a=b -> $['$a'][?@['$a'] == 'b', '$a']",
    "$[?match(@, '$a') && !(@.b != '$a')] ~ $a=b.* -> $[?match(@, 'b.*') && !(@.b != 'b.*')]",
    "$..[?count($[?@ == '$a']) > 1][?@ == '$a'] ~ $a=b -> $..[?count($[?@ == 'b']) > 1][?@ == 'b']",
    "$[?@ == 1 || @ == 1.5 || @ == true || @ == null] ~ 1=a ~ 1.5=a ~ true=a ~ null=a -> $[?@ == 1 || @ == 1.5 || @ == true || @ == null]",
];

/// What a path prints with values in it. Read again, that is the same path.
fn bound(alloc: Global, given: &str) -> Came {
    let (path, given) = fields(given)?;
    let mut bindings = Vec::new(alloc);
    for field in given.split(" ~ ") {
        let (text, value) = field.split_once('=').unwrap_or((field, ""));
        bindings.push(Binding { text, value })?;
    }
    let path = JsonPath::parse_by(alloc, path, Numbers::All)?.bound(alloc, &bindings)?;
    let text = path.to_text(alloc)?;
    let again = JsonPath::parse_by(alloc, text.as_str(), path.numbers())?;
    holds(again == path, "read again it is another path")?;
    Ok(text)
}

#[test]
fn puts_values_for_texts(rt: HostRuntime) -> Result<(), Fail> {
    hold_rows(&rt, BOUND, bound)
}
