//! What a person is told of a refused path.

use crate::tests::inputs::run_line;
use std::alloc::Global;
use std::test::Fail;
use test_rows::{Came, Table, ends, fields, hold_rows};

/// A path of ASCII characters, the byte of the caret, what is wrong there, and what was probably meant.
const REFUSALS: &[&str] = &[
    "$[?@.price = 10] -> 12 ~ expected closing ']', found '=' ~ equality is written ==",
    "$[?@.a == 1 and @.b] -> 13 ~ expected closing ']', found 'and' ~ write `&&`",
    "$[?@.a == 1 & @.b] -> 13 ~ expected closing ']', found '&' ~ write `&&`",
    "$[?not @.a] -> 4 ~ expected a path, a number, a string, true, false, null or a call, found 'not' ~ write `!`",
    "$[?@.a =~ 'b.*'] -> 8 ~ expected closing ']', found '=~' ~ write `match(@.a, 'b.*')`, or `search` for a part of the text",
    "$[?@.a in ['x']] -> 8 ~ expected closing ']', found 'in' ~ write `@.a == 'x' || @.a == 'y'`",
    "$[?@.a.length() > 1] -> 14 ~ expected closing ']', found '(' ~ write `length(@.a)`: the value stands in the parentheses",
    "$.a.length() -> 11 ~ the path ends before this, found '(' ~ a function only stands in a filter: `$[?length(@.a) > 1]`",
    "$[(@.length-1)] -> 3 ~ expected a selector (a name in quotes, an index, a slice, '*' or '?'), found '(' ~ write `[-1]` for the last item",
    "$.a-b -> 4 ~ the path ends before this, found '-' ~ write `$['a-b']`: such a name is quoted in brackets",
    "$.a b -> 4 ~ the path ends before this, found ' ' ~ write `$['a b']`: such a name is quoted in brackets",
    "a.b -> 1 ~ a path begins with '$', found 'a' ~ write `$.` before it, as in `$.a.b`",
    "$.['a'] -> 3 ~ expected a name or '*' after the dot, found '[' ~ no dot before a bracket, as in `$['a']`",
    "$.a. -> 5 ~ expected a name or '*' after the dot, found the end ~ no dot at the end of a path",
    "$[a] -> 3 ~ expected a selector (a name in quotes, an index, a slice, '*' or '?'), found 'a' ~ write `['a']`: a name in brackets is quoted",
    "$[?@.a + 1 == 2] -> 8 ~ expected closing ']', found '+' ~ there is no arithmetic in paths",
    "$[?length(@.*) > 1] -> 11 ~ an argument of the wrong type ~ write `count(@.*)`: `length` takes one value",
    "/a/b -> 1 ~ a path begins with '$', found '/' ~ write `$.a.b` for the JSON pointer or XPath /a/b",
    "$[?@ == 1.] -> 9 ~ a number has digits after its point, and in its exponent ~ write `1` for 1., and digits after an `e`",
    "$[?@ == 1e400] -> 9 ~ a number that is out of range ~ a number of at most 1.7976931348623157e308",
    "$[?first(@.*) == 4] -> 4 ~ no such function, found 'first' ~ the RFC's functions are `length`, `count`, `match`, `search` and `value`",
    "$/a/b -> 2 ~ the path ends before this, found '/' ~ write `$.a.b`: dots for slashes",
    "$[?lenght(@.a) > 1] -> 4 ~ no such function, found 'lenght' ~ write `length`",
    "$[?@.a == @.b.*] -> 11 ~ this path may select several nodes, so it can't be compared ~ a query of one node, or a filter within: `@..[?@.a == 1]`",
    "$[?length(@.a)] -> 4 ~ the function's result doesn't fit here ~ a comparison, as in `length(@.a) > 0`",
    "$[?match(@.a, 'b') == true] -> 4 ~ the function's result doesn't fit here ~ write `match(@.a, 'b.*')` alone: it is a test already",
    "$['a -> 3 ~ the string that begins here has no ending quote ~ the quote again, and `]`",
];

/// What is told of a refused path. Fails where its status is not 2, or something is written.
fn told(alloc: Global, path: &str) -> Came {
    let ran = run_line(alloc, path, "null")?;
    if ran.status != 2 || !ran.out.is_empty() {
        return Err(Fail::new(format_args!("status {}, written {}", ran.status, ran.out)));
    }
    Ok(ran.err)
}

/// What is told of a refused path, whole: the byte of the caret, what is wrong there, and what was probably meant are told
/// in lines of their own.
fn whole(alloc: Global, path: &str, parts: &str) -> Came {
    let (place, parts) = fields(parts)?;
    let (wrong, meant) = fields(parts)?;
    let bytes = place.parse::<usize>()?.saturating_sub(1);
    let blanks = " ".repeat(alloc, path.get(..bytes).unwrap_or("").len())?;
    Ok(format!(in alloc;
        "jpq: the path is refused at byte {place}: {wrong}\n  {path}\n  {blanks}^\n  {meant}\n"
    )?)
}

#[test]
fn shows_where_a_path_is_refused(rt: HostRuntime) -> Result<(), Fail> {
    let mut table = Table::new(&rt);
    for &row in REFUSALS {
        let (path, parts) = ends(row);
        let wanted = whole(rt.alloc(), path, parts)?;
        table.hold(("a refusal", path, wanted.as_str()), told(rt.alloc(), path));
    }
    table.end()
}

/// The path, and what is told, whole: wide and combining characters, a tab, a line feed, a long path.
const SHOWN: &[&str] = &[
    "$['日本' x] -> jpq: the path is refused at byte 12: expected closing ']', found 'x'\n  $['日本' x]\n           ^\n  write `'it\\'s'`: a quote in a string follows `\\`\n",
    "$['e\u{301}' x] -> jpq: the path is refused at byte 9: expected closing ']', found 'x'\n  $['e\u{301}' x]\n        ^\n  write `'it\\'s'`: a quote in a string follows `\\`\n",
    "$['a'\t\n x] -> jpq: the path is refused at byte 9: expected closing ']', found 'x'\n  $['a'\t\\n x]\n       \t   ^\n  write `'it\\'s'`: a quote in a string follows `\\`\n",
    "$.aaaaaaaaaabbbbbbbbbbccccccccccddddddddddeeeeeeeeeeffffffffffgggggggggg;12345678901234567890123456789012345678901234567890 -> jpq: the path is refused at byte 73: the path ends before this, found ';'\n  ...bbbbbbbbbbccccccccccddddddddddeeeeeeeeeeffffffffffgggggggggg;123456789012345678901234567890123456789...\n                                                                 ^\n  no `;` after a path\n",
];

#[test]
fn shows_wide_characters_tabs_and_long_paths(rt: HostRuntime) -> Result<(), Fail> {
    hold_rows(&rt, SHOWN, told)
}
