//! The paths in the lines of a file.

use jpq_options::paths::path_lines;
use std::alloc::Global;
use std::test::Fail;
use test_rows::{Came, hold_rows};

/// A file's text, and the path in each of its lines, in angle brackets.
const PATHS: &[&str] = &[
    " -> <>",
    "\n -> <><>",
    "$.a -> <$.a>",
    "$.a\n -> <$.a><>",
    "$.a\n$.b -> <$.a><$.b>",
    "# books\n$.a\n\n#\n$.b -> <><$.a><><><$.b>",
    "$.a\r\n\r\n# none\r\n$.b\r -> <$.a><><><$.b>",
    "$.a\r\r\n -> <$.a><>",
    "\t $.a  \n \n -> <$.a><><>",
    "$.a # b\n #c -> <$.a><>",
    "$.a\t#b\n$.a#b -> <$.a><$.a#b>",
    "$['\u{e9} #'] # '\n$[\" #\"]#\n -> <$['\u{e9} #']><$[\" #\"]#><>",
    r#"$['\' #'] # x -> <$['\' #']>"#,
    r#"$["' #"] # x -> <$["' #"]>"#,
];

/// The paths in the lines of a text.
fn found(alloc: Global, given: &str) -> Came {
    let mut text = String::new(alloc);
    for path in &path_lines(alloc, given)? {
        write!(&mut text, "<{path}>")?;
    }
    Ok(text)
}

#[test]
fn finds_paths(rt: HostRuntime) -> Result<(), Fail> {
    hold_rows(&rt, PATHS, found)
}
