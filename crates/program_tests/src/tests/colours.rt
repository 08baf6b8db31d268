//! Lines in colours.

use crate::tests::forms::form;
use crate::tests::inputs::{MemoryInputs, words};
use jpq_program::colours::{Colours, takes_colors};
use jpq_program::run::run;
use jpq_program::streams::Streams;
use jsonpath_lines::{Palette, colored};
use std::alloc::Global;
use std::test::Fail;
use test_rows::{Came, fields, hold_rows};

/// A form, a line, and the line with its colours: `<` stands for the sequence before a part, with its colour's last digit,
/// and `>` for the one after it.
const LINES: &[&str] = &[
    "location and value ~ $['a \"b'][0]\tnull\n -> <5$['a \"b'][0]>\t<3null>\n",
    "location and value ~ $\t-1.5e+3 -> <5$>\t<6-1.5e+3>",
    "location and value ~ $\t1\n$[0]\t2\n -> <5$>\t<61>\n<5$[0]>\t<62>\n",
    "value ~  -> ",
    "value ~ [] -> []",
    r#"value ~ {"a":["b\"c\\",true,10]} -> {<2"a">:[<2"b\"c\\">,<3true>,<610>]}"#,
    r#"value ~ "é" -> <2"é">"#,
    "location ~ $['1'] -> <5$['1']>",
    "location ~ $\0$[0]\0 -> <5$>\0<5$[0]>\0",
    "pointer ~ /a\"/1\n -> <5/a\"/1>\n",
    "pointer ~ \n -> \n",
    "raw ~ a \"b\" 1 -> a \"b\" 1",
    r#"json ~ [{"path":"$[0]","value":1}] -> [{<2"path">:<2"$[0]">,<2"value">:<61>}]"#,
    "count ~ 12\n -> <612>\n",
    "nothing ~  -> ",
    // Strings side by side.
    r#"value ~ "a""b":"c" -> <2"a""b">:<2"c">"#,
];

/// Colours of which each part has its own.
fn own_colours() -> Palette<'static> {
    Palette {
        null_word: "31",
        false_word: "32",
        true_word: "33",
        number: "34",
        string: "35",
        name: "36",
        location: "37",
    }
}

/// The same in colours of which each part has its own.
const OWN_LINES: &[&str] = &[
    "location and value ~ $['a \"b'][0]\tnull\n -> <7$['a \"b'][0]>\t<1null>\n",
    "location and value ~ $['a']\t\"b\"\n$\t{\"c\":1}\n -> <7$['a']>\t<5\"b\">\n<7$>\t{<6\"c\">:<41>}\n",
    r#"value ~ {"a":["b",{"c":"d"}]} -> {<6"a">:[<5"b">,{<6"c">:<5"d">}]}"#,
    r#"value ~ {"a\"b\\":"c\"d\\"} -> {<6"a\"b\\">:<5"c\"d\\">}"#,
    r#"value ~ [":",{":":":"}] -> [<5":">,{<6":">:<5":">}]"#,
    r#"value ~ {"é":"\u00e9"} -> {<6"é">:<5"\u00e9">}"#,
    "value ~ {\n  \"a\": \"b\"\n} -> {\n  <6\"a\">: <5\"b\">\n}",
    "value ~ [1,-2.5e+3] -> [<41>,<4-2.5e+3>]",
    "value ~ 1\n2\n -> <41>\n<42>\n",
    "value ~ [null,false,true] -> [<1null>,<2false>,<3true>]",
    r#"value ~ "a -> <5"a>"#,
    "pointer ~ /a\"/1\n -> <7/a\"/1>\n",
    r#"raw ~ {"a":1} -> {"a":1}"#,
    r#"json ~ [{"path":"$[0]","value":1}] -> [{<6"path">:<5"$[0]">,<6"value">:<41>}]"#,
];

/// A line in colours, with the short signs of the rows. The first field is its form.
fn with_signs(alloc: Global, given: &str, palette: &Palette<'_>) -> Came {
    let (name, line) = fields(given)?;
    let mut text = String::new(alloc);
    let line = colored(alloc, line, form(name)?, palette)?;
    for part in line.as_str().split('\u{1b}') {
        match part.strip_prefix("[0m") {
            Some(plain) => {
                text.push('>')?;
                text.push_str(plain)?;
            }
            None => push_coloured(&mut text, part)?,
        }
    }
    Ok(text)
}

/// Appends a part that begins with a colour, or the first part.
fn push_coloured(text: &mut String, part: &str) -> Result<(), Fail> {
    let coloured = part.strip_prefix("[3");
    match coloured.and_then(|rest| rest.split_once('m')) {
        Some((digit, plain)) => Ok(write!(text, "<{digit}{plain}")?),
        None => Ok(text.push_str(part)?),
    }
}

/// A line in the usual colours.
fn in_usual_colours(alloc: Global, given: &str) -> Came {
    with_signs(alloc, given, &Palette::usual())
}

/// A line in colours of which each part has its own.
fn in_own_colours(alloc: Global, given: &str) -> Came {
    with_signs(alloc, given, &own_colours())
}

#[test]
fn lines_in_colours(rt: HostRuntime) -> Result<(), Fail> {
    hold_rows(&rt, LINES, in_usual_colours)
}

#[test]
fn lines_in_own_colours(rt: HostRuntime) -> Result<(), Fail> {
    hold_rows(&rt, OWN_LINES, in_own_colours)
}

/// What an output is, and what the environment says; and whether the output takes colours.
const OUTPUTS: &[&str] = &[
    "a terminal -> true",
    "a dumb terminal -> false",
    "a pipe -> false",
    "a pipe, CLICOLOR_FORCE -> true",
    "a dumb terminal, CLICOLOR_FORCE -> true",
    "a terminal, NO_COLOR -> false",
    "a pipe, NO_COLOR, CLICOLOR_FORCE -> false",
];

/// Whether such an output takes colours.
fn takes(alloc: Global, output: &str) -> Came {
    let taken = takes_colors(
        output.contains("terminal"),
        output.contains("dumb"),
        output.contains("NO_COLOR"),
        output.contains("CLICOLOR_FORCE"),
    );
    Ok(format!(in alloc; "{taken}")?)
}

#[test]
fn heeds_the_environment(rt: HostRuntime) -> Result<(), Fail> {
    hold_rows(&rt, OUTPUTS, takes)
}

/// Words, a palette, and a value in its colours, as `cat -v` shows it; or what is told of the palette before the usual colours.
const PALETTES: &[&str] = &[
    "$.m ~ 0;90:1:2:3:4:5:6:7:8 -> ^[[8m$['m']^[[0m {^[[7m\"a\"^[[0m:[^[[0;90mnull^[[0m,^[[1mfalse^[[0m,^[[2mtrue^[[0m,^[[3m1^[[0m,^[[4m\"b\"^[[0m]}",
    "$.m ~ :::: -> ^[[35m$['m']^[[0m {^[[32m\"a\"^[[0m:[^[[mnull^[[0m,^[[mfalse^[[0m,^[[mtrue^[[0m,^[[m1^[[0m,^[[m\"b\"^[[0m]}",
    "$.m ~ red -> jpq: JPQ_COLORS is not in jq's form, as 0;90:0;37:0;37:0;36:0;32~^[[35m$['m']^[[0m {^[[32m\"a\"^[[0m:[^[[33mnull^[[0m,^[[33mfalse^[[0m,^[[33mtrue^[[0m,^[[36m1^[[0m,^[[32m\"b\"^[[0m]}",
    // A text with an escape character of its own.
    "-r  $.e ~ 1:2:3:4:5:6:7:8:9 -> ^[[35mx",
];

/// What a run tells and writes by a palette.
fn by_palette(alloc: Global, row: &str) -> Came {
    let (told_words, palette) = row.split_once(" ~ ").unwrap_or(("", row));
    let mut inputs = MemoryInputs {
        standard: r#"{"m":{"a":[null,false,true,1,"b"]},"e":"\u001b[35mx"}"#,
        fails_at: usize::MAX,
    };
    let out: Vec<u8> = Vec::new(alloc);
    let err: Vec<u8> = Vec::new(alloc);
    let mut streams = Streams::new(alloc, out, err);
    let words = words(alloc, told_words)?;
    let colours = Colours {
        taken: true,
        palette: Some(palette),
    };
    run(alloc, &words, colours, &mut inputs, &mut streams);
    let (told, written) = (
        str::from_utf8(streams.err.as_slice())?,
        str::from_utf8(streams.out.as_slice())?,
    );
    let text = format!(in alloc; "{}{}", told.replace(alloc, "\n", "~")?, written.trim_end())?;
    Ok(
        text.replace(alloc, "\u{1b}", "^[")?
            .replace(alloc, "\t", " ")?,
    )
}

#[test]
fn takes_a_palette(rt: HostRuntime) -> Result<(), Fail> {
    hold_rows(&rt, PALETTES, by_palette)
}
