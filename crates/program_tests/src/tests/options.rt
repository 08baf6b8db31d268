//! Command lines, and what they ask for.

use jpq_options::options::{Color, Options, Request, Shown, command, read};
use jsonpath_lines::{Form, Layout, LineEnd};
use std::alloc::{AllocError, Global};
use std::test::Fail;
use test_rows::{Came, hold_pairs, hold_row, hold_rows};

/// The words after the program's name, and the paths, files and settings that they ask for.
const ASKED: &[&str] = &[
    "$.a -> $.a",
    "$.a x.json - y.json -> $.a, of x.json, of -, of y.json",
    "-v $.a -> $.a, Value",
    "--values $.a -> $.a, Value",
    "-r $.a -> $.a, Raw",
    "--raw $.a -> $.a, Raw",
    "-l $.a -> $.a, Location",
    "--locations $.a -> $.a, Location",
    "-p $.a -> $.a, Pointer",
    "--pointers $.a -> $.a, Pointer",
    "-j $.a -> $.a, Json",
    "--json $.a -> $.a, Json",
    "-c $.a -> $.a, Count",
    "--count $.a -> $.a, Count",
    "-q $.a -> $.a, Nothing",
    "--quiet $.a -> $.a, Nothing",
    "--tsv $.a -> $.a, Tsv",
    "--csv --header $.a -> $.a, Csv, header",
    "--pretty $.a -> $.a, pretty",
    "--indent 4 $.a -> $.a, indent 4, pretty",
    "--tab $.a -> $.a, pretty, tab",
    "--ascii $.a -> $.a, ascii",
    "-0 $.a -> $.a, NUL",
    "--null $.a -> $.a, NUL",
    "-n 3 $.a -> $.a, most 3",
    "-n3 $.a -> $.a, most 3",
    "--max=0 $.a -> $.a, most 0",
    "--max 18446744073709551615 $.a -> $.a, most 18446744073709551615",
    "-m 3 $.a -> $.a, most of all 3",
    "--max-all=0 $.a -> $.a, most of all 0",
    "-c --total $.a -> $.a, Count, total",
    "-u $.a -> $.a, unique",
    "--unique $.a -> $.a, unique",
    "-L $.a -> $.a, lines",
    "--lines --strict $.a -> $.a, lines, strict",
    "-L --line-number $.a -> $.a, lines, line numbers",
    "--with-filename $.a x.json -> $.a, of x.json, with names",
    "--no-filename $.a x.json y.json -> $.a, of x.json, of y.json, no names",
    "--no-path-number -e $.a -e $.b -> $.a, $.b, no numbers",
    "--check $.a -> $.a, check",
    "--whole-numbers $.a -> $.a, whole numbers",
    "-s $.a -> $.a, silent",
    "--silent $.a -> $.a, silent",
    "--color=auto $.a -> $.a",
    "--color=always $.a -> $.a, colors Always",
    "--color never $.a -> $.a, colors Never",
    "-e $.a -> $.a",
    "-e $.a -e $.b x.json y.json -> $.a, $.b, of x.json, of y.json",
    "--expression=$.a --expression $.b -> $.a, $.b",
    "-f paths -> , from paths",
    "--from-file=paths x.json -> , from paths, of x.json",
    "-e $.a -f paths x.json -> $.a, from paths, of x.json",
    "-f paths -f others -> , from paths, from others",
    "--let a=b --let c=d=e $.a -> $.a, let a=b, let c=d=e",
    "-vun2 $.a x.json -> $.a, of x.json, Value, most 2, unique",
    "$.a x.json -Lv0 -> $.a, of x.json, Value, NUL, lines",
    "-- -a -b -> -a, of -b",
    "-e $.a --check -> $.a, check",
    // Of an option that is used twice the last use counts.
    "-v -v $.a -> $.a, Value",
    "-n 1 -n 2 $.a -> $.a, most 2",
    "--color=always --color=never $.a -> $.a, colors Never",
];

/// The words after the program's name, and the fault that is told of them.
const WRONG: &[&str] = &[
    "-v -l $.a -> ArgumentConflict: error: the argument '--values' cannot be used with '--locations'",
    "-lv $.a -> ArgumentConflict: error: the argument '--values' cannot be used with '--locations'",
    "-q -c -j $.a -> ArgumentConflict: error: the argument '--json' cannot be used with '--count'",
    "--check -c $.a -> ArgumentConflict: error: the argument '--check' cannot be used with '--count'",
    "--check -L $.a -> ArgumentConflict: error: the argument '--check' cannot be used with '--lines'",
    "--check --no-filename $.a -> ArgumentConflict: error: the argument '--check' cannot be used with '--no-filename'",
    "-c --pretty $.a -> ArgumentConflict: error: the argument '--count' cannot be used with '--pretty'",
    "-q -0 $.a -> ArgumentConflict: error: the argument '--quiet' cannot be used with '--null'",
    "--indent 4 --tab $.a -> ArgumentConflict: error: the argument '--indent' cannot be used with '--tab'",
    "--with-filename --no-filename $.a -> ArgumentConflict: error: the argument '--with-filename' cannot be used with '--no-filename'",
    "--indent 17 $.a -> ValueValidation: error: invalid value '17' for '--indent <N>': 17 is not in 0..=16",
    "--tsv -u $.a -> ArgumentConflict: error: the argument '--tsv' cannot be used with '--unique'",
    "--csv --pretty $.a -> ArgumentConflict: error: the argument '--csv' cannot be used with '--pretty'",
    "--tsv --csv $.a -> ArgumentConflict: error: the argument '--tsv' cannot be used with '--csv'",
    "--line-number $.a -> MissingRequiredArgument: error: the following required arguments were not provided:\n  --lines",
    "--total $.a -> MissingRequiredArgument: error: the following required arguments were not provided:\n  --count",
    "--header $.a -> MissingRequiredArgument: error: the following required arguments were not provided:\n  --tsv",
    "--strict $.a -> MissingRequiredArgument: error: the following required arguments were not provided:\n  --lines",
    "--check $.a x.json -> ArgumentConflict: error: the argument '--check' cannot be used with '[FILE]...'",
    "--check -e $.a x.json -> ArgumentConflict: error: the argument '--check' cannot be used with '[FILE]...'",
    "-v -> MissingRequiredArgument: error: the following required arguments were not provided:\n  <PATH>",
    "-n x $.a -> ValueValidation: error: invalid value 'x' for '--max <N>': invalid digit found in string",
    "-n=-1 $.a -> ValueValidation: error: invalid value '-1' for '--max <N>': invalid digit found in string",
    "-n 18446744073709551616 $.a -> ValueValidation: error: invalid value '18446744073709551616' for '--max <N>': number too large to fit in target type",
    "--color=blue $.a -> InvalidValue: error: invalid value 'blue' for '--color <WHEN>'\n  [possible values: auto, always, never]",
    "--colour $.a -> UnknownArgument: error: unexpected argument '--colour' found",
    "-x $.a -> UnknownArgument: error: unexpected argument '-x' found",
    "$.a -n -> InvalidValue: error: a value is required for '--max <N>' but none was supplied",
    "--values=1 $.a -> TooManyValues: error: unexpected value '1' for '--values' found; no more were expected",
];

/// The text that `--help` prints.
const HELP: &str = concat!(
    "Prints the nodes of JSON documents that a JSONPath (RFC 9535) selects\n",
    "\n",
    "Usage: jpq [OPTIONS] PATH [FILE]...\n",
    "\n",
    "Arguments:\n",
    "  [PATH]     The path; a file of documents where -e or -f is used\n",
    "  [FILE]...  Files of documents; standard input where there is none, and for -\n",
    "\n",
    "Options:\n",
    "  -v, --values             Print values alone\n",
    "  -r, --raw                Print values alone, and strings without quotes\n",
    "  -l, --locations          Print normalised paths alone\n",
    "  -p, --pointers           Print JSON pointers (RFC 6901) alone\n",
    "  -j, --json               Print a JSON array for each document, of objects with a path and a value\n",
    "      --tsv                Print a row for each document: the first node of each path, and tabs between\n",
    "      --csv                Print such a row with commas between\n",
    "  -c, --count              Print how many nodes are selected\n",
    "  -q, --quiet              Print nothing\n",
    "      --header             With --tsv or --csv, print the paths as the first row\n",
    "      --pretty             Indent values by two spaces a level\n",
    "      --indent <N>         Indent values by N spaces a level, from 0 to 16\n",
    "      --tab                Indent values by a tab a level\n",
    "      --ascii              Escape characters above U+007F in JSON and in normalised paths\n",
    "  -0, --null               End lines by a NUL in place of a line feed\n",
    "  -n, --max <N>            Print at most N nodes of a document for each path\n",
    "  -m, --max-all <N>        Print at most N nodes of all documents\n",
    "      --total              With --count, print the sum of all counts alone\n",
    "  -u, --unique             Print each location once\n",
    "  -L, --lines              Read each line as a document (NDJSON)\n",
    "      --line-number        With --lines, print the number of the line before what is printed of it\n",
    "      --with-filename      Print the file's name before what is printed of it, also of one file\n",
    "      --no-filename        Print no file's name, also with several files\n",
    "      --no-path-number     Print no path's number, also with several paths\n",
    "      --strict             With --lines, stop at a line that is not JSON\n",
    "      --check              Read no document, and print each path in its canonical form\n",
    "      --whole-numbers      Let a number that is not held as an integer equal nothing\n",
    "  -s, --silent             Give no hints\n",
    "      --color <WHEN>       When to use colours [default: auto] [possible values: auto, always, never]\n",
    "  -e, --expression <PATH>  Select by this path; may be used several times\n",
    "  -f, --from-file <FILE>   Select by the paths of a file, one on each line; '#' begins a comment\n",
    "      --let <NAME=VALUE>   Let the text '$NAME' in a filter stand for VALUE; may be used several times\n",
    "  -h, --help               Print help\n",
    "  -V, --version            Print version\n",
    "\n",
    "Exit status: 0 something was selected, 1 nothing was selected, 2 a path, a document, a file or a query\n",
    "was refused, 3 the output failed, 64 wrong use\n"
);

/// Some words, each after a title but for the first word, which may be without.
fn joined(alloc: Global, first: &str, title: &str, words: &[&str]) -> Result<String, AllocError> {
    let mut text = String::new(alloc);
    for (index, word) in words.iter().enumerate() {
        let before = if index == 0 { first } else { title };
        write!(&mut text, "{before}{word}")?;
    }
    Ok(text)
}

/// The settings that are not those of a command line without options.
fn settings(alloc: Global, options: &Options<'_>) -> Result<String, AllocError> {
    let mut text = String::new(alloc);
    match options.shown {
        Shown::Nodes(Form::LocationAndValue) => {}
        Shown::Nodes(form) => write!(&mut text, ", {form:?}")?,
        shown => write!(&mut text, ", {shown:?}")?,
    }
    for (number, word) in [
        (options.most, "most"),
        (options.most_of_all, "most of all"),
        (options.indent, "indent"),
    ] {
        if let Some(number) = number {
            write!(&mut text, ", {word} {number}")?;
        }
    }
    if options.color != Color::Auto {
        write!(&mut text, ", colors {:?}", options.color)?;
    }
    for (is_so, word) in [
        (options.header, "header"),
        (options.layout == Layout::Pretty, "pretty"),
        (options.tab, "tab"),
        (options.ascii, "ascii"),
        (options.end == LineEnd::Nul, "NUL"),
        (options.total, "total"),
        (options.unique, "unique"),
        (options.lines, "lines"),
        (options.line_number, "line numbers"),
        (options.with_filename, "with names"),
        (options.no_filename, "no names"),
        (options.no_path_number, "no numbers"),
        (options.strict, "strict"),
        (options.check, "check"),
        (options.whole_numbers, "whole numbers"),
        (options.silent, "silent"),
    ] {
        if is_so {
            write!(&mut text, ", {word}")?;
        }
    }
    Ok(text)
}

/// The paths, the files and the settings of options.
fn of_options(alloc: Global, options: &Options<'_>) -> Result<String, AllocError> {
    let mut text = joined(alloc, "", ", ", options.paths.as_slice())?;
    for file in &options.paths_files {
        write!(&mut text, ", from {file}")?;
    }
    for binding in &options.bindings {
        write!(&mut text, ", let {binding}")?;
    }
    let files = joined(alloc, ", of ", ", of ", options.files.as_slice())?;
    write!(&mut text, "{files}{}", settings(alloc, options)?)?;
    Ok(text)
}

/// What is asked for: options, a text, or the kind and the fault that is told.
pub(crate) fn of_asked(alloc: Global, asked: Request<'_>) -> Result<String, AllocError> {
    match asked {
        Request::Run(options) => of_options(alloc, &options),
        Request::Print(text) => Ok(text),
        Request::WrongUse(kind, text) => {
            let fault = text.split("\n\n").next().unwrap_or("");
            format!(in alloc; "{kind:?}: {fault}")
        }
    }
}

/// The program's name, and the words of a row.
pub(crate) fn words_of(alloc: Global, given: &str) -> Result<Vec<&str>, Fail> {
    let mut words: Vec<&str> = Vec::new(alloc);
    words.push("jpq")?;
    words.extend(given.split(' '))?;
    Ok(words)
}

/// What words ask for.
fn of_words(alloc: Global, words: &[&str]) -> Came {
    Ok(of_asked(alloc, read(alloc, words)?)?)
}

/// What the words of a row ask for.
fn asked(alloc: Global, given: &str) -> Came {
    of_words(alloc, words_of(alloc, given)?.as_slice())
}

#[test]
fn asks_for_options_or_tells_wrong_use(rt: HostRuntime) -> Result<(), Fail> {
    hold_rows(&rt, ASKED, asked)?;
    hold_rows(&rt, WRONG, asked)
}

/// Words, and what they print.
const PRINTED: &[(&[&str], &str)] = &[
    (&["jpq", "--help"], HELP),
    (&["/usr/bin/jpq", "-h"], HELP),
    (&["jpq", "-V"], "jpq 0.7.2\n"),
    (&["jpq", "--version"], "jpq 0.7.2\n"),
];

#[test]
fn prints_help(rt: HostRuntime) -> Result<(), Fail> {
    let help = command(rt.alloc())?.render_help()?;
    hold_row(&rt, ("jpq", "its help", HELP), Ok(help))?;
    hold_pairs(&rt, PRINTED, of_words)
}
