//! The words of `jpq`: the table of its options, and what a command line asks for.

ghost use Rattle.std.specs.Prelude.{◌≡◌, [], IfErr, IfOk, IsErr, codes, false, fold, is_some};
ghost use Rattle.std.specs.Prelude.{map, option_map, true};
ghost use Rattle.std.specs.List.{filter, list_any};
ghost use Rattle.clap.specs.Words.{app_of, found_of, kind_of, rows_of, rule_of, with_rule};
ghost use Rattle.clap.specs.declared.builder.value_parser.ValueParser.{ValueParser as parser};
ghost use Rattle.jpq_options.specs.Table.{IsColorParser, jpq, rule_of_setting, setting_of};
ghost use Rattle.jpq_options.specs.Table.{settings};
ghost use Rattle.jpq_options.specs.Options.{IsRequestOf, AreOptions, AsksFor, IsRefusal, IsTold};
ghost use Rattle.jpq_options.specs.Options.{color_in, end_of, files_of, first_form, form_of_row};
ghost use Rattle.jpq_options.specs.Options.{forms, has_two, is_indented, is_table, kind_of_misuse};
ghost use Rattle.jpq_options.specs.Options.{layout_of, misuse_by, paths_of, texts};
ghost use Rattle.jpq_options.specs.Pairs.{is_given, is_given_so, pair_of_row, values_of};

use crate::misuse::{Misuse, conflicts, needs, with_own_tip};
use clap::builder::ValueParser;
use clap::error::ErrorKind;
use clap::parser::ValueSource;
use clap::{Arg, ArgAction, ArgMatches, Command, Error, value_parser};
use jsonpath_lines::{Form, Layout, LineEnd};
use std::alloc::{AllocError, Global};
use std::convert::AsStr;

/// When lines have colours.
#[derive(Clone, Copy, Debug, PartialEq, Eq)]
pub enum Color {
    /// Where the output is a terminal.
    Auto,
    /// Always.
    Always,
    /// Never.
    Never,
}

/// What is shown of what the paths select.
#[derive(Clone, Copy, Debug, PartialEq, Eq)]
pub enum Shown {
    /// The nodes, in a form.
    Nodes(Form),
    /// A row for each document, with the first node of each path in a cell, and tabs between the cells.
    Tsv,
    /// The same, with commas between the cells.
    Csv,
}

/// What a command line asks the program to do. The texts are words of the command line.
#[derive(Debug, Drop)]
pub struct Options<'a> {
    /// The paths that the words have, in order.
    pub paths: Vec<&'a str>,
    /// The files of further paths, in order.
    pub paths_files: Vec<&'a str>,
    /// Names and their values, with `=` between.
    pub bindings: Vec<&'a str>,
    /// The files of documents, in order. Where there is none, standard input is read; `-` stands for it too.
    pub files: Vec<&'a str>,
    /// What is shown.
    pub shown: Shown,
    /// Whether the paths are the first row of a table.
    pub header: bool,
    /// How values are laid out.
    pub layout: Layout,
    /// By how many spaces a level is indented, where that is said.
    pub indent: Option<u64>,
    /// Whether a level is indented by a tab.
    pub tab: bool,
    /// Whether characters above U+007F are escaped.
    pub ascii: bool,
    /// What ends a line.
    pub end: LineEnd,
    /// How many nodes of a document are shown at most, for each path.
    pub most: Option<u64>,
    /// How many nodes of all documents are shown at most.
    pub most_of_all: Option<u64>,
    /// Whether the sum of all counts is shown alone.
    pub total: bool,
    /// Whether each location is shown once.
    pub unique: bool,
    /// Whether each line of an input is a document.
    pub lines: bool,
    /// Whether what is shown begins with the number of its document's line.
    pub line_number: bool,
    /// Whether what is shown begins with the file's name, also where there is one file.
    pub with_filename: bool,
    /// Whether it doesn't, also where there are several.
    pub no_filename: bool,
    /// Whether what is shown doesn't begin with the path's number, also where there are several paths.
    pub no_path_number: bool,
    /// Whether a line that is no JSON ends the run.
    pub strict: bool,
    /// Whether paths are checked and no document is read.
    pub check: bool,
    /// Whether a number that is not held as an integer equals nothing.
    pub whole_numbers: bool,
    /// Whether hints are left out.
    pub silent: bool,
    /// When lines have colours.
    pub color: Color,
}

/// What a command line asks for.
#[derive(Debug, Drop)]
pub enum Request<'a> {
    /// To run with these options.
    Run(Options<'a>),
    /// To print this text: the help, or the version.
    Print(String),
    /// Nothing that can be done: the kind of the fault, and the text that tells it.
    WrongUse(ErrorKind, String),
}

/// What the word after an option is.
#[derive(Clone, Copy, Debug, PartialEq, Eq)]
enum Takes {
    /// There is none.
    Nothing,
    /// A path. The option may be used several times.
    Path,
    /// A file's name. The option may be used several times.
    File,
    /// A name and a value, with `=` between. The option may be used several times.
    Binding,
    /// A number from 0 to 2^64-1.
    Number,
    /// A number from 0 to 16.
    Width,
    /// One of [`WHEN`].
    When,
}

/// An option of the program.
#[derive(Clone, Copy, Debug)]
struct OptionRow {
    /// Its long name, by which it is also found.
    name: &'static str,
    short: Option<char>,
    takes: Takes,
    help: &'static str,
}

/// The rows of the table of options: a name, its letter, what the word after it is, and the help.
macro_rules! options {
    ($($name:literal, $short:expr, $takes:ident => $help:literal;)*) => {
        [$(OptionRow { name: $name, short: $short, takes: Takes::$takes, help: $help }),*]
    };
}

/// The options, in the order of the help.
static OPTIONS: [OptionRow; 32] = options! {
    "values", Some('v'), Nothing => "Print values alone";
    "raw", Some('r'), Nothing => "Print values alone, and strings without quotes";
    "locations", Some('l'), Nothing => "Print normalised paths alone";
    "pointers", Some('p'), Nothing => "Print JSON pointers (RFC 6901) alone";
    "json", Some('j'), Nothing => "Print a JSON array for each document, of objects with a path and a value";
    "tsv", None, Nothing => "Print a row for each document: the first node of each path, and tabs between";
    "csv", None, Nothing => "Print such a row with commas between";
    "count", Some('c'), Nothing => "Print how many nodes are selected";
    "quiet", Some('q'), Nothing => "Print nothing";
    "header", None, Nothing => "With --tsv or --csv, print the paths as the first row";
    "pretty", None, Nothing => "Indent values by two spaces a level";
    "indent", None, Width => "Indent values by N spaces a level, from 0 to 16";
    "tab", None, Nothing => "Indent values by a tab a level";
    "ascii", None, Nothing => "Escape characters above U+007F in JSON and in normalised paths";
    "null", Some('0'), Nothing => "End lines by a NUL in place of a line feed";
    "max", Some('n'), Number => "Print at most N nodes of a document for each path";
    "max-all", Some('m'), Number => "Print at most N nodes of all documents";
    "total", None, Nothing => "With --count, print the sum of all counts alone";
    "unique", Some('u'), Nothing => "Print each location once";
    "lines", Some('L'), Nothing => "Read each line as a document (NDJSON)";
    "line-number", None, Nothing => "With --lines, print the number of the line before what is printed of it";
    "with-filename", None, Nothing => "Print the file's name before what is printed of it, also of one file";
    "no-filename", None, Nothing => "Print no file's name, also with several files";
    "no-path-number", None, Nothing => "Print no path's number, also with several paths";
    "strict", None, Nothing => "With --lines, stop at a line that is not JSON";
    "check", None, Nothing => "Read no document, and print each path in its canonical form";
    "whole-numbers", None, Nothing => "Let a number that is not held as an integer equal nothing";
    "silent", Some('s'), Nothing => "Give no hints";
    "color", None, When => "When to use colours";
    "expression", Some('e'), Path => "Select by this path; may be used several times";
    "from-file", Some('f'), File => "Select by the paths of a file, one on each line; '#' begins a comment";
    "let", None, Binding => "Let the text '$NAME' in a filter stand for VALUE; may be used several times";
};

/// The options of which one may be used, and what each asks to show.
static FORMS: [(&'static str, Shown); 9] = [
    ("values", Shown::Nodes(Form::Value)),
    ("raw", Shown::Nodes(Form::Raw)),
    ("locations", Shown::Nodes(Form::Location)),
    ("pointers", Shown::Nodes(Form::Pointer)),
    ("json", Shown::Nodes(Form::Json)),
    ("tsv", Shown::Tsv),
    ("csv", Shown::Csv),
    ("count", Shown::Nodes(Form::Count)),
    ("quiet", Shown::Nodes(Form::Nothing)),
];

/// What `--color` takes.
static WHEN: [&'static str; 3] = ["auto", "always", "never"];

/// The version that `--version` prints.
const VERSION: &'static str = "0.7.2";

/// What the program does, in the help.
const ABOUT: &'static str = "Prints the nodes of JSON documents that a JSONPath (RFC 9535) selects";

/// How the program is used.
const USAGE: &'static str = "jpq [OPTIONS] PATH [FILE]...";

/// The exit statuses, at the end of the help.
const STATUSES: &'static str = concat!(
    "Exit status: 0 something was selected, 1 nothing was selected, 2 a path, a document, a file or a query\n",
    "was refused, 3 the output failed, 64 wrong use"
);

/// The table of options.
fn option_rows() -> &'static [OptionRow]
    ensures { map setting_of result.now ≡ settings }
{
    &OPTIONS
}

/// The table of forms.
fn form_rows() -> &'static [(&'static str, Shown)]
    ensures { map form_of_row result.now ≡ forms }
{
    &FORMS
}

/// The parser of the word that `--color` takes.
fn color_parser<'a>() -> ValueParser<'a>
    ensures { IsColorParser result }
{
    ValueParser::Names(&WHEN)
}

/// The argument of an option, where `--color` takes its word by this parser.
fn argument<'a>(alloc: Global, row: &OptionRow, colors: ValueParser<'a>) -> Arg<'a>
    ensures rule { rule_of result ≡ rule_of_setting colors.entry (setting_of row.now) }
    ensures local { result.global ≡ false }
{
    let mut argument = Arg::new(alloc, row.name).long(row.name).help(row.help);
    if let Some(short) = row.short {
        argument = argument.short(short);
    }
    match row.takes {
        Takes::Nothing => argument.action(ArgAction::SetTrue),
        Takes::Path => argument.action(ArgAction::Append).value_name("PATH"),
        Takes::File => argument.action(ArgAction::Append).value_name("FILE"),
        Takes::Binding => argument.action(ArgAction::Append).value_name("NAME=VALUE"),
        Takes::Number => argument
            .action(ArgAction::Set)
            .value_name("N")
            .value_parser(value_parser!(u64)),
        Takes::Width => argument
            .action(ArgAction::Set)
            .value_name("N")
            .value_parser(ValueParser::Unsigned(0, 16)),
        Takes::When => argument
            .action(ArgAction::Set)
            .value_name("WHEN")
            .value_parser(colors)
            .default_value("auto"),
    }
}

/// A command with an argument for each row of a table.
fn with_options<'a>(
    alloc: Global,
    mut command: Command<'a>,
    rows: &[OptionRow],
    colors: ValueParser<'a>,
) -> Result<Command<'a>, AllocError>
    ensures { IfOk result (λ r. app_of r ≡ fold with_rule (app_of command.entry)
        (map (λ row. rule_of_setting colors.entry (setting_of row)) rows.now)) }
{
    for row in rows {
        command = command.arg(argument(alloc, row, colors))?;
    }
    Ok(command)
}

/// The command that reads the words of `jpq`. It fails where memory is refused.
pub fn command<'a>(alloc: Global) -> Result<Command<'a>, AllocError>
    ensures { IfOk result (λ c. (colors : parser) × IsColorParser colors
        × (app_of c ≡ jpq colors)) }
{
    let path = Arg::new(alloc, "path")
        .value_name("PATH")
        .help("The path; a file of documents where -e or -f is used");
    let file = Arg::new(alloc, "file")
        .value_name("FILE")
        .action(ArgAction::Append)
        .help("Files of documents; standard input where there is none, and for -");
    let command = Command::new(alloc, "jpq")
        .version(VERSION)
        .about(ABOUT)
        .override_usage(USAGE)
        .after_help(STATUSES)
        .args_override_self(true)
        .arg(path)?
        .arg(file)?;
    with_options(alloc, command, option_rows(), color_parser())
}

/// Whether the words have an option.
#[tactic(auto, using(crate::proofs::Found::of_found))]
fn is_given(matches: &ArgMatches<'_>, name: &str) -> bool
    ensures { result ≡ is_given name.now (rows_of (found_of matches.now)) }
{
    matches!(matches.value_source(name), Some(ValueSource::CommandLine))
}

/// The values of an argument, in order.
#[tactic(auto, using(crate::proofs::Found::of_found))]
fn values<'a>(
    alloc: Global,
    matches: &ArgMatches<'a>,
    name: &str,
) -> Result<Vec<&'a str>, AllocError>
    ensures { IfOk result (λ v. texts v.items
        ≡ values_of name.now (rows_of (found_of matches.now))) }
{
    match matches.get_strs(name) {
        Some(found) => Vec::from_slice(alloc, found),
        None => Ok(Vec::new(alloc)),
    }
}

/// The paths and the files that the words have. Where an option has the paths, the first word is a file too.
fn paths_and_files<'a>(
    alloc: Global,
    matches: &ArgMatches<'a>,
) -> Result<(Vec<&'a str>, Vec<&'a str>), AllocError>
    ensures { IfOk result (λ r. (texts r.0.items ≡ paths_of (rows_of (found_of matches.now)))
        × (texts r.1.items ≡ files_of (rows_of (found_of matches.now)))) }
{
    let mut first = values(alloc, matches, "path")?;
    let rest = values(alloc, matches, "file")?;
    if is_given(matches, "expression") || is_given(matches, "from-file") {
        first.extend_from_slice(&rest)?;
        return Ok((values(alloc, matches, "expression")?, first));
    }
    Ok((first, rest))
}

/// The rows of a table of forms that are asked for.
fn forms_given(
    alloc: Global,
    matches: &ArgMatches<'_>,
    all: &[(&'static str, Shown)],
) -> Result<Vec<(&'static str, Shown)>, AllocError>
    ensures { IfOk result (λ v. v.items
        ≡ filter (λ f. is_given f.0.now (rows_of (found_of matches.now))) all.now) }
{
    let mut given = Vec::new(alloc);
    for row in all {
        if is_given(matches, row.0) {
            given.push(*row)?;
        }
    }
    Ok(given)
}

/// Whether some option asks for indented values.
fn is_indented(matches: &ArgMatches<'_>) -> bool
    ensures { result ≡ is_indented (rows_of (found_of matches.now)) }
{
    is_given(matches, "pretty") || is_given(matches, "indent") || is_given(matches, "tab")
}

/// How values are laid out, indented or not.
fn layout_of(is_indented: bool) -> Layout
    ensures { result ≡ layout_of is_indented }
{
    if is_indented {
        Layout::Pretty
    } else {
        Layout::Compact
    }
}

/// What ends a line, a NUL or not.
fn end_of(is_null: bool) -> LineEnd
    ensures { result ≡ end_of is_null }
{
    if is_null {
        LineEnd::Nul
    } else {
        LineEnd::LineFeed
    }
}

/// When lines have colours, by the word after `--color`.
fn color_in(word: Option<&str>) -> Color
    ensures { result ≡ color_in (option_map (λ s. s.now) word.entry) }
{
    match word {
        Some("always") => Color::Always,
        Some("never") => Color::Never,
        _ => Color::Auto,
    }
}

/// The options that were found, in this form.
fn options_of<'a>(
    alloc: Global,
    matches: &ArgMatches<'a>,
    shown: Shown,
) -> Result<Options<'a>, AllocError>
    ensures { IfOk result (AreOptions (rows_of (found_of matches.now)) shown) }
{
    let (paths, files) = paths_and_files(alloc, matches)?;
    Ok(Options {
        paths,
        paths_files: values(alloc, matches, "from-file")?,
        bindings: values(alloc, matches, "let")?,
        files,
        shown,
        header: is_given(matches, "header"),
        layout: layout_of(is_indented(matches)),
        indent: matches.get_one("indent"),
        tab: is_given(matches, "tab"),
        ascii: is_given(matches, "ascii"),
        end: end_of(is_given(matches, "null")),
        most: matches.get_one("max"),
        most_of_all: matches.get_one("max-all"),
        total: is_given(matches, "total"),
        unique: is_given(matches, "unique"),
        lines: is_given(matches, "lines"),
        line_number: is_given(matches, "line-number"),
        with_filename: is_given(matches, "with-filename"),
        no_filename: is_given(matches, "no-filename"),
        no_path_number: is_given(matches, "no-path-number"),
        strict: is_given(matches, "strict"),
        check: is_given(matches, "check"),
        whole_numbers: is_given(matches, "whole-numbers"),
        silent: is_given(matches, "silent"),
        color: color_in(matches.get_str("color")),
    })
}

/// What is asked to be shown, by the rows of the table of forms that are given. It fails where there are two.
fn form_of(given: &[(&'static str, Shown)]) -> Result<Shown, Misuse>
    ensures ok { IfOk result (λ shown. (has_two (map form_of_row given.now) ≡ false)
        × (shown ≡ first_form (map form_of_row given.now))) }
    ensures two { IfErr result (λ misuse. (has_two (map form_of_row given.now) ≡ true)
        × (kind_of_misuse misuse ≡ ErrorKind.ArgumentConflict)) }
{
    match given {
        [] => Ok(Shown::Nodes(Form::LocationAndValue)),
        [(_, shown)] => Ok(*shown),
        [(one, _), (other, _), ..] => Err(Misuse::Together(one, other)),
    }
}

/// Whether a table is shown.
fn is_table(shown: Shown) -> bool
    ensures { result ≡ is_table shown }
{
    matches!(shown, Shown::Tsv | Shown::Csv)
}

/// A pair of options of the table that are both given, or of which the first is given alone.
fn first_pair(
    matches: &ArgMatches<'_>,
    pairs: &[(&'static str, &'static str)],
    both: bool,
) -> Option<(&'static str, &'static str)>
    ensures { is_some result ≡ list_any
        (is_given_so both (rows_of (found_of matches.now))) (map pair_of_row pairs.now) }
{
    for pair in pairs {
        if is_given(matches, pair.0) && is_given(matches, pair.1) == both {
            return Some(*pair);
        }
    }
    None
}

/// How the options are used wrongly, each form apart.
fn misuse_of(matches: &ArgMatches<'_>, options: &Options<'_>) -> Option<Misuse>
    requires { AreOptions (rows_of (found_of matches.now)) options.now.shown options.now }
    ensures { option_map kind_of_misuse result ≡ misuse_by options.now.shown
        (rows_of (found_of matches.now)) }
{
    if options.paths.is_empty() && options.paths_files.is_empty() {
        return Some(Misuse::NoPath);
    }
    if options.check && !options.files.is_empty() {
        return Some(Misuse::CheckOfFile);
    }
    if let Some((one, other)) = first_pair(matches, conflicts(), true) {
        return Some(Misuse::Together(one, other));
    }
    if let Some((_, other)) = first_pair(matches, needs(), false) {
        return Some(Misuse::Without(other));
    }
    if options.header && !is_table(options.shown) {
        return Some(Misuse::Without("tsv"));
    }
    None
}

/// The message about a misuse, in the form of the errors of `clap`.
fn refused<'a>(
    alloc: Global,
    mut command: Command<'_>,
    misuse: Misuse,
) -> Result<Request<'a>, AllocError>
    ensures { IfOk result (IsRefusal (kind_of_misuse misuse)) }
{
    let message = format!(in alloc; "{misuse}")?;
    let error = command.error(misuse.kind(), message.as_str())?;
    Ok(Request::WrongUse(misuse.kind(), format!(in alloc; "{error}")?))
}

/// What an answer of `clap` without matches asks for.
fn reported<'a>(alloc: Global, error: &Error) -> Result<Request<'a>, AllocError>
    ensures fault { IfOk result (IsTold (kind_of error.now)) }
    ensures memory { kind_of error.now ≡ ErrorKind.OutOfMemory → IsErr result }
{
    match error.kind() {
        ErrorKind::OutOfMemory => Err(AllocError),
        ErrorKind::DisplayHelp => Ok(Request::Print(format!(in alloc; "{error}")?)),
        ErrorKind::DisplayVersion => Ok(Request::Print(format!(in alloc; "jpq {VERSION}\n")?)),
        kind => {
            let text = format!(in alloc; "{error}")?;
            Ok(Request::WrongUse(kind, with_own_tip(alloc, text.as_str())?))
        }
    }
}

/// What words ask for, by what was found in them.
fn asked_of<'a>(
    alloc: Global,
    command: Command<'_>,
    matches: &ArgMatches<'a>,
) -> Result<Request<'a>, AllocError>
    ensures { IfOk result (IsRequestOf [] (rows_of (found_of matches.now))) }
{
    let given = forms_given(alloc, matches, form_rows())?;
    let shown = match form_of(given.as_slice()) {
        Ok(shown) => shown,
        Err(misuse) => return refused(alloc, command, misuse),
    };
    let options = options_of(alloc, matches, shown)?;
    match misuse_of(matches, &options) {
        None => Ok(Request::Run(options)),
        Some(misuse) => refused(alloc, command, misuse),
    }
}

/// What a command line asks for. The first word is the program's name. It fails where memory is refused.
///
/// Two forms, as `-v -l`, no path, `--check` with a file, and `--strict` without `--lines` are wrong use too. `clap` could find
/// these by rules of one argument on another, but then no clause of it says when a parse fails. So they are looked for here,
/// and reported in the words and in the form of `clap`.
///
/// ```text
/// read(alloc, &["jpq", "-v", "$.a", "x.json"])
/// gives options with the path $.a, the file x.json and the form Value
/// ```
pub fn read<'a, S: AsStr>(alloc: Global, words: &'a [S]) -> Result<Request<'a>, AllocError>
    ensures { IfOk result (AsksFor (map S.text words.entry.now)) }
{
    let mut command = command(alloc)?;
    match command.try_get_matches_from_mut(words) {
        Ok(matches) => asked_of(alloc, command, &matches),
        Err(error) => reported(alloc, &error),
    }
}
