//! The program over its inputs and two writers.

ghost use Rattle.std.specs.Prelude.{◌≡◌, ◌≤◌, ◌⊎◌, [], IfOk, IfSome, OnOk, false, map, option_map, replicate, string_bytes, true};
ghost use Rattle.std.specs.Io.KnownBytes.{Appends};
ghost use Rattle.serde_json_path.specs.Paths.{path_tree};
ghost use Rattle.serde_json_path_reach.specs.Alike.{trees_of};
ghost use Rattle.serde_json_path_reach.specs.Readers.{Keeps};
ghost use Rattle.jsonpath_lines.specs.Coloured.{parameters_of};
ghost use Rattle.jsonpath_lines.specs.Sent.{AppendsBeginning};
ghost use Rattle.jpq_options.specs.Options.{AsksFor};
ghost use Rattle.jpq_options.specs.declared.options.Request as input;
ghost use Rattle.jpq_program.specs.Colours.{colours_for};
ghost use Rattle.jpq_program.specs.Inputs.{AreInputsShown, AreKnown, Opens, OpensFirst, OpensWanted};
ghost use Rattle.jpq_program.specs.Inside.{AnswersRun, AreBetween, Begins, OnlyTells, OpensBy, ReadsForPaths, SendsAll, SendsFor, SendsInputs, texts_asked, heads_in, is_quiet, is_whole, look_with, named_for, shows_places, status_after, status_of, told_after, wanted_in_part_by};
ghost use Rattle.jpq_program.specs.Run.{AreAllInPart, ComesOf, IsAnsweredInPart, IsChecked, IsCheckedInPart, IsPrinted, LacksMemory, canonical_lines, is_colored, look_in, looked_at_in, names_in, opened_in, output_in, path_files_in, path_texts, unit_in};

use crate::answering::Answering;
use crate::asked_path::AskedPath;
use crate::colours::{Colours, palette_in};
use crate::documents::Documents;
use crate::dress::Dress;
use crate::empty_answer::Marks;
use crate::inputs::Inputs;
use crate::paths::asked_paths;
use crate::patterns::no_pattern;
use crate::showing::Showing;
use crate::source::Heads;
use crate::streams::{Next, OUTPUT_FAILED, REFUSED, SELECTED, Stop, Streams, WRONG_USE};
use jpq_options::options::{Color, Options, Request, Shown, read};
use jsonpath_lines::{Form, Output, Palette};
use serde_json::Value;
use serde_json_path::DocumentReader;
use serde_json_path::functions::{CachedPatterns, PatternStore};
use serde_json_path_syntax::Checked;
use std::alloc::{AllocError, Global};
use std::io::Write;

/// Writes each path in its canonical form.
fn check<W: Write, E: Write>(paths: &[AskedPath], streams: &mut Streams<W, E>) -> Result<(), Stop>
    ensures out { string_bytes streams.old.pending ≡ [] → OnOk result
        (Appends (W.contents streams.old.out) (W.contents streams.new.out)
        (canonical_lines (map (λ path. path.path) paths.now))) }
    ensures begun { string_bytes streams.old.pending ≡ []
        → AppendsBeginning (W.contents streams.old.out) (W.contents streams.new.out)
        (canonical_lines (map (λ path. path.path) paths.now)) }
    ensures selected { OnOk result (streams.new.outcome
        ≡ record streams.old.outcome { selected = true }) }
    ensures quiet { streams.new.err ≡ streams.old.err }
{
    for path in paths {
        write!(streams.pending, "{}\n", path.path)?;
    }
    streams.outcome.selected = true;
    streams.write()
}

/// Tells of the first pattern in paths that is none, unless hints are left out.
fn hint_at_patterns<W: Write, E: Write>(
    alloc: Global,
    silent: bool,
    paths: &[AskedPath],
    streams: &mut Streams<W, E>,
) -> Result<(), Stop>
    ensures told { OnlyTells streams.old streams.new }
    ensures quiet { silent ≡ true → streams.new ≡ streams.old }
{
    if silent {
        return Ok(());
    }
    for path in paths {
        let tree = path.path.tree();
        if let Some(pattern) = no_pattern(alloc, tree, tree.segments())? {
            let pattern = Value::String(String::from_str(alloc, pattern)?);
            streams.tell(format!(in alloc;
                "jpq: no pattern, so nothing fits it: {pattern}\n"
            )?.as_str());
            return Ok(());
        }
    }
    Ok(())
}

/// A reason why some path selects nothing, as its tree shows.
fn first_reason(alloc: Global, paths: &[AskedPath]) -> Result<Option<&'static str>, AllocError> {
    for path in paths {
        let marks = Marks::of(alloc, path.path.tree())?;
        let reason = marks.reason();
        if reason.is_some() {
            return Ok(reason);
        }
    }
    Ok(None)
}

/// Tells why nothing may have been selected, where that is so and a path shows it, or else a document.
fn hint_at_nothing<W: Write, E: Write>(
    alloc: Global,
    silent: bool,
    paths: &[AskedPath],
    streams: &mut Streams<W, E>,
) -> Result<(), Stop>
    ensures told { OnlyTells streams.old streams.new }
    ensures quiet { silent ≡ true → streams.new ≡ streams.old }
{
    if silent || streams.outcome.selected || streams.outcome.refused {
        return Ok(());
    }
    let reason = if streams.asked_reasons == 0 {
        first_reason(alloc, paths)?
    } else {
        streams.reason
    };
    if let Some(reason) = reason {
        streams.tell(format!(in alloc; "jpq: nothing was selected: {reason}\n")?.as_str());
    }
    Ok(())
}

/// What is shown of nodes, as the options say. In a table it is their texts.
fn output_of(options: &Options<'_>) -> Output
    ensures { result ≡ output_in options.now }
{
    Output {
        form: match options.shown {
            Shown::Nodes(form) => form,
            Shown::Tsv | Shown::Csv => Form::Raw,
        },
        layout: options.layout,
        end: options.end,
        unique: options.unique,
        most: options.most,
    }
}

/// So many spaces.
fn spaces(alloc: Global, count: u64) -> Result<String, AllocError>
    ensures { IfOk result (λ text. string_bytes text ≡ replicate count 32) }
{
    let mut text = String::new(alloc);
    for pushed in 0..count {
        text.push(' ')?;
    }
    Ok(text)
}

/// What a level is indented by, where the options say another than two spaces.
fn indent_of(alloc: Global, options: &Options<'_>) -> Result<Option<String>, AllocError>
    ensures { IfOk result (λ unit. option_map string_bytes unit ≡ unit_in options.now) }
{
    if options.tab {
        return Ok(Some(String::from_str(alloc, "\t")?));
    }
    let Some(count) = options.indent else {
        return Ok(None);
    };
    Ok(Some(spaces(alloc, count)?))
}

/// What is written of where a node comes from, as the options say. A row has no more than they name.
fn heads_of(options: &Options<'_>, paths: usize) -> Heads
    ensures { result ≡ heads_in options.now paths }
{
    let is_json = options.shown == Shown::Nodes(Form::Json);
    let is_table = matches!(options.shown, Shown::Tsv | Shown::Csv);
    let several_files = options.files.len() > 1 && !options.no_filename && !is_table;
    Heads {
        file: options.with_filename || several_files,
        line: options.line_number || (is_json && options.lines),
        number: paths > 1 && !options.no_path_number && !is_table,
    }
}

/// Whether lines have colours, as the options or else the environment say.
fn is_colored(options: &Options<'_>, colours: Colours<'_>) -> bool
    ensures { result ≡ is_colored options.now.color colours.entry.taken }
{
    match options.color {
        Color::Always => true,
        Color::Never => false,
        Color::Auto => colours.taken,
    }
}

/// The colours that lines have where they have some: the environment's, or the usual ones. Tells where the environment has none that
/// can be read.
fn palette_of<'a, W: Write, E: Write>(
    colours: Colours<'a>,
    silent: bool,
    streams: &mut Streams<W, E>,
) -> Palette<'a>
    ensures told { OnlyTells streams.old streams.new }
    ensures quiet { silent ≡ true → streams.new ≡ streams.old }
    ensures colours { parameters_of result ≡ colours_for colours.entry }
{
    let Some(text) = colours.palette else {
        return Palette::usual();
    };
    if let Some(palette) = palette_in(text) {
        return palette;
    }
    if !silent {
        streams.tell("jpq: JPQ_COLORS is not in jq's form, as 0;90:0;37:0;37:0;36:0;32\n");
    }
    Palette::usual()
}

/// How lines are dressed, as the options and the environment say; `None` where they are shown as they are made.
fn dress_of<'a, W: Write, E: Write>(
    alloc: Global,
    options: &Options<'_>,
    colours: Colours<'a>,
    streams: &mut Streams<W, E>,
) -> Result<Option<Dress<'a>>, AllocError>
    ensures told { OnlyTells streams.old streams.new }
    ensures quiet { options.now.silent ≡ true → streams.new ≡ streams.old }
    ensures look { IfOk result (λ dress. look_with (output_in options.now)
        options.now.most_of_all options.now.total dress
        ≡ look_in options.now colours.entry) }
{
    let indent = indent_of(alloc, options)?;
    let colours = if is_colored(options, colours) {
        Some(palette_of(colours, options.silent, streams))
    } else {
        None
    };
    if indent.is_none() && !options.ascii && colours.is_none() {
        return Ok(None);
    }
    Ok(Some(Dress {
        alloc,
        indent,
        ascii: options.ascii,
        colours,
    }))
}

/// For more paths than these documents are read whole: to see what each can reach takes longer.
const FEW_PATHS: usize = 8;

/// A reader of documents for the paths, unless they are many, or memory for it is refused. Where nodes are shown without their
/// values, their places are enough.
fn reader_for<'q>(alloc: Global, trees: &[&'q Checked], form: Form) -> Option<DocumentReader<'q>>
    ensures { IfSome result (λ reader. Keeps reader (shows_places form) (trees_of trees.now)) }
{
    if trees.len() > FEW_PATHS {
        return None;
    }
    match form {
        Form::Location | Form::Pointer | Form::Count | Form::Nothing => {
            DocumentReader::of_places(alloc, trees).ok()
        }
        _ => DocumentReader::new(alloc, trees).ok(),
    }
}

/// Answers all documents of the inputs; of standard input where no file is named.
fn answer_inputs<I: Inputs, W: Write, E: Write>(
    documents: &Documents<'_>,
    options: &Options<'_>,
    inputs: &mut I,
    streams: &mut Streams<W, E>,
) -> Result<Next, Stop>
    ensures opens { OpensFirst (I.opened inputs.old) (I.opened inputs.new) (names_in options.now) }
    ensures all { IfOk result (λ next. next ≡ Next.More
        → Opens (I.opened inputs.old) (I.opened inputs.new) (names_in options.now)) }
    ensures wanted { IfOk result (λ next. is_whole next ≡ true
        → streams.new.outcome.refused ≡ false → ReadsForPaths documents.now
        → string_bytes streams.old.pending ≡ []
        → AreKnown (I.bytes_of inputs.old) (names_in options.now)
        → OpensBy documents.now (I.bytes_of inputs.old) streams.old.total
        (names_in options.now) (I.opened inputs.old) (I.opened inputs.new)) }
    ensures answered { IfOk result (λ next. ReadsForPaths documents.now
        → string_bytes streams.old.pending ≡ []
        → AreKnown (I.bytes_of inputs.old) (names_in options.now)
        → SendsInputs W.contents documents.now.answering next documents.now.lines
        (I.bytes_of inputs.old) (names_in options.now) streams.old streams.new) }
    ensures begun { ReadsForPaths documents.now
        → string_bytes streams.old.pending ≡ []
        → AreKnown (I.bytes_of inputs.old) (names_in options.now)
        → Begins W.contents (AreInputsShown (wanted_in_part_by documents.now.answering)
        documents.now.lines (I.bytes_of inputs.old) (names_in options.now) streams.old.total)
        streams.old streams.new }
{
    if options.files.is_empty() {
        documents.answer_all(&["-"], inputs, streams)
    } else {
        documents.answer_all(&options.files, inputs, streams)
    }
}

/// The same after the first row of a table and before the sum of all counts.
fn answer_documents<I: Inputs, W: Write, E: Write>(
    documents: &Documents<'_>,
    options: &Options<'_>,
    inputs: &mut I,
    streams: &mut Streams<W, E>,
) -> Result<Next, Stop>
    ensures opens { OpensFirst (I.opened inputs.old) (I.opened inputs.new) (names_in options.now) }
    ensures all { IfOk result (λ next. next ≡ Next.More
        → Opens (I.opened inputs.old) (I.opened inputs.new) (names_in options.now)) }
    ensures wanted { IfOk result (λ next. is_whole next ≡ true
        → streams.new.outcome.refused ≡ false → ReadsForPaths documents.now
        → streams.old.total ≡ 0 → string_bytes streams.old.pending ≡ []
        → AreKnown (I.bytes_of inputs.old) (names_in options.now)
        → OpensBy documents.now (I.bytes_of inputs.old) 0
        (names_in options.now) (I.opened inputs.old) (I.opened inputs.new)) }
    ensures answered { IfOk result (λ next. ReadsForPaths documents.now
        → streams.old.total ≡ 0 → string_bytes streams.old.pending ≡ []
        → AreKnown (I.bytes_of inputs.old) (names_in options.now)
        → SendsAll W.contents documents.now.answering options.now.header next documents.now.lines
        (I.bytes_of inputs.old) (names_in options.now) streams.old streams.new) }
    ensures begun { ReadsForPaths documents.now
        → streams.old.total ≡ 0 → string_bytes streams.old.pending ≡ []
        → AreKnown (I.bytes_of inputs.old) (names_in options.now)
        → Begins W.contents (AreBetween documents.now.answering options.now.header
        (wanted_in_part_by documents.now.answering) documents.now.lines
        (I.bytes_of inputs.old) (names_in options.now)) streams.old streams.new }
{
    documents.answering.write_header(options.header, streams)?;
    let next = answer_inputs(documents, options, inputs, streams)?;
    documents.answering.write_total(streams)?;
    Ok(next)
}

/// The trees of paths.
fn trees_of(alloc: Global, paths: &[AskedPath]) -> Result<Vec<&Checked>, AllocError>
    ensures { IfOk result (λ trees. trees_of trees.items
        ≡ map (λ path. path_tree path.path) paths.now) }
{
    let mut trees = Vec::new(alloc);
    for path in paths {
        trees.push(path.path.tree())?;
    }
    Ok(trees)
}

/// Whether there is one document alone.
fn is_only(options: &Options<'_>) -> bool {
    options.files.len() <= 1 && !options.lines
}

/// Answers the documents for some paths, as the options say.
fn answer_paths<I: Inputs, W: Write, E: Write>(
    alloc: Global,
    options: &Options<'_>,
    colours: Colours<'_>,
    paths: &[AskedPath],
    inputs: &mut I,
    streams: &mut Streams<W, E>,
) -> Result<Next, Stop>
    ensures opens { OpensFirst (I.opened inputs.old) (I.opened inputs.new) (names_in options.now) }
    ensures all { IfOk result (λ next. next ≡ Next.More
        → Opens (I.opened inputs.old) (I.opened inputs.new) (names_in options.now)) }
    ensures wanted { IfOk result (λ next. is_whole next ≡ true
        → streams.new.outcome.refused ≡ false
        → streams.old.total ≡ 0 → string_bytes streams.old.pending ≡ []
        → AreKnown (I.bytes_of inputs.old) (names_in options.now)
        → OpensWanted options.now.most_of_all (named_for options.now colours.entry
        (map (λ path. path.path) paths.now) (I.bytes_of inputs.old)) 0
        (names_in options.now) [] (I.opened inputs.old) (I.opened inputs.new)) }
    ensures answered { IfOk result (λ next.
        texts_asked paths.now ≡ path_texts (I.bytes_of inputs.old) options.now
        → streams.old.total ≡ 0 → string_bytes streams.old.pending ≡ []
        → AreKnown (I.bytes_of inputs.old) (names_in options.now)
        → SendsFor W.contents options.now colours.entry next
        (map (λ path. path.path) paths.now) (I.bytes_of inputs.old) streams.old streams.new) }
    ensures begun { texts_asked paths.now ≡ path_texts (I.bytes_of inputs.old) options.now
        → streams.old.total ≡ 0 → string_bytes streams.old.pending ≡ []
        → AreKnown (I.bytes_of inputs.old) (names_in options.now)
        → Begins W.contents (AreAllInPart options.now colours.entry
        (map (λ path. path.path) paths.now) (I.bytes_of inputs.old)) streams.old streams.new }
{
    let store = PatternStore::new();
    let trees = trees_of(alloc, paths)?;
    let output = output_of(options);
    let dress = dress_of(alloc, options, colours, streams)?;
    let documents = Documents {
        alloc,
        answering: Answering {
            alloc,
            paths,
            functions: CachedPatterns::new(alloc, &store),
            shown: options.shown,
            showing: Showing {
                alloc,
                output,
                most_of_all: options.most_of_all,
                summed: options.total,
                dress,
            },
            heads: heads_of(options, paths.len()),
            silent: options.silent,
        },
        reader: reader_for(alloc, trees.as_slice(), output.form),
        lines: options.lines,
        is_only: is_only(options),
        strict: options.strict,
    };
    answer_documents(&documents, options, inputs, streams)
}

/// Runs with options: reads the paths, then checks them or answers the documents.
fn run_with<I: Inputs, W: Write, E: Write>(
    alloc: Global,
    options: &Options<'_>,
    colours: Colours<'_>,
    inputs: &mut I,
    streams: &mut Streams<W, E>,
) -> Result<Next, Stop>
    ensures answered { IfOk result (λ next. options.now.check ≡ false
        → streams.old.outcome ≡ record { selected = false; refused = false }
        → streams.old.total ≡ 0 → string_bytes streams.old.pending ≡ []
        → AreKnown (I.bytes_of inputs.old) (path_files_in options.now)
        → AreKnown (I.bytes_of inputs.old) (names_in options.now)
        → AnswersRun W.contents (I.bytes_of inputs.old) options.now colours.entry next
        (I.opened inputs.old) (I.opened inputs.new) streams.old streams.new) }
    ensures in_part { options.now.check ≡ false
        → streams.old.total ≡ 0 → string_bytes streams.old.pending ≡ []
        → AreKnown (I.bytes_of inputs.old) (path_files_in options.now)
        → AreKnown (I.bytes_of inputs.old) (names_in options.now)
        → IsAnsweredInPart W.contents (I.bytes_of inputs.old) options.now
        colours.entry streams.old.out streams.new.out }
    ensures checked { IfOk result (λ _. options.now.check ≡ true
        → streams.old.outcome ≡ record { selected = false; refused = false }
        → string_bytes streams.old.pending ≡ []
        → AreKnown (I.bytes_of inputs.old) (path_files_in options.now)
        → IsChecked W.contents (I.bytes_of inputs.old) options.now inputs.old inputs.new
        streams.old.out streams.new.out (status_of streams.new.outcome)) }
    ensures check_told { IfOk result (λ _. options.now.check ≡ true → options.now.silent ≡ true
        → streams.new.err ≡ streams.old.err) }
    ensures checked_in_part { options.now.check ≡ true → string_bytes streams.old.pending ≡ []
        → AreKnown (I.bytes_of inputs.old) (path_files_in options.now)
        → IsCheckedInPart W.contents (I.bytes_of inputs.old) options.now
        streams.old.out streams.new.out }
    ensures opens { IfOk result (λ _.
        OpensFirst (I.opened inputs.old) (I.opened inputs.new) (opened_in options.now)) }
    ensures all { IfOk result (λ next. options.now.check ≡ false → next ≡ Next.More
        → Opens (I.opened inputs.old) (I.opened inputs.new) (opened_in options.now)) }
    ensures in_order { OpensFirst (I.opened inputs.old) (I.opened inputs.new) (opened_in options.now)
        ⊎ OpensFirst (I.opened inputs.old) (I.opened inputs.new) (looked_at_in options.now) }
{
    let paths = asked_paths(alloc, options, inputs, streams)?;
    hint_at_patterns(alloc, options.silent, &paths, streams)?;
    if options.check {
        check(&paths, streams)?;
        return Ok(Next::More);
    }
    let next = answer_paths(alloc, options, colours, &paths, inputs, streams)?;
    hint_at_nothing(alloc, options.silent, &paths, streams)?;
    Ok(next)
}

/// Whether nothing is shown.
fn is_quiet(shown: Shown) -> bool
    ensures { result ≡ is_quiet shown }
{
    matches!(shown, Shown::Nodes(Form::Nothing))
}

/// The exit status of a run that ended so; tells what ended it. `binds` says whether values are bound to names, which alone may turn
/// out to be wrong use once paths are read, and `quiet` whether nothing is shown: then a node is enough, whatever was refused.
fn exit_status<W: Write, E: Write>(
    ended: Result<Next, Stop>,
    binds: bool,
    quiet: bool,
    streams: &mut Streams<W, E>,
) -> u8
    ensures status { result ≡ status_after ended binds quiet streams.old.outcome }
    ensures out { streams.new.out ≡ streams.old.out }
    ensures told { AppendsBeginning (E.contents streams.old.err) (E.contents streams.new.err)
        (told_after ended) }
    ensures quiet { told_after ended ≡ [] → streams.new.err ≡ streams.old.err }
{
    match ended {
        Ok(_) if quiet && streams.outcome.selected => SELECTED,
        Ok(_) => streams.outcome.status(),
        Err(Stop::ReaderGone) => OUTPUT_FAILED,
        Err(Stop::WrongUse) if binds => WRONG_USE,
        Err(Stop::Refused | Stop::WrongUse) => REFUSED,
        Err(Stop::Memory) => {
            streams.tell("jpq: no memory\n");
            REFUSED
        }
        Err(Stop::OutputFailed) => {
            streams.tell("jpq: the output failed\n");
            OUTPUT_FAILED
        }
    }
}

/// Prints a text, and gives the status.
fn print<W: Write, E: Write>(text: String, streams: &mut Streams<W, E>) -> u8
    requires { streams.old.outcome.refused ≡ false }
    ensures { IsPrinted W.contents E.contents (string_bytes text) streams.old streams.new result }
{
    streams.outcome.selected = true;
    streams.pending = text;
    match streams.write() {
        Ok(()) => exit_status(Ok(Next::More), false, false, streams),
        Err(stop) => exit_status(Err(stop), false, false, streams),
    }
}

/// The program: `jpq [OPTIONS] PATH [FILE]...`. The first word is the program's name; `colours` is what the environment says
/// of them. Returns the exit status:
///
/// | Status | When |
/// |---|---|
/// | 0 | something was selected; help, or a version; with `--check`, all paths are right |
/// | 1 | nothing was selected |
/// | 2 | a path, a document, a file or a query was refused |
/// | 3 | the output failed, or who read it went away |
/// | 64 | the words were used wrongly |
///
/// Lines are written as they are found, in pieces of some 64 kB, and at the end of each document. A reader that goes away ends the
/// run without a message.
pub fn run<I: Inputs, W: Write, E: Write>(
    alloc: Global,
    words: &[String],
    colours: Colours<'_>,
    inputs: &mut I,
    streams: &mut Streams<W, E>,
) -> u8
    ensures one_of { (result ≤ 3) ⊎ (result ≡ 64) }
    ensures comes { ((asked : input.Request) × AsksFor (map string_bytes words.now) asked
        × ComesOf W.contents E.contents (I.bytes_of inputs.old) I.opened colours.entry
        asked inputs.old inputs.new streams.old streams.new result)
        ⊎ LacksMemory E.contents inputs.old inputs.new streams.old streams.new result }
{
    streams.restart();
    match read(alloc, words) {
        Ok(Request::Run(options)) => {
            let ended = run_with(alloc, &options, colours, inputs, streams);
            let (binds, quiet) = (!options.bindings.is_empty(), is_quiet(options.shown));
            exit_status(ended, binds, quiet, streams)
        }
        Ok(Request::Print(text)) => print(text, streams),
        Ok(Request::WrongUse(_, text)) => {
            streams.tell(text.as_str());
            WRONG_USE
        }
        Err(_) => exit_status(Err(Stop::Memory), false, false, streams),
    }
}
