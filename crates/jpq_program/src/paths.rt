//! The paths that a command line asks for.

ghost use Rattle.std.specs.Prelude.{◌≡◌, ◌∷◌, ℕ, [], List, IfOk, IfSome, MatchOption, OnOk, false, map, string_bytes, take, true};
ghost use Rattle.serde_json_path_functions.specs.Terms.{numbers_view};
ghost use Rattle.serde_json_path.specs.Paths.{path_signatures};
ghost use Rattle.serde_json_path_syntax.specs.Bindings.{pairs_of};
ghost use Rattle.serde_json_path.specs.Fitting.{FitsBuiltin};
ghost use Rattle.jpq_program.specs.Inside.{AreAskedBy, IsAskedBy, OnlyTells, Reads, ReadsFurther, Tells, reading_by, texts_asked};
ghost use Rattle.jpq_program.specs.Inputs.{AreKnown, Opens, OpensFirst, without_mark};
ghost use Rattle.jpq_program.specs.Run.{ArePaths, IsBound, has_text, looked_at_in, path_files_in, path_texts, reading_in, rule_in};
ghost use Rattle.jpq_options.specs.Paths.{path_lines};
ghost use Rattle.std.specs.List.{filter};

use crate::asked_path::AskedPath;
use crate::bindings::{NamedValue, bindings_of, values_of};
use crate::inputs::Inputs;
use crate::refusal::push_refusal;
use crate::streams::{Stop, Streams};
use jpq_options::options::Options;
use jpq_options::paths::path_lines;
use serde_json_path::{Binding, JsonPath, Numbers, ParseErrorKind};
use serde_json_path_hints::hint;
use std::alloc::Global;
use std::io::{Read, Write};

/// How paths are read.
#[derive(Drop)]
struct PathReading<'a> {
    alloc: Global,
    /// The names that stand in paths.
    values: &'a [NamedValue<'a>],
    /// What stands for their texts.
    bindings: Vec<Binding<'a>>,
    /// The numbers of those that some path has.
    used: Vec<usize>,
    /// Whether a refusal has a hint.
    hints: bool,
    /// The rule for numbers, by which paths are read and compare.
    numbers: Numbers,
}

/// What messages call a path: by its name, unless it is the only one.
fn called(name: &Option<String>) -> &str {
    match name {
        Some(name) => name.as_str(),
        None => "the path",
    }
}

impl PathReading<'_> {
    /// A path with values for the names that it has. It fails where memory is refused.
    fn with_values(&mut self, path: JsonPath) -> Result<JsonPath, Stop>
        requires { FitsBuiltin (path_signatures path) }
        ensures fits { IfOk result (λ path. FitsBuiltin (path_signatures path)) }
        ensures kept { Reads self.old self.new }
        ensures bound { IfOk result (λ read.
            IsBound (pairs_of self.old.bindings.items) path read) }
    {
        if self.bindings.is_empty() {
            return Ok(path);
        }
        for (number, value) in self.values.iter().enumerate() {
            if !self.used.contains(&number) && value.is_in(self.alloc, &path)? {
                self.used.push(number)?;
            }
        }
        Ok(path.bound(self.alloc, &self.bindings)?)
    }

    /// Parses a path, or tells why it is none.
    fn parse<W: Write, E: Write>(
        &mut self,
        text: &str,
        name: Option<String>,
        streams: &mut Streams<W, E>,
    ) -> Result<Option<AskedPath>, Stop>
        ensures kept { Reads self.old self.new }
        ensures told { Tells streams.old streams.new }
        ensures read { IfOk result (λ read. MatchOption read
            (streams.new.outcome.refused ≡ true)
            (λ path. (streams.new ≡ streams.old)
            × IsAskedBy (reading_by self.old) text.now path)) }
    {
        let e = match JsonPath::parse_by(self.alloc, text, self.numbers) {
            Ok(path) => {
                let path = self.with_values(path)?;
                let text = String::from_str(self.alloc, text)?;
                return Ok(Some(AskedPath { path, text, name }));
            }
            Err(e) => e,
        };
        if e.kind() == ParseErrorKind::NoMemory {
            return Err(Stop::Memory);
        }
        let mut message = String::new(self.alloc);
        let hint = if self.hints {
            hint(text, &e, self.numbers)
        } else {
            None
        };
        push_refusal(&mut message, called(&name), text, &e, self.numbers, hint)?;
        streams.tell_refusal(message.as_str());
        Ok(None)
    }

    /// Parses the paths of words. Tells of each that is no path. Of several each is called by its number.
    fn parse_words<W: Write, E: Write>(
        &mut self,
        texts: &[&str],
        several: bool,
        paths: &mut Vec<AskedPath>,
        streams: &mut Streams<W, E>,
    ) -> Result<(), Stop>
        ensures kept { Reads self.old self.new }
        ensures told { Tells streams.old streams.new }
        ensures right { IfOk result (λ _. streams.new.outcome.refused ≡ false
            → streams.new ≡ streams.old) }
        ensures read { IfOk result (λ _. paths.old.items ≡ []
            → streams.new.outcome.refused ≡ false → AreAskedBy (reading_by self.old)
            (map (λ text. text.now) texts.now) paths.new.items) }
    {
        for (index, text) in texts.iter().enumerate() {
            let name = if several {
                Some(format!(in self.alloc; "path {}", index.saturating_add(1))?)
            } else {
                None
            };
            if let Some(path) = self.parse(*text, name, streams)? {
                paths.push(path)?;
            }
        }
        Ok(())
    }

    /// Parses the paths of a file's text. Each is called by the file's name and its line.
    fn parse_file<W: Write, E: Write>(
        &mut self,
        file: &str,
        text: &str,
        paths: &mut Vec<AskedPath>,
        streams: &mut Streams<W, E>,
    ) -> Result<(), Stop>
        ensures kept { Reads self.old self.new }
        ensures told { Tells streams.old streams.new }
        ensures right { IfOk result (λ _. streams.new.outcome.refused ≡ false
            → streams.new ≡ streams.old) }
        ensures read { IfOk result (λ _. streams.new.outcome.refused ≡ false
            → ReadsFurther (reading_by self.old)
            (filter has_text (path_lines text.now)) paths.old.items paths.new.items) }
    {
        let lines = path_lines(self.alloc, text)?;
        for (index, line) in lines.iter().enumerate() {
            if line.is_empty() {
                continue;
            }
            let name = format!(in self.alloc; "{file}:{}", index.saturating_add(1))?;
            if let Some(path) = self.parse(*line, Some(name), streams)? {
                paths.push(path)?;
            }
        }
        Ok(())
    }
}

impl PathReading<'_> {
    /// Tells of the first name that no path has.
    fn tell_unused<W: Write, E: Write>(&self, streams: &mut Streams<W, E>) -> Result<(), Stop>
        ensures told { OnlyTells streams.old streams.new }
        ensures none { OnOk result (streams.new ≡ streams.old) }
    {
        for (number, value) in self.values.iter().enumerate() {
            if !self.used.contains(&number) {
                let name = value.name;
                streams.tell(format!(in self.alloc;
                    "jpq: --let {name}: no path has the text '${name}' in a filter\n"
                )?.as_str());
                return Err(Stop::WrongUse);
            }
        }
        Ok(())
    }
}

/// The text of a file of paths.
fn paths_text<I: Inputs, W: Write, E: Write>(
    alloc: Global,
    name: &str,
    inputs: &mut I,
    streams: &mut Streams<W, E>,
) -> Result<String, Stop>
    ensures same { (name : List ℕ) → I.bytes_of inputs.new name ≡ I.bytes_of inputs.old name }
    ensures opens { Opens (I.opened inputs.old) (I.opened inputs.new) (name.now ∷ []) }
    ensures told { IfOk result (λ _. streams.new ≡ streams.old) }
    ensures tells { Tells streams.old streams.new }
    ensures read { IfOk result (λ text. IfSome (I.bytes_of inputs.old name.now)
        (λ bytes. string_bytes text ≡ bytes)) }
{
    let mut text = String::new(alloc);
    let read = match inputs.open(name) {
        Ok(mut input) => input.read_to_string(&mut text),
        Err(e) => Err(e),
    };
    match read {
        Ok(_) => Ok(text),
        Err(e) => {
            streams.tell_refusal(format!(in alloc; "jpq: {name}: cannot be read: {e}\n")?.as_str());
            Err(Stop::Refused)
        }
    }
}

/// A text after a byte order mark, if it begins with one.
fn without_mark(text: &str) -> &str
    ensures { result.now ≡ without_mark text.now }
{
    text.strip_prefix("\u{feff}").unwrap_or(text)
}

/// Whether an input of a name can be read: a folder can be opened, but not read.
fn is_file<I: Inputs>(name: &str, inputs: &mut I) -> bool
    ensures { Opens (I.opened inputs.old) (I.opened inputs.new) (name.now ∷ []) }
{
    match inputs.open(name) {
        Ok(mut input) => input.read(&mut [0]).is_ok(),
        Err(_) => false,
    }
}

/// Tells that the path comes first, where a file's name stands in its place, unless hints are left out.
fn tell_order<I: Inputs, W: Write, E: Write>(
    alloc: Global,
    silent: bool,
    texts: &[&str],
    inputs: &mut I,
    streams: &mut Streams<W, E>,
) -> Result<(), Stop>
    ensures opens { OpensFirst (I.opened inputs.old) (I.opened inputs.new)
        (take 1 (map (λ text. text.now) texts.now)) }
    ensures told { OnlyTells streams.old streams.new }
{
    if silent {
        return Ok(());
    }
    if let Some(text) = texts.first() {
        if *text != "-" && is_file(*text, inputs) {
            let message = format!(in alloc; "jpq: {text} is a file: the path comes first\n")?;
            streams.tell(message.as_str());
        }
    }
    Ok(())
}

/// The rule for numbers, as the options say.
fn numbers_of(options: &Options<'_>) -> Numbers
    ensures { numbers_view result ≡ rule_in options.now }
{
    if options.whole_numbers {
        Numbers::Whole
    } else {
        Numbers::All
    }
}

/// The paths that are asked for: those of the words, then those of the files.
pub(crate) fn asked_paths<I: Inputs, W: Write, E: Write>(
    alloc: Global,
    options: &Options<'_>,
    inputs: &mut I,
    streams: &mut Streams<W, E>,
) -> Result<Vec<AskedPath>, Stop>
    ensures same { IfOk result (λ _.
        (name : List ℕ) → I.bytes_of inputs.new name ≡ I.bytes_of inputs.old name) }
    ensures unopened { IfOk result (λ _. options.now.paths_files.items ≡ []
        → inputs.new ≡ inputs.old) }
    ensures opens { IfOk result (λ _.
        Opens (I.opened inputs.old) (I.opened inputs.new) (path_files_in options.now)) }
    ensures looks { OpensFirst (I.opened inputs.old) (I.opened inputs.new)
        (looked_at_in options.now) }
    ensures right { IfOk result (λ _. streams.new ≡ streams.old) }
    ensures tells { Tells streams.old streams.new }
    ensures read { IfOk result (λ paths.
        AreKnown (I.bytes_of inputs.old) (path_files_in options.now)
        → ArePaths (reading_in options.now) (path_texts (I.bytes_of inputs.old) options.now)
        (map (λ path. path.path) paths.items)) }
    ensures texts { IfOk result (λ paths.
        AreKnown (I.bytes_of inputs.old) (path_files_in options.now)
        → texts_asked paths.items ≡ path_texts (I.bytes_of inputs.old) options.now) }
{
    let values = match values_of(alloc, &options.bindings)? {
        Ok(values) => values,
        Err(word) => {
            let message = format!(in alloc;
                "jpq: --let {word}: a name, '=' and a value are wanted\n"
            )?;
            streams.tell(message.as_str());
            return Err(Stop::WrongUse);
        }
    };
    let mut reading = PathReading {
        alloc,
        values: &values,
        bindings: bindings_of(alloc, &values)?,
        used: Vec::new(alloc),
        hints: !options.silent,
        numbers: numbers_of(options),
    };
    let several = options.paths.len() > 1 || !options.paths_files.is_empty();
    let mut paths = Vec::new(alloc);
    reading.parse_words(&options.paths, several, &mut paths, streams)?;
    for file in &options.paths_files {
        let text = paths_text(alloc, *file, inputs, streams)?;
        reading.parse_file(*file, without_mark(text.as_str()), &mut paths, streams)?;
    }
    if !streams.outcome.refused {
        reading.tell_unused(streams)?;
        return Ok(paths);
    }
    tell_order(alloc, options.silent, &options.paths, inputs, streams)?;
    Err(Stop::Refused)
}
