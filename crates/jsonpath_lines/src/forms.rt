//! The forms of output.

ghost use Rattle.std.specs.Prelude.{◌≡◌};

/// What is shown of each node.
#[derive(Clone, Copy, Debug, PartialEq, Eq)]
pub enum Form {
    /// A line: the normalised path, a tab, the JSON.
    LocationAndValue,
    /// A line: the JSON.
    Value,
    /// A line: of a string its own text, of any other value the JSON.
    Raw,
    /// A line: the normalised path.
    Location,
    /// A line: the JSON pointer (RFC 6901).
    Pointer,
    /// One line for all nodes: an array with an object `{"path":..,"value":..}` for each.
    Json,
    /// One line for all nodes: how many there are.
    Count,
    /// No text: only whether there is a node.
    Nothing,
}

/// How values are laid out.
#[derive(Clone, Copy, Debug, PartialEq, Eq)]
pub enum Layout {
    /// Without spaces, in one line.
    Compact,
    /// Each item and each member in a line, indented by two spaces a level.
    Pretty,
}

/// What ends a line.
#[derive(Clone, Copy, Debug, PartialEq, Eq)]
pub enum LineEnd {
    /// A line feed.
    LineFeed,
    /// The character U+0000, which no JSON text has.
    Nul,
}

/// Which nodes are shown, and how.
#[derive(Clone, Copy, Debug, PartialEq, Eq)]
pub struct Output {
    /// What is shown of each node.
    pub form: Form,
    /// How its value is laid out.
    pub layout: Layout,
    /// What ends each line.
    pub end: LineEnd,
    /// Whether a location is shown only where it comes first.
    pub unique: bool,
    /// How many nodes are shown at most; all where it is `None`.
    pub most: Option<u64>,
}

impl LineEnd {
    ghost use Rattle.jsonpath_lines.specs.Words.{encode_utf8, end_text};

    /// The end as a character.
    #[inline(always)]
    pub(crate) fn as_char(self) -> char
        ensures { encode_utf8 result ≡ end_text self }
    {
        match self {
            LineEnd::LineFeed => '\n',
            LineEnd::Nul => '\0',
        }
    }
}

impl Output {
    ghost use Rattle.jsonpath_lines.specs.Words.{leaves_out_in, limit_in, compact_lines};

    /// A compact line in a form for each node, ended by a line feed, as `jsonpath` writes them.
    pub fn compact_lines(form: Form) -> Output
        ensures { result ≡ compact_lines form }
    {
        Output {
            form,
            layout: Layout::Compact,
            end: LineEnd::LineFeed,
            unique: false,
            most: None,
        }
    }

    /// How many nodes a walk is asked for at most: one is enough to know that there is one.
    pub(crate) fn limit(&self) -> Option<u64>
        ensures { result ≡ limit_in self.now.form self.now.most }
    {
        match self.form {
            Form::Nothing => Some(self.most.unwrap_or(1).min(1)),
            _ => self.most,
        }
    }

    /// Whether repeated locations are left out, for which all nodes of a walk are needed. They tell nothing of whether there
    /// is a node.
    pub(crate) fn leaves_out(&self) -> bool
        ensures { result ≡ leaves_out_in self.now.form self.now.unique }
    {
        match self.form {
            Form::Nothing => false,
            _ => self.unique,
        }
    }
}
