//! Documents that are read for some paths.

ghost use Rattle.std.specs.Prelude.{◌≡◌, ◌<◌, ◌≤◌, length, None, IfErr, IfOk};
ghost use Rattle.std.specs.Str.{IsUtf8};
ghost use Rattle.serde_json.specs.Errors.{IsMemory, IsOfText};
ghost use Rattle.serde_json.specs.Read.{read as read_text};
ghost use Rattle.serde_json.specs.View.{view};
ghost use Rattle.serde_json_path_syntax.specs.Words.{AreOfKind, is_segment, nodes_in, parts_bound};
ghost use Rattle.serde_json_path_reach.specs.Alike.{IsReadFor, IsReadForPlaces, trees_of};

use crate::plan::Plan;
use crate::read::read_reached;
use crate::refused::Refused;
use json::Scratch;
use serde_json::{Error, Value};
use serde_json_path_core::{Checked, Part};
use serde_json_path_syntax::SelectorRef;
use std::alloc::{AllocError, Global};
use std::boxed::Box;
use std::cell::Cell;
use std::str::from_utf8;

/// How many rows a plan may have: each has a bit of its own, one bit says that all is kept, and one that the place is.
const MOST_ROWS: usize = 61;

/// Documents that have fewer bytes in all are read whole: that takes less than to make room for reading by tokens.
const SHORT: usize = 1024;

/// Whether some of a query's segments takes a name or an index first, so that not all that the query comes by is kept.
fn is_narrow(query: &Checked, segments: &[Part]) -> bool
    requires within { parts_bound segments.now ≤ length (nodes_in query.now) }
    requires are { AreOfKind is_segment (nodes_in query.now) segments.now }
{
    for segment in segments {
        let selector = query.selector_ref(*segment, 0);
        if matches!(selector, Some(SelectorRef::Name(_) | SelectorRef::Index(_))) {
            return true;
        }
    }
    false
}

/// Reads documents for some paths: what no path can reach is passed over.
///
/// ```text
/// let paths = [path.tree()];
/// let reader = DocumentReader::new(alloc, &paths)?;
/// let document = reader.read(alloc, bytes)?;
/// ```
#[derive(Drop)]
pub struct DocumentReader<'q> {
    plan: Plan<'q>,
    /// Whether no path keeps all that it comes by.
    are_narrow: bool,
    /// How many bytes the documents have so far.
    asked: Cell<usize>,
    /// The room in which documents are read by their tokens, once it was needed.
    scratch: Cell<Option<Box<Scratch>>>,
}

impl<'q> DocumentReader<'q> {
    ghost use Rattle.std.specs.Prelude.{List};
    ghost use Rattle.serde_json_path_syntax.specs.Tree.{Query};
    ghost use Rattle.serde_json_path_reach.specs.Readers.{Keeps, KeepsFor, KeepsPlacesFor};

    /// A reader for the paths, which serves many documents. An error comes only where memory is refused.
    pub fn new(alloc: Global, paths: &[&'q Checked]) -> Result<DocumentReader<'q>, AllocError>
        ensures { IfOk result (λ reader. KeepsFor reader (trees_of paths.now)) }
    {
        let mut are_narrow = true;
        for path in paths {
            are_narrow = are_narrow && is_narrow(path, path.segments());
        }
        DocumentReader::with(alloc, paths, false, are_narrow)
    }

    /// A reader that keeps of nodes their places alone, for one who asks where they are, or whether and how many there are.
    ///
    /// What a path selects from a value that it reads has the locations of the nodes; their values may be `null`, and arrays and
    /// objects may lack what no path comes by.
    pub fn of_places(alloc: Global, paths: &[&'q Checked]) -> Result<DocumentReader<'q>, AllocError>
        ensures { IfOk result (λ reader. KeepsPlacesFor reader (trees_of paths.now)) }
    {
        DocumentReader::with(alloc, paths, true, true)
    }

    /// A reader that has read nothing yet.
    fn with(
        alloc: Global,
        paths: &[&'q Checked],
        places: bool,
        are_narrow: bool,
    ) -> Result<DocumentReader<'q>, AllocError>
        ensures { IfOk result (λ reader. Keeps reader places (trees_of paths.now)) }
    {
        let plan = Plan::of(alloc, paths, places)?;
        Ok(DocumentReader {
            plan,
            are_narrow,
            asked: Cell::new(0),
            scratch: Cell::new(None),
        })
    }

    /// Whether the next document, of so many bytes, is read whole.
    fn reads_whole(&self, len: usize) -> bool {
        let asked = self.asked.get().saturating_add(len);
        self.asked.set(asked);
        asked < SHORT || !self.are_narrow || self.plan.rows.len() > MOST_ROWS
    }

    /// What the paths can reach of the document that the bytes are, where these are one and memory is there.
    fn reached(&self, alloc: Global, bytes: &[u8]) -> Result<Value, Refused>
        ensures values { (qs : List Query) → KeepsFor self.now qs
            → IfOk result (λ v. IsReadFor bytes.now qs (view v)) }
        ensures places { (qs : List Query) → KeepsPlacesFor self.now qs
            → IfOk result (λ v. IsReadForPlaces bytes.now qs (view v)) }
    {
        let Ok(text) = from_utf8(bytes) else {
            return Err(Refused);
        };
        let mut scratch = match self.scratch.take() {
            Some(scratch) => scratch,
            None => Box::new(alloc, Scratch::new(alloc))?,
        };
        let found = read_reached(alloc, text, &self.plan, self.plan.at_root, &mut scratch);
        self.scratch.set(Some(scratch));
        found
    }

    /// What the paths can reach of the document that the bytes are: each selects from it what it selects from the whole
    /// document, or, by a reader of places, the same locations. Bytes that are no document are refused as [`Value::from_slice`]
    /// refuses them. For paths with more than 61 segments, those in filters among them, the document is read whole.
    pub fn read(&self, alloc: Global, bytes: &[u8]) -> Result<Value, Error>
        ensures ok { (qs : List Query) → KeepsFor self.now qs
            → IfOk result (λ v. IsReadFor bytes.now qs (view v)) }
        ensures places { (qs : List Query) → KeepsPlacesFor self.now qs
            → IfOk result (λ v. IsReadForPlaces bytes.now qs (view v)) }
        ensures err { IfErr result (λ e. ¬ IsMemory e → IsUtf8 bytes.now
            → read_text bytes.now ≡ None) }
        ensures memory { IfErr result (λ e. IsMemory e → 0 < length bytes.now) }
        ensures kind { IfErr result (λ e. ¬ IsMemory e → IsOfText e) }
    {
        if self.reads_whole(bytes.len()) {
            return Value::from_slice(alloc, bytes);
        }
        match self.reached(alloc, bytes) {
            Ok(document) => Ok(document),
            Err(_refused) => Value::from_slice(alloc, bytes),
        }
    }
}

/// What the paths can reach of the document that the bytes are: each selects from it what it selects from the whole document.
///
/// Bytes that are no document are refused as [`Value::from_slice`] refuses them. A document of fewer than 1,024 bytes is read whole,
/// and any for paths with more than 61 segments, those in filters among them.
///
/// ```text
/// let document = read_for(alloc, bytes, &[path.tree()])?;
/// ```
pub fn read_for(alloc: Global, bytes: &[u8], paths: &[&Checked]) -> Result<Value, Error>
    ensures ok { IfOk result (λ v. IsReadFor bytes.now (trees_of paths.now) (view v)) }
    ensures err { IfErr result (λ e. ¬ IsMemory e → IsUtf8 bytes.now
        → read_text bytes.now ≡ None) }
    ensures memory { IfErr result (λ e. IsMemory e → 0 < length bytes.now) }
    ensures kind { IfErr result (λ e. ¬ IsMemory e → IsOfText e) }
{
    if bytes.len() < SHORT {
        return Value::from_slice(alloc, bytes);
    }
    match DocumentReader::new(alloc, paths) {
        Ok(reader) => reader.read(alloc, bytes),
        Err(_refused) => Value::from_slice(alloc, bytes),
    }
}
