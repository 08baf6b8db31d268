//! Why a path may have selected nothing, as a document shows.

ghost use Rattle.jpq_program.specs.Inside.{OnlyNotes};

use crate::answering::Answering;
use crate::asked_path::AskedPath;
use crate::empty_answer::{Marks, Sign};
use crate::streams::{Stop, Streams};
use jsonpath_document::read_document;
use serde_json::Value;
use serde_json_path::{JsonPath, Numbers, ParseErrorKind, QueryError};
use std::io::Write;

/// Of how many documents it is asked.
const DOCUMENTS: usize = 10;

/// Whether a document may have children: of another, no path selects more than its root.
pub(crate) fn has_children(document: &[u8]) -> bool {
    matches!(document.trim_ascii_start().first(), Some(b'[' | b'{'))
}

impl Answering<'_> {
    /// Whether the path of a sign selects something from a document.
    fn has_sign(&self, sign: &Sign, numbers: Numbers, document: &Value) -> Result<bool, Stop> {
        let path = match JsonPath::parse_by(self.alloc, sign.path.as_str(), numbers) {
            Ok(path) => path,
            Err(e) if e.kind() == ParseErrorKind::NoMemory => return Err(Stop::Memory),
            Err(_) => return Ok(false),
        };
        let asked = AskedPath {
            path,
            text: String::new(self.alloc),
            name: None,
        };
        let mut text = String::new(self.alloc);
        match self.count(&asked, "", Some(1), document, &mut text) {
            Ok(count) => Ok(count > 0),
            Err(QueryError::Memory) => Err(Stop::Memory),
            Err(QueryError::Pattern) => Ok(false),
        }
    }

    /// Keeps why nothing was selected from a document, where that shows it. Only the first documents are asked.
    pub(crate) fn note_reason<W: Write, E: Write>(
        &self,
        bytes: &[u8],
        streams: &mut Streams<W, E>,
    ) -> Result<(), Stop>
        ensures { OnlyNotes streams.old streams.new }
    {
        if streams.reason.is_some() || streams.asked_reasons == DOCUMENTS {
            return Ok(());
        }
        streams.asked_reasons = streams.asked_reasons.saturating_add(1);
        streams.reason = self.reason_in(bytes)?;
        Ok(())
    }

    /// Why nothing may have been selected from the document of some bytes: of the first path that shows it whatever the document, or
    /// else of the first of which the document shows it.
    fn reason_in(&self, bytes: &[u8]) -> Result<Option<&'static str>, Stop> {
        let mut marked = Vec::new(self.alloc);
        for path in self.paths {
            let marks = Marks::of(self.alloc, path.path.tree())?;
            if let Some(reason) = marks.reason() {
                return Ok(Some(reason));
            }
            marked.push(marks)?;
        }
        for (path, marks) in self.paths.iter().zip(&marked) {
            let signs = marks.signs(self.alloc, &path.path)?;
            if signs.is_empty() {
                continue;
            }
            let reason = self.reason_among(&signs, path.path.numbers(), bytes)?;
            if reason.is_some() {
                return Ok(reason);
            }
        }
        Ok(None)
    }

    /// The reason of the first sign that a document has.
    fn reason_among(
        &self,
        signs: &[Sign],
        numbers: Numbers,
        bytes: &[u8],
    ) -> Result<Option<&'static str>, Stop> {
        // The bytes were read before, so that memory alone can be refused.
        let Ok(document) = read_document(self.alloc, bytes) else {
            return Err(Stop::Memory);
        };
        for sign in signs {
            if self.has_sign(sign, numbers, &document)? {
                return Ok(Some(sign.reason));
            }
        }
        Ok(None)
    }
}
