//! A document that C holds.

ghost use Rattle.std.specs.Prelude.{◌≡◌, IfOk, Option};
ghost use Rattle.jsonpath_c.specs.Words.{coded_option, held, lent};
ghost use Rattle.jsonpath_c.specs.contracts.handle.document.Document.{the_row};
ghost use Rattle.jsonpath_c.specs.declared.handle.document.Document.{Document};

use nullable_box::{Handle, Lent, NullableBox, NullableRef};
use serde_json::Value;
use std::alloc::{AllocError, Global};
use std::marker::{Model, Send};
use std::sync::Arc;

/// A document that was read. Its owners share it.
#[derive(Drop)]
pub struct Document {
    /// Its value.
    pub json: Arc<Value, Global>,
}

impl Document {
    /// A document of a value.
    pub(crate) fn new(alloc: Global, value: Value) -> Result<Document, AllocError>
        ensures { IfOk result (λ document. document.json.value ≡ value) }
    {
        let json = Arc::new(alloc, value)?;
        Ok(Document { json })
    }

    /// Another owner of the same document.
    pub(crate) fn share(&self) -> Result<Document, AllocError>
        ensures { IfOk result (λ document. document.json.value ≡ self.now.json.value) }
    {
        let json = Arc::try_clone(&self.json)?;
        Ok(Document { json })
    }
}

/// A document that C holds by a pointer, or nothing, where the pointer is null.
#[repr(C)]
pub struct DocumentHandle {
    at: *mut u8,
    /// What it holds.
    pub ghost value: { Option Document } by { coded_option (the_row).coded },
}

impl Model for DocumentHandle {
    ghost also_owns = { λ handle. held the_row handle.at handle.value };
}

unsafe impl Send for DocumentHandle {}

impl Handle for DocumentHandle {
    type Held = Document;

    ghost holds = { λ handle. handle.value };

    fn of(value: NullableBox<Document>) -> DocumentHandle
        ensures { result.value ≡ value.value }
    {
        let NullableBox { at } = value;
        DocumentHandle { at: at as *mut u8 }
    }

    fn into_nullable(self) -> NullableBox<Document>
        ensures { result.value ≡ self.value }
    {
        let DocumentHandle { at } = self;
        NullableBox {
            at: at as *mut Document,
        }
    }
}

/// A document that C lends for a call by a pointer, or nothing, where the pointer is null.
#[repr(C)]
#[derive(Drop)]
pub struct DocumentRef {
    at: *const u8,
    /// What it lends.
    pub ghost value: { Option Document } by { coded_option (the_row).coded },
}

impl Model for DocumentRef {
    ghost also_owns = { λ handle. lent the_row handle.at handle.value };
}

unsafe impl Send for DocumentRef {}

impl Lent for DocumentRef {
    type Held = Document;

    ghost lends = { λ handle. handle.value };

    fn into_nullable(self) -> NullableRef<Document>
        ensures { result.value ≡ self.value }
    {
        let DocumentRef { at } = self;
        NullableRef {
            at: at as *const Document,
        }
    }
}
