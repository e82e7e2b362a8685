//! The documents that are open.

ghost use Rattle.std.specs.{Prelude.{◌≡◌, ◌≤◌, OnOk, IfSome, [], filter, not, option_map}, String.{string_bytes}};
ghost use Rattle.std.specs.Str.{bytes_eq};
ghost use Rattle.sect_editor.specs.Accepted.{IsCompiledIf};
ghost use Rattle.sect_lsp.specs.Documents.{text_of, closed, opened};
ghost use Rattle.sect_lsp.specs.steps.Keeping.{OpenView, IsKept, kept_of};

use crate::limits::MOST_K;
use sect_emit::Compiled;
use std::alloc::{AllocError, Global};
use std::marker::Model;

/// A document: its name, its text, and the compiled program of that, unless it is refused.
#[derive(Drop)]
pub struct Document {
    uri: String,
    text: Vec<u8>,
    compiled: Option<Compiled>,
}

impl Model for Document {
    ghost use Rattle.std.specs.Coded.{codes};
    ghost use Rattle.std.specs.String.{string_bytes};
    ghost use Rattle.sect_front.specs.Coding.{block_code};
    ghost use Rattle.sect_types.specs.Coding.{statements_code};
    ghost use Rattle.sect_points.specs.Paths.{path_code};
    ghost use Rattle.sect_lsp.specs.steps.Keeping.{KeptView};

    ghost Value = { KeptView };

    ghost coded = { Prim.hlevel (codes, block_code, statements_code, path_code) };

    ghost view = { λ d. record { uri = string_bytes d.uri; text = d.text.items; compiled = d.compiled } };
}

impl Document {
    fn new(uri: String, text: Vec<u8>, compiled: Option<Compiled>) -> Document
        ensures { result ≡ record { uri = string_bytes uri; text = text.items; compiled = compiled } }
    {
        Document {
            uri,
            text,
            compiled,
        }
    }

    fn is_called(&self, uri: &str) -> bool
        ensures { result ≡ bytes_eq self.now.uri uri.now }
    {
        self.uri.as_str() == uri
    }

    /// Its text.
    pub fn text(&self) -> &[u8]
        ensures { result.now ≡ self.now.text }
    {
        self.text.as_slice()
    }

    /// The compiled program of its text. A text that is refused has none.
    pub fn compiled(&self) -> Option<&Compiled>
        ensures { option_map (λ c. c.now) result ≡ self.now.compiled }
    {
        self.compiled.as_ref()
    }
}

/// The documents that are open, and how many fields a path may have in them.
#[derive(Drop)]
pub struct Documents {
    k: u16,
    list: Vec<Document>,
}

impl Model for Documents {
    ghost use Rattle.std.specs.Prelude.{◌≤◌, All, map};
    ghost use Rattle.sect_lsp.specs.Limits.{most_k};
    ghost use Rattle.sect_lsp.specs.steps.Keeping.{OpenView, document_of, IsKept};

    ghost Value = { OpenView };

    ghost view = { λ all. record { k = all.k; documents = map document_of all.list.items } };

    ghost invariant = { λ all. (all.k ≤ most_k) × All (IsKept all.k) all.list.items };
}

/// The document of this name, if there is one.
fn document_in<'a>(list: &'a [Document], uri: &str) -> Option<&'a Document>
    ensures { option_map (λ d. d.now) result ≡ kept_of uri.now list.entry.now }
{
    for document in list {
        if document.is_called(uri) {
            return Some(document);
        }
    }
    None
}

/// Leaves out the document of this name.
fn forget(list: &mut Vec<Document>, uri: &str)
    ensures { list.new.items ≡ filter (λ d. not (bytes_eq d.uri uri.now)) list.old.items }
{
    list.retain(|document| !document.is_called(uri));
}

impl Documents {
    /// None is open. A path may have so many fields in those that will be.
    pub fn new(alloc: Global, k: u16) -> Documents
        requires { k ≤ MOST_K }
        ensures { result ≡ record { k = k; documents = [] } }
    {
        Documents {
            k,
            list: Vec::new(alloc),
        }
    }

    /// How many fields a path may have.
    pub fn k(&self) -> u16
        ensures is { result ≡ self.now.k }
        ensures most { result ≤ MOST_K }
    {
        self.k
    }

    /// The document of this name, if it is open.
    pub fn find(&self, uri: &str) -> Option<&Document>
        ensures text { option_map (λ d. d.now.text) result ≡ text_of uri.now self.now.documents }
        ensures kept { IfSome result (λ d. IsKept self.now.k d.now) }
    {
        document_in(self.list.as_slice(), uri)
    }

    /// The text of the document of this name, if it is open.
    pub fn text(&self, uri: &str) -> Option<&[u8]>
        ensures { option_map (λ t. t.now) result ≡ text_of uri.now self.now.documents }
    {
        match self.find(uri) {
            Some(document) => Some(document.text()),
            None => None,
        }
    }

    /// Forgets the document of this name.
    pub fn close(&mut self, uri: &str)
        ensures { self.new ≡ record self.old { documents = closed uri.now self.old.documents } }
    {
        forget(&mut self.list, uri);
    }

    /// Keeps this text and its compiled program under this name, in place of what was there.
    pub fn open(
        &mut self,
        alloc: Global,
        uri: &str,
        text: Vec<u8>,
        compiled: Option<Compiled>,
    ) -> Result<(), AllocError>
        requires { IsCompiledIf text.items self.old.k compiled }
        ensures { OnOk result
            (self.new ≡ record self.old { documents = opened uri.now text.items self.old.documents }) }
    {
        let name = String::from_str(alloc, uri)?;
        self.close(uri);
        self.list.push(Document::new(name, text, compiled))?;
        Ok(())
    }
}
