//! The documents that are open.
ghost use Rattle.std.specs.Prelude.{◌≡◌, ◌<◌, ◌||◌, [], IfOk, IfSome, None, OnErr, is_some, length, nat_lt, option_map, string_bytes};
ghost use Rattle.std.specs.List.{position};
ghost use Rattle.aom_language_answers.specs.OpenDocuments.{Updates, UpdatesIf, is_named, text_of};

use std::alloc::{AllocError, Global};
use std::marker::Model;

/// The most documents that are open at once.
const MOST_DOCUMENTS: usize = 64;

/// A document, by the name that the client has for it.
#[derive(Drop)]
struct Document {
    uri: String,
    text: String,
}

impl Model for Document {
    ghost use Rattle.std.specs.Prelude.{string_bytes};
    ghost use Rattle.aom_language_answers.specs.OpenDocuments.{NamedText};

    ghost Value = { NamedText };

    ghost view = { λ d. record { uri = string_bytes d.uri; text = string_bytes d.text } };
}

impl Document {
    fn new(alloc: Global, uri: &str, text: &str) -> Result<Document, AllocError>
        ensures { IfOk result (λ d. d ≡ record { uri = uri.now; text = text.now }) }
    {
        Ok(Document {
            uri: String::from_str(alloc, uri)?,
            text: String::from_str(alloc, text)?,
        })
    }

    fn is_named(&self, uri: &str) -> bool
        ensures { result ≡ is_named uri.now self.now }
    {
        self.uri.as_str() == uri
    }

    fn text(&self) -> &str
        ensures { result.now ≡ self.now.text }
    {
        self.text.as_str()
    }

    fn set_text(&mut self, text: String)
        ensures { self.new ≡ record self.old { text = string_bytes text } }
    {
        self.text = text;
    }
}

/// The documents that a client has opened, and not closed since.
#[derive(Drop)]
pub struct Documents {
    documents: Vec<Document>,
}

impl Model for Documents {
    ghost use Rattle.std.specs.Prelude.{◌≤◌, List, length};
    ghost use Rattle.aom_language_answers.specs.OpenDocuments.{HaveOwnNames, NamedText};

    ghost Value = { List NamedText };

    ghost view = { λ d. d.documents.items };

    ghost invariant = { λ d. HaveOwnNames d.documents.items × (length d.documents.items ≤ 64) };
}

impl Documents {
    /// None yet.
    pub fn new(alloc: Global) -> Documents
        ensures { result ≡ [] }
    {
        Documents {
            documents: Vec::new(alloc),
        }
    }

    /// Where the document of a name stands.
    fn place(&self, uri: &str) -> Option<usize>
        ensures value { result ≡ position (is_named uri.now) self.now }
        ensures within { IfSome result (λ at. at < length self.now) }
    {
        self.documents
            .iter()
            .position(|document| document.is_named(uri))
    }

    /// The text of an open document.
    pub fn text(&self, uri: &str) -> Option<&str>
        ensures { option_map (λ text. text.now) result ≡ text_of uri.now self.now }
    {
        let at = self.place(uri)?;
        Some(self.documents[at].text())
    }

    /// Opens a document, or opens it anew. Whether it is open now: above 64 none more is opened. All is as it was where memory is wanted.
    pub fn open(&mut self, alloc: Global, uri: &str, text: &str) -> Result<bool, AllocError>
        ensures answer { IfOk result (λ is_open. is_open ≡ (is_some (text_of uri.now self.old) || nat_lt (length self.old) 64)) }
        ensures documents { IfOk result (λ is_open. UpdatesIf is_open self.old self.new uri.now text.now) }
        ensures memory { OnErr result (self.new ≡ self.old) }
    {
        if self.change(alloc, uri, text)? {
            return Ok(true);
        }
        if MOST_DOCUMENTS <= self.documents.len() {
            return Ok(false);
        }
        self.documents.push(Document::new(alloc, uri, text)?)?;
        Ok(true)
    }

    /// An open document has another text now. Whether it is open. All is as it was where memory is wanted.
    pub fn change(&mut self, alloc: Global, uri: &str, text: &str) -> Result<bool, AllocError>
        ensures answer { IfOk result (λ is_open. is_open ≡ is_some (text_of uri.now self.old)) }
        ensures documents { IfOk result (λ is_open. UpdatesIf is_open self.old self.new uri.now text.now) }
        ensures memory { OnErr result (self.new ≡ self.old) }
    {
        match self.place(uri) {
            Some(at) => {
                let text = String::from_str(alloc, text)?;
                self.documents[at].set_text(text);
                Ok(true)
            }
            None => Ok(false),
        }
    }

    /// Closes a document. Whether it was open.
    pub fn close(&mut self, uri: &str) -> bool
        ensures answer { result ≡ is_some (text_of uri.now self.old) }
        ensures documents { Updates self.old self.new uri.now None }
    {
        match self.place(uri) {
            Some(at) => {
                drop(self.documents.remove(at));
                true
            }
            None => false,
        }
    }
}
