//! The texts that a client has opened.

ghost use Rattle.std.specs.Prelude.{◌≡◌, ◌<◌, [], length, string_bytes, IfOk, IfSome, find, option_map};
ghost use Rattle.lsp_answers.specs.Questions.{is_named};
ghost use Rattle.lsp_results.specs.Changes.{all_changed};

use lsp_results::changes::all_changed;
use lsp_results::page::Page;
use model_names::KeptNames;
use serde_json::Value;
use std::alloc::{AllocError, Global};
use text_parts::ColumnUnit;

/// So many texts are kept at most; of more the one that was opened or changed longest ago is let go.
const MOST_DOCUMENTS: usize = 256;

/// A text that a client has opened.
#[derive(Drop)]
pub struct Document {
    pub uri: String,
    /// The text, with its names once they were read.
    pub known: KeptNames,
    /// The number that the client gives this state of the text.
    pub version: Option<i64>,
    /// Whether it is still to be told what is wrong with it.
    pub is_new: bool,
}

impl Document {
    fn is_named(&self, uri: &str) -> bool
        ensures { result ≡ is_named uri.now self.now }
    {
        self.uri.as_str() == uri
    }

    /// The text as its editor knows it.
    pub fn page(&self, unit: ColumnUnit) -> Page<'_>
        ensures text { result.text.now ≡ self.now.known }
        ensures uri { result.uri.now ≡ string_bytes self.now.uri }
        ensures unit { result.unit ≡ unit }
    {
        Page {
            uri: self.uri.as_str(),
            text: self.known.text(),
            unit,
        }
    }

    /// The text behind changes.
    fn behind(
        self,
        alloc: Global,
        unit: ColumnUnit,
        version: Option<i64>,
        changes: &[Value],
    ) -> Result<Document, AllocError>
        ensures text { IfOk result (λ d. d.known ≡ all_changed unit self.known changes.now) }
        ensures uri { IfOk result (λ d. string_bytes d.uri ≡ string_bytes self.uri) }
    {
        let Document { uri, known, .. } = self;
        let text = all_changed(alloc, unit, known.into_text(), changes)?;
        Ok(Document {
            uri,
            known: KeptNames::new(text),
            version,
            is_new: true,
        })
    }
}

/// The texts that a client has opened.
#[derive(Drop)]
pub struct Documents {
    all: Vec<Document>,
    /// The names of texts that were closed, of which that is still to be told.
    closed: Vec<String>,
}

impl Documents {
    /// None is open.
    pub fn new(alloc: Global) -> Documents
        ensures { result.all.items ≡ [] }
    {
        Documents {
            all: Vec::new(alloc),
            closed: Vec::new(alloc),
        }
    }

    fn number_of(&self, uri: &str) -> Option<usize>
        ensures { IfSome result (λ n. n < length self.now.all.items) }
    {
        for (number, document) in self.all.iter().enumerate() {
            if document.uri.as_str() == uri {
                return Some(number);
            }
        }
        None
    }

    /// Keeps a text in place of the one that had this name.
    pub fn keep(
        &mut self,
        alloc: Global,
        uri: &str,
        text: &str,
        version: Option<i64>,
    ) -> Result<(), AllocError> {
        let document = Document {
            uri: String::from_str(alloc, uri)?,
            known: KeptNames::new(Vec::from_slice(alloc, text.as_bytes())?),
            version,
            is_new: true,
        };
        drop(self.take(uri));
        if self.all.len() >= MOST_DOCUMENTS {
            drop(self.all.remove(0));
        }
        self.all.push(document)?;
        Ok(())
    }

    /// The text of this name, which is not kept any more then.
    fn take(&mut self, uri: &str) -> Option<Document> {
        match self.number_of(uri) {
            Some(number) => Some(self.all.remove(number)),
            None => None,
        }
    }

    /// The text of this name.
    pub fn find(&self, uri: &str) -> Option<&Document>
        ensures { option_map (λ d. d.now) result ≡ find (is_named uri.now) self.now.all.items }
    {
        for document in self.all.as_slice() {
            if document.is_named(uri) {
                return Some(document);
            }
        }
        None
    }

    /// Reads the names of the text of this name, if they were not read yet.
    pub fn read(&mut self, alloc: Global, uri: &str) -> Result<(), AllocError>
        ensures { self.new.all.items ≡ self.old.all.items }
    {
        match self.number_of(uri) {
            Some(number) => self.all[number].known.read(alloc),
            None => Ok(()),
        }
    }

    /// Changes the text of this name, if it is kept.
    pub fn change(
        &mut self,
        alloc: Global,
        unit: ColumnUnit,
        uri: &str,
        version: Option<i64>,
        changes: &[Value],
    ) -> Result<(), AllocError> {
        if let Some(document) = self.take(uri) {
            self.all
                .push(document.behind(alloc, unit, version, changes)?)?;
        }
        Ok(())
    }

    /// Lets a text go, of which nothing more is told then.
    pub fn close(&mut self, alloc: Global, uri: &str) -> Result<(), AllocError> {
        let name = String::from_str(alloc, uri)?;
        self.closed.push(name)?;
        drop(self.take(uri));
        Ok(())
    }

    /// The name of a text that was closed, of which that is still to be told.
    pub fn take_closed(&mut self) -> Option<String> {
        self.closed.pop()
    }

    /// The first text of which it is still to be told what is wrong with it: that is asked once of each state of a text.
    pub fn take_new(&mut self) -> Option<&Document> {
        for document in self.all.as_mut_slice() {
            if document.is_new {
                document.is_new = false;
                return Some(document);
            }
        }
        None
    }
}
