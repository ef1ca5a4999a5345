//! What is answered to a message.

ghost use Rattle.std.specs.Prelude.{◌≡◌, true, codes, Some, IfOk, option_map};
ghost use Rattle.serde_json.specs.Find.{get};
ghost use Rattle.serde_json.specs.View.{view};
ghost use Rattle.lsp_answers.specs.Messages.{fault_by, RepliesTo};

use crate::aids::{Aid, aided};
use crate::answers::answer;
use crate::documents::Documents;
use crate::fields::{lists, text_at};
use crate::questions::Question;
use crate::replies::{RequestFault, refused, reply};
use crate::told::{told_nothing, told_of};
use lsp_results::tokens::legend;
use serde_json::{Value, json};
use std::alloc::{AllocError, Global};
use text_parts::ColumnUnit;

/// A server of one client.
#[derive(Drop)]
pub struct Server {
    documents: Documents,
    unit: ColumnUnit,
    is_ready: bool,
    is_shut: bool,
}

fn capabilities(alloc: Global, unit: ColumnUnit) -> Result<Value, AllocError> {
    let encoding = match unit {
        ColumnUnit::Utf8 => "utf-8",
        ColumnUnit::Utf16 => "utf-16",
    };
    let legend = legend(alloc)?;
    json!(in alloc; {
        "capabilities": {
            "positionEncoding": encoding,
            "textDocumentSync": {"openClose": true, "change": 2, "save": false},
            "definitionProvider": true,
            "referencesProvider": true,
            "documentHighlightProvider": true,
            "hoverProvider": true,
            "documentSymbolProvider": true,
            "renameProvider": {"prepareProvider": true},
            "foldingRangeProvider": true,
            "completionProvider": {"triggerCharacters": ["."]},
            "signatureHelpProvider": {"triggerCharacters": ["(", ","]},
            "codeActionProvider": {"codeActionKinds": ["quickfix"]},
            "semanticTokensProvider": {"legend": legend, "full": true, "range": true}
        },
        "serverInfo": {"name": "spinlsp", "version": "0.9.0"}
    })
}

impl Server {
    /// One that waits for `initialize`.
    pub fn new(alloc: Global) -> Server {
        Server {
            documents: Documents::new(alloc),
            unit: ColumnUnit::Utf16,
            is_ready: false,
            is_shut: false,
        }
    }

    /// Whether the client has said that it will ask no more.
    pub fn is_shut(&self) -> bool
        ensures { result ≡ self.now.is_shut }
    {
        self.is_shut
    }

    // Columns are bytes where the client can count them, and else units of UTF-16.
    fn begin(&mut self, message: &Value)
        ensures ready { self.new.is_ready ≡ true }
        ensures shut { self.new.is_shut ≡ self.old.is_shut }
    {
        self.is_ready = true;
        if lists(
            message,
            "/params/capabilities/general/positionEncodings",
            "utf-8",
        ) {
            self.unit = ColumnUnit::Utf8;
        }
    }

    // What stands in the way of an answer.
    fn fault_of(&self, method: &str) -> RequestFault
        ensures { result ≡ fault_by method.now self.now.is_ready self.now.is_shut }
    {
        if method.is_empty() {
            RequestFault::NoRequest
        } else if !self.is_ready {
            RequestFault::NotInitialized
        } else if self.is_shut {
            RequestFault::ShutDown
        } else {
            RequestFault::NoMethod
        }
    }

    fn requested(
        &mut self,
        alloc: Global,
        id: &Value,
        method: &str,
        message: &Value,
    ) -> Result<Value, AllocError>
        ensures { IfOk result (λ v. get (codes "id") (view v) ≡ Some (view id.now)) }
    {
        if method == "initialize" && !self.is_ready {
            self.begin(message);
            let what = capabilities(alloc, self.unit)?;
            return reply(alloc, id, &what);
        }
        if method == "shutdown" && self.is_ready {
            self.is_shut = true;
            return reply(alloc, id, &Value::Null);
        }
        if self.is_ready && !self.is_shut {
            if let Some(question) = Question::of(method) {
                return self.answered(alloc, id, question, message);
            }
            if let Some(aid) = Aid::of(method) {
                return self.aided(alloc, id, aid, message);
            }
        }
        refused(alloc, id, self.fault_of(method))
    }

    // Answers a question on a text, if that is open.
    fn answered(
        &mut self,
        alloc: Global,
        id: &Value,
        question: Question,
        message: &Value,
    ) -> Result<Value, AllocError>
        ensures { IfOk result (λ v. get (codes "id") (view v) ≡ Some (view id.now)) }
    {
        let uri = text_at(message, "/params/textDocument/uri");
        self.documents.read(alloc, uri)?;
        let Some(document) = self.documents.find(uri) else {
            return refused(alloc, id, RequestFault::NotOpen);
        };
        match answer(alloc, document, self.unit, question, message)? {
            Ok(what) => reply(alloc, id, &what),
            Err(fault) => refused(alloc, id, fault),
        }
    }

    // Answers what helps one to read or write a text, if that is open.
    fn aided(
        &self,
        alloc: Global,
        id: &Value,
        aid: Aid,
        message: &Value,
    ) -> Result<Value, AllocError>
        ensures { IfOk result (λ v. get (codes "id") (view v) ≡ Some (view id.now)) }
    {
        let uri = text_at(message, "/params/textDocument/uri");
        let Some(document) = self.documents.find(uri) else {
            return refused(alloc, id, RequestFault::NotOpen);
        };
        match aided(alloc, document.page(self.unit), aid, message)? {
            Ok(what) => reply(alloc, id, &what),
            Err(fault) => refused(alloc, id, fault),
        }
    }

    // Keeps a text as it is behind its changes.
    fn change(&mut self, alloc: Global, uri: &str, message: &Value) -> Result<(), AllocError> {
        let version = message
            .pointer("/params/textDocument/version")
            .and_then(Value::as_i64);
        let Some(changes) = message
            .pointer("/params/contentChanges")
            .and_then(Value::as_array)
        else {
            return Ok(());
        };
        self.documents
            .change(alloc, self.unit, uri, version, changes.as_slice())
    }

    fn notified(&mut self, alloc: Global, method: &str, message: &Value) -> Result<(), AllocError> {
        let uri = text_at(message, "/params/textDocument/uri");
        match method {
            "textDocument/didOpen" => {
                let version = message
                    .pointer("/params/textDocument/version")
                    .and_then(Value::as_i64);
                let text = text_at(message, "/params/textDocument/text");
                self.documents.keep(alloc, uri, text, version)
            }
            "textDocument/didChange" => self.change(alloc, uri, message),
            "textDocument/didClose" => self.documents.close(alloc, uri),
            _ => Ok(()),
        }
    }

    /// Takes a message, and answers it where it is a request.
    pub fn answer(&mut self, alloc: Global, message: &Value) -> Result<Option<Value>, AllocError>
        ensures { IfOk result (λ r. RepliesTo (view message.now) (option_map view r)) }
    {
        let method = text_at(message, "/method");
        match message.get("id") {
            Some(id) => Ok(Some(self.requested(alloc, id, method, message)?)),
            None => {
                self.notified(alloc, method, message)?;
                Ok(None)
            }
        }
    }

    /// What is still to be told of the texts, a notification at a time: of one that was closed nothing more, of one that was opened or changed what is
    /// wrong with it.
    pub fn told(&mut self, alloc: Global) -> Result<Option<Value>, AllocError> {
        if let Some(uri) = self.documents.take_closed() {
            return Ok(Some(told_nothing(alloc, uri.as_str())?));
        }
        match self.documents.take_new() {
            Some(document) => Ok(Some(told_of(alloc, self.unit, document)?)),
            None => Ok(None),
        }
    }
}
