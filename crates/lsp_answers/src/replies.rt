//! Replies to requests (JSON-RPC 2.0).

ghost use Rattle.std.specs.Prelude.{◌≡◌, codes, Some, IfOk};
ghost use Rattle.serde_json.specs.Find.{get};
ghost use Rattle.serde_json.specs.View.{view};
ghost use Rattle.lsp_answers.specs.Messages.{reply_of};

use model_verdicts::renaming::NoRenaming;
use serde_json::{Value, json};
use std::alloc::{AllocError, Global};

/// Why a request is not answered.
#[derive(Clone, Copy, Debug, PartialEq, Eq)]
pub enum RequestFault {
    /// It has no method.
    NoRequest,
    /// It came before `initialize`.
    NotInitialized,
    /// It came behind `shutdown`.
    ShutDown,
    NoMethod,
    /// The text is not open.
    NotOpen,
    /// It names no place.
    NoPlace,
    /// A name is not renamed.
    NoRenaming(NoRenaming),
}

/// Why a name is not renamed, in words.
fn reason(why: NoRenaming) -> &'static str {
    match why {
        NoRenaming::NoModel => "the text is refused as it is",
        NoRenaming::NoName => "no name that the text declares stands there",
        NoRenaming::NotAName => "the new name is none, or a word of the language",
        NoRenaming::Label => "a label that begins with end, progress or accept means more",
        NoRenaming::Refused(_) => "the text would be refused then",
        NoRenaming::OtherMeaning => "a name would mean something else then",
    }
}

impl RequestFault {
    fn code(self) -> i64 {
        match self {
            RequestFault::NoRequest => -32600,
            RequestFault::NotInitialized => -32002,
            RequestFault::ShutDown => -32600,
            RequestFault::NoMethod => -32601,
            RequestFault::NotOpen | RequestFault::NoPlace => -32602,
            RequestFault::NoRenaming(_) => -32803,
        }
    }

    fn words(self) -> &'static str {
        match self {
            RequestFault::NoRequest => "no request",
            RequestFault::NotInitialized => "not initialized",
            RequestFault::ShutDown => "shut down",
            RequestFault::NoMethod => "no such method",
            RequestFault::NotOpen => "not open",
            RequestFault::NoPlace => "no place",
            RequestFault::NoRenaming(why) => reason(why),
        }
    }
}

/// The reply to the request with this id.
pub fn reply(alloc: Global, id: &Value, what: &Value) -> Result<Value, AllocError>
    ensures { IfOk result (λ v. view v ≡ reply_of (view id.now) (view what.now)) }
{
    json!(in alloc; {"jsonrpc": "2.0", "id": id, "result": what})
}

/// The reply to the request with this id, that it is not answered.
pub fn refused(alloc: Global, id: &Value, fault: RequestFault) -> Result<Value, AllocError>
    ensures { IfOk result (λ v. get (codes "id") (view v) ≡ Some (view id.now)) }
{
    let code = fault.code();
    let words = fault.words();
    let fault = json!(in alloc; {"code": code, "message": words})?;
    let reply = json!(in alloc; {"jsonrpc": "2.0", "id": id, "error": fault})?;
    Ok(reply)
}
