//! What a client asks of a text.

ghost use Rattle.std.specs.Prelude.{◌≡◌};
ghost use Rattle.lsp_answers.specs.Questions.{question_of};

/// What a client asks of a text.
#[derive(Clone, Copy, Debug, PartialEq, Eq)]
pub enum Question {
    Definition,
    References,
    Highlights,
    Hover,
    Symbols,
    /// Where the name stands that is to be renamed.
    Target,
    Rename,
}

impl Question {
    /// The question that a method is, if it is one.
    pub fn of(method: &str) -> Option<Question>
        ensures { result ≡ question_of method.now }
    {
        match method {
            "textDocument/definition" => Some(Question::Definition),
            "textDocument/references" => Some(Question::References),
            "textDocument/documentHighlight" => Some(Question::Highlights),
            "textDocument/hover" => Some(Question::Hover),
            "textDocument/documentSymbol" => Some(Question::Symbols),
            "textDocument/prepareRename" => Some(Question::Target),
            "textDocument/rename" => Some(Question::Rename),
            _ => None,
        }
    }
}
