//! Parts of a text that are exchanged for others.

ghost use Rattle.std.specs.Prelude.{◌≡◌, ◌++◌, take, drop, IfOk};
ghost use Rattle.model_verdicts.specs.Exchanged.{bytes_of, words_of, exchanged};

use std::alloc::{AllocError, Global};

/// What is written without a part of the text.
#[derive(Clone, Copy, Debug, PartialEq, Eq)]
pub enum WrittenSign {
    Nothing,
    Semicolon,
    /// A `;` in front of a token.
    SemicolonBefore,
    Option,
    /// `::` in front of a token.
    OptionBefore,
    Arrow,
    /// A `,` in front of a token.
    CommaBefore,
    /// `run` in front of a name.
    RunBefore,
    Parentheses,
    CloseParen,
    CloseBracket,
    CloseBrace,
    Fi,
    Od,
}

impl WrittenSign {
    /// How it is written.
    pub fn bytes(self) -> &'static [u8]
        ensures { result.now ≡ bytes_of self }
    {
        match self {
            WrittenSign::Nothing => b"",
            WrittenSign::Semicolon => b";",
            WrittenSign::SemicolonBefore => b"; ",
            WrittenSign::Option => b"::",
            WrittenSign::OptionBefore => b":: ",
            WrittenSign::Arrow => b"->",
            WrittenSign::CommaBefore => b", ",
            WrittenSign::RunBefore => b"run ",
            WrittenSign::Parentheses => b"()",
            WrittenSign::CloseParen => b")",
            WrittenSign::CloseBracket => b"]",
            WrittenSign::CloseBrace => b"} ",
            WrittenSign::Fi => b"fi ",
            WrittenSign::Od => b"od ",
        }
    }
}

/// What is written in place of a part of a text.
#[derive(Clone, Copy, Debug, PartialEq, Eq)]
pub enum Words {
    Sign(WrittenSign),
    /// What stands behind so many bytes of the text, and how many bytes it has.
    Copy(usize, usize),
}

/// A part of a text that is exchanged: how many bytes stand before it, how many it has, and what is written in its place.
#[derive(Clone, Copy, Debug, PartialEq, Eq)]
pub struct ExchangedPart {
    pub at: usize,
    pub length: usize,
    pub words: Words,
}

/// What is written, of a text.
pub fn words_of(text: &[u8], words: Words) -> &[u8]
    ensures { result.now ≡ words_of text.now words }
{
    match words {
        Words::Sign(sign) => sign.bytes(),
        Words::Copy(at, length) => front(behind(text, at), length),
    }
}

/// So many bytes from the front.
fn front(text: &[u8], count: usize) -> &[u8]
    ensures { result.now ≡ take count text.now }
{
    if count < text.len() {
        &text[..count]
    } else {
        text
    }
}

/// The bytes behind so many others.
fn behind(text: &[u8], count: usize) -> &[u8]
    ensures { result.now ≡ drop count text.now }
{
    if count < text.len() {
        &text[count..]
    } else {
        &text[..0]
    }
}

/// The text with a part of it exchanged.
pub fn exchanged(alloc: Global, text: &[u8], exchange: ExchangedPart) -> Result<Vec<u8>, AllocError>
    ensures { IfOk result (λ t. t.items ≡ exchanged text.now exchange) }
{
    let mut out = Vec::new(alloc);
    out.extend_from_slice(front(text, exchange.at))?;
    out.extend_from_slice(words_of(text, exchange.words))?;
    out.extend_from_slice(behind(behind(text, exchange.at), exchange.length))?;
    Ok(out)
}
