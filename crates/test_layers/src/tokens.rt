//! How rows write tokens: `Kind@LINE=TEXT` for each, with blanks between them, or `none`. In a text every byte but the visible ones of
//! ASCII is written by a grave accent and its digits.
use pml_lex::limits::first_too_deep;
use pml_token::token::Token;
use row_files::RowWriter;

fn add_text(text: &[u8], out: &mut RowWriter) {
    for byte in text {
        if b'!' <= *byte && *byte <= b'~' {
            out.byte(*byte);
        } else {
            out.digits(*byte);
        }
    }
}

fn add_token(token: &Token<'_>, out: &mut RowWriter) {
    out.kind(&token.kind());
    out.word("@");
    out.count(token.line());
    out.word("=");
    add_text(token.text(), out);
}

/// Writes tokens as a row does.
pub fn add_tokens(tokens: &[Token<'_>], out: &mut RowWriter) {
    let mut before = "";
    for token in tokens {
        out.word(before);
        add_token(token, out);
        before = " ";
    }
    if tokens.is_empty() {
        out.word("none");
    }
}

/// Writes how many tokens there are, or the line of the first one at which they go too deep.
pub fn add_count(tokens: &[Token<'_>], out: &mut RowWriter) {
    match first_too_deep(tokens) {
        Some(line) => {
            out.word("TooDeep(");
            out.count(line);
            out.word(")");
        }
        None => {
            out.number(tokens.len());
            out.word(" tokens");
        }
    }
}
