//! How rows write the texts of statements.
//!
//! A statement that is a step by itself has a line with the line of its first token, and its tokens in brackets. An `if`, a `do` and a
//! `d_step` have the same with their word, and behind them the statements in them; braces, `atomic` and `unless` have those alone.
use pml_program::program::{Basic, Program, Seq, Stmt};
use pml_token::token::Token;
use row_files::RowWriter;
use sqlite_items::Items;

/// Writes the texts of tokens with a space between them.
pub fn add_spaced(tokens: &[Token<'_>], out: &mut RowWriter) {
    for (number, token) in tokens.iter().enumerate() {
        if number > 0 {
            out.word(" ");
        }
        out.bytes(token.text());
    }
}

/// The first of these tokens, which is the word that a statement of many begins with.
fn first_of<'t, 'a>(tokens: &'t [Token<'a>]) -> &'t [Token<'a>] {
    &tokens[..tokens.len().min(1)]
}

/// Writes the line of the first token and, in brackets, all of them.
fn add_text(tokens: &[Token<'_>], out: &mut RowWriter) {
    if let [first, ..] = tokens {
        out.count(first.line());
    }
    out.word(" [");
    add_spaced(tokens, out);
    out.word("]\n");
}

#[cycle(statement)]
fn stmt(s: &Stmt<'_>, out: &mut RowWriter) {
    let tokens = s.tokens.as_slice();
    match &s.basic {
        Basic::Plain(_) | Basic::Goto(_) | Basic::Break => add_text(tokens, out),
        Basic::If(options) | Basic::Do(options) => {
            add_text(first_of(tokens), out);
            seqs(options, out);
        }
        Basic::DStep(inside) => {
            add_text(first_of(tokens), out);
            seq(inside, out);
        }
        Basic::Block(inside) | Basic::Atomic(inside) => seq(inside, out),
        Basic::Unless(main, escape) => {
            seq(main, out);
            seq(escape, out);
        }
    }
}

#[cycle(statement)]
fn seqs(ss: &Items<Seq<'_>>, out: &mut RowWriter) {
    for s in ss.as_slice() {
        seq(s, out);
    }
}

#[cycle(statement)]
fn seq(s: &Seq<'_>, out: &mut RowWriter) {
    for one in s.steps.as_slice() {
        stmt(one, out);
    }
}

/// Writes the texts of the statements of a checked model, in the order in which they stand.
pub fn add_texts(program: &Program<'_>, out: &mut RowWriter) {
    for one in program.proctypes.as_slice() {
        seq(&one.body, out);
    }
}
