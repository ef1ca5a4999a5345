//! What Spin shows of a declaration that is a statement there: `t = x + 1`, and `t = 0` where no value is written.

ghost use Rattle.std.specs.Prelude.{◌≡◌, ◌≤◌, length, drop, IfSome, IfOk};
ghost use Rattle.trail_text.specs.Declarations.{opens, closes, ends, is_one_name};
ghost use Rattle.trail_text.specs.Lists.{is_shown_as};
ghost use Rattle.view_text.specs.Written.{Stays};

use crate::spelled::add_spelled;
use pml_token::token::{Kind, Token};
use std::alloc::{AllocError, Global};
use view_text::writer::Writer;

/// A declaration of one name, as a statement.
#[derive(Drop)]
pub struct Declaring {
    line: usize,
    /// The statement, in one spelling.
    statement: Vec<u8>,
    /// How many bytes of it are known: of a value that is one name, which may be shown as a number, none.
    known: usize,
}

/// Whether a bracket of some kind is opened.
pub fn is_opening(kind: Kind) -> bool
    ensures { result ≡ opens kind }
{
    match kind {
        Kind::OpenParen | Kind::OpenBracket | Kind::OpenBrace => true,
        _ => false,
    }
}

/// Whether one is closed.
pub fn is_closing(kind: Kind) -> bool
    ensures { result ≡ closes kind }
{
    match kind {
        Kind::CloseParen | Kind::CloseBracket | Kind::CloseBrace => true,
        _ => false,
    }
}

// Whether a declaration of one name ends before a token in no bracket.
fn is_end(kind: Kind) -> bool
    ensures { result ≡ ends kind }
{
    match kind {
        Kind::Comma | Kind::Semicolon | Kind::Arrow => true,
        _ => is_closing(kind),
    }
}

// Where the value begins of the name that is declared at this token.
fn value_from(tokens: &[Token<'_>], at: usize) -> Option<usize>
    ensures { IfSome result (λ n. n ≤ length tokens.now) }
{
    for behind in at.saturating_add(1)..tokens.len() {
        let kind = tokens[behind].kind();
        if kind == Kind::Assign {
            return Some(behind + 1);
        }
        if kind != Kind::CloseBracket && is_end(kind) {
            return None;
        }
    }
    None
}

// Writes the value whose first token this is.
fn add_value(tokens: &[Token<'_>], from: usize, out: &mut Writer)
    ensures { Stays out.old out.new }
{
    let mut depth = 0usize;
    for at in from..tokens.len() {
        let kind = tokens[at].kind();
        if depth == 0 && is_end(kind) {
            return;
        }
        if is_opening(kind) {
            depth = depth.saturating_add(1);
        } else if is_closing(kind) {
            depth = depth.saturating_sub(1);
        }
        add_spelled(tokens[at].text(), out);
    }
}

// Whether the value that begins with these tokens is one name.
fn is_name(tokens: &[Token<'_>]) -> bool
    ensures { result ≡ is_one_name tokens.now }
{
    match tokens {
        [name, behind, ..] => name.kind() == Kind::Name && is_end(behind.kind()),
        _ => false,
    }
}

// Writes the statement for the name at this token; how many bytes of it are known.
fn add_statement(tokens: &[Token<'_>], at: usize, out: &mut Writer) -> usize
    ensures { Stays out.old out.new }
{
    if let Some(name) = tokens.get(at) {
        add_spelled(name.text(), out);
    }
    match tokens.get(at.saturating_add(1)) {
        Some(behind) if behind.kind() == Kind::OpenBracket => out.add(b"[0]="),
        _ => out.add(b"="),
    }
    let before = out.len();
    let Some(from) = value_from(tokens, at) else {
        out.add(b"0");
        return out.len();
    };
    add_value(tokens, from, out);
    if is_name(&tokens[from..]) {
        before
    } else {
        out.len()
    }
}

impl Declaring {
    /// That of the name at this token, which is on a line.
    pub fn new(
        tokens: &[Token<'_>],
        at: usize,
        line: usize,
        alloc: Global,
    ) -> Result<Declaring, AllocError>
        ensures { IfOk result (λ declaring. declaring.line ≡ line) }
    {
        let mut out = Writer::new(alloc);
        let known = add_statement(tokens, at, &mut out);
        Ok(Declaring {
            line,
            statement: out.finish()?,
            known,
        })
    }

    /// Whether Spin may show a statement of a line for it, which is given in one spelling.
    pub fn is_shown_as(&self, statement: &[u8], line: usize) -> bool
        ensures { result ≡ is_shown_as self.now statement.now line }
    {
        let known = self.known.min(self.statement.len());
        let is_whole = known == self.statement.len() && statement.len() != known;
        self.line == line && !is_whole && statement.starts_with(&self.statement[..known])
    }
}
