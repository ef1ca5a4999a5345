//! Conditions over all of a state.

ghost use Rattle.std.specs.Prelude.{◌≡◌};
ghost use Rattle.promela_process.specs.Expressions.{val};
ghost use Rattle.view_condition.specs.Seen.{all_of};

use crate::overview::Overview;
use crate::places::{dotted, respelled};
use crate::resolve::resolved;
use crate::subject::{StateSubject, TypedProcess, is_there};
use crate::unread::{Flaw, Unread, flawed};
use diagnostics::Fault;
use explain_tokens::placed;
use pml_eval::eval::eval;
use pml_expression::cursor::Cursor;
use pml_expression::expr::boxed_expr;
use pml_expression::fault::ReadFault;
use pml_lex::fault::LexError;
use pml_program::expr::Expr;
use pml_program::form::Form;
use pml_token::token::{Kind, Token};
use pml_tree::tree::Expr as TreeExpr;
use run_state::live::Live;
use sqlite_items::Boxed;
use std::alloc::Global;

/// A condition has at most so many bytes.
pub const MOST_BYTES: usize = 1_000;

/// It is nested at most so deep.
pub const MOST_DEPTH: usize = 100;

/// A condition over all of a state.
#[derive(Drop)]
pub struct StateCondition {
    worth: Expr,
    subjects: Vec<StateSubject>,
}

// The tokens of a text with dots in place of signs, each with its place.
fn tokens_of<'t>(alloc: Global, dotted: &'t [u8], text: &[u8]) -> Result<Vec<Token<'t>>, Unread> {
    match placed(alloc, dotted) {
        Ok(tokens) => Ok(respelled(alloc, tokens.as_slice(), text)?),
        Err(LexError::Memory) => Err(Unread::Memory),
        Err(LexError::Lexical(at)) => Err(flawed(Flaw::Lexical, at)),
        Err(_) => Err(flawed(Flaw::Long, 0)),
    }
}

// Where the token stands from which on there are so many.
fn place_of(tokens: &[Token<'_>], left: usize) -> Option<u32> {
    match tokens.get(tokens.len().saturating_sub(left)) {
        Some(token) => Some(token.line()),
        None => None,
    }
}

// That no rule reads the token from which on there are so many.
fn unreadable(tokens: &[Token<'_>], left: usize) -> Unread {
    match place_of(tokens, left) {
        Some(at) => flawed(Flaw::Syntax, at),
        None => flawed(Flaw::Short, u32::MAX),
    }
}

// What stands alone in the language, and is of one process.
fn timeout_in(tokens: &[Token<'_>]) -> Option<u32> {
    for token in tokens {
        if token.kind() == Kind::Timeout {
            return Some(token.line());
        }
    }
    None
}

// The expression that tokens are, or from which token on none is there.
fn tree_of<'a>(
    alloc: Global,
    depth: usize,
    tokens: &'a [Token<'a>],
) -> Result<Boxed<TreeExpr<'a>>, ReadFault> {
    let mut cursor = Cursor::new(tokens);
    let tree = boxed_expr(alloc, depth, 1, &mut cursor)?;
    if cursor.is_empty() {
        Ok(tree)
    } else {
        Err(cursor.refuse())
    }
}

// Why tokens are none that is nested as deep as a condition may be.
fn why_none<'a>(alloc: Global, tokens: &'a [Token<'a>], left: usize) -> Unread {
    match tree_of(alloc, MOST_BYTES, tokens) {
        Ok(_) => flawed(Flaw::Deep, u32::MAX),
        Err(ReadFault::Memory) => Unread::Memory,
        Err(ReadFault::Syntax(_)) => unreadable(tokens, left),
    }
}

// The condition that these tokens are, over the states of a model, of which this is one.
fn condition_of<'w>(
    alloc: Global,
    tokens: &'w [Token<'w>],
    live: &'w Live<'_, '_>,
) -> Result<StateCondition, Unread> {
    let mut subjects = Vec::new(alloc);
    match tree_of(alloc, MOST_DEPTH, tokens) {
        Ok(tree) => {
            let worth = resolved(alloc, tree.get(), live, &mut subjects)?;
            Ok(StateCondition { worth, subjects })
        }
        Err(ReadFault::Memory) => Err(Unread::Memory),
        Err(ReadFault::Syntax(left)) => Err(why_none(alloc, tokens, left)),
    }
}

/// Reads a condition over the states of a model, of which this is one.
pub fn condition_in<'w>(
    alloc: Global,
    text: &'w [u8],
    live: &'w Live<'_, '_>,
) -> Result<StateCondition, Unread> {
    if text.len() > MOST_BYTES {
        return Err(flawed(Flaw::Long, u32::MAX));
    }
    let dotted = dotted(alloc, text)?;
    let tokens = tokens_of(alloc, dotted.as_slice(), text)?;
    if let Some(at) = timeout_in(tokens.as_slice()) {
        return Err(flawed(Flaw::Alone, at));
    }
    condition_of(alloc, &tokens, live)
}

impl StateCondition {
    /// Its worth in a state, or the first fault from the left.
    pub fn worth<'w>(&'w self, live: &'w Live<'_, '_>) -> Result<i32, Fault>
        ensures { result ≡ val self.now.worth (all_of live.now.state self.now.subjects.items) }
    {
        let overview = Overview::new(live, self.subjects.as_slice());
        eval(&self.worth, &overview)
    }

    /// A process that it names, and that is not there in a state.
    pub fn absent<'w>(&'w self, live: &'w Live<'_, '_>) -> Option<TypedProcess> {
        for subject in self.subjects.as_slice() {
            if let Some(whose) = subject.whose() {
                if !is_there(live, whose) {
                    return Some(whose);
                }
            }
        }
        None
    }

    /// The type of what it reads, where it is one variable, or one field or element of it.
    pub fn form(&self) -> Option<Form> {
        match &self.worth {
            Expr::Read(target) => Some(target.form),
            _ => None,
        }
    }
}
