//! The texts of offers.

ghost use Rattle.std.specs.Prelude.{◌≡◌, ◌++◌, IfOk, OnOk, OnErr};
ghost use Rattle.std.specs.Fmt.{decimal};
ghost use Rattle.std.specs.Io.{StartsWith};
ghost use Rattle.std.specs.Option.{option_copied};
ghost use Rattle.promela_process.specs.Offers as flow;
ghost use Rattle.pml_flow.specs.Composed as kept-texts;

use crate::arms::arm;
use crate::lines::first_line;
use crate::statements::Statements;
use itoa::Buffer;
use pml_program::program::{Basic, Stmt};
use pml_token::token::Token;
use std::alloc::{AllocError, Global};
use std::marker::Model;

/// The texts of statements, one behind another, and their lines.
#[derive(Drop)]
pub struct Texts {
    bytes: Vec<u8>,
    bounds: Vec<usize>,
    lines: Vec<u32>,
}

impl Model for Texts {
    ghost use Rattle.pml_flow.specs.Composed.{Texts};

    ghost Value = { Texts };

    ghost view = { λ t. record { bytes = t.bytes.items; bounds = t.bounds.items; lines = t.lines.items } };
}

impl Texts {
    /// The text of a statement, by the number of its position.
    pub fn get(&self, statement: usize) -> &[u8]
        ensures { result.now ≡ kept-texts.text_at self.now statement }
    {
        arm(self.bytes.as_slice(), self.bounds.as_slice(), statement)
    }

    /// The line that this text has.
    pub fn line(&self, statement: usize) -> u32
        ensures { result ≡ kept-texts.offer_line_at self.now statement }
    {
        match self.lines.get(statement) {
            Some(line) => *line,
            None => 0,
        }
    }
}

fn add_number(text: &mut Vec<u8>, number: u32) -> Result<(), AllocError>
    ensures { OnOk result (text.new.items ≡ text.old.items ++ decimal number) }
{
    let mut digits = Buffer::new();
    text.extend_from_slice(digits.format(number).as_bytes())
}

/// Appends tokens, joined by one space.
fn add_tokens(text: &mut Vec<u8>, tokens: &[Token<'_>]) -> Result<(), AllocError>
    ensures added { OnOk result (text.new.items ≡ text.old.items ++ flow.joined_by_spaces tokens.now) }
    ensures kept { OnErr result (StartsWith text.new.items text.old.items) }
{
    let [first, rest @ ..] = tokens else {
        return Ok(());
    };
    text.extend_from_slice(first.text())?;
    for token in rest {
        text.push(b' ')?;
        text.extend_from_slice(token.text())?;
    }
    Ok(())
}

/// Appends the tokens of a statement, or `d_step`.
pub fn add_action(
    text: &mut Vec<u8>,
    basic: &Basic<'_>,
    tokens: &[Token<'_>],
) -> Result<(), AllocError>
    ensures added { OnOk result (text.new.items ≡ text.old.items ++ flow.statement_text basic.now tokens.now) }
    ensures kept { OnErr result (StartsWith text.new.items text.old.items) }
{
    match basic {
        Basic::DStep(_) => text.extend_from_slice(b"d_step"),
        Basic::Plain(_)
        | Basic::Goto(_)
        | Basic::Break
        | Basic::If(_)
        | Basic::Do(_)
        | Basic::Block(_)
        | Basic::Atomic(_)
        | Basic::Unless(_, _) => add_tokens(text, tokens),
    }
}

/// The line of an offered statement.
fn offer_line(stmt: &Stmt<'_>) -> u32
    ensures { result ≡ flow.offer_line stmt.now }
{
    first_line(stmt.tokens.as_slice(), 0)
}

fn line_by(stmt: Option<&Stmt<'_>>) -> u32
    ensures { result ≡ kept-texts.line_by (option_copied stmt.entry) }
{
    match stmt {
        Some(stmt) => offer_line(stmt),
        None => 0,
    }
}

/// Appends `line L [TEXT]`.
fn add_offer(text: &mut Vec<u8>, stmt: &Stmt<'_>) -> Result<(), AllocError>
    ensures { OnOk result (text.new.items ≡ text.old.items ++ flow.offer_text stmt.now) }
{
    text.extend_from_slice(b"line ")?;
    add_number(text, offer_line(stmt))?;
    text.extend_from_slice(b" [")?;
    add_action(text, &stmt.basic, stmt.tokens.as_slice())?;
    text.extend_from_slice(b"]")
}

/// Appends the text of a statement that is offered.
fn add_if(is_offered: bool, text: &mut Vec<u8>, stmt: Option<&Stmt<'_>>) -> Result<(), AllocError>
    ensures { OnOk result (text.new.items ≡ text.old.items ++ kept-texts.text_if is_offered (option_copied stmt.entry)) }
{
    match stmt {
        Some(stmt) => {
            if is_offered {
                return add_offer(text, stmt);
            }
            Ok(())
        }
        None => Ok(()),
    }
}

/// The texts of the statements that are offered, each composed once, and the lines of all.
pub fn all_texts(
    alloc: Global,
    statements: &Statements<'_, '_>,
    offered: &[bool],
) -> Result<Texts, AllocError>
    ensures { IfOk result (λ t. t ≡ kept-texts.texts_of statements.now offered.now) }
{
    let mut bytes = Vec::new(alloc);
    let mut bounds = Vec::new(alloc);
    let mut lines = Vec::new(alloc);
    for (number, is_offered) in offered.iter().enumerate() {
        add_if(*is_offered, &mut bytes, statements.get(number))?;
        bounds.push(bytes.len())?;
        lines.push(line_by(statements.get(number)))?;
    }
    Ok(Texts {
        bytes,
        bounds,
        lines,
    })
}
