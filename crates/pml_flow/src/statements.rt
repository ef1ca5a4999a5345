//! The statements of a body by the numbers of its positions.

ghost use Rattle.std.specs.Prelude.{◌≡◌, ℕ, ◌++◌, ◌∷◌, [], None, List, Option, IfOk, OnOk, map, slice_get, slice_index_or};
ghost use Rattle.std.specs.Option.{option_copied};
ghost use Rattle.pml_control.specs.Told.{told_of};
ghost use Rattle.promela_process.specs.Offers.{stated};
ghost use Rattle.pml_flow.specs.Inside.{either, inner_in, inner_arm, inner_list, inner_arms};

use pml_program::program::{Basic, Seq, Stmt};
use std::alloc::{AllocError, Global};
use std::marker::Model;

/// Lent statements by the numbers of positions: of each the statement that stands first there, if one does.
#[derive(Drop)]
pub struct Statements<'p, 'a> {
    list: Vec<Option<&'p Stmt<'a>>>,
}

impl<'p, 'a> Model for Statements<'p, 'a> {
    ghost use Rattle.std.specs.Prelude.{List, [], Option, map};
    ghost use Rattle.std.specs.Option.{option_copied};
    ghost use Rattle.std.specs.Borrow.{Bor};
    ghost use Rattle.pml_program.specs.declared.program.Stmt.{Stmt};
    ghost use Rattle.pml_program.specs.contracts.expr.Expr as worth;
    ghost use Rattle.pml_program.specs.contracts.program.Seq as seq;
    ghost use Rattle.pml_program.specs.contracts.program.Basic as basic;
    ghost use Rattle.std.specs.Coded.{codes};
    ghost use mir.Syntax.{named};

    ghost Value = { List (Option Stmt) };

    ghost coded = { Prim.hlevel (codes, worth.the_row.coded, (seq.the_row (record { mir = named 0; lft = [] })).coded, (basic.the_row (record { mir = named 0; lft = [] })).coded) };

    ghost view = { λ t. map (λ (o : Option (Bor Stmt)). option_copied o) t.list.items };
}

impl<'p, 'a> Statements<'p, 'a> {
    /// No statements.
    fn new(alloc: Global) -> Statements<'p, 'a>
        ensures { result ≡ [] }
    {
        Statements {
            list: Vec::new(alloc),
        }
    }

    fn add(&mut self, statement: Option<&'p Stmt<'a>>) -> Result<(), AllocError>
        ensures { OnOk result (self.new ≡ self.old ++ option_copied statement.entry ∷ []) }
    {
        self.list.push(statement)?;
        Ok(())
    }

    /// The statement of a number.
    pub fn get(&self, number: usize) -> Option<&'p Stmt<'a>>
        ensures { option_copied result ≡ slice_index_or self.now number None }
    {
        match self.list.get(number) {
            Some(statement) => *statement,
            None => None,
        }
    }
}

/// The statements of a body.
pub fn all_statements<'p, 'a>(
    alloc: Global,
    body: &'p Seq<'a>,
) -> Result<Statements<'p, 'a>, AllocError>
    ensures { IfOk result (λ t. t ≡ map (stated body.now) (told_of body.now)) }
{
    let mut table = Statements::new(alloc);
    add_arm(&mut table, None, body)?;
    Ok(table)
}

/// The statement behind one of a sequence, where `next` is what follows the sequence.
fn follower<'p, 'a>(
    stmts: &'p [Stmt<'a>],
    number: usize,
    next: Option<&'p Stmt<'a>>,
) -> Option<&'p Stmt<'a>>
    ensures { option_copied result ≡ either (slice_get stmts.now number) (option_copied next.entry) }
{
    match stmts.get(number) {
        Some(stmt) => Some(stmt),
        None => next,
    }
}

/// The statements of a sequence, from the last to the first.
#[cycle(statements)]
fn add_steps<'p, 'a>(
    table: &mut Statements<'p, 'a>,
    next: Option<&'p Stmt<'a>>,
    stmts: &'p [Stmt<'a>],
) -> Result<(), AllocError>
    ensures { OnOk result (table.new ≡ table.old ++ inner_list (option_copied next.entry) stmts.now) }
{
    let mut left = stmts.len();
    while left > 0 {
        left -= 1;
        let stmt = &stmts[left];
        add_inner(table, follower(stmts, left + 1, next), stmt)?;
        table.add(Some(stmt))?;
    }
    Ok(())
}

/// The statements inside a statement that `next` follows.
#[cycle(statements)]
fn add_inner<'p, 'a>(
    table: &mut Statements<'p, 'a>,
    next: Option<&'p Stmt<'a>>,
    stmt: &'p Stmt<'a>,
) -> Result<(), AllocError>
    ensures { OnOk result (table.new ≡ table.old ++ inner_in (option_copied next.entry) stmt.now stmt.now.basic) }
{
    match &stmt.basic {
        Basic::Plain(_) | Basic::Goto(_) | Basic::Break => Ok(()),
        Basic::If(options) => Ok(add_options(table, next, options.as_slice())?),
        Basic::Do(options) => {
            table.add(Some(stmt))?;
            Ok(add_options(table, None, options.as_slice())?)
        }
        Basic::Block(body) => Ok(add_arm(table, next, body)?),
        Basic::Atomic(body) => Ok(add_arm(table, None, body)?),
        Basic::DStep(body) => Ok(add_arm(table, None, body)?),
        Basic::Unless(main, escape) => {
            add_arm(table, next, escape)?;
            Ok(add_arm(table, None, main)?)
        }
    }
}

/// The statements of options, from the last to the first.
#[cycle(statements)]
fn add_options<'p, 'a>(
    table: &mut Statements<'p, 'a>,
    next: Option<&'p Stmt<'a>>,
    options: &'p [Seq<'a>],
) -> Result<(), AllocError>
    ensures { OnOk result (table.new ≡ table.old ++ inner_arms (option_copied next.entry) options.now) }
{
    let mut left = options.len();
    while left > 0 {
        left -= 1;
        add_arm(table, next, &options[left])?;
    }
    Ok(())
}

/// The statements of an arm, whose end has the number in front.
#[cycle(statements)]
fn add_arm<'p, 'a>(
    table: &mut Statements<'p, 'a>,
    next: Option<&'p Stmt<'a>>,
    seq: &'p Seq<'a>,
) -> Result<(), AllocError>
    ensures { OnOk result (table.new ≡ table.old ++ inner_arm (option_copied next.entry) seq.now) }
{
    table.add(next)?;
    Ok(add_steps(table, next, seq.steps.as_slice())?)
}
