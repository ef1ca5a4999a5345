//! Statements that give no structure, with their names replaced.

ghost use Rattle.std.specs.Prelude.{◌≡◌, IfOk};
ghost use Rattle.check_resolve.specs.Numbered.{scope_of};
ghost use Rattle.check_resolve.specs.Statements.{values, store, proctype_of, run, at, action};

use crate::expression::{expr, reference, target, wants};
use crate::reached::Reached;
use crate::scope::Scope;
use check_names::meaning::meaning;
use pml_program::expr::{Expr, Target};
use pml_program::program::{Action, Run};
use pml_tree::room::room_for;
use pml_tree::tree::{Action as TreeAction, Expr as TreeExpr, Reference, Run as TreeRun};
use promela_model::thing::Thing;
use sqlite_items::Items;
use std::alloc::{AllocError, Global};

fn values(
    alloc: Global,
    es: &[TreeExpr],
    within: Scope<'_, '_, '_>,
) -> Result<Items<Expr>, AllocError>
    ensures { IfOk result (λ vs. vs ≡ values es.now (scope_of within.entry)) }
{
    let mut values = room_for(alloc, es.len())?;
    for e in es {
        values.push(expr(alloc, e, within)?)?;
    }
    Ok(values)
}

fn store(reached: Reached) -> Option<Target>
    ensures { result ≡ store reached }
{
    match reached {
        Reached::Place(t) => Some(t),
        _ => None,
    }
}

fn proctype_of(found: Option<Thing>) -> usize
    ensures { result ≡ proctype_of found }
{
    match found {
        Some(Thing::Proctype(number, _)) => number,
        _ => 0,
    }
}

fn run(alloc: Global, r: &TreeRun, within: Scope<'_, '_, '_>) -> Result<Run, AllocError>
    ensures { IfOk result (λ x. x ≡ run r.now (scope_of within.entry)) }
{
    let arguments = values(alloc, r.arguments.as_slice(), within)?;
    let proctype = proctype_of(meaning(within.all, within.table, within.owner, r.name.text()));
    Ok(Run {
        proctype,
        arguments,
    })
}

fn at(alloc: Global, r: &Reference, within: Scope<'_, '_, '_>) -> Result<Target, AllocError>
    ensures { IfOk result (λ x. x ≡ at r.now (scope_of within.entry)) }
{
    let reached = reference(alloc, r, within)?;
    Ok(target(alloc, reached))
}

/// A statement that gives no structure, with its names replaced.
pub fn action<'a>(
    alloc: Global,
    a: &TreeAction<'a>,
    within: Scope<'_, '_, '_>,
) -> Result<Action<'a>, AllocError>
    ensures { IfOk result (λ x. x ≡ action a.now (scope_of within.entry)) }
{
    match a {
        TreeAction::Else => Ok(Action::Else),
        TreeAction::Assign(r, e) => {
            let to = store(reference(alloc, r, within)?);
            Ok(Action::Assign(to, expr(alloc, e.get(), within)?))
        }
        TreeAction::AssignRun(r, p) => {
            let to = store(reference(alloc, r, within)?);
            Ok(Action::AssignRun(to, run(alloc, p, within)?))
        }
        TreeAction::Increment(r) => Ok(Action::Increment(at(alloc, r, within)?)),
        TreeAction::Decrement(r) => Ok(Action::Decrement(at(alloc, r, within)?)),
        TreeAction::Run(p) => Ok(Action::Run(run(alloc, p, within)?)),
        TreeAction::Send(r, sorted, es) => {
            let to = at(alloc, r, within)?;
            let sent = values(alloc, es.as_slice(), within)?;
            Ok(Action::Send(to, *sorted, sent))
        }
        TreeAction::Receive(r, any, kept, arguments) => {
            let from = at(alloc, r, within)?;
            let wanted = wants(alloc, arguments.as_slice(), within)?;
            Ok(Action::Receive(from, *any, *kept, wanted))
        }
        TreeAction::Printf(text, es) => {
            let printed = values(alloc, es.as_slice(), within)?;
            Ok(Action::Printf(text.copied(), printed))
        }
        TreeAction::Printm(e) => Ok(Action::Printm(expr(alloc, e.get(), within)?)),
        TreeAction::Assert(e) => Ok(Action::Assert(expr(alloc, e.get(), within)?)),
        TreeAction::Holds(e) => Ok(Action::Holds(expr(alloc, e.get(), within)?)),
    }
}
