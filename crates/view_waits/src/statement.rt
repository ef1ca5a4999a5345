//! What a statement reads of a state.

ghost use Rattle.view_text.specs.Written.{Stays};

use crate::offers::offered;
use crate::reads::{Reads, add_indices, add_reads, add_target};
use crate::words::add_all;
use pml_program::expr::{Expr, Want};
use pml_program::program::{Action, Basic, Run};
use pml_value::view::View;
use promela_run::moves::{Move, Pick};
use run_state::live::Live;
use view_text::writer::Writer;

fn add_list(list: &[Expr], view: &View<'_>, reads: &mut Reads) {
    for one in list {
        add_reads(one, view, reads);
    }
}

fn add_wants(wants: &[Want], view: &View<'_>, reads: &mut Reads) {
    for want in wants {
        match want {
            Want::Equal(e) => add_reads(e.get(), view, reads),
            Want::Into(target) => add_target(target, view, reads),
            _ => {}
        }
    }
}

fn add_run(run: &Run, view: &View<'_>, reads: &mut Reads) {
    add_list(run.arguments.as_slice(), view, reads);
}

// Adds what a statement reads, and the variables that it would change.
fn add_action<'w>(action: &'w Action<'w>, view: &View<'_>, reads: &mut Reads) {
    match action {
        Action::Else => {}
        Action::Assign(target, e) => {
            add_reads(e, view, reads);
            if let Some(target) = target {
                add_indices(target, view, reads);
            }
        }
        Action::Printm(e) | Action::Assert(e) | Action::Holds(e) => add_reads(e, view, reads),
        Action::AssignRun(_, run) | Action::Run(run) => add_run(run, view, reads),
        Action::Increment(target) | Action::Decrement(target) => add_target(target, view, reads),
        Action::Send(target, _, fields) => {
            add_target(target, view, reads);
            add_list(fields.as_slice(), view, reads);
        }
        Action::Receive(target, _, _, wants) => {
            add_target(target, view, reads);
            add_wants(wants.as_slice(), view, reads);
        }
        Action::Printf(_, arguments) => add_list(arguments.as_slice(), view, reads),
    }
}

fn add_basic(live: &Live<'_, '_>, view: &View<'_>, basic: Option<&Basic<'_>>, out: &mut Writer)
    ensures { Stays out.old out.new }
{
    let Some(Basic::Plain(action)) = basic else {
        return;
    };
    let mut reads = Reads::new(out.allocator());
    add_action(action, view, &mut reads);
    out.keep(reads.answer());
    if !reads.items().is_empty() {
        out.add(b"  reads");
        add_all(live, view, &reads, out);
        out.add(b"\n");
    }
}

fn add_pick(live: &Live<'_, '_>, pick: Pick, timeout: bool, out: &mut Writer)
    ensures { Stays out.old out.new }
{
    if let Some((view, basic)) = offered(live, pick, timeout) {
        add_basic(live, &view, basic, out);
    }
}

/// Writes a line with what the statement of a move reads: `  reads: x = 0, a[1] = 3`; none, where it reads nothing.
pub fn add_statement_reads(live: &Live<'_, '_>, m: &Move, out: &mut Writer)
    ensures { Stays out.old out.new }
{
    match m {
        Move::Death(_) => {}
        Move::Alone(pick, timeout) => add_pick(live, *pick, *timeout, out),
        Move::Pair(sender, _, timeout) => add_pick(live, *sender, *timeout, out),
    }
}
