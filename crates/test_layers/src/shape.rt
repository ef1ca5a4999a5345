//! The expressions that are statements of a checked model, written with all of their parentheses.
use crate::signs::{infix, prefix};
use pml_program::expr::{Expr, Target};
use pml_program::program::{Action, Basic, Proctype, Program, Slot, Stmt};
use row_files::RowWriter;

/// The name of a global variable.
fn add_name(globals: &[Slot<'_>], target: &Target, out: &mut RowWriter) {
    match globals.get(target.variable) {
        Some(slot) => out.bytes(slot.name.text()),
        None => out.refuse("no such global"),
    }
}

/// An expression with its parentheses.
fn add_expr(globals: &[Slot<'_>], x: &Expr, out: &mut RowWriter) {
    match x {
        Expr::Number(n) => out.signed(*n),
        Expr::Pid => out.word("_pid"),
        Expr::ProcessCount => out.word("_nr_pr"),
        Expr::Timeout => out.word("timeout"),
        Expr::Read(target) => add_name(globals, target, out),
        Expr::Ask(_, target) => {
            out.word("ask ");
            add_name(globals, target.get(), out);
        }
        Expr::Poll(target, _, _) => {
            out.word("poll ");
            add_name(globals, target.get(), out);
        }
        Expr::Unary(op, x) => {
            out.word("[");
            out.word(prefix(*op));
            add_expr(globals, x.get(), out);
            out.word("]");
        }
        Expr::Binary(op, x, y) => {
            out.word("[");
            add_expr(globals, x.get(), out);
            out.word(infix(*op));
            add_expr(globals, y.get(), out);
            out.word("]");
        }
        Expr::Choice(x, y, z) => {
            out.word("[");
            add_expr(globals, x.get(), out);
            out.word("->");
            add_expr(globals, y.get(), out);
            out.word(":");
            add_expr(globals, z.get(), out);
            out.word("]");
        }
    }
}

fn add_statement<'p, 'a>(globals: &'p [Slot<'a>], stmt: &'p Stmt<'a>, out: &mut RowWriter) {
    if let Basic::Plain(Action::Holds(x)) = &stmt.basic {
        add_expr(globals, x, out);
    }
}

fn add_process<'p, 'a>(globals: &'p [Slot<'a>], process: &'p Proctype<'a>, out: &mut RowWriter) {
    for stmt in process.body.steps.as_slice() {
        add_statement(globals, stmt, out);
    }
}

/// Writes the expressions that are statements of the bodies of proctypes. Each operator with its operands stands in brackets, and references are
/// written as the names of global variables.
pub fn add_expressions(program: &Program<'_>, out: &mut RowWriter) {
    for process in program.proctypes.as_slice() {
        add_process(program.globals.as_slice(), process, out);
    }
}
