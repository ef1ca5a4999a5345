//! How rows write a checked model.
//!
//! A place is the type of what is reached, `G` or `L` (global or local) and the variable's number, then for each turn
//! `+offset:length*stride[index]`. A variable is its type, its name, `[]` where it is an array, `+offset:length*stride`, and what it
//! begins with. Each statement stands on a line of its own, behind its labels.
use crate::signs::{infix, prefix};
use pml_program::expr::{Expr, Target, Turn, Want};
use pml_program::form::Form;
use pml_program::program::{
    Action, Basic, Fields, Initial, Proctype, Program, Run, Seq, Slot, Stmt,
};
use pml_token::token::Token;
use pml_tree::tree::{Fill, Removal, Scalar, Search, SendOrder};
use row_files::RowWriter;
use sqlite_items::Items;

fn scalar(scalar: Scalar) -> &'static str {
    match scalar {
        Scalar::Bit => "bit",
        Scalar::Bool => "bool",
        Scalar::Byte => "byte",
        Scalar::Chan => "chan",
        Scalar::Mtype => "mtype",
        Scalar::Pid => "pid",
        Scalar::Short => "short",
        Scalar::Int => "int",
    }
}

fn form(out: &mut RowWriter, form: Form) {
    match form {
        Form::Plain(plain) => out.word(scalar(plain)),
        Form::Unsigned(width) => {
            out.word("unsigned ");
            out.number(width as usize);
        }
        Form::Struct(owner) => {
            out.word("typedef ");
            out.number(owner);
        }
        Form::Unknown => out.word("unknown"),
    }
}

fn asked(fill: Fill) -> &'static str {
    match fill {
        Fill::Length => "len ",
        Fill::IsEmpty => "empty ",
        Fill::IsFull => "full ",
        Fill::IsNotEmpty => "nempty ",
        Fill::IsNotFull => "nfull ",
    }
}

fn looked_for(search: Search) -> &'static str {
    match search {
        Search::First => " ?",
        Search::Matching => " ??",
    }
}

fn polled(search: Search) -> &'static str {
    match search {
        Search::First => "poll ? ",
        Search::Matching => "poll ?? ",
    }
}

#[cycle(value)]
fn value(out: &mut RowWriter, v: &Expr) {
    match v {
        Expr::Number(n) => out.signed(*n),
        Expr::Pid => out.word("_pid"),
        Expr::ProcessCount => out.word("_nr_pr"),
        Expr::Timeout => out.word("timeout"),
        Expr::Read(t) => target(out, t),
        Expr::Ask(fill, t) => named(out, asked(*fill), t.get()),
        Expr::Poll(t, search, ws) => {
            named(out, polled(*search), t.get());
            wants(out, ws);
        }
        Expr::Unary(op, a) => {
            out.word("(");
            out.word(prefix(*op));
            between(out, " ", a.get(), ")");
        }
        Expr::Binary(op, a, b) => {
            between(out, "(", a.get(), " ");
            out.word(infix(*op));
            between(out, " ", b.get(), ")");
        }
        Expr::Choice(a, b, c) => {
            between(out, "(", a.get(), " -> ");
            between(out, "", b.get(), " : ");
            between(out, "", c.get(), ")");
        }
    }
}

/// An expression between two words.
#[cycle(value)]
fn between(out: &mut RowWriter, before: &str, v: &Expr, behind: &str) {
    out.word(before);
    value(out, v);
    out.word(behind);
}

/// A place behind a word.
#[cycle(value)]
fn named(out: &mut RowWriter, before: &str, t: &Target) {
    out.word(before);
    target(out, t);
}

#[cycle(value)]
fn wants(out: &mut RowWriter, ws: &Items<Want>) {
    for w in ws.as_slice() {
        out.word(" ");
        want(out, w);
    }
}

#[cycle(value)]
fn want(out: &mut RowWriter, w: &Want) {
    match w {
        Want::Exactly(n) => {
            out.word("=");
            out.signed(*n);
        }
        Want::Equal(a) => between(out, "==", a.get(), ""),
        Want::Into(t) => target(out, t),
        Want::Anything => out.word("_"),
    }
}

#[cycle(value)]
fn target(out: &mut RowWriter, t: &Target) {
    form(out, t.form);
    out.word(if t.local { " L" } else { " G" });
    out.number(t.variable);
    for one in t.turns.as_slice() {
        turn(out, one);
    }
}

#[cycle(value)]
fn turn(out: &mut RowWriter, t: &Turn) {
    cells(out, t.offset, t.length, t.stride);
    match &t.index {
        None => {}
        Some(a) => between(out, "[", a.get(), "]"),
    }
}

fn values(out: &mut RowWriter, vs: &Items<Expr>) {
    for v in vs.as_slice() {
        out.word(" ");
        value(out, v);
    }
}

fn run(out: &mut RowWriter, r: &Run) {
    out.word("run ");
    out.number(r.proctype);
    values(out, &r.arguments);
}

fn store(out: &mut RowWriter, to: &Option<Target>) {
    match to {
        None => out.word("_ = "),
        Some(t) => {
            target(out, t);
            out.word(" = ");
        }
    }
}

fn sent(order: SendOrder) -> &'static str {
    match order {
        SendOrder::Fifo => " !",
        SendOrder::Sorted => " !!",
    }
}

fn left(removal: Removal) -> &'static str {
    match removal {
        Removal::Remove => "",
        Removal::Keep => "<",
    }
}

/// A channel, and how it is sent to or received from.
fn channel(out: &mut RowWriter, t: &Target, how: &str, left: &str) {
    target(out, t);
    out.word(how);
    out.word(left);
}

/// A token behind a word.
fn named_by(t: &Token<'_>, before: &str, out: &mut RowWriter) {
    out.word(before);
    out.bytes(t.text());
}

fn action(a: &Action<'_>, out: &mut RowWriter) {
    match a {
        Action::Else => out.word("else"),
        Action::Assign(t, v) => {
            store(out, t);
            value(out, v);
        }
        Action::AssignRun(t, r) => {
            store(out, t);
            run(out, r);
        }
        Action::Increment(t) => named(out, "++", t),
        Action::Decrement(t) => named(out, "--", t),
        Action::Run(r) => run(out, r),
        Action::Send(t, order, vs) => {
            channel(out, t, sent(*order), "");
            values(out, vs);
        }
        Action::Receive(t, search, removal, ws) => {
            channel(out, t, looked_for(*search), left(*removal));
            wants(out, ws);
        }
        Action::Printf(text, vs) => {
            named_by(text, "printf ", out);
            values(out, vs);
        }
        Action::Printm(v) => between(out, "printm ", v, ""),
        Action::Assert(v) => between(out, "assert ", v, ""),
        Action::Holds(v) => value(out, v),
    }
}

#[cycle(statement)]
fn basic(b: &Basic<'_>, out: &mut RowWriter) {
    match b {
        Basic::Plain(a) => action(a, out),
        Basic::Goto(l) => named_by(l, "goto ", out),
        Basic::Break => out.word("break"),
        Basic::If(options) => seqs(options, "if", out),
        Basic::Do(options) => seqs(options, "do", out),
        Basic::Block(s) => seq(s, "", out),
        Basic::Atomic(s) => seq(s, "atomic ", out),
        Basic::DStep(s) => seq(s, "d_step ", out),
        Basic::Unless(main, escape) => {
            seq(main, "", out);
            seq(escape, " unless ", out);
        }
    }
}

#[cycle(statement)]
fn seqs(ss: &Items<Seq<'_>>, before: &str, out: &mut RowWriter) {
    out.word(before);
    for s in ss.as_slice() {
        seq(s, " ::", out);
    }
}

#[cycle(statement)]
fn seq(s: &Seq<'_>, before: &str, out: &mut RowWriter) {
    out.word(before);
    out.word("{\n");
    for one in s.steps.as_slice() {
        stmt(one, out);
    }
    out.word("}");
}

fn labels(all: &Items<Token<'_>>, out: &mut RowWriter) {
    for label in all.as_slice() {
        out.bytes(label.text());
        out.word(": ");
    }
}

#[cycle(statement)]
fn stmt(s: &Stmt<'_>, out: &mut RowWriter) {
    labels(&s.labels, out);
    basic(&s.basic, out);
    out.word(";\n");
}

fn fields_of_messages(out: &mut RowWriter, forms: &[Form]) {
    for one in forms {
        out.word(" ");
        form(out, *one);
    }
}

/// A cell, and how far on the others of its array lie.
fn cells(out: &mut RowWriter, offset: u32, length: u32, stride: u32) {
    out.word("+");
    out.count(offset);
    out.word(":");
    out.count(length);
    out.word("*");
    out.count(stride);
}

fn initial(out: &mut RowWriter, i: &Initial) {
    match i {
        Initial::Zero => {}
        Initial::Value(v) => between(out, " = ", v, ""),
        Initial::Channel(n, fields) => {
            out.word(" = [");
            out.count(*n);
            out.word("] of");
            fields_of_messages(out, fields.as_slice());
        }
    }
}

fn slot(s: &Slot<'_>, out: &mut RowWriter) {
    form(out, s.form);
    named_by(&s.name, " ", out);
    out.word(if s.array { "[]" } else { "" });
    cells(out, s.offset, s.length, s.stride);
    initial(out, &s.initial);
    out.word("; ");
}

fn slots(all: &Items<Slot<'_>>, out: &mut RowWriter) {
    for one in all.as_slice() {
        slot(one, out);
    }
}

fn fields(f: &Fields<'_>, out: &mut RowWriter) {
    out.word("typedef ");
    out.number(f.owner);
    out.word(" ");
    slots(&f.fields, out);
    out.word("\n");
}

fn process(p: &Proctype<'_>, out: &mut RowWriter) {
    out.bytes(p.name.text());
    out.word(" ");
    out.number(p.owner);
    out.word(" starts ");
    out.count(p.starts);
    out.word(" parameters ");
    out.number(p.parameters);
    out.word(" ");
    slots(&p.variables, out);
    seq(&p.body, "", out);
    out.word(" to line ");
    out.count(p.end.line());
    out.word("\n");
}

fn constants(names: &[Token<'_>], out: &mut RowWriter) {
    for name in names {
        out.bytes(name.text());
        out.word(" ");
    }
    out.word("\n");
}

fn typedefs(all: &[Fields<'_>], out: &mut RowWriter) {
    for one in all {
        fields(one, out);
    }
}

fn processes(all: &[Proctype<'_>], out: &mut RowWriter) {
    for one in all {
        process(one, out);
    }
}

/// Writes a checked model, a line for the globals, one for the mtype names, and one for each typedef and proctype.
pub fn add_model(program: &Program<'_>, out: &mut RowWriter) {
    slots(&program.globals, out);
    out.word("\n");
    constants(program.constants.as_slice(), out);
    typedefs(program.typedefs.as_slice(), out);
    processes(program.proctypes.as_slice(), out);
}
