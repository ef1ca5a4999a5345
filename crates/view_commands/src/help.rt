//! The commands of a session, a line each.

ghost use Rattle.view_text.specs.Written.{Stays};

use crate::names::{Name, long_name, name_of};
use crate::others::told_of;
use view_text::writer::Writer;

/// What `help` says.
pub const HELP: &str = "\
N [N ..]                take choice N, and then the others
an empty line, moves    the question again; moves N: the choices of process N
state, why, source      the state; what each process waits for, and for whom; the text
back [N], forward [N]   steps in time (1); undo is back
goto K, restart         to the state behind step K; to the first
steps [K]               20 steps of the walk: the last ones, or those from step K on
run [N]                 at most N steps, until there is a choice (1000)
p N                     process N goes on, as long as it has one move alone
until line L            steps with one move, until a process stands at line L
until NAME == VALUE     the same, until a variable has a value (or !=); P[1].x of process 1
until NAME, last NAME   the same, until it changes; back to the last step that changed it
until COND              the same, until COND holds, as len(q) > 2 && P[2].x == 1, P[2] at line 12
until P[2] at L         the same, until process 2, a P, stands at the label L; P at L: any P
p N until COND          steps of process N, until COND holds
random until COND [S]   steps by chance (seed S, 1), until COND holds
back until COND         back to the last state where COND held
break COND, or line L   each run stops where that holds
breaks, delete N        where each run stops; lets break N go
print EXPR              what an expression is worth here
display EXPR            the same at each question
undisplay N             lets display N go
show on, show off       the values that a step changes in its line, x: 1 -> 2, or below it
branches, branch N      the ways that were left for others; goes to the end of one
random N [SEED]         N steps by chance (1)
chart                   the messages of the walk up to here
record, save FILE       the choices of the walk, as spinplay --choices reads them
help [NAME], quit       this, or what it says of one; ends the session
A beginning does for a name where no other begins so, and first letters for
state, why, moves, back, forward, goto, restart, help and quit.
";

// What stands before the explanation in a line of the help.
fn head_of(line: &str) -> &str {
    match line.split_once("  ") {
        Some((head, _)) => head,
        None => "",
    }
}

// Whether a line of the help is about a command.
fn is_about(line: &str, name: &str) -> bool {
    for word in head_of(line).split_whitespace() {
        if word == name || word.strip_suffix(",") == Some(name) {
            return true;
        }
    }
    false
}

/// Writes the lines of the help that are about the command that a word names, or that there is none.
pub fn add_help(word: &str, out: &mut Writer)
    ensures { Stays out.old out.new }
{
    let Some(name) = name_of(word) else {
        out.add(
            told_of(word)
                .unwrap_or("no such command: help lists them\n")
                .as_bytes(),
        );
        return;
    };
    if name == Name::Help {
        out.add(HELP.as_bytes());
    }
    for line in HELP.lines() {
        if is_about(line, long_name(name)) {
            out.add(line.as_bytes());
            out.add(b"\n");
        }
    }
}
