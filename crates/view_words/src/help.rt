//! The texts of `--help` and `--version`.

/// The version of the program.
pub const VERSION: &str = "0.9.0";

/// What `--help` says.
pub const HELP: &str = "\
Shows a run of a Promela model: its states, what each process waits for, steps
back and other ways on.

Usage: spinview [OPTIONS] <MODEL>

Arguments:
  <MODEL>           The file of the model

Options:
  --choices <FILE>  Take the choices of FILE first
  --trail <FILE>    Take first the steps that spin -t -p printed into FILE
  --record <FILE>   Keep the choices of the walk in FILE
  --random <SEED>   Answer each question by a generator, without a session
  --json            Without a session: a line of JSON for each step
  --ask             Without a session: lines of JSON for each line of input
  --from <F>        Without a session: lines of JSON behind step F, and first
                    its state
  --serve           Without a session: a program drives it, by lines of JSON
  --chart           Without a session: the chart of messages
  --page <FILE>     Without a session: write FILE, a page for a browser
  -m                Lose messages that are sent to a full channel
  -u <N>            Take at most N steps (1000000 where it is not given)
  --explain         Say why a file or a device fails
  --prepare         Prepare the model first, as Spin would read it: its macros,
                    conditions, included files, ends of lines, ltl
  -D <NAME>         With --prepare: define NAME, or NAME=VALUE, before its text
  -I <FOLDER>       With --prepare: look for included files in FOLDER too
  --no-cpp          With --prepare: leave its # lines and macros as they are
  --name <NAME>     Call the model NAME
  --source <FILE>   Show the lines of FILE, of which MODEL was prepared
  --lines <FILE>    Tell lines of included files, as FILE of spinprep does
  -h, --help        Print help
  -V, --version     Print version

A model with #define, ltl or a never claim, or with ends of lines in place of
';', is shown by --prepare:
  spinview --prepare model.pml

A session reads a line at a time: the number of a choice, or a command; help
lists them. Without a session the choices are those of the trail, else those of
FILE, else those of the generator, else those of standard input, as spinplay
reads them.

A model that is refused is explained.

To see a counterexample of Spin:
  spin -a m.pml && gcc -o pan pan.c && ./pan
  spin -t -p m.pml > m.txt
  spinview --trail m.txt m.pml

Exit status:
  0  the session ended, or all was written
  3  the model is refused
  4  wrong words, or a file that cannot be opened, read or written
  5  choices that do not fit: a misfit, a line too long, 100 bad choices, a
     trail that does not fit, which is told in a session too
  6  a device or memory failed
";
