// The texts of `--help` and `--version`.

pub const VERSION: &str = "0.9.0";

// It is written out, since the flags may be repeated and the one that is made of the arguments would show three points behind each.
pub const HELP: &str = "\
Plays a Promela model step by step, and replays a record of its choices.

Usage: spinplay [OPTIONS] <MODEL>

Arguments:
  <MODEL>           The file of the model

Options:
  -p                Show each step
  -g                Show each global variable that a step changed
  -l                Show each local variable that a step changed
  -m                Lose messages that are sent to a full channel
  -u <N>            Take at most N steps (1000000 where it is not given)
  --choices <FILE>  Read the choices from FILE, in place of standard input
  --record <FILE>   Write the accepted choices to FILE, which is emptied first
  --convert         Print the accepted choices with their lines, and no run
  --check           Check the model, and play nothing: status 0 or 3
  --explain         Say why and where a model is refused, on standard error
  --prepare         Prepare the model first, as Spin would read it: its macros,
                    conditions, included files, ends of lines, ltl
  -D <NAME>         With --prepare: define NAME, or NAME=VALUE, before its text
  -I <FOLDER>       With --prepare: look for included files in FOLDER too
  --no-cpp          With --prepare: leave its # lines and macros as they are
  --name <NAME>     With --explain: call the model NAME
  --source <FILE>   With --explain: show FILE, of which MODEL was prepared
  --lines <FILE>    With --explain: tell lines of included files by FILE
  -i, -T            Accepted as Spin has them, and change nothing
  -h, --help        Print help
  -V, --version     Print version

Flags may be repeated and joined, as in -pgl.

A model with #define, ltl or a never claim, or with ends of lines in place of
';', is played by --prepare. What is blanked or left as it is stands on standard
error, and what is told of the model speaks of its own files and lines:
  spinplay --prepare --explain -p model.pml

Where more than one statement can be taken, they are listed, and a line is
read: the number of one of them, or q to quit. Any other line is answered by
'bad choice' and asked again; the hundredth in a row ends the run. Where just
one statement can be taken, it is taken without a question.

To record a session, and to play it again:
  spinplay -p --record run.txt model.pml
  spinplay -p --choices run.txt model.pml

To have each choice with its process and its line, and to play it over the
model when it was edited, until a choice does not fit:
  spinplay --convert --choices run.txt model.pml > lines.txt
  spinplay -p --choices lines.txt model.pml

Exit status:
  0  the run came to a valid end, or was ended by q
  1  it came to an invalid end
  2  a fault of the run
  3  the model is refused
  4  wrong words, or a file that cannot be opened or read
  5  stopped: choices ended, a choice misfit, a line too long, 100 bad choices,
     the step limit
  6  a device or memory failed
";
