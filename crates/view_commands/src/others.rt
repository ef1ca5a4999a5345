//! Words that other programs have for what a session does.

ghost use Rattle.std.specs.Prelude.{◌≡◌, map};
ghost use Rattle.std.specs.Option.{option_map};
ghost use Rattle.view_commands.specs.Others.{told, told_in};

// What is told of each.
const OTHERS: [(&str, &str); 58] = [
    (
        "info",
        "no such command: state shows all values, print EXPR one; breaks lists the breaks\n",
    ),
    ("eval", VALUES),
    ("examine", VALUES),
    ("inspect", VALUES),
    ("locals", VALUES),
    ("globals", VALUES),
    ("variables", VALUES),
    ("whatis", VALUES),
    ("ptype", VALUES),
    ("watch", WATCH),
    ("tbreak", WATCH),
    ("condition", WATCH),
    ("advance", WATCH),
    ("clear", BREAKS),
    ("disable", BREAKS),
    ("enable", BREAKS),
    ("prev", BACK),
    ("previous", BACK),
    ("reverse", BACK),
    ("reverse-step", BACK),
    ("reverse-next", BACK),
    ("reverse-continue", BACK),
    ("rewind", BACK),
    ("redo", STEP),
    ("step", STEP),
    ("next", STEP),
    ("n", STEP),
    ("stepi", STEP),
    ("nexti", STEP),
    ("continue", RUN),
    ("cont", RUN),
    ("c", RUN),
    ("simulate", RUN),
    ("finish", RUN),
    ("trace", PAST),
    ("history", PAST),
    ("backtrace", PAST),
    ("bt", PAST),
    ("reset", FIRST),
    ("start", FIRST),
    ("first", FIRST),
    ("thread", PROCESS),
    ("threads", PROCESS),
    ("frame", PROCESS),
    ("processes", PROCESS),
    ("enabled", MOVES),
    ("choose", MOVES),
    ("choices", MOVES),
    ("take", MOVES),
    ("select", MOVES),
    ("execute", MOVES),
    ("fire", MOVES),
    ("transitions", MOVES),
    ("events", MOVES),
    (
        "set",
        "no such command: steps alone change values; back and another choice lead elsewhere\n",
    ),
    ("list", "no such command: source shows the text\n"),
    ("exit", "no such command: quit ends the session\n"),
    (
        "where",
        "no such command: why says what each process waits for\n",
    ),
];

const VALUES: &str =
    "no such command: state shows all values, print EXPR one, display EXPR one at each question\n";

const WATCH: &str =
    "no such command: until NAME goes on until it changes; break COND stops each run where that holds\n";

const BREAKS: &str =
    "no such command: breaks lists the breaks, delete N lets one go, break COND makes one\n";

const FIRST: &str = "no such command: restart goes to the first state\n";

const BACK: &str = "no such command: back goes a step back, back until COND to where that held\n";

const STEP: &str =
    "no such command: the number of a choice takes it; forward goes on along the walk, p N with process N\n";

const RUN: &str =
    "no such command: run goes on until there is a choice or a break, random N by chance, until COND until that holds\n";

const PROCESS: &str =
    "no such command: state shows each process, moves N the choices of process N, p N goes on with it\n";

const MOVES: &str = "no such command: moves shows the choices, and the number of one takes it\n";

const PAST: &str = "no such command: steps shows the steps so far, chart their messages\n";

// What there is in place of a word, by a table.
fn told_in(others: &[(&'static str, &'static str)], word: &str) -> Option<&'static str>
    ensures { option_map (λ t. t.now) result ≡ told_in (map (λ o. (o.0.now, o.1.now)) others.now) word.now }
{
    for (other, told) in others {
        if word == *other {
            return Some(*told);
        }
    }
    None
}

/// What there is in place of a word that another program has.
#[tactic(auto, unfolding(crate::specs::Others::told))]
pub fn told_of(word: &str) -> Option<&'static str>
    ensures { option_map (λ t. t.now) result ≡ told word.now }
{
    told_in(&OTHERS, word)
}
