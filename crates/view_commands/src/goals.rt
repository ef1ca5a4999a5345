//! Where a run is to stop, in the words of a line.

ghost use Rattle.std.specs.Prelude.{◌≡◌, IfSome};
ghost use Rattle.view_commands.specs.Goals.{path, compared, IsAtLine, IsWhole};

/// Where a run is to stop, in the words of a line.
#[derive(Clone, Copy, Debug, PartialEq, Eq)]
pub enum Goal<'l> {
    /// Where a process stands at this line.
    Line(u32),
    /// Where the cell with this path has this value.
    Equal(&'l str, &'l str),
    /// Where it has another.
    Other(&'l str, &'l str),
    /// Behind a step that changed it.
    Written(&'l str),
}

impl<'l> Goal<'l> {
    /// The path of the cell that it asks of, if it asks of one.
    pub fn path(self) -> Option<&'l str>
        ensures { result ≡ path self.entry }
    {
        match self {
            Goal::Line(_) => None,
            Goal::Equal(path, _) | Goal::Other(path, _) | Goal::Written(path) => Some(path),
        }
    }
}

// The line with this number.
fn at_line<'l>(word: &str) -> Option<Goal<'l>>
    ensures { IsAtLine word.now result }
{
    match word.parse::<u32>() {
        Ok(line) => Some(Goal::Line(line)),
        Err(_) => None,
    }
}

// A comparison of a cell with a value.
fn compared<'l>(path: &'l str, sign: &str, value: &'l str) -> Option<Goal<'l>>
    ensures { result ≡ compared path.entry sign.now value.entry }
{
    if path.is_empty() || value.is_empty() {
        None
    } else if sign == "==" {
        Some(Goal::Equal(path, value))
    } else if sign == "!=" {
        Some(Goal::Other(path, value))
    } else {
        None
    }
}

// What one word wants: a comparison without blanks, or a variable.
fn joined<'l>(word: &'l str) -> Option<Goal<'l>>
    ensures { IfSome result IsWhole }
{
    if let Some((path, value)) = word.split_once("==") {
        return compared(path, "==", value);
    }
    if let Some((path, value)) = word.split_once("!=") {
        return compared(path, "!=", value);
    }
    Some(Goal::Written(word))
}

// What two words want: a line, or a comparison with one blank.
fn parted<'l>(first: &'l str, second: &'l str) -> Option<Goal<'l>>
    ensures { IfSome result IsWhole }
{
    if first == "line" {
        return at_line(second);
    }
    for sign in ["==", "!="] {
        if let Some(path) = first.strip_suffix(sign) {
            return compared(path, sign, second);
        }
        if let Some(value) = second.strip_prefix(sign) {
            return compared(first, sign, value);
        }
    }
    None
}

/// What these words want.
pub fn wanted<'l>(words: &[&'l str]) -> Option<Goal<'l>>
    ensures { IfSome result IsWhole }
{
    match words {
        [word] => joined(word),
        [first, second] => parted(first, second),
        [path, sign, value] => compared(path, sign, value),
        _ => None,
    }
}
