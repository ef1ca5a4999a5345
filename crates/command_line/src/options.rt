// What the words of a command line ask for.
use session::Options;

/// What the words of a command line ask for.
#[derive(Debug, Drop)]
pub struct Arguments {
    pub options: Options,
    /// The file of the model.
    pub model: String,
    /// The file of the choices; without one they come from standard input.
    pub choices: Option<String>,
    /// The file of the record; without one nothing is recorded.
    pub rec: Option<String>,
    /// The choices are converted, and no run is shown.
    pub convert: bool,
    /// The model is checked, and nothing is played.
    pub check: bool,
    /// Where the model is refused, it is told why, and where.
    pub explain: bool,
    /// What explanations call the model; without one it is called by its file.
    pub name: Option<String>,
    /// The file whose lines explanations show, where the model was prepared of it.
    pub source: Option<String>,
    /// The file that says which lines of the model are of included files, where it was prepared.
    pub lines: Option<String>,
    /// The model is prepared first.
    pub prepare: bool,
    /// It is prepared as it is, without its macros and conditions.
    pub no_cpp: bool,
    /// The macros that are given before its text, as `NAME` or `NAME=VALUE`.
    pub defines: Vec<String>,
    /// The folders in which included files are looked for too.
    pub folders: Vec<String>,
}
