//! What a command line asks for.

ghost use Rattle.std.specs.Prelude.{◌≡◌};
ghost use Rattle.view_words.specs.Read.{fits_together};

/// What is shown without a session.
#[derive(Clone, Copy, Debug, PartialEq, Eq)]
pub enum RunForm {
    /// Nothing: there is a session.
    Session,
    Json,
    Chart,
}

/// What a command line asks for.
#[derive(Debug, Drop)]
pub struct Wishes {
    /// The file of the model.
    pub model: String,
    /// What the model is called.
    pub name: Option<String>,
    /// The file whose lines are shown, of which the model was prepared.
    pub source: Option<String>,
    /// The file that says which lines of the model are of included files, where it was prepared.
    pub lines: Option<String>,
    /// Whether the model is prepared first.
    pub prepare: bool,
    /// Whether it is prepared as it is, without its macros and conditions.
    pub no_cpp: bool,
    /// The macros that are given before its text, as `NAME` or `NAME=VALUE`.
    pub defines: Vec<String>,
    /// The folders in which included files are looked for too.
    pub folders: Vec<String>,
    /// The file of the choices that are taken first.
    pub choices: Option<String>,
    /// The file of a trail of Spin that is followed first.
    pub trail: Option<String>,
    /// The file of the walk's choices.
    pub rec: Option<String>,
    /// The file of the page.
    pub page: Option<String>,
    /// The seed of the generator that answers questions.
    pub seed: Option<u32>,
    pub form: RunForm,
    /// Whether lines are read that go on with a run, each answered by lines of JSON.
    pub asks: bool,
    /// The step behind which lines of JSON begin.
    pub from: u32,
    /// Whether a program drives the run, by lines of JSON.
    pub serves: bool,
    /// Whether messages that are sent to full channels are lost.
    pub is_lossy: bool,
    /// How many steps are taken at most.
    pub limit: u32,
    /// Whether it is said why a model is refused, or a file fails.
    pub explains: bool,
}

impl Wishes {
    /// Whether the options of preparing fit together: the files of another that prepared the model are of no use beside it.
    pub fn fits_together(&self) -> bool
        ensures { result ≡ fits_together self.now }
    {
        if self.prepare {
            self.source.is_none() && self.lines.is_none()
        } else {
            !self.no_cpp && (self.defines.is_empty() && self.folders.is_empty())
        }
    }
}
