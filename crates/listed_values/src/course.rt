//! Where a token stands: in which declaration, in which body, and in which list of initialisers.

ghost use Rattle.std.specs.Prelude.{◌≡◌, ◌≤◌};
ghost use Rattle.listed_values.specs.declared.lists.TheConstants.{MOST_VALUES};
ghost use Rattle.declared_steps.specs.Stages.{is_type, type_behind};
ghost use Rattle.listed_values.specs.Courses as courses;

use crate::lists::{are_same, behind_brace, count_at};
use declared_steps::stage::DeclarationStage;
use pml_token::token::{Kind, same_kind};
use prepare::stretch::Stretch;

/// Whether a token stands in the body of a process that lives at the start of a run.
#[derive(Clone, Copy)]
pub enum Home {
    Outside,
    /// Before its `{`.
    Ahead,
    Within,
}

/// What becomes of a list of initialisers.
#[derive(Clone, Copy)]
pub enum ListMode {
    /// It stays.
    Left,
    /// Its values are the same, and one stays.
    Same,
    /// A step sets the elements.
    Set,
}

/// Where in a list of initialisers a token stands.
#[derive(Clone, Copy)]
pub struct Within {
    /// How many of its tokens are still to come; 0 outside of lists.
    pub left: u32,
    /// How many values it has.
    pub count: u32,
    pub mode: ListMode,
}

/// Where a token stands.
#[derive(Clone, Copy)]
pub struct ListCourse {
    pub stage: DeclarationStage,
    pub home: Home,
    pub within: Within,
}

impl Within {
    /// No list.
    fn outside() -> Within
        ensures { result ≡ courses.outside }
    {
        Within {
            left: 0,
            count: 0,
            mode: ListMode::Left,
        }
    }

    /// Whether a token is of the braces of a list, or stands in them.
    fn is_braced(self) -> bool
        ensures { result ≡ courses.is_braced self }
    {
        self.left > 0 && u64::from(self.left) <= u64::from(self.count) * 2 + 1
    }
}

// What becomes of a list: whether it stands at the front, whether its values are the same, and whether others are set by a step.
fn mode_of(is_front: bool, are_same: bool, is_set: bool) -> ListMode
    ensures { result ≡ courses.mode_of is_front are_same is_set }
{
    if !is_front {
        ListMode::Left
    } else if are_same {
        ListMode::Same
    } else if is_set {
        ListMode::Set
    } else {
        ListMode::Left
    }
}

// Whether a declaration is a global one, or stands at the beginning of a body.
fn is_front(stage: DeclarationStage) -> bool
    ensures { result ≡ courses.is_front stage }
{
    stage.braces == 0 || (stage.braces == 1 && !(stage.is_inline || stage.is_behind))
}

/// Whether a word begins what lives at the start of a run.
pub fn begins(kind: Kind) -> bool
    ensures { result ≡ courses.begins kind }
{
    matches!(kind, Kind::Init | Kind::Active)
}

// A type of which a variable has one number.
fn is_type(kind: Kind) -> bool
    ensures { result ≡ is_type kind }
{
    matches!(
        kind,
        Kind::Bit
            | Kind::Bool
            | Kind::Byte
            | Kind::Int
            | Kind::Mtype
            | Kind::Pid
            | Kind::Short
            | Kind::Unsigned
    )
}

// The type of a name that a token declares.
fn word_of(stage: DeclarationStage, kind: Kind) -> Kind
    ensures { result ≡ type_behind stage kind }
{
    if stage.is_first(kind) {
        stage.last
    } else {
        stage.type_word
    }
}

fn ends_body(stage: DeclarationStage, kind: Kind) -> bool
    ensures { result ≡ courses.ends_body stage kind }
{
    same_kind(kind, Kind::CloseBrace) && stage.braces < 2
}

impl Home {
    fn is_within(self) -> bool
        ensures { result ≡ courses.is_within self }
    {
        matches!(self, Home::Within)
    }

    /// Behind a token, which may end a body.
    fn behind(self, ends: bool, kind: Kind) -> Home
        ensures { result ≡ courses.home_behind self ends kind }
    {
        match self {
            Home::Outside => {
                if begins(kind) {
                    Home::Ahead
                } else {
                    Home::Outside
                }
            }
            Home::Ahead => {
                if same_kind(kind, Kind::OpenBrace) {
                    Home::Within
                } else {
                    Home::Ahead
                }
            }
            Home::Within => { if ends { Home::Outside } else { Home::Within } }
        }
    }
}

impl ListCourse {
    /// The beginning of a text.
    pub fn start() -> ListCourse
        ensures { result ≡ courses.start }
    {
        ListCourse {
            stage: DeclarationStage::start(),
            home: Home::Outside,
            within: Within::outside(),
        }
    }

    // Whether a token declares a name of a type of which a variable has one number, and stands in no list.
    fn declares(self, kind: Kind) -> bool
        ensures { result ≡ courses.declares self kind }
    {
        self.within.left == 0
            && (self.stage.reading.declares(kind) && is_type(word_of(self.stage, kind)))
    }

    /// How many values the list has that stands behind a name that a token declares; 0 where there is none.
    pub fn listed(self, kind: Kind, back: &[Stretch<'_>]) -> u32
        ensures count { result ≡ courses.listed self kind back.now }
        ensures most { result ≤ MOST_VALUES }
    {
        if self.declares(kind) {
            count_at(back)
        } else {
            0
        }
    }

    fn within_behind(self, is_set: bool, kind: Kind, back: &[Stretch<'_>]) -> Within
        ensures { result ≡ courses.within_behind self is_set kind back.now }
    {
        if self.within.left > 0 {
            return Within {
                left: self.within.left - 1,
                ..self.within
            };
        }
        let count = self.listed(kind, back);
        if count == 0 {
            return Within::outside();
        }
        Within {
            left: count * 2 + 5,
            count,
            mode: mode_of(is_front(self.stage), are_same(behind_brace(back)), is_set),
        }
    }

    // The braces of a list are no block: behind them a declaration ends.
    fn stage_behind(self, kind: Kind, token: &[u8], back: &[Stretch<'_>]) -> DeclarationStage
        ensures { result ≡ courses.stage_behind self kind token.now back.now }
    {
        if !self.within.is_braced() {
            self.stage.behind(kind, token, back)
        } else if self.within.left == 1 {
            self.stage.behind(Kind::Semicolon, b";", back)
        } else {
            self.stage
        }
    }

    // Whether a token ends a body.
    fn ends(self, kind: Kind) -> bool
        ensures { result ≡ courses.ends self kind }
    {
        !self.within.is_braced() && ends_body(self.stage, kind)
    }

    /// Behind a token, before these stretches, where lists of different values are set by a step or stay.
    pub fn behind(self, is_set: bool, kind: Kind, token: &[u8], back: &[Stretch<'_>]) -> ListCourse
        ensures { result ≡ courses.behind self is_set kind token.now back.now }
    {
        ListCourse {
            stage: self.stage_behind(kind, token, back),
            home: self.home.behind(self.ends(kind), kind),
            within: self.within_behind(is_set, kind, back),
        }
    }

    /// Whether a token is the first of a body of a process that lives at the start which belongs to no declaration.
    pub fn is_first(self, kind: Kind, token: &[u8], back: &[Stretch<'_>]) -> bool
        ensures { result ≡ courses.is_first self kind token.now back.now }
    {
        self.home.is_within()
            && (!self.stage.is_behind
                && (self.stage_behind(kind, token, back).is_behind || self.ends(kind)))
    }

    /// Whether a token stands outside of bodies, or at the beginning of that of such a process.
    pub fn is_early(self) -> bool
        ensures { result ≡ courses.is_early self }
    {
        self.stage.braces == 0 || (self.home.is_within() && !self.stage.is_behind)
    }

    /// Whether a declaration is a global one, or stands at the beginning of such a body.
    pub fn is_placed(self) -> bool
        ensures { result ≡ courses.is_placed self }
    {
        is_front(self.stage) && self.is_early()
    }
}
