//! Why a model is refused.
ghost use Rattle.std.specs.Prelude.{◌≡◌};
ghost use Rattle.diagnostics.specs.Numbers.{refusal_number};

/// Why a model is refused, in the order in which refusals go before one another: of those that apply, the first is
/// answered. The numbers are this program's own.
#[derive(Clone, Copy, Debug, PartialEq, Eq)]
pub enum Refusal {
    /// The text has more bytes than a model may have.
    TextTooLong,
    /// The text cannot be cut into tokens.
    Lexical,
    /// It uses a part of Promela that is left out.
    LeftOut,
    /// Its brackets are nested too deep.
    TooDeep,
    /// No tree spells its tokens.
    Syntax,
    /// A name stands for two things.
    NameTwice,
    /// A name stands for nothing.
    UnknownName,
    /// A name stands for another kind of thing than is asked for.
    WrongKind,
    /// A process is given more or fewer arguments than it has parameters.
    ArgumentCount,
    /// A label stands twice, or a `goto` leads to none.
    Label,
    /// A `break` stands outside of each `do`.
    BreakOutsideDo,
    /// A `d_step` is left by a `goto`, or cannot begin.
    DStep,
    /// A circle of `goto`s takes no step.
    CircleOfGotos,
    /// A number is out of its range.
    NumberOutOfRange,
    /// The variables have more cells than there may be.
    TooManyCells,
    /// No process begins.
    NoProcess,
    /// More processes begin than there may be.
    TooManyAtStart,
    /// What a variable of the first state begins with has a fault.
    Initialiser,
    /// An inline or a call of one is not right. Then nothing stands in its place, so none of those from `TooDeep` on
    /// applies beside it.
    Inline,
}

impl Refusal {
    /// Its number, from 1.
    pub fn number(self) -> u8
        ensures { result ≡ refusal_number self }
    {
        match self {
            Refusal::TextTooLong => 1,
            Refusal::Lexical => 2,
            Refusal::LeftOut => 3,
            Refusal::TooDeep => 4,
            Refusal::Syntax => 5,
            Refusal::NameTwice => 6,
            Refusal::UnknownName => 7,
            Refusal::WrongKind => 8,
            Refusal::ArgumentCount => 9,
            Refusal::Label => 10,
            Refusal::BreakOutsideDo => 11,
            Refusal::DStep => 12,
            Refusal::CircleOfGotos => 13,
            Refusal::NumberOutOfRange => 14,
            Refusal::TooManyCells => 15,
            Refusal::NoProcess => 16,
            Refusal::TooManyAtStart => 17,
            Refusal::Initialiser => 18,
            Refusal::Inline => 19,
        }
    }
}
