//! Why a text is refused.

ghost use Rattle.std.specs.Prelude.{◌≡◌};
ghost use Rattle.pml_directives.specs.Refusals.{refusal, refusal_of};

use pml_macros::atom::FilePlace;
use pml_macros::trouble::Trouble;
use std::alloc::{AllocError, AllocFailed};

/// What is wrong, and where.
#[derive(Clone, Copy, Debug)]
pub enum Why {
    Memory,
    /// A comment is not closed.
    Comment,
    /// A file is too long.
    Long,
    /// Includes are too deep.
    Includes,
    /// There is no such file.
    File,
    /// No word that a `#` line may begin with.
    Word,
    /// `#error`.
    Error,
    /// What stands behind the word is not right.
    Form,
    /// `#else`, `#elif` or `#endif` without an `#if`.
    Closer,
    /// An `#if` without an `#endif`.
    Opener,
    /// A condition that has no value.
    Condition,
    Call(Trouble),
}

/// Why a text is refused, and where.
#[derive(Clone, Copy, Debug)]
pub struct DirectiveRefusal {
    pub why: Why,
    pub place: FilePlace,
}

/// A refusal at a place.
pub fn refused(why: Why, place: FilePlace) -> DirectiveRefusal
    ensures { result ≡ refusal why place }
{
    DirectiveRefusal { why, place }
}

/// What macros were in trouble with, as a refusal: of a call at the call.
pub fn of_trouble(trouble: Trouble, place: FilePlace) -> DirectiveRefusal
    ensures { result ≡ refusal_of trouble place }
{
    match trouble {
        Trouble::Memory => refused(Why::Memory, place),
        Trouble::Open(atom) => refused(Why::Call(trouble), atom.call),
        Trouble::Arguments(atom, _) => refused(Why::Call(trouble), atom.call),
        Trouble::Joined(atom) => refused(Why::Call(trouble), atom.call),
        Trouble::Much(atom) => refused(Why::Call(trouble), atom.call),
        Trouble::Deep(atom) => refused(Why::Call(trouble), atom.call),
    }
}

/// Where memory is refused no place is told.
const NOWHERE: FilePlace = FilePlace {
    file: 0,
    offset: 0,
    line: 1,
    column: 1,
};

impl From<AllocError> for DirectiveRefusal {
    fn from(_: AllocError) -> DirectiveRefusal
        ensures { result ≡ refusal Why.Memory NOWHERE }
    {
        refused(Why::Memory, NOWHERE)
    }
}

impl<T: Drop> From<AllocFailed<T>> for DirectiveRefusal {
    fn from(_: AllocFailed<T>) -> DirectiveRefusal
        ensures { result ≡ refusal Why.Memory NOWHERE }
    {
        refused(Why::Memory, NOWHERE)
    }
}
