//! Tokens as the preprocessor sees them.

ghost use Rattle.std.specs.Prelude.{◌≡◌};
ghost use Rattle.pml_macros.specs.Calls as rules;

/// What a token is to the preprocessor.
#[derive(Clone, Copy, Debug, PartialEq, Eq)]
pub enum AtomSort {
    /// A letter or `_`, then letters, digits and `_`.
    Name,
    Number,
    Character,
    Quoted,
    OpenParen,
    CloseParen,
    Comma,
    Hash,
    HashHash,
    Sign,
    /// A quote that is not closed on its line, with the rest of the line.
    Stray,
    /// What an empty argument is beside `##`: nothing, which is taken out.
    Gone,
}

/// Whether two sorts are the same.
pub fn same_sort(a: AtomSort, b: AtomSort) -> bool
    ensures { result ≡ rules.same_sort a b }
{
    a == b
}

/// Where something stands: the number of its file, how many bytes of it stand before, and its line and column, from 1 on.
#[derive(Clone, Copy, Debug, PartialEq, Eq)]
pub struct FilePlace {
    pub file: u32,
    pub offset: u32,
    pub line: u32,
    pub column: u32,
}

/// A token: what it is, the number of its text, where its bytes stand, and the place in the text for which it stands: its own, or that of
/// the outermost call that it came out of.
#[derive(Clone, Copy, Debug)]
pub struct Atom {
    pub sort: AtomSort,
    pub text: usize,
    /// Blanks stand before it.
    pub is_spaced: bool,
    /// It names a macro that it stood within, and is never replaced.
    pub is_painted: bool,
    pub place: FilePlace,
    pub call: FilePlace,
}

impl Atom {
    /// The token as one that is no more replaced.
    pub fn painted(self) -> Atom
        ensures { result ≡ rules.painted self }
    {
        Atom {
            sort: self.sort,
            text: self.text,
            is_spaced: self.is_spaced,
            is_painted: true,
            place: self.place,
            call: self.call,
        }
    }

    /// The same, as it comes out of a call.
    pub fn called(self, call: FilePlace) -> Atom
        ensures { result ≡ rules.called call self }
    {
        Atom {
            sort: self.sort,
            text: self.text,
            is_spaced: self.is_spaced,
            is_painted: self.is_painted,
            place: self.place,
            call,
        }
    }

    /// The same, with blanks before it or none.
    pub fn spaced(self, is_spaced: bool) -> Atom
        ensures { result ≡ rules.spaced is_spaced self }
    {
        Atom {
            sort: self.sort,
            text: self.text,
            is_spaced,
            is_painted: self.is_painted,
            place: self.place,
            call: self.call,
        }
    }
}
