//! What holds of the definitions alone.

ghost use Rattle.std.specs.Prelude.{◌≡◌, ◌++◌, ◌∷◌, [], List, ℕ, true};
ghost use Rattle.std.specs.List.{concat};
ghost use Rattle.pml_token.specs.Word.{Word};
ghost use Rattle.promela_text.specs.Tokens.{IsDivision, IsCut, is_fresh, line_behind};
ghost use Rattle.pml_lex.specs.Rows.{AreOnLines};
ghost use Rattle.pml_lex.specs.Laws.{LastLineIsBlank, StandInOrder};

/// A text has one division at most.
pub fn one_division()
    ensures { (text : List ℕ) (ps qs : List (List ℕ)) → IsDivision text ps → IsDivision text qs → ps ≡ qs }
{}

/// So it has one list of tokens at most.
pub fn one_list_of_tokens()
    ensures { (text : List ℕ) (ts us : List Word) → IsCut text ts → IsCut text us → ts ≡ us }
{}

/// Each token's text is its slice of the text, in the order of the tokens, and its line is that of its first byte.
pub fn tokens_stand_in_order()
    ensures { (text : List ℕ) (ts : List Word) → IsCut text ts → StandInOrder [] text ts }
{}

/// Each token is on a line of the text, from 1 to the line behind all of it.
pub fn tokens_are_on_lines()
    ensures { (text : List ℕ) (ts : List Word) → IsCut text ts → AreOnLines (line_behind text) ts }
{}

/// What `is_fresh` says of a text: blanks alone stand behind its last line feed.
pub fn fresh_means_blank()
    ensures left { (text : List ℕ) → is_fresh text ≡ true → LastLineIsBlank text }
    ensures right { (text : List ℕ) → LastLineIsBlank text → is_fresh text ≡ true }
{}
