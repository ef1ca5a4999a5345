//! What holds of the definitions alone.

ghost use Rattle.std.specs.Prelude.{ℕ, List, All};
ghost use Rattle.pml_token.specs.Word.{Word};
ghost use Rattle.promela_text.specs.Tokens.{IsCut};
ghost use Rattle.explain_tokens.specs.Placed.{ArePlaced, AreSame, StandsThere};

/// The tokens with their places are those of the text, kind by kind and byte by byte.
pub fn tokens_are_the_same()
    ensures { (text : List ℕ) (ts us : List Word) → ArePlaced text ts → IsCut text us → AreSame ts us }
{}

/// The bytes of each token stand in the text at its place.
pub fn tokens_stand_at_their_places()
    ensures { (text : List ℕ) (ts : List Word) → ArePlaced text ts → All (StandsThere text) ts }
{}
