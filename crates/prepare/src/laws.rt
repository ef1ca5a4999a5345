//! What holds of the definitions alone.

ghost use Rattle.std.specs.Prelude.{◌≡◌, ◌++◌, ◌∷◌, [], List, ℕ, true, false, All};
ghost use Rattle.pml_token.specs.Word.{Word};
ghost use Rattle.promela_text.specs.Tokens.{line_behind, IsCut};
ghost use Rattle.prepare.specs.declared.TheConstants.{MOST_BYTES, FORM_FEED};
ghost use Rattle.prepare.specs.declared.markers.TheConstants.{MOST_LINE};
ghost use Rattle.prepare.specs.declared.context.TheConstants.{MOST_DEPTH};
ghost use Rattle.prepare.specs.Written.{Written};
ghost use Rattle.prepare.specs.Stretches.{stretches};
ghost use Rattle.prepare.specs.Spelling.{joined, spelled};
ghost use Rattle.prepare.specs.Strings.{IsJoined};
ghost use Rattle.prepare.specs.OwnLines.{OwnLinesStand, FirstLinesStand, HasNumbers};
ghost use Rattle.prepare.specs.Numbering.{bare, numbered, lines_asked, has_marker};
ghost use Rattle.prepare.specs.Coding.{coded, has_character};
ghost use Rattle.prepare.specs.Sizes.{declared};
ghost use Rattle.prepare.specs.Changes.{exchanges};
ghost use Rattle.prepare.specs.Ranges.{IsOfSize};
ghost use Rattle.prepare.specs.Blocks.{BlanksAreBlocks};
ghost use Rattle.prepare.specs.Separators.{SeparatorsEndStatements, SkipsAreLabelled};
ghost use Rattle.prepare.specs.Changed.{owns};
ghost use Rattle.prepare.specs.Laws.{prepared, exchanged, has_change, HasNothingToMend, sources, tokens, texts, is_unsupplied, has_tokens_alone, is_mended, AreKept, TokensStay, IsCutAgain};

/// What is prepared has as many lines as the markers of the text ask for.
pub fn lines_are_those_asked()
    ensures { (text : List ℕ) → line_behind (prepared text) ≡ lines_asked (bare text) }
{}

/// A text without markers and character constants, in which nothing is to be mended and no token is another here, comes out byte for byte.
pub fn nothing_mended_is_unchanged()
    ensures { (text : List ℕ) → HasNothingToMend text → prepared text ≡ text }
{}

/// What becomes of a text's tokens leaves out nothing: gaps and tokens, one behind the other, are the text. So what is between tokens stays.
pub fn exchanges_are_the_text()
    ensures { (text : List ℕ) → owns (exchanges (stretches text)) ≡ text }
{}

/// A text with its separators, of which no token becomes another, comes out byte for byte.
pub fn nothing_exchanged_is_unchanged()
    ensures { (text : List ℕ) → has_change text ≡ false → exchanged text ≡ text }
{}

/// Where the range of a `for` is written in place of an array's name, all declarations of that name in the text have its size.
pub fn ranges_are_those_declared()
    ensures { (text : List ℕ) → All (IsOfSize (declared (stretches text))) (exchanges (stretches text)) }
{}

/// The gaps and tokens of the stretches, one behind the other, are the text: without what is written nothing is there but the text.
pub fn stretches_are_the_text()
    ensures { (text : List ℕ) → sources (stretches text) ≡ text }
{}

/// What stands behind some stretches is on the same line in the text and in what is written.
pub fn lines_stay()
    ensures { (front : List Written) → line_behind (spelled front) ≡ line_behind (sources front) }
{}

/// Where a text is cut into tokens, its stretches have these, in order, and at the end one without bytes.
pub fn tokens_are_those_cut()
    ensures { (text : List ℕ) (ts : List Word) → IsCut text ts → tokens (stretches text) ≡ texts ts ++ [] ∷ [] }
{}

/// What is blanked are the blocks, and nothing else is: each begins with `never`, `ltl`, `trace` or `notrace`, and ends with the brace that
/// closes it, or with the text where none does.
pub fn blanks_are_blocks()
    ensures { (text : List ℕ) → BlanksAreBlocks (stretches text) }
{}

/// A `;` is written only where a line ends, a statement may end before it and another begin behind it, within braces and in no other
/// brackets; ` skip` only between a colon and what ends a sequence.
pub fn what_is_written_divides_statements()
    ensures separators { (text : List ℕ) → SeparatorsEndStatements (stretches text) }
    ensures skips { (text : List ℕ) → SkipsAreLabelled (stretches text) }
{}

/// Where a text is cut into tokens of which none is left out, it has no block and no string over several lines: unless something is
/// written between its stretches, nothing is to be mended.
pub fn what_is_cut_wants_separators_alone()
    ensures { (text : List ℕ) (ts : List Word) → AreKept text ts → is_unsupplied (stretches text) ≡ true → is_mended text ≡ true }
{}

/// Where a text is cut into tokens of which none is left out, it has such tokens alone as what is written is cut into.
pub fn what_is_cut_has_tokens_alone()
    ensures { (text : List ℕ) (ts : List Word) → AreKept text ts → has_tokens_alone text ≡ true }
{}

/// Of a text whose tokens outside blocks are such as the language has, what is written is cut again: into its tokens but for those of
/// blocks, a string over several lines on one, and each `;` and `skip` that is written, each on the line that it has in the text.
pub fn what_is_written_is_cut_again()
    ensures { (text : List ℕ) → has_tokens_alone text ≡ true → IsCutAgain text }
{}

/// What is prepared has the tokens that are written of the text with its lines where its markers say, in order, each on the line that it has
/// there: a token of a subtype or of a `for` over an array becomes another on its line.
pub fn tokens_stay_on_their_lines()
    ensures { (text : List ℕ) → TokensStay text }
{}

/// Lines of the model's own file stand, once its markers have put them, from the line on that the marker before them gives, and line by line behind
/// that; where more lines were written before it, behind these. Before the first marker they stand from line 1 on.
pub fn own_lines_stand_where_markers_say()
    ensures marked { (text : List ℕ) → OwnLinesStand (bare text) }
    ensures first { (text : List ℕ) → FirstLinesStand (bare text) }
{}

/// Where numbers are written in place of character constants, all else stays, and each line.
pub fn numbers_stand_for_characters()
    ensures { (text : List ℕ) → HasNumbers text (coded text) }
{}

/// A string over several lines keeps its bytes but for its line feeds, and the backslashes that they belong to: the line feeds stand behind it.
pub fn joined_strings_keep_their_bytes()
    ensures { (string : List ℕ) → IsJoined string (joined string) }
{}

/// Each limit of preparing is this number, and so is the byte that ends a line of an included file.
pub fn the_limits_are_these()
    ensures bytes_of_a_text { MOST_BYTES ≡ 8388608 }
    ensures line_of_a_marker { MOST_LINE ≡ 1048576 }
    ensures open_brackets { MOST_DEPTH ≡ 1000000 }
    ensures end_of_an_included_line { FORM_FEED ≡ 12 }
{}
