//! Laws of pages, which functions without a body state.

ghost use Rattle.view_page.specs.Page.{NothingHeldEnds, NothingShownIsAnElement};
ghost use Rattle.view_page.specs.Pieces.{PiecesAreThePage};

/// What a page holds of a run has no `<`, so nothing in it ends the element that holds it; and what it shows of a model has no `<`, no `>` and no
/// quotation mark.
pub fn nothing_ends_its_element()
    ensures held { NothingHeldEnds }
    ensures shown { NothingShownIsAnElement }
{}

/// A page whose pieces are written, however they are divided, is the whole page.
pub fn pieces_are_the_page()
    ensures { PiecesAreThePage }
{}
