//! What is known of the first state.

ghost use Rattle.run_start.specs.Laws.{AreThoseThatBegin, EachCellHolds, NothingBegins, OthersHold, ChannelsAreMade, ChannelsAreNumbered};

/// The processes are those that the model starts with, as far as 255 go.
pub fn living()
    ensures { AreThoseThatBegin }
{}

/// A variable begins with the one value of its initialiser in each of its cells, with nothing where it has none, and changes no
/// other variable.
pub fn holding()
    ensures each { EachCellHolds }
    ensures none { NothingBegins }
    ensures others { OthersHold }
{}

/// Each cell of a channel variable has a channel of its own, in order, and holds its number: its place among the live ones, from 1.
pub fn numbering()
    ensures made { ChannelsAreMade }
    ensures numbers { ChannelsAreNumbered }
{}
