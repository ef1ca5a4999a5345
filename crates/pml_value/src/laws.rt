//! Laws of channels that keep messages.

ghost use Rattle.pml_value.specs.Laws.{MessagesComeInOrder};

/// As long as a channel lives, the messages that are sent over it with `!` are received in order, none lost, made up or doubled.
pub fn messages_come_in_order()
    ensures { MessagesComeInOrder }
{}
