//! What holds of messages.

ghost use Rattle.std.specs.Prelude.{◌≤◌, ◌++◌, ℕ, List, length};
ghost use Rattle.message_frames.specs.declared.front.TheConstants.{MOST_BYTES};
ghost use Rattle.message_frames.specs.Framed.{framed, IsFirst};

/// A message is read as it was framed, and what is behind it is left.
pub fn a_framed_message_is_first()
    ensures { (body more : List ℕ) → length body ≤ MOST_BYTES → IsFirst (framed body ++ more) body more }
{}
