//! What a session is played with, and how far it has come.
ghost use Rattle.std.specs.Prelude.{◌≡◌, []};
ghost use Rattle.promela_session.specs.declared.form.Stream.TheVariants.{Unread};

use crate::draft::Draft;
use crate::gathered::Gathered;
use crate::{Options, Stream, Version};
use std::alloc::Global;

/// What a session is played with.
#[derive(Clone, Copy)]
pub struct Terms {
    /// The version in whose lines the accepted numbers are recorded.
    pub notes: Version,
    /// What is shown, and how long it may be.
    pub options: Options,
}

/// How far a session has come, with the buffers that it keeps.
#[derive(Drop)]
pub struct Course {
    /// What is known of its choices.
    pub stream: Stream,
    /// The texts of its steps that still wait.
    pub gathered: Gathered,
    /// Where its texts are composed.
    pub draft: Draft,
}

impl Course {
    /// Nothing was read, and no text waits.
    pub fn new(alloc: Global) -> Self
        ensures stream { result.stream ≡ Unread }
        ensures bytes { result.gathered.bytes.items ≡ [] }
        ensures begins { result.gathered.begins.items ≡ [] }
    {
        Course {
            stream: Stream::Unread,
            gathered: Gathered::new(alloc),
            draft: Draft::new(alloc),
        }
    }
}
