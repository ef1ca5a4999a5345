//! Numbered positions of a body.

ghost use Rattle.std.specs.Prelude.{◌≡◌};

use crate::level::Level;
use std::alloc::Global;
use std::marker::Model;

/// A numbered position: the outermost atomic that it lies in, by the number of its end; whether it lies in a d_step; its own ways on;
/// and the numbers whose ways it shows: its own, and those of the escapes above it, the innermost first.
#[derive(Drop)]
pub struct Site {
    atomic: Option<usize>,
    inside: bool,
    shows: Vec<usize>,
    ways: Vec<Level>,
}

impl Model for Site {
    ghost use Rattle.pml_flow.specs.Ways.{Site};

    ghost Value = { Site };

    ghost view = { λ s. record { atomic = s.atomic; inside = s.inside; shows = s.shows.items; ways = s.ways.items } };
}

impl Site {
    ghost use Rattle.pml_flow.specs.Ways.{site, bare};

    /// A position where settling ends, or the end of an escape.
    pub fn new(atomic: Option<usize>, inside: bool, shows: Vec<usize>, ways: Vec<Level>) -> Site
        ensures { result ≡ site atomic inside shows.items ways.items }
    {
        Site {
            atomic,
            inside,
            shows,
            ways,
        }
    }

    /// A position where settling goes on.
    pub fn bare(alloc: Global, atomic: Option<usize>, inside: bool) -> Site
        ensures { result ≡ bare atomic inside }
    {
        Site {
            atomic,
            inside,
            shows: Vec::new(alloc),
            ways: Vec::new(alloc),
        }
    }

    /// The outermost atomic that it lies in, by the number of its end.
    pub fn atomic(&self) -> Option<usize>
        ensures { result ≡ self.now.atomic }
    {
        self.atomic
    }

    /// Whether it lies in a d_step.
    pub fn is_inside(&self) -> bool
        ensures { result ≡ self.now.inside }
    {
        self.inside
    }

    /// The numbers whose ways it shows.
    pub fn shows(&self) -> &[usize]
        ensures { result.now ≡ self.now.shows }
    {
        self.shows.as_slice()
    }

    /// Its own ways on, by levels.
    pub fn ways(&self) -> &[Level]
        ensures { result.now ≡ self.now.ways }
    {
        self.ways.as_slice()
    }
}
