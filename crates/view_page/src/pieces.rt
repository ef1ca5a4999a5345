//! A page that is written piece by piece, so that nobody holds the whole.

ghost use Rattle.std.specs.Prelude.{◌≡◌, ◌≤◌, [], false, length};
ghost use Rattle.view_page.specs.Page.{held, page};
ghost use Rattle.view_page.specs.Pieces.{Moves};

use crate::page::{Contents, add_lines, add_part, add_source};
use crate::parts::{TO_LINES, TO_STEPS};
use crate::script::TO_END;
use std::marker::Model;
use view_text::writer::Writer;

/// So many bytes of the steps, or of the lines, are written at once.
const MOST: usize = 60_000;

/// What comes next of a page.
#[derive(Clone, Copy)]
pub enum PagePart {
    Source,
    Steps,
    Lines,
    Nothing,
}

// Writes the first of these bytes. Those that are left.
#[tactic(auto, using(crate::proofs::Moving::front_moves))]
fn add_front<'c>(bytes: &'c [u8], out: &mut Writer) -> &'c [u8]
    ensures { Moves out.old out.new bytes.now result.now }
{
    let (front, rest) = bytes.split_at(bytes.len().min(MOST));
    out.add(front);
    rest
}

// Writes the first of these bytes so that nothing in them ends the element that holds them. Those that are left.
#[tactic(auto, using(crate::proofs::Moving::held_front_moves))]
fn add_held_front<'c>(lines: &'c [u8], out: &mut Writer) -> &'c [u8]
    ensures { Moves out.old out.new (held lines.now) (held result.now) }
{
    let (front, rest) = lines.split_at(lines.len().min(MOST));
    add_lines(front, out);
    rest
}

/// What is left of a page, piece by piece. Contracts see its bytes.
#[derive(Drop)]
pub struct Pieces<'c> {
    // what is left of the steps and of the lines, and all the rest
    contents: Contents<'c>,
    next: PagePart,
}

impl<'c> Model for Pieces<'c> {
    ghost use Rattle.std.specs.Prelude.{ℕ, List};
    ghost use Rattle.view_page.specs.Pieces.{left};

    ghost Value = { List ℕ };

    ghost view = { λ p. left p.next p.contents };
}

impl<'c> Pieces<'c> {
    /// The whole page is left.
    pub fn new(contents: Contents<'c>) -> Pieces<'c>
        ensures { result ≡ page contents.entry }
    {
        Pieces {
            contents,
            next: PagePart::Source,
        }
    }

    /// Writes the next piece. Whether there was one.
    pub fn add_next(&mut self, out: &mut Writer) -> bool
        ensures piece { Moves out.old out.new self.old self.new }
        ensures last { result ≡ false → self.new ≡ [] }
    {
        match self.next {
            PagePart::Source => {
                add_source(self.contents, out);
                add_part(TO_STEPS, out);
                self.next = PagePart::Steps;
            }
            PagePart::Steps => {
                self.contents.steps = add_front(self.contents.steps, out);
                if self.contents.steps.is_empty() {
                    add_part(TO_LINES, out);
                    self.next = PagePart::Lines;
                }
            }
            PagePart::Lines => {
                self.contents.lines = add_held_front(self.contents.lines, out);
                if self.contents.lines.is_empty() {
                    add_part(TO_END, out);
                    self.next = PagePart::Nothing;
                }
            }
            PagePart::Nothing => return false,
        }
        true
    }
}
