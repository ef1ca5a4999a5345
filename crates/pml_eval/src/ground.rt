//! What an expression may read.

use promela_process::place::Place;

/// How full a channel is.
#[derive(Clone, Copy, PartialEq, Eq, Debug)]
pub struct Filled {
    pub capacity: u16,
    pub fields: usize,
    pub length: u16,
}

/// Where the evaluator reads: a state as one process sees it, under a value of `timeout`.
pub trait Ground {
    ghost use Rattle.std.specs.Prelude.{◌≡◌, ◌<◌, [], length, option_map, slice_index_or};
    ghost use Rattle.promela_process.specs.Expressions.{Reading};
    ghost use Rattle.pml_eval.specs.Asking.{messages_of};
    ghost use Rattle.pml_eval.specs.Ground.{shown};

    ghost reading: { Self → Reading };

    /// The frame of the process's own variables, or of the globals.
    fn frame(&self, local: bool) -> usize
        ensures { result ≡ (reading self.now).frame local };

    /// How many cells a variable of a frame has: none if it is not there.
    fn size(&self, frame: usize, variable: usize) -> usize
        ensures { result ≡ (reading self.now).cells frame variable };

    /// What a place holds.
    fn number(&self, place: Place) -> i32
        requires { place.cell < (reading self.now).cells place.frame place.variable }
        ensures { result ≡ (reading self.now).holds place };

    /// The number of the process.
    fn pid(&self) -> i32
        ensures { result ≡ (reading self.now).pid };

    /// How many processes live.
    fn process_count(&self) -> i32
        ensures { result ≡ (reading self.now).process_count };

    /// Whether no other move is possible.
    fn timeout(&self) -> bool
        ensures { result ≡ (reading self.now).timeout };

    /// The channel with this number.
    fn channel(&self, number: i32) -> Option<Filled>
        ensures { result ≡ option_map shown ((reading self.now).channel number) };

    /// A message of the channel with this number, the oldest at place 0.
    fn message(&self, number: i32, place: usize) -> &[i32]
        requires { place < length (messages_of ((reading self.now).channel number)) }
        ensures { result.now ≡ slice_index_or (messages_of ((reading self.now).channel number)) place [] };
}
