//! All of a state, as the variables of a condition show it.

ghost use Rattle.std.specs.Prelude.{◌≡◌};
ghost use Rattle.view_condition.specs.Seen.{all_of, seen};

use crate::subject::{StateSubject, number_by, size_by, subject_at};
use pml_eval::ground::{Filled, Ground};
use pml_value::view::View;
use promela_process::place::Place;
use run_state::live::Live;

/// All of a state, as the variables of a condition show it.
#[derive(Drop)]
pub struct Overview<'g, 'w, 'p, 'a> {
    pub live: &'w Live<'p, 'a>,
    pub subjects: &'g [StateSubject],
    /// What is read of channels, and how many processes live.
    pub view: View<'w>,
}

impl<'g, 'w, 'p, 'a> Overview<'g, 'w, 'p, 'a> {
    /// What a condition reads of a state, whose variables are these.
    pub fn new(live: &'w Live<'p, 'a>, subjects: &'g [StateSubject]) -> Overview<'g, 'w, 'p, 'a>
        ensures { seen result ≡ all_of live.now.state subjects.now }
    {
        let count = live.process_count() as u8;
        let view = View::new(live.variables(), live.channels(), 0, count, false);
        Overview {
            live,
            subjects,
            view,
        }
    }
}

impl Ground for Overview<'_, '_, '_, '_> {
    ghost use Rattle.view_condition.specs.Seen.{seen};

    ghost reading = { seen };

    fn frame(&self, _local: bool) -> usize {
        0
    }

    fn size(&self, _frame: usize, variable: usize) -> usize {
        size_by(self.live, subject_at(self.subjects, variable))
    }

    fn number(&self, place: Place) -> i32 {
        number_by(
            self.live,
            subject_at(self.subjects, place.variable),
            place.cell,
        )
    }

    fn pid(&self) -> i32 {
        0
    }

    fn process_count(&self) -> i32 {
        self.view.process_count()
    }

    fn timeout(&self) -> bool {
        false
    }

    fn channel(&self, number: i32) -> Option<Filled> {
        self.view.channel(number)
    }

    fn message(&self, number: i32, place: usize) -> &[i32] {
        self.view.message(number, place)
    }
}
