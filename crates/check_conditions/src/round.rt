//! What stands round a place of a body.

ghost use Rattle.std.specs.Prelude.{◌≡◌, [], slice_index_or, OnOk};
ghost use Rattle.check_conditions.specs.Open.{outside, in_loop, in_step, top, passed};

use promela_model::mark::{Structure, What};
use promela_model::round::Round;
use sqlite_items::Items;
use std::alloc::{AllocError, Global};
use std::marker::Model;

/// Nothing.
pub fn outside() -> Round
    ensures { result ≡ outside }
{
    Round {
        looped: false,
        cut: false,
        step: None,
    }
}

fn in_loop(round: Round) -> Round
    ensures { result ≡ in_loop round }
{
    Round {
        looped: true,
        cut: false,
        step: round.step,
    }
}

fn in_step(number: usize, round: Round) -> Round
    ensures { result ≡ in_step number round }
{
    Round {
        looped: round.looped,
        cut: true,
        step: Some(number),
    }
}

fn at(rounds: &[Round], index: usize) -> Round
    ensures { result ≡ slice_index_or rounds.now index outside }
{
    match rounds.get(index) {
        Some(round) => *round,
        None => outside(),
    }
}

/// The `do`s and d_steps that are open.
#[derive(Drop)]
pub struct Rounds {
    stack: Items<Round>,
}

impl Model for Rounds {
    ghost use Rattle.std.specs.Prelude.{List, reverse};
    ghost use Rattle.promela_model.specs.declared.round.Round.{Round};

    ghost Value = { List Round };

    ghost view = { λ r. reverse r.stack };
}

impl Rounds {
    /// None is open.
    pub fn new(alloc: Global) -> Rounds
        ensures { result ≡ [] }
    {
        Rounds {
            stack: Items::new(alloc),
        }
    }

    /// The innermost.
    pub fn here(&self) -> Round
        ensures { result ≡ top self.now }
    {
        at(self.stack.as_slice(), self.stack.len().saturating_sub(1))
    }

    /// Goes past a mark that stands behind `number` others.
    #[tactic(auto, unfolding(crate::specs::Open::passed))]
    pub fn pass(&mut self, number: usize, what: &What) -> Result<(), AllocError>
        ensures { OnOk result (self.new ≡ passed self.old number what.now) }
    {
        match what {
            What::Enter(Structure::Do) => {
                let round = in_loop(self.here());
                self.stack.push(round)
            }
            What::Enter(Structure::DStep) => {
                let round = in_step(number, self.here());
                self.stack.push(round)
            }
            What::Leave => {
                let _round = self.stack.pop();
                Ok(())
            }
            _ => Ok(()),
        }
    }
}
