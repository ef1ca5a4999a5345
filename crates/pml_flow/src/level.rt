//! Ways on from numbered positions, by levels.

ghost use Rattle.std.specs.Prelude.{◌≡◌, ℕ, ◌<◌, ◌++◌, [], IfOk, OnOk, length, slice_index_or, slice_set};
ghost use Rattle.pml_flow.specs.Ways.{one, meet, put};

use std::alloc::{AllocError, Global};
use std::marker::Model;

/// A statement that may be taken, and where it leads, each by the number of its position.
#[derive(Clone, Copy, Debug, PartialEq, Eq)]
pub struct Way {
    /// The number of the statement's position.
    pub statement: usize,
    /// The number of the position that follows.
    pub target: usize,
    /// Of a d_step, the number of the position that it begins with.
    pub entry: Option<usize>,
}

/// The ways of one level, the last in text order first.
#[derive(Drop)]
pub struct Level {
    ways: Vec<Way>,
}

impl Model for Level {
    ghost use Rattle.std.specs.Prelude.{List};
    ghost use Rattle.pml_flow.specs.declared.level.Way.{Way};

    ghost Value = { List Way };

    ghost view = { λ l. l.ways.items };
}

impl Level {
    ghost use Rattle.std.specs.Prelude.{◌∷◌};

    fn only(alloc: Global, way: Way) -> Result<Level, AllocError>
        ensures { IfOk result (λ l. l ≡ way ∷ []) }
    {
        let mut ways = Vec::with_capacity(alloc, 1)?;
        ways.push(way)?;
        Ok(Level { ways })
    }

    /// Its ways, the last in text order first.
    pub fn ways(&self) -> &[Way]
        ensures { result.now ≡ self.now }
    {
        self.ways.as_slice()
    }

    fn copy(&self, alloc: Global) -> Result<Level, AllocError>
        ensures { IfOk result (λ l. l ≡ self.now) }
    {
        let ways = Vec::from_slice(alloc, self.ways.as_slice())?;
        Ok(Level { ways })
    }

    fn add(&mut self, more: &Level) -> Result<(), AllocError>
        ensures { OnOk result (self.new ≡ self.old ++ more.now) }
    {
        self.ways.extend_from_slice(more.ways.as_slice())?;
        Ok(())
    }
}

/// A level of one way.
pub fn one(alloc: Global, way: Way) -> Result<Vec<Level>, AllocError>
    ensures { IfOk result (λ v. v.items ≡ one way) }
{
    let mut levels = Vec::with_capacity(alloc, 1)?;
    levels.push(Level::only(alloc, way)?)?;
    Ok(levels)
}

/// Copies of these levels.
pub fn copies(alloc: Global, levels: &[Level]) -> Result<Vec<Level>, AllocError>
    ensures { IfOk result (λ v. v.items ≡ levels.now) }
{
    let mut copied = Vec::with_capacity(alloc, levels.len())?;
    for level in levels {
        copied.push(level.copy(alloc)?)?;
    }
    Ok(copied)
}

/// Adds copies of levels above others.
pub fn add_copies(alloc: Global, levels: &mut Vec<Level>, more: &[Level]) -> Result<(), AllocError>
    ensures { OnOk result (levels.new.items ≡ levels.old.items ++ more.now) }
{
    for level in more {
        levels.push(level.copy(alloc)?)?;
    }
    Ok(())
}

fn add_to(levels: &mut Vec<Level>, number: usize, more: &Level) -> Result<(), AllocError>
    requires { number < length levels.old.items }
    ensures { OnOk result (levels.new.items ≡ slice_set levels.old.items number (slice_index_or levels.old.items number [] ++ more.now)) }
{
    levels[number].add(more)
}

fn add_level(
    alloc: Global,
    levels: &mut Vec<Level>,
    number: usize,
    level: &Level,
) -> Result<(), AllocError>
    ensures { OnOk result (levels.new.items ≡ put levels.old.items number level.now) }
{
    if number < levels.len() {
        return Ok(add_to(levels, number, level)?);
    }
    Ok(levels.push(level.copy(alloc)?)?)
}

/// Adds ways level by level.
pub fn add_levels(alloc: Global, levels: &mut Vec<Level>, more: &[Level]) -> Result<(), AllocError>
    ensures { OnOk result (levels.new.items ≡ meet levels.old.items more.now) }
{
    for (number, level) in more.iter().enumerate() {
        add_level(alloc, levels, number, level)?;
    }
    Ok(())
}
