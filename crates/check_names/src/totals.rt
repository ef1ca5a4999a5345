//! Running totals by owner.

ghost use Rattle.std.specs.Prelude.{◌≡◌, ℕ, ◌+◌, ◌<◌, ◌^◌, length, slice_set, OnOk};
ghost use Rattle.check_names.specs.Totals.{none, grown, total_at};

use profile::MOST_CELLS;
use promela_model::thing::Thing;
use sqlite_items::Items;
use std::alloc::AllocError;

/// How many variables an owner has, and their cells.
#[derive(Clone, Copy, Debug, PartialEq, Eq)]
pub struct Total {
    pub cells: u32,
    pub variables: usize,
}

/// Nothing.
pub fn none() -> Total
    ensures { result ≡ none }
{
    Total {
        cells: 0,
        variables: 0,
    }
}

/// A total, with one thing more.
pub fn grown(total: Total, thing: Thing) -> Total
    requires { total.variables + 1 < 2 ^ 64 }
    ensures { result ≡ grown total thing }
{
    match thing {
        Thing::Variable(v) => {
            let more = u64::from(v.length) * u64::from(v.stride);
            let cells = (u64::from(total.cells) + more).min(u64::from(MOST_CELLS) + 1);
            Total {
                cells: cells as u32,
                variables: total.variables + 1,
            }
        }
        _ => Total {
            cells: total.cells.min(MOST_CELLS + 1),
            variables: total.variables,
        },
    }
}

/// The total of an owner.
pub fn at(totals: &[Total], owner: usize) -> Total
    ensures { result ≡ total_at totals.now owner }
{
    match totals.get(owner) {
        Some(t) => *t,
        None => none(),
    }
}

/// Makes room for an owner.
pub fn grow(totals: &mut Items<Total>, owner: usize) -> Result<(), AllocError>
    ensures room { OnOk result (owner < length totals.new) }
    ensures same { OnOk result ((k : ℕ) → total_at totals.new k ≡ total_at totals.old k) }
{
    while totals.len() <= owner {
        totals.push(none())?;
    }
    Ok(())
}
