//! Whether the names of two texts mean the same, where one is the other with names of another length.

ghost use Rattle.std.specs.Prelude.{◌≡◌, ◌+◌, ◌*◌, nat_lt, count_by};
ghost use Rattle.std.specs.Bool.{OnTrue};
ghost use Rattle.model_verdicts.specs.Alike.{IsMoved, IsMovedName, AreMoved};

use model_names::Occurrence;

/// Names that are exchanged: where they stand, in the order of the text, and how many bytes they have before and then.
#[derive(Clone, Copy)]
pub struct ExchangedNames<'s> {
    pub places: &'s [usize],
    pub before: usize,
    pub then: usize,
}

/// How many of these places stand before another.
fn count_before(places: &[usize], at: usize) -> usize
    ensures { result ≡ count_by (λ p. nat_lt p at) places.now }
{
    places.iter().filter(|place| **place < at).count()
}

/// Whether what stood at one place stands at the other then.
fn is_moved(exchange: ExchangedNames<'_>, from: usize, to: usize) -> bool
    ensures { OnTrue result (IsMoved exchange.entry.places.now exchange.entry.before exchange.entry.then from to) }
{
    let count = count_before(exchange.places, from);
    let Some(more) = count.checked_mul(exchange.then) else {
        return false;
    };
    let Some(fewer) = count.checked_mul(exchange.before) else {
        return false;
    };
    match (from.checked_add(more), to.checked_add(fewer)) {
        (Some(a), Some(b)) => a == b,
        _ => false,
    }
}

fn is_moved_name(exchange: ExchangedNames<'_>, one: &Occurrence, other: &Occurrence) -> bool
    ensures { OnTrue result (IsMovedName exchange.entry.places.now exchange.entry.before exchange.entry.then one.now other.now) }
{
    is_moved(exchange, one.at, other.at) && is_moved(exchange, one.declared, other.declared)
}

/// Whether each name means then what it meant before.
pub fn are_moved(exchange: ExchangedNames<'_>, before: &[Occurrence], then: &[Occurrence]) -> bool
    ensures { OnTrue result (AreMoved exchange.entry.places.now exchange.entry.before exchange.entry.then before.now then.now) }
{
    if before.len() != then.len() {
        return false;
    }
    for (i, one) in before.iter().enumerate() {
        if !is_moved_name(exchange, one, &then[i]) {
            return false;
        }
    }
    true
}
