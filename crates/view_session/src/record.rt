//! The choices of a walk as a record.

ghost use Rattle.std.specs.Prelude.{◌≡◌, ◌∷◌, [], length};
ghost use Rattle.view_text.specs.Written.{Adds};
ghost use Rattle.view_walk.specs.Records.{number_of, numbers_of, record_of};

use view_text::writer::Writer;
use view_walk::leg::Leg;

// Writes the number of a choice that is one of several, on a line.
fn add_leg(leg: Leg, out: &mut Writer)
    ensures { Adds out.old out.new (record_of (leg ∷ [])) }
{
    let choice = leg.choice;
    if leg.of > 1 {
        out.number(choice);
        out.add(b"\n");
    }
}

/// Writes the number of each choice that is one of several, a line each.
pub fn add_record(legs: &[Leg], out: &mut Writer)
    ensures { Adds out.old out.new (record_of legs.now) }
{
    for leg in legs {
        add_leg(*leg, out);
    }
}

// How many numbers a choice has in a record.
fn number_count(leg: Leg) -> usize
    ensures { result ≡ length (number_of leg) }
{
    if leg.of > 1 { 1 } else { 0 }
}

/// How many of the choices are one of several.
pub fn choice_count(legs: &[Leg]) -> usize
    ensures { result ≡ length (numbers_of legs.now) }
{
    let mut count = 0usize;
    for leg in legs {
        count += number_count(*leg);
    }
    count
}
