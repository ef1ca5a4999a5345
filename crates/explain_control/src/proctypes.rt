//! What is told of the bodies of proctypes.

ghost use Rattle.std.specs.Prelude.{IfOk, MatchOption, All, ◌≡◌};
ghost use Rattle.std.specs.List.{flat_map};
ghost use Rattle.explain_control.specs.Sites.{sites_of};
ghost use Rattle.explain_control.specs.Blamed.{breaks_in, NoStepIsBad, IsBlamedStepIn, NoCircle, IsBlamedCircleIn};

use crate::body::{BadFirstPoint, Circle, breaks_of, circle_of, first_point_of};
use pml_program::program::Proctype;
use std::alloc::{AllocError, Global};

/// How many bytes of the text stand before each `break`, in the order of the text. That of a `for` or a `select` has those of its word.
pub fn breaks(alloc: Global, proctypes: &[Proctype<'_>]) -> Result<Vec<Option<u32>>, AllocError>
    ensures { IfOk result (λ v. v.items ≡ flat_map (λ p. breaks_in (sites_of p.body)) proctypes.now) }
{
    let mut breaks = Vec::new(alloc);
    for proctype in proctypes {
        breaks_of(alloc, &proctype.body, &mut breaks)?;
    }
    Ok(breaks)
}

/// The first d_step with a bad first point, if there is one.
pub fn first_bad_point(
    alloc: Global,
    proctypes: &[Proctype<'_>],
) -> Result<Option<BadFirstPoint>, AllocError>
    ensures { IfOk result (λ o. MatchOption o (All (λ p. NoStepIsBad p.body) proctypes.now) (λ bad. IsBlamedStepIn proctypes.now bad)) }
{
    for proctype in proctypes {
        if let Some(bad) = first_point_of(alloc, &proctype.body)? {
            return Ok(Some(bad));
        }
    }
    Ok(None)
}

/// The circle that the first position from which settling never ends comes to.
pub fn first_circle(alloc: Global, proctypes: &[Proctype<'_>]) -> Result<Option<Circle>, AllocError>
    ensures { IfOk result (λ o. MatchOption o (All (λ p. NoCircle p.body) proctypes.now) (λ c. IsBlamedCircleIn proctypes.now c)) }
{
    for proctype in proctypes {
        if let Some(circle) = circle_of(alloc, &proctype.body)? {
            return Ok(Some(circle));
        }
    }
    Ok(None)
}
