//! Whether a statement is the same for every process.

ghost use Rattle.std.specs.Prelude.{◌≡◌, true};
ghost use Rattle.std.specs.Option.{option_copied};
ghost use Rattle.common_offers.specs.Offers.{IsCommonOffer};

use crate::expression::{are_common, is_common, is_common_place};
use pml_program::program::{Action, Basic};

/// Whether a statement can be taken by every process or by none, and all receive the same by it, as a condition or a receive over what is
/// global. It may say no of others.
pub fn is_common_offer(basic: Option<&Basic<'_>>) -> bool
    ensures { result ≡ true → IsCommonOffer (option_copied basic.entry) }
{
    match basic {
        Some(Basic::Plain(Action::Holds(e))) => is_common(e),
        Some(Basic::Plain(Action::Receive(target, _, _, wants))) => {
            is_common_place(target) && are_common(wants.as_slice())
        }
        _ => false,
    }
}
