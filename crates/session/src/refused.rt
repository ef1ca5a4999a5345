//! The session of a model that is refused.
ghost use Rattle.std.specs.Prelude.{◌≡◌, IfOk};
ghost use Rattle.promela_session.specs.Session.{end_of};
ghost use Rattle.session.specs.Writes.{CountsAll, Writes, IsOwnEnd};
ghost use Rattle.promela_session.specs.Events.{refusal_line};

use crate::draft::draft_refusal;
use crate::question::put_out;
use crate::whole::end_of;
use crate::{Broken, Cause, End};
use devices::Devices;
use diagnostics::Refusal;
use std::alloc::Global;

/// Writes the line of a model that is refused at this line of its text, and ends the session.
pub fn refuse<D: Devices>(
    alloc: Global,
    refusal: Refusal,
    line: u32,
    devices: &mut D,
) -> Result<End, Broken>
    ensures text { Writes result (D.holds devices.old) (D.holds devices.new) (refusal_line refusal) }
    ensures end { IfOk result (λ end. end ≡ end_of (Cause.Refused refusal line) 0) }
    ensures own { IfOk result (IsOwnEnd 0) }
    ensures count { CountsAll result (D.holds devices.old).failures (D.holds devices.new).failures }
{
    let mut text = Vec::new(alloc);
    draft_refusal(refusal, &mut text)?;
    put_out(devices, &text)?;
    Ok(end_of(Cause::Refused(refusal, line), 0))
}
