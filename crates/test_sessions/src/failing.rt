//! Plays a row with each call of a device failing in turn.
use crate::player::{Device, Session, SessionOutcome, played};
use row_files::RowReport;
use std::alloc::Global;

/// At most so many calls fail.
const MOST_CALLS: u64 = 10_000;

/// Tells what is wrong with a session in which a device fails: it ends so, and what stands behind it begins what stands behind the
/// whole one.
fn tell_broken(
    told: &mut RowReport,
    device: Device,
    whole: &SessionOutcome,
    behind: &SessionOutcome,
) {
    told.number("status", 6, usize::from(behind.end.status));
    if behind.end.cause != device.cause() {
        told.add("another cause\n");
    }
    if !whole.out.starts_with(behind.out) || !whole.rec.starts_with(behind.rec) {
        told.add("an output or a record that is no beginning\n");
    }
    if behind.unread < whole.unread {
        told.add("more choices are read\n");
    }
}

/// Tells what is otherwise in a session with a failing device that did not fail.
fn tell_whole(told: &mut RowReport, whole: &SessionOutcome, behind: &SessionOutcome) {
    told.bytes("output without a failure", whole.out, behind.out);
    told.bytes("record without a failure", whole.rec, behind.rec);
    if behind.end != whole.end {
        told.add("another end without a failure\n");
    }
}

/// Tells what is wrong where each call of a device fails in turn, until a session has no failure.
pub fn tell_each(
    alloc: Global,
    told: &mut RowReport,
    session: &Session,
    device: Device,
    whole: &SessionOutcome,
) {
    for call in 0..MOST_CALLS {
        let failing = device.failing(call);
        let session = Session {
            failing,
            ..*session
        };
        let behind = played(alloc, &session, told);
        if !behind.failed {
            return tell_whole(told, whole, &behind);
        }
        tell_broken(told, device, whole, &behind);
    }
    told.add("no session without a failure\n");
}
