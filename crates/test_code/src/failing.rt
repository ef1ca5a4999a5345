//! Each call of each device fails, once: a beginning of what stands behind a session stands behind it then.
use crate::compare::same;
use crate::player::{SampleOutcome, played};
use crate::row::{CodeRow, FailingCall};
use crate::sessions::{compares, plays};
use crate::wholes::WHOLES;
use session::Cause;
use std::alloc::Global;
use std::process::Abort;

// A device of a session.
#[derive(Clone, Copy)]
enum Device {
    Source,
    Out,
    Record,
}

impl Device {
    // This call of it fails.
    fn failing(self, at: u64) -> FailingCall {
        match self {
            Device::Source => FailingCall::Source(at),
            Device::Out => FailingCall::Out(at),
            Device::Record => FailingCall::Record(at),
        }
    }

    // Why a session ends where it fails.
    fn cause(self) -> Cause {
        match self {
            Device::Source => Cause::SourceFailed,
            Device::Out => Cause::OutFailed,
            Device::Record => Cause::RecordFailed,
        }
    }
}

// A beginning stands behind it, and the device that has failed is told.
fn begins<R: Abort>(rt: &R, row: &CodeRow, out: &[u8], device: Device, behind: &SampleOutcome) {
    let is_beginning = out.starts_with(&behind.out);
    same(rt, row.name, "begins the output", is_beginning, true);
    let is_beginning = row.rec.starts_with(&behind.rec);
    same(rt, row.name, "begins the record", is_beginning, true);
    let is_less = behind.read <= row.read;
    same(rt, row.name, "reads no more", is_less, true);
    let is_less = behind.end.steps <= row.steps;
    same(rt, row.name, "takes no more steps", is_less, true);
    let is_broken = behind.end.status == 6;
    same(rt, row.name, "is broken off", is_broken, behind.failed);
    let is_told = behind.end.cause == device.cause();
    same(rt, row.name, "tells the device", is_told, behind.failed);
}

// Whether this call failed.
fn failed<R: Abort>(
    rt: &R,
    alloc: Global,
    row: &CodeRow,
    out: &[u8],
    device: Device,
    at: u64,
) -> bool {
    let behind = played(rt, alloc, &row.but(device.failing(at)));
    begins(rt, row, out, device, &behind);
    if !behind.failed {
        compares(rt, row, out, &behind);
    }
    behind.failed
}

// Each call of the device fails, until a run has no failure.
fn swept<R: Abort>(rt: &R, alloc: Global, row: &CodeRow, device: Device) {
    let out = row.output(rt, alloc);
    for at in 0..600u64 {
        if !failed(rt, alloc, row, out.as_slice(), device, at) {
            return;
        }
    }
    panic!(rt; "a session has no end")
}

// A conversion has no record, so none of its calls fails.
static DEVICES: [Device; 3] = [Device::Source, Device::Out, Device::Record];

fn swept_whole<R: Abort>(rt: &R, alloc: Global, row: &CodeRow) {
    for device in &DEVICES {
        swept(rt, alloc, row, *device);
    }
}

#[test]
fn each_call(rt: HostRuntime) {
    for row in &WHOLES {
        plays(&rt, rt.alloc(), row);
        swept_whole(&rt, rt.alloc(), row);
    }
}
