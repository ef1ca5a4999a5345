// Reads a text, and writes what is prepared of it.

ghost use Rattle.std.specs.Prelude.{◌≡◌, ◌≤◌, ◌+◌, length, take, IfOk, OnOk, OnErr, IfSome};
ghost use Rattle.std.specs.Io.KnownBytes.{Appends};
ghost use Rattle.prepare.specs.declared.TheConstants.{MOST_BYTES};
ghost use Rattle.spinprep_program.specs.Over.{count, Takes, TakesFront, PreparesOver, BreaksOver};

use crate::stop::Hindrance;
use prepare::MOST_BYTES;
use prepared::given::How;
use prepared::made::{Prepared, prepared_of};
use prepared::report::Called;
use prepared::unprepared::Unprepared;
use std::alloc::Global;
use std::io;
use std::io::{Read, Write};

// At most so many bytes of a text are read: one more than it may have.
const MOST_READ: u64 = MOST_BYTES as u64 + 1;

// The text that a reader gives, as far as it is read.
fn text_of<R: Read + Drop>(alloc: Global, reader: R) -> io::Result<Vec<u8>>
    ensures { IfOk result (λ v. IfSome (R.remaining reader) (λ bytes. v.items ≡ take (MOST_BYTES + 1) bytes)) }
{
    let mut text = Vec::new(alloc);
    reader.take(MOST_READ).read_to_end(&mut text)?;
    Ok(text)
}

// Whether a call failed that may be made again.
fn is_interrupted(error: &io::Error) -> bool {
    error.kind() == io::ErrorKind::Interrupted
}

// How many of some bytes a writer takes, none where the call may be made again; nothing where it fails.
fn some_taken<W: Write>(out: &mut W, bytes: &[u8]) -> Option<usize>
    ensures within { IfSome result (λ n. n ≤ length bytes.now) }
    ensures took { Appends (W.contents out.old) (W.contents out.new) (take (count result) bytes.now) }
{
    match out.write(bytes) {
        Ok(count) => { if count > 0 { Some(count) } else { None } }
        Err(error) => {
            if is_interrupted(&error) {
                Some(0)
            } else {
                None
            }
        }
    }
}

// Writes all of some bytes; a device that fails has taken a beginning of them.
fn put<W: Write>(out: &mut W, bytes: &[u8]) -> Result<(), Hindrance>
    ensures whole { OnOk result (Takes W.contents out.old out.new bytes.now) }
    ensures begun { OnErr result (TakesFront W.contents out.old out.new bytes.now) }
{
    let mut rest = bytes;
    for stretch in 0..u64::MAX {
        let _ = stretch;
        if rest.is_empty() {
            return match out.flush() {
                Ok(()) => Ok(()),
                Err(_) => Err(Hindrance::Device),
            };
        }
        match some_taken(out, rest) {
            Some(count) => rest = &rest[count..],
            None => return Err(Hindrance::Device),
        }
    }
    Err(Hindrance::Device)
}

// The text that a reader gives, of the file `file`, if it is not too long.
pub fn text_over<R: Read + Drop>(
    rt: &HostRuntime,
    file: &str,
    reader: R,
) -> Result<Vec<u8>, Hindrance>
    ensures short { IfOk result (λ v. length v.items ≤ MOST_BYTES) }
    ensures read { IfOk result (λ v. IfSome (R.remaining reader) (λ bytes. v.items ≡ bytes)) }
{
    let text = match text_of(rt.alloc(), reader) {
        Ok(text) => text,
        Err(error) if error.kind() == io::ErrorKind::OutOfMemory => return Err(Hindrance::Memory),
        Err(_) => return Err(Hindrance::CannotRead(String::from_str(rt.alloc(), file)?)),
    };
    if text.len() > MOST_BYTES {
        return Err(Hindrance::Unprepared(Unprepared::TooLong));
    }
    Ok(text)
}

// Prepares an author's text in the way that is asked for, and writes what comes of it.
pub fn prepare_over<W: Write>(
    rt: &HostRuntime,
    how: &How,
    called: Called<'_>,
    text: &[u8],
    out: &mut W,
) -> Result<Prepared, Hindrance>
    ensures whole { IfOk result (PreparesOver how.now text.now (W.contents out.old) (W.contents out.new)) }
    ensures begun { OnErr result (BreaksOver how.now text.now (W.contents out.old) (W.contents out.new)) }
{
    let prepared = match prepared_of(rt, how, text, called) {
        Ok(prepared) => prepared,
        Err(why) => return Err(Hindrance::from(why)),
    };
    match put(out, prepared.text.as_slice()) {
        Ok(()) => Ok(prepared),
        Err(stop) => Err(stop),
    }
}
