//! What an expression of one process reads.

ghost use Rattle.std.specs.Prelude.{◌≡◌, option_map};
ghost use Rattle.std.specs.Option.{option_copied};
ghost use Rattle.pml_eval.specs.Ground.{shown};
ghost use Rattle.promela_run.specs.State.{channel_at, filling, reading_of};
ghost use Rattle.pml_value.specs.Seen.{frame_of, seen};

use pml_channel::channel::Channel;
use pml_eval::ground::{Filled, Ground};
use pml_store::store::Store;
use promela_process::place::Place;
use promela_run::live_channel::LiveChannel;

/// The store and the live channels, and who reads them: the number of a process, how many live, and `timeout`.
#[derive(Drop)]
pub struct View<'a> {
    pub store: &'a Store,
    pub channels: &'a [LiveChannel],
    pub pid: u8,
    pub process_count: u8,
    pub timeout: bool,
}

impl<'a> View<'a> {
    /// What a process reads of a store and live channels.
    #[inline(always)]
    pub fn new(
        store: &'a Store,
        channels: &'a [LiveChannel],
        pid: u8,
        process_count: u8,
        timeout: bool,
    ) -> View<'a>
        ensures reads { seen result ≡ reading_of store.now.frames channels.now pid process_count timeout }
        ensures store { result.store.now ≡ store.now }
        ensures channels { result.channels.now ≡ channels.now }
    {
        View {
            store,
            channels,
            pid,
            process_count,
            timeout,
        }
    }
}

impl Ground for View<'_> {
    ghost use Rattle.pml_value.specs.Seen.{seen};

    ghost reading = { seen };

    fn frame(&self, local: bool) -> usize {
        frame_of(self.pid, local)
    }

    fn size(&self, frame: usize, variable: usize) -> usize {
        self.store.size(frame, variable)
    }

    fn number(&self, place: Place) -> i32 {
        self.store.get(place)
    }

    fn pid(&self) -> i32 {
        i32::from(self.pid)
    }

    fn process_count(&self) -> i32 {
        i32::from(self.process_count)
    }

    fn timeout(&self) -> bool {
        self.timeout
    }

    fn channel(&self, number: i32) -> Option<Filled> {
        filled(named(self.channels, number))
    }

    fn message(&self, number: i32, place: usize) -> &[i32] {
        match named(self.channels, number) {
            None => &[],
            Some(c) => c.message(place),
        }
    }
}

fn frame_of(pid: u8, local: bool) -> usize
    ensures { result ≡ frame_of pid local }
{
    if local { usize::from(pid) + 1 } else { 0 }
}

/// The channel with this number.
pub fn named<'a>(channels: &'a [LiveChannel], number: i32) -> Option<&'a Channel>
    ensures { option_copied result ≡ channel_at channels.now number }
{
    if number <= 0 {
        return None;
    }
    channels.get(number as usize - 1).map(|o| &o.channel)
}

fn filled(found: Option<&Channel>) -> Option<Filled>
    ensures { result ≡ option_map (λ c. shown (filling c)) (option_copied found.entry) }
{
    let c = found?;
    let capacity = c.capacity();
    Some(Filled {
        capacity,
        fields: c.types().len(),
        length: c.len() as u16,
    })
}
