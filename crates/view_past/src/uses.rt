//! Who sent to a channel, and who took from it, last.

use promela_run::moves::Move;
use run_state::live::Live;
use std::alloc::{AllocError, Global};
use view_waits::transfer::{Does, transfer_of};
use view_waits::waits::starter_of;

/// A step that used a channel, and the process that did.
#[derive(Clone, Copy, Debug, PartialEq, Eq)]
pub struct ChannelUse {
    pub step: usize,
    pub process: usize,
    /// Whether that process has lived since.
    pub lives: bool,
}

/// The last uses of a channel.
#[derive(Clone, Copy, Debug, PartialEq, Eq)]
pub struct LastUses {
    pub sent: Option<ChannelUse>,
    pub took: Option<ChannelUse>,
}

const UNUSED: LastUses = LastUses {
    sent: None,
    took: None,
};

/// The last uses of each channel.
#[derive(Drop)]
pub struct Uses {
    channels: Vec<LastUses>,
}

fn receiver_of(m: &Move) -> usize {
    match m {
        Move::Pair(_, receiver, _) => receiver.process,
        _ => starter_of(m),
    }
}

fn without_dead(used: Option<ChannelUse>, count: usize) -> Option<ChannelUse> {
    match used {
        Some(last) => Some(ChannelUse {
            lives: last.lives && last.process < count,
            ..last
        }),
        None => None,
    }
}

impl Uses {
    /// None yet.
    pub fn new(alloc: Global) -> Uses {
        Uses {
            channels: Vec::new(alloc),
        }
    }

    /// Those of the channel with this number, from 1 on.
    pub fn of(&self, number: usize) -> LastUses {
        if number == 0 {
            return UNUSED;
        }
        match self.channels.get(number - 1) {
            Some(last) => *last,
            None => UNUSED,
        }
    }

    // There is a place for each of so many channels.
    fn widen(&mut self, count: usize) -> Result<(), AllocError> {
        for _ in self.channels.len()..count {
            self.channels.push(UNUSED)?;
        }
        Ok(())
    }

    fn put(&mut self, number: usize, does: Does, m: &Move, step: usize) {
        if number == 0 || number > self.channels.len() {
            return;
        }
        let sent = ChannelUse {
            step,
            process: starter_of(m),
            lives: true,
        };
        let took = ChannelUse {
            process: receiver_of(m),
            ..sent
        };
        let last = &mut self.channels[number - 1];
        match does {
            Does::Send => last.sent = Some(sent),
            Does::Receive => last.took = Some(took),
            Does::Pass => {
                last.sent = Some(sent);
                last.took = Some(took);
            }
            _ => {}
        }
    }

    /// A step takes this move of the present state.
    pub fn add<'w>(
        &'w mut self,
        live: &'w Live<'_, '_>,
        m: &Move,
        step: usize,
    ) -> Result<(), AllocError> {
        let transfer = transfer_of(*self.channels.allocator(), live, m)?;
        self.widen(live.channels().len())?;
        self.put(transfer.channel, transfer.does, m, step);
        Ok(())
    }

    /// So many channels and processes live behind a step.
    pub fn settle(&mut self, channels: usize, processes: usize) {
        self.channels.truncate(channels);
        for at in 0..self.channels.len() {
            let last = self.channels[at];
            self.channels[at] = LastUses {
                sent: without_dead(last.sent, processes),
                took: without_dead(last.took, processes),
            };
        }
    }
}
