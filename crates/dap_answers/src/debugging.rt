//! A session with a client.

ghost use Rattle.std.specs.Prelude.{◌≡◌};
ghost use Rattle.view_walk.specs.Walks.{SameModel};

use crate::breaks::Break;
use dap_messages::outbox::Outbox;
use std::alloc::{AllocError, Global};
use view_session::told::Told;
use view_walk::walk::Walk;
use walk_answers::choosing::Choosing;

/// What is told of the last exception: a fault or an invalid end.
#[derive(Drop)]
pub struct Exception {
    pub id: &'static str,
    pub words: String,
    pub details: String,
}

/// A session with a client: what is still to be sent, where runs stop, and what the words of a session keep.
#[derive(Drop)]
pub struct ClientSession {
    pub out: Outbox,
    pub breaks: Vec<Break>,
    /// The paths of the variables at whose changes runs stop.
    pub watched: Vec<String>,
    pub choosing: Choosing,
    pub told: Told,
    /// How often it stopped: a choice that is offered at one stop is none at another.
    pub stops: usize,
    /// How many processes lived at the last stop.
    pub alive: usize,
    /// So many steps has a walk at most.
    pub limit: usize,
    pub exception: Option<Exception>,
    /// The move at which a trail ends, which comes to a fault.
    pub faulting: Option<usize>,
}

impl ClientSession {
    /// One in which nothing was sent.
    pub fn new(out: Outbox, choosing: Choosing, limit: usize) -> ClientSession
        ensures limit { result.limit ≡ limit }
        ensures sent { result.out ≡ out }
    {
        let alloc = out.allocator();
        ClientSession {
            out,
            breaks: Vec::new(alloc),
            watched: Vec::new(alloc),
            choosing,
            told: Told::new(alloc),
            stops: 0,
            alive: 0,
            limit,
            exception: None,
            faulting: None,
        }
    }

    /// What takes its memory.
    pub fn allocator(&self) -> Global {
        self.out.allocator()
    }

    /// Memory was refused for the answer to a request: what was to be sent is left out.
    pub fn let_go(&mut self, walk: &mut Walk<'_, '_>) -> Result<(), AllocError>
        ensures model { SameModel walk.old walk.new }
        ensures legs { walk.new.legs ≡ walk.old.legs }
        ensures limit { self.new.limit ≡ self.old.limit }
    {
        drop(self.out.take());
        self.told = Told::new(self.allocator());
        let at = walk.at();
        walk.go_to(at)
    }
}
