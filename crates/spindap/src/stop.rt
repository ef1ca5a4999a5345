// Why the adapter ends, but for the end of the client.
ghost use Rattle.spindap.specs.Statuses.{status};
ghost use Rattle.std.specs.Prelude.{◌≡◌};

use message_frames::NoMessage;
use std::alloc::AllocError;

// Why the adapter ends.
#[derive(Clone, Copy)]
pub enum AdapterEnd {
    Ended,
    Head,
    Device,
    Memory,
}

impl AdapterEnd {
    // What is said of it.
    pub fn words(self) -> &'static str {
        match self {
            AdapterEnd::Ended => "the input ended before disconnect",
            AdapterEnd::Head => "a message has no head with its length",
            AdapterEnd::Device => "device failed",
            AdapterEnd::Memory => "out of memory",
        }
    }

    // The status with which the adapter ends.
    pub fn status(self) -> u8
        ensures { result ≡ status self }
    {
        match self {
            AdapterEnd::Ended => 1,
            AdapterEnd::Head => 2,
            AdapterEnd::Device | AdapterEnd::Memory => 6,
        }
    }
}

impl From<AllocError> for AdapterEnd {
    fn from(_error: AllocError) -> AdapterEnd {
        AdapterEnd::Memory
    }
}

impl From<NoMessage> for AdapterEnd {
    fn from(fault: NoMessage) -> AdapterEnd {
        match fault {
            NoMessage::Ended => AdapterEnd::Ended,
            NoMessage::Head => AdapterEnd::Head,
            NoMessage::Device => AdapterEnd::Device,
            NoMessage::Memory => AdapterEnd::Memory,
        }
    }
}
