// Why there is nothing to see.
use program_files::fault::NoFile;
use session::Broken;
use std::alloc::AllocError;
use std::io;

// A device that a run is shown over.
#[derive(Clone, Copy)]
pub enum RunDevice {
    Choices,
    Input,
    Output,
    Record,
}

impl RunDevice {
    // What it is called.
    pub fn words(self) -> &'static str {
        match self {
            RunDevice::Choices => "choices",
            RunDevice::Input => "input",
            RunDevice::Output => "output",
            RunDevice::Record => "record",
        }
    }
}

// Why there is nothing to see.
#[derive(Drop)]
pub enum NoView {
    Words(clap::Error),
    NotText,
    // Options that are no use together.
    NotTogether,
    File(NoFile),
    // The model is refused, which was said.
    Refused,
    // The choices do not fit, which was said.
    Misfit,
    Memory,
    // A device failed, and perhaps it said why.
    Failed(RunDevice, Option<io::Error>),
}

impl From<AllocError> for NoView {
    fn from(_error: AllocError) -> NoView {
        NoView::Memory
    }
}

impl From<NoFile> for NoView {
    fn from(fault: NoFile) -> NoView {
        match fault {
            NoFile::Memory => NoView::Memory,
            other => NoView::File(other),
        }
    }
}

// A run without a session is broken off where its choices cannot be read: nothing else is asked of a device by it.
impl From<Broken> for NoView {
    fn from(broken: Broken) -> NoView {
        match broken {
            Broken::Memory => NoView::Memory,
            Broken::Source => NoView::Failed(RunDevice::Choices, None),
            Broken::Out => NoView::Failed(RunDevice::Output, None),
            Broken::Record => NoView::Failed(RunDevice::Record, None),
        }
    }
}

// Why a device failed, unless memory was refused.
pub fn failed(device: RunDevice, error: io::Error) -> NoView {
    if error.kind() == io::ErrorKind::OutOfMemory {
        NoView::Memory
    } else {
        NoView::Failed(device, Some(error))
    }
}
