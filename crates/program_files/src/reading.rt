//! A source of choices of which it is known which line was read last.

ghost use Rattle.std.specs.Prelude.{◌≡◌, false, None, if◌then◌else◌};
ghost use Rattle.devices.specs.Left.{MayBeLeft, some_may_be_left};

use crate::input::Input;
use devices::{Next, Source};
use std::io;
use std::io::Read;
use streams::followed::FollowedReader;

/// The choices of a run. Behind their end, and behind a failure, they give no byte more.
#[derive(Drop)]
pub struct ReadChoices {
    pub reader: FollowedReader<Input>,
    pub is_over: bool,
    pub has_failed: bool,
    /// Why they failed.
    pub error: Option<io::Error>,
}

impl ReadChoices {
    /// Of which nothing was read yet.
    pub fn new(reader: FollowedReader<Input>) -> ReadChoices
        ensures over { result.is_over ≡ false }
        ensures failed { result.has_failed ≡ false }
    {
        ReadChoices {
            reader,
            is_over: false,
            has_failed: false,
            error: None,
        }
    }
}

impl Source for ReadChoices {
    ghost may_give = { λ s left. MayBeLeft s.is_over None left };

    ghost some_left = { λ s. some_may_be_left s.is_over None };

    ghost failures = { λ s. if s.has_failed then 1 else 0 };

    fn next(&mut self) -> Next {
        if self.is_over || self.has_failed {
            self.is_over = true;
            return Next::End;
        }
        let mut buf = [0u8; 1];
        match self.reader.read(&mut buf) {
            Ok(0) => {
                self.is_over = true;
                Next::End
            }
            Ok(_) => Next::Byte(buf[0]),
            Err(error) => {
                self.has_failed = true;
                self.error = Some(error);
                Next::Failed
            }
        }
    }
}
