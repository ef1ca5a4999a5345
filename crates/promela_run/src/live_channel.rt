//! A channel and whose it is.

use pml_channel::channel::Channel;

/// A live channel, and the frame of the variable that it was made for: it ends with that frame.
#[derive(Drop)]
pub struct LiveChannel {
    pub frame: usize,
    pub channel: Channel,
}
