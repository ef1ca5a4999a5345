//! What has been started.

use pml_store::store::Store;
use promela_run::live_channel::LiveChannel;

/// What the variables hold, the live channels, and the proctypes of the live processes by their numbers in the model, the
/// oldest process first.
#[derive(Drop)]
pub struct Started {
    pub store: Store,
    pub channels: Vec<LiveChannel>,
    pub sorts: Vec<usize>,
}
