//! Live channels: those that stay when a process dies, and how much they keep.

ghost use Rattle.std.specs.Prelude.{◌≡◌, ◌≤◌, nat_eq, not};
ghost use Rattle.std.specs.List.{filter};
ghost use Rattle.promela_run.specs.declared.live_channel.LiveChannel.{LiveChannel};
ghost use Rattle.run_state.specs.Footprint.{all_room, message_numbers};

use promela_run::live_channel::LiveChannel;

/// The channels end that live with this frame.
pub fn keep_others(channels: &mut Vec<LiveChannel>, frame: usize)
    ensures { channels.new.items ≡ filter (λ (o : LiveChannel). not (nat_eq o.frame frame)) channels.old.items }
{
    channels.retain(|live| live.frame != frame);
}

/// How many numbers the messages of channels have.
pub fn message_numbers(channels: &[LiveChannel]) -> usize
    requires { all_room channels.now ≤ 4294967295 }
    ensures value { result ≡ message_numbers channels.now }
    ensures few { result ≤ all_room channels.now }
{
    let mut count = 0;
    for live in channels {
        count += live.channel.numbers();
    }
    count
}
