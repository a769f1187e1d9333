//! A function that is generic over N: it borrows the receiver, whose size isn't known, and begins anew with `reset_at`.
ghost use Rattle.std.specs.Prelude.{◌≡◌, map, All, IfOk};
ghost use Rattle.net_receiver.specs.Headline.{replies};
ghost use Rattle.net_receiver.specs.Execution.{CommandFits, command_values, reply_value};

use net_receiver::{Command, Receiver, Reply, replay};
use std::alloc::{AllocError, Allocator};

/// Returns the replies to commands of a receiver that begins anew at `first`.
pub fn replay_anew<A: Allocator + Copy, const N: usize>(
    alloc: A,
    receiver: &mut Receiver<'_, N>,
    first: u64,
    commands: &[Command<A>],
) -> Result<Vec<Reply<A>, A>, AllocError>
    requires { All CommandFits commands.now }
    ensures { IfOk result (λ all. map reply_value all.items
        ≡ replies (record { first = first; capacity = receiver.old.capacity; most_runs = N })
        (command_values commands.now)) }
{
    let mut all = Vec::new(alloc);
    receiver.reset_at(first);
    replay(alloc, receiver, commands, &mut all)?;
    Ok(all)
}
