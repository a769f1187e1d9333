//! Long schedules, and schedules in memory that refuses a request.
ghost use Rattle.std.specs.Prelude.{All, IfOk};
ghost use Rattle.net_receiver.specs.Execution.{CommandFits};

use crate::assertions::{assert_count, assert_holds};
use crate::testing::Refusing;
use net_receiver::{Command, Receiver, Reply, execute, replay};
use net_ring::ManagedSlice;
use std::alloc::{AllocError, Allocator, Global};

/// A command, with the reply that it must have.
#[derive(Clone, Copy, Drop)]
pub enum Step<'a> {
    /// A segment by its position and bytes: how many are kept and queued, and the listed runs.
    Keeps(u64, &'a [u8], usize, usize, &'a [(u64, u64)]),
    /// A segment that is refused.
    Refuses(u64, &'a [u8]),
    /// A read of at most this number of bytes, and those that are read.
    Reads(u64, &'a [u8]),
    /// The first missing position, the lengths of queue and window, and the held runs.
    Shows(u64, usize, usize, &'a [(u64, u64)]),
}

/// Returns the segment, or `Show` if its end is not a position.
fn segment<A: Allocator + Copy>(alloc: A, pos: u64, bytes: &[u8]) -> Result<Command<A>, AllocError>
    ensures { IfOk result CommandFits }
{
    if !Receiver::<4>::fits(pos, bytes.len()) {
        return Ok(Command::Show);
    }
    Ok(Command::Segment {
        pos,
        bytes: Vec::from_slice(alloc, bytes)?,
    })
}

/// Returns the command of a step.
fn command_of<A: Allocator + Copy>(alloc: A, step: &Step<'_>) -> Result<Command<A>, AllocError>
    ensures { IfOk result CommandFits }
{
    match step {
        Step::Keeps(pos, bytes, _, _, _) | Step::Refuses(pos, bytes) => segment(alloc, *pos, bytes),
        Step::Reads(count, _) => Ok(Command::Read(*count)),
        Step::Shows(_, _, _, _) => Ok(Command::Show),
    }
}

/// Returns the commands of steps.
fn commands_of<A: Allocator + Copy>(
    alloc: A,
    steps: &[Step<'_>],
) -> Result<Vec<Command<A>, A>, AllocError>
    ensures { IfOk result (λ commands. All CommandFits commands.items) }
{
    let mut commands = Vec::with_capacity(alloc, steps.len())?;
    for step in steps {
        let command = command_of(alloc, step)?;
        commands.push(command)?;
    }
    Ok(commands)
}

/// Returns whether these runs are listed, and no others.
fn lists(sack: &[Option<(u64, u64)>; 3], runs: &[(u64, u64)]) -> bool {
    let [first, second, third] = sack;
    *first == runs.get(0).copied()
        && *second == runs.get(1).copied()
        && *third == runs.get(2).copied()
}

/// Returns whether a reply is the one that a step must have.
fn is_reply<A: Allocator + Copy>(step: &Step<'_>, reply: &Reply<A>) -> bool {
    match (step, reply) {
        (Step::Keeps(_, _, kept, queued, runs), Reply::Segment(Ok(result))) => {
            result.kept == *kept && result.queued == *queued && lists(&result.sack, runs)
        }
        (Step::Refuses(_, _), Reply::Segment(result)) => result.is_err(),
        (Step::Reads(_, bytes), Reply::Read(read)) => read.as_slice() == *bytes,
        (
            Step::Shows(next, queued, window, runs),
            Reply::Show {
                next: shown,
                queued: bytes,
                window: room,
                held,
            },
        ) => shown == next && bytes == queued && room == window && held.as_slice() == *runs,
        _ => false,
    }
}

/// Returns whether the replies are those of the first steps.
fn are_replies<A: Allocator + Copy>(steps: &[Step<'_>], replies: &[Reply<A>]) -> bool {
    if replies.len() > steps.len() {
        return false;
    }
    for index in 0..replies.len() {
        if !is_reply(&steps[index], &replies[index]) {
            return false;
        }
    }
    true
}

/// A schedule: how many bytes a receiver of four runs has room for, the stream's first position, and
/// the steps.
pub type Schedule<'a> = (usize, u64, &'a [Step<'a>]);

/// Returns whether a receiver replies to a schedule as its steps say.
pub fn runs_as(alloc: Global, schedule: &Schedule<'_>) -> Result<bool, AllocError> {
    let (capacity, first, steps) = *schedule;
    let commands = commands_of(alloc, steps)?;
    let storage = vec![in alloc; 0u8; capacity]?;
    let mut receiver = Receiver::<4>::new_at(ManagedSlice::Owned(storage), first);
    let mut replies = Vec::new(alloc);
    replay(alloc, &mut receiver, &commands, &mut replies)?;
    Ok(replies.len() == steps.len() && are_replies(steps, &replies))
}

/// Returns segments of three bytes, each followed by a read of one byte, `times` times.
fn many_commands(alloc: Global, times: u64) -> Result<Vec<Command>, AllocError>
    ensures { IfOk result (λ commands. All CommandFits commands.items) }
{
    let mut commands = Vec::new(alloc);
    for index in 0..times {
        let command = segment(alloc, index, &[(index % 251) as u8; 3])?;
        commands.push(command)?;
        commands.push(Command::Read(1))?;
    }
    Ok(commands)
}

/// Executes `times` commands, and returns their replies.
fn replies_to_many(
    alloc: Global,
    receiver: &mut Receiver<'_, 4>,
    times: u64,
) -> Result<Vec<Reply>, AllocError> {
    let commands = many_commands(alloc, times)?;
    let mut replies = Vec::new(alloc);
    replay(alloc, receiver, &commands, &mut replies)?;
    Ok(replies)
}

/// Returns whether the reply of a number is the one that this step must have.
fn replied(replies: &[Reply], number: usize, step: &Step<'_>) -> bool {
    match replies.get(number) {
        Some(reply) => is_reply(step, reply),
        None => false,
    }
}

/// Of each segment of three bytes, the byte after those of the segment before it is kept.
#[test]
fn a_long_schedule(rt: HostRuntime) -> Result<(), AllocError> {
    let mut buffer = [0u8; 16];
    let mut receiver = Receiver::<4>::new(ManagedSlice::Borrowed(&mut buffer));
    let replies = replies_to_many(rt.alloc(), &mut receiver, 60_000)?;
    assert_count(&rt, replies.len(), 120_000, ("replies", 0));
    let last_kept = replied(&replies, 119_998, &Step::Keeps(59_999, &[], 1, 1, &[]));
    let last_read = replied(&replies, 119_999, &Step::Reads(1, &[8]));
    assert_holds(&rt, last_kept, ("reply", 119_998));
    assert_holds(&rt, last_read, ("reply", 119_999));
    assert_holds(&rt, receiver.next() == 60_002, ("next", 0));
    assert_count(&rt, receiver.queued(), 2, ("queued", 0));
    Ok(())
}

/// The first missing position, how many bytes are queued, and the first two held runs.
type State = (u64, usize, [Option<(u64, u64)>; 2]);

/// Returns what a receiver has.
fn state_of(receiver: &Receiver<'_, 4>) -> State {
    let mut held = receiver.held();
    let runs = [held.next(), held.next()];
    (receiver.next(), receiver.queued(), runs)
}

/// The outcome of steps, one of whose requests for memory may be refused: whether all were executed, how many
/// requests there were and of how many bytes in all, how many replies, whether these are right, and what the
/// receiver then has.
#[derive(Drop)]
struct Ending {
    whole: bool,
    requests: usize,
    bytes: usize,
    replied: usize,
    right: bool,
    state: State,
}

/// Returns whether the steps below ended like this: with `replied` right replies, and with the
/// receiver that they leave.
fn ends_as(ending: &Ending, whole: bool, requests: usize, replied: usize) -> bool {
    ending.whole == whole
        && ending.requests == requests
        && ending.replied == replied
        && ending.right
        && ending.state == after(replied)
}

/// Executes commands with their replies in memory that refuses a request.
fn replay_in<'m>(
    refusing: &'m Refusing,
    commands: &[Command<&'m Refusing>],
    steps: &[Step<'_>],
) -> Ending
    requires { All CommandFits commands.now }
{
    let mut replies: Vec<Reply<&'m Refusing>, &'m Refusing> = Vec::new(refusing);
    let mut buffer = [0u8; 16];
    let mut receiver = Receiver::<4>::new(ManagedSlice::Borrowed(&mut buffer));
    let whole = replay(refusing, &mut receiver, commands, &mut replies).is_ok();
    Ending {
        whole,
        requests: refusing.requests(),
        bytes: refusing.bytes(),
        replied: replies.len(),
        right: are_replies(steps, &replies),
        state: state_of(&receiver),
    }
}

/// Executes the commands of steps, with their replies in memory whose request of number `refused` is
/// refused.
fn replay_refused(alloc: Global, refused: usize, steps: &[Step<'_>]) -> Result<Ending, AllocError> {
    let granting = Refusing::new(alloc, usize::MAX);
    let refusing = Refusing::new(alloc, refused);
    let commands = commands_of(&granting, steps)?;
    Ok(replay_in(&refusing, &commands, steps))
}

/// Steps in which a read asks for memory for its bytes, and a show for its list, if it has any.
static STEPS_THAT_ASK: [Step<'static>; 9] = [
    Step::Keeps(2, b"AA", 2, 0, &[(2, 4)]),
    Step::Shows(0, 0, 16, &[(2, 4)]),
    Step::Keeps(0, b"BB", 2, 4, &[]),
    Step::Reads(3, b"BBA"),
    Step::Shows(4, 1, 15, &[]),
    Step::Keeps(6, b"C", 1, 0, &[(6, 7)]),
    Step::Reads(9, b"A"),
    Step::Shows(4, 0, 16, &[(6, 7)]),
    Step::Reads(9, b""),
];

/// Returns what a receiver has after `count` of these steps.
fn after(count: usize) -> State {
    match count {
        0 => (0, 0, [None, None]),
        1 | 2 => (0, 0, [Some((2, 4)), None]),
        3 => (4, 4, [None, None]),
        4 | 5 => (4, 1, [None, None]),
        6 => (4, 1, [Some((6, 7)), None]),
        _ => (4, 0, [Some((6, 7)), None]),
    }
}

/// The list of replies takes room for four at first, and is doubled when it is full: a request in
/// steps 0, 4 and 8. A read asks for memory for its bytes, if it has any: in steps 3 and 6, and not
/// 8. A show asks for its list, if a run is held: in steps 1 and 7, and not 4. A segment asks for
/// nothing. So seven requests are made, one each in steps 0, 1, 3, 4, 6, 7 and 8.
#[test]
fn each_refusal_of_memory_leaves_the_first_commands(rt: HostRuntime) -> Result<(), AllocError> {
    // How many steps are executed if this request is refused, and at last if none is.
    let counts = [0, 1, 3, 4, 6, 7, 8, 9];
    for refused in 0..8usize {
        let ending = replay_refused(rt.alloc(), refused, &STEPS_THAT_ASK)?;
        let requests = (refused + 1).min(7);
        let right = ends_as(&ending, refused == 7, requests, counts[refused]);
        assert_holds(&rt, right, ("request", refused));
    }
    Ok(())
}

/// Executes a step's command by `execute`, and returns whether its reply is right, or `None` if it
/// fails.
fn execute_step(
    granting: &Refusing,
    refusing: &Refusing,
    receiver: &mut Receiver<'_, 4>,
    step: &Step<'_>,
) -> Result<Option<bool>, AllocError> {
    let command = command_of(granting, step)?;
    match execute(refusing, receiver, &command) {
        Ok(reply) => Ok(Some(is_reply(step, &reply))),
        Err(AllocError) => Ok(None),
    }
}

/// Executes the commands of steps one after another, up to the first that fails. Returns how many did not fail,
/// and whether their replies are right.
fn execute_steps(
    granting: &Refusing,
    refusing: &Refusing,
    receiver: &mut Receiver<'_, 4>,
    steps: &[Step<'_>],
) -> Result<(usize, bool), AllocError> {
    let mut replied = 0usize;
    let mut right = true;
    for step in steps {
        let Some(is_right) = execute_step(granting, refusing, receiver, step)? else {
            break;
        };
        right = right && is_right;
        replied = replied.wrapping_add(1);
    }
    Ok((replied, right))
}

/// Executes the commands of steps by `execute`, in memory whose request of number `refused` is refused.
fn execute_refused(
    alloc: Global,
    refused: usize,
    steps: &[Step<'_>],
) -> Result<Ending, AllocError> {
    let granting = Refusing::new(alloc, usize::MAX);
    let refusing = Refusing::new(alloc, refused);
    let mut buffer = [0u8; 16];
    let mut receiver = Receiver::<4>::new(ManagedSlice::Borrowed(&mut buffer));
    let (replied, right) = execute_steps(&granting, &refusing, &mut receiver, steps)?;
    Ok(Ending {
        whole: replied == steps.len(),
        requests: refusing.requests(),
        bytes: refusing.bytes(),
        replied,
        right,
        state: state_of(&receiver),
    })
}

/// A read asks for memory for its bytes and a show for its list, if it has any: in steps 1, 3, 6
/// and 7 of those above, 16 + 3 + 1 + 16 bytes in all.
#[test]
fn one_command_asks_for_its_reply_alone(rt: HostRuntime) -> Result<(), AllocError> {
    let counts = [1, 3, 6, 7, 9];
    for refused in 0..5usize {
        let ending = execute_refused(rt.alloc(), refused, &STEPS_THAT_ASK)?;
        let requests = (refused + 1).min(4);
        let right = ends_as(&ending, refused == 4, requests, counts[refused]);
        assert_holds(&rt, right, ("request", refused));
        assert_holds(&rt, refused < 4 || ending.bytes == 36, ("bytes", refused));
    }
    Ok(())
}

/// A segment asks for no memory, however long it is.
#[test]
fn a_segment_asks_for_nothing(rt: HostRuntime) -> Result<(), AllocError> {
    let long = vec![in rt.alloc(); 7u8; 100_000]?;
    let ending = execute_refused(rt.alloc(), 0, &[Step::Keeps(0, &long, 16, 16, &[])])?;
    assert_holds(&rt, ending.whole && ending.right, ("segment", 0));
    assert_count(&rt, ending.bytes, 0, ("bytes", 0));
    Ok(())
}
