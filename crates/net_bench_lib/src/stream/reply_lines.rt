//! The replies of a receiver as text.
ghost use Rattle.std.specs.Prelude.{◌≡◌, [], Some, flat_map, OnOk, Ok, string_bytes};
ghost use Rattle.net_receiver.specs.ReceiverState.{SegmentReply, ShowReply};
ghost use Rattle.net_receiver.specs.Execution.{reply_value};
ghost use Rattle.net_bench_lib.specs.StreamMode.{next_run_text, runs_text, accepted_line, reply_text};

use crate::text;
use net_receiver::{Kept, Reply};
use std::alloc::{AllocError, Allocator};
use std::fmt;

/// Runs after another, a comma before each.
#[derive(Drop)]
struct NextRuns<'a>(&'a [(u64, u64)]);

impl fmt::Display for NextRuns<'_> {
    ghost output = { λ runs. Some (flat_map next_run_text runs.0.now) };

    fn fmt<W: fmt::Write>(&self, f: &mut fmt::Formatter<W>) -> fmt::Result {
        for (start, end) in self.0 {
            write!(f, ",{start}-{end}")?;
        }
        Ok(())
    }
}

/// Runs, joined by commas: a dash for none.
#[derive(Drop)]
struct Runs<'a>(&'a [(u64, u64)]);

impl fmt::Display for Runs<'_> {
    ghost output = { λ runs. Some (runs_text runs.0.now) };

    fn fmt<W: fmt::Write>(&self, f: &mut fmt::Formatter<W>) -> fmt::Result {
        match self.0.split_first() {
            None => write!(f, "-"),
            Some((first, rest)) => {
                let (start, end) = *first;
                let rest = NextRuns(rest);
                write!(f, "{start}-{end}{rest}")
            }
        }
    }
}

/// Shows what was kept of a segment and the first held runs, as a line.
fn show_accepted<A: Allocator + Copy>(
    kept: usize,
    queued: usize,
    sack: &[(u64, u64)],
    reply: &mut String<A>,
) -> Result<(), AllocError>
    requires { string_bytes reply.old ≡ [] }
    ensures { OnOk result (string_bytes reply.new ≡ accepted_line kept queued sack.now) }
{
    let sack = Runs(sack);
    write!(reply, "kept {kept} queued {queued} sack {sack}\n")
}

/// Shows what was kept of a segment, as a line.
fn show_kept<A: Allocator + Copy>(kept: &Kept, reply: &mut String<A>) -> Result<(), AllocError>
    requires { string_bytes reply.old ≡ [] }
    ensures { OnOk result (string_bytes reply.new ≡ reply_text (SegmentReply (Ok kept.now))) }
{
    let [first, second, third] = kept.sack;
    let Some(first) = first else {
        return show_accepted(kept.kept, kept.queued, &[], reply);
    };
    let Some(second) = second else {
        return show_accepted(kept.kept, kept.queued, &[first], reply);
    };
    let Some(third) = third else {
        return show_accepted(kept.kept, kept.queued, &[first, second], reply);
    };
    show_accepted(kept.kept, kept.queued, &[first, second, third], reply)
}

/// Shows a receiver's numbers and held runs, as a line.
fn show_receiver<A: Allocator + Copy>(
    next: u64,
    queued: usize,
    window: usize,
    held: &[(u64, u64)],
    reply: &mut String<A>,
) -> Result<(), AllocError>
    requires { string_bytes reply.old ≡ [] }
    ensures { OnOk result
        (string_bytes reply.new ≡ reply_text (ShowReply next queued window held.now)) }
{
    let held = Runs(held);
    write!(
        reply,
        "next {next} queued {queued} window {window} held {held}\n"
    )
}

/// Shows the answer to a command, as a line.
pub fn show_reply<A: Allocator + Copy>(
    alloc: A,
    answer: &Reply<A>,
    reply: &mut String<A>,
) -> Result<(), AllocError>
    requires { string_bytes reply.old ≡ [] }
    ensures { OnOk result (string_bytes reply.new ≡ reply_text (reply_value answer.now)) }
{
    match answer {
        Reply::Segment(Ok(kept)) => show_kept(kept, reply),
        Reply::Segment(Err(_)) => reply.push_str("refused too many holes\n"),
        Reply::Read(bytes) => text::show_bytes(alloc, bytes, reply),
        Reply::Show {
            next,
            queued,
            window,
            held,
        } => show_receiver(*next, *queued, *window, held, reply),
    }
}
