//! A bench for the storage types: lines come in, and a reply line goes out for each.
#![tactic(auto)]

use net_bench_lib::{command_words, serve};
use std::process::ExitCode;

fn main(rt: HostRuntime) -> ExitCode {
    let words = command_words(&rt);
    ExitCode::from(serve(
        rt.alloc(),
        &words,
        &mut rt.stdin(),
        &mut rt.stdout(),
        &mut rt.stderr(),
    ))
}
