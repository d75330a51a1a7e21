//! Performs a script of calls on a table, and answers each line.
#![tactic(auto)]

mod answer;
mod calls;
mod lists;
mod run;
mod script;
mod settings;
mod stop;
mod words;

use std::io::Read;
use std::process::ExitCode;
use stop::Stop;

// The script is read whole; its lines are parted by byte 10.
fn perform(rt: &HostRuntime) -> Result<(), Stop> {
    let heap = rt.alloc();
    let mut text = Vec::new(heap);
    rt.stdin().read_to_end(&mut text)?;
    let lines: Vec<&[u8]> = text.as_slice().split(|b| *b == b'\n').collect(heap)?;
    run::settle(rt, lines.as_slice())
}

// The status is 1 where the output or the memory fails.
fn main(rt: HostRuntime) -> ExitCode {
    match perform(&rt) {
        Ok(()) => ExitCode::SUCCESS,
        Err(_) => ExitCode::FAILURE,
    }
}
