#![tactic(auto)]

mod job;
mod report;
mod stop;

use job::{Draft, Entries, Job};
use report::report;
use std::io;
use std::io::{BufRead, BufReader};
use std::process::ExitCode;
use stop::{BadLine, Stop};

// Reads the job, up to the first wrong line.
fn read_job(rt: &HostRuntime) -> Result<Job, Stop> {
    let heap = rt.alloc();
    let mut draft = Draft::new(heap);
    // Counted by hand, since the end counts as a line too.
    let mut line: usize = 1;
    for text in BufReader::new(heap, rt.stdin())?.lines(heap) {
        let text = text?;
        draft
            .read(heap, text.as_str())
            .map_err(|wrong| BadLine { line, wrong })?;
        line = line.saturating_add(1);
    }
    let job = draft.finish().map_err(|wrong| BadLine { line, wrong })?;
    Ok(job)
}

fn run(rt: &HostRuntime) -> Result<(), Stop> {
    let Job { gaps, entries } = read_job(rt)?;
    match entries {
        Entries::Strip(entries) => report(rt, gaps.as_slice(), entries.as_slice()),
        Entries::StripAndWindow(entries) => report(rt, gaps.as_slice(), entries.as_slice()),
    }
}

// The status is 1 where a line is wrong or the output fails.
fn main(rt: HostRuntime) -> ExitCode {
    match run(&rt) {
        Ok(()) => ExitCode::SUCCESS,
        Err(Stop::Line(bad)) => {
            let _ = eprintln!(rt; "{bad}");
            ExitCode::FAILURE
        }
        Err(_) => ExitCode::FAILURE,
    }
}
