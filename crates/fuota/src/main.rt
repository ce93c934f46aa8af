//! The program `fuota`: it gives its words, the system's files and the standard output to the run of a campaign, and ends with
//! the status of that run. What a run does is the contract of `fuota_run::run`; nothing else is here. Words that are no text
//! are wrong words; where there is no memory for them, the status says so.
#![tactic(auto)]

use fuota_run::{Status, StdFiles, StdSink, run};
use std::env;
use std::io::ErrorKind;
use std::process::ExitCode;

fn main(rt: HostRuntime) -> ExitCode {
    ExitCode::from(status(&rt).code())
}

/// The status of a run over the words that the program was given.
fn status(rt: &HostRuntime) -> Status {
    match words(rt) {
        Ok(words) => status_of(rt, &words),
        Err(error) if error.kind() == ErrorKind::OutOfMemory => Status::Memory,
        Err(_) => status_of(rt, &[]),
    }
}

/// The status of a run over words.
fn status_of(rt: &HostRuntime, words: &[String]) -> Status {
    let mut files = StdFiles::new(rt);
    let mut out = StdSink::new(rt);
    run(rt.alloc(), words, &mut files, &mut out)
}

/// The words, the program's name first.
fn words(rt: &HostRuntime) -> std::io::Result<Vec<String>> {
    Ok(env::args(rt)?.collect(rt.alloc())?)
}
