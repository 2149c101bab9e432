//! Plays a transcript of calls on a disk that can lose power, and prints each answer.
#![tactic(auto)]

mod answer;
mod command;
mod script;
mod session;
mod words;

use script::Script;
use std::io::BufReader;
use std::process::ExitCode;

fn main(rt: HostRuntime) -> anyhow::Result<ExitCode> {
    match run(&rt) {
        Ok(()) => Ok(ExitCode::SUCCESS),
        Err(e) => {
            eprintln!(rt; "cirgando: {e}")?;
            Ok(ExitCode::FAILURE)
        }
    }
}

// Plays the transcript on standard input.
fn run(rt: &HostRuntime) -> anyhow::Result<()> {
    let mut script = Script::new(BufReader::new(rt.alloc(), rt.stdin())?, rt.alloc());
    session::play(rt, &mut script)
}
