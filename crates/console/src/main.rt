// The console: scripts in, transcripts out. What a script comes to is `script::play`.
#![tactic(auto)]

use script::play;
use std::io::{Read, Write};
use std::process::ExitCode;
use std::{env, fs};

// Writes a script's transcript; what stops the script is the error.
fn show(rt: &HostRuntime, script: &[u8]) -> anyhow::Result<()> {
    let played = play(rt.alloc(), script)?;
    rt.stdout().write_all(played.transcript.as_slice())?;
    match played.problem {
        Some(problem) => Err(problem.into()),
        None => Ok(()),
    }
}

// Plays each file that is named, or standard input where none is.
fn run(rt: &HostRuntime) -> anyhow::Result<()> {
    let mut paths = env::args(rt)?.skip(1).peekable();
    if paths.peek().is_none() {
        let mut script = Vec::new(rt.alloc());
        rt.stdin().read_to_end(&mut script)?;
        show(rt, script.as_slice())?;
    }
    for path in paths {
        println!(rt; "# {path}")?;
        show(rt, fs::read(rt, path.as_str())?.as_slice())?;
    }
    Ok(())
}

fn main(rt: HostRuntime) -> ExitCode {
    match run(&rt) {
        Ok(()) => ExitCode::SUCCESS,
        Err(error) => {
            let _ = eprintln!(rt; "{error}");
            ExitCode::FAILURE
        }
    }
}

#[cfg(test)]
mod tests;
