// Plays the cases of the definition on the code of the processor and of installations: each line of standard input is written to standard output with its
// results, and behind all lines over which stores they were played. The gate compares what it writes with what simulators and people worked out.
#![tactic(auto)]

mod answers;
mod calls;
mod case;
mod cell;
mod hexadecimal;
mod history;
mod kinds;
mod memory;
mod numbers;
mod outcome;
mod playing;
mod plays;
mod problem;
mod registers;
mod surroundings;

use anyhow::bail;
use history::{is_history, play_history};
use playing::play_line;
use plays::Plays;
use problem::Problem;
use std::alloc::Global;
use std::io;
use std::process::ExitCode;

// A line with what it gives, a history's or a step's or a run's.
fn played(heap: Global, plays: &mut Plays, line: &str) -> Result<String, Problem> {
    Ok(if is_history(line) {
        let played = play_history(heap, plays, line)?;
        format!(in heap; "{line} | {played}")?
    } else {
        let played = play_line(heap, plays, line)?;
        format!(in heap; "{line} | {played}")?
    })
}

// Plays each line, up to one that cannot be played, and tells over which stores if there is none.
fn run(rt: &HostRuntime) -> anyhow::Result<()> {
    let text = io::read_to_string(rt.alloc(), rt.stdin())?;
    let mut plays = Plays::NONE;
    for line in text.as_str().lines() {
        match played(rt.alloc(), &mut plays, line) {
            Ok(played) => println!(rt; "{played}")?,
            Err(problem) => bail!("{problem}: {line}"),
        }
    }
    plays.print(rt)?;
    Ok(())
}

fn main(rt: HostRuntime) -> ExitCode {
    match run(&rt) {
        Ok(()) => ExitCode::SUCCESS,
        Err(error) => {
            let _ = eprintln!(rt; "{error}");
            ExitCode::FAILURE
        }
    }
}
