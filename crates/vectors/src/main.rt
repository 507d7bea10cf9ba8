// Answers questions of arithmetic: each line of standard input is written to standard output with its answer. The gate compares
// what it writes with vectors that another program worked out bit by bit.
#![tactic(auto)]

mod answer;
mod arguments;
mod question;

use anyhow::bail;
use question::answer;
use std::io;
use std::process::ExitCode;

// Answers each line, up to one that is no question.
fn run(rt: &HostRuntime) -> anyhow::Result<()> {
    let text = io::read_to_string(rt.alloc(), rt.stdin())?;
    for line in text.as_str().lines() {
        match answer(line) {
            Some(answer) => println!(rt; "{line} -> {answer}")?,
            None => bail!("no question: {line}"),
        }
    }
    Ok(())
}

fn main(rt: HostRuntime) -> ExitCode {
    match run(&rt) {
        Ok(()) => ExitCode::SUCCESS,
        Err(error) => {
            let _ = eprintln!(rt; "{error}");
            ExitCode::FAILURE
        }
    }
}
