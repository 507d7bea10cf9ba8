// Tries isolation on the engine's code. In each trial one worker is played in two stores of different kinds, at different lower limits and
// amid different other calls, and has to answer the same in both; and in each control other words are found in the second store, which has to show. It writes what it counted, and some
// figures of how workers find room.
#![tactic(auto)]

mod buffers;
mod cells;
mod comparing;
mod controls;
mod counts;
mod histories;
mod kinds;
mod layout;
mod memory;
mod others;
mod placement;
mod playing;
mod programs;
mod random;
mod requests;
mod trial;

use controls::Controls;
use counts::Counts;
use placement::{FIGURES, Written};
use random::Random;
use std::io;
use std::process::ExitCode;
use trial::{control, trial};

const SEED: u64 = 494;

const TRIALS: u32 = 20_000;

const CONTROLS: u32 = 100;

// Writes the figures, and says whether all are as they should be.
fn place(rt: &HostRuntime) -> io::Result<bool> {
    let mut is_right = true;
    for figure in FIGURES {
        let answer = figure.answer(rt.alloc())?;
        println!(rt; "{figure}: {}", Written(answer))?;
        is_right = is_right && figure.is_answered_by(answer);
    }
    Ok(is_right)
}

// Plays the trials, and writes the first difference.
fn play_trials(rt: &HostRuntime, random: &mut Random) -> io::Result<Counts> {
    let mut counts = Counts::NONE;
    for number in 0..TRIALS {
        let before = counts.differences;
        if let Some(difference) = trial(rt.alloc(), random, &mut counts)? {
            if before == 0 {
                println!(rt; "first difference, in trial {number}: {difference}")?;
            }
        }
    }
    Ok(counts)
}

// Plays the controls.
fn play_controls(rt: &HostRuntime, random: &mut Random) -> io::Result<Controls> {
    let mut controls = Controls::NONE;
    for _ in 0..CONTROLS {
        control(rt.alloc(), random, &mut controls)?;
    }
    Ok(controls)
}

// Does all of it, and says whether it came out as it should.
fn run(rt: &HostRuntime) -> io::Result<bool> {
    println!(rt; "seed: {SEED}")?;
    let is_right = place(rt)?;
    let mut random = Random::seeded(SEED);
    let counts = play_trials(rt, &mut random)?;
    counts.print(rt)?;
    let controls = play_controls(rt, &mut random)?;
    controls.print(rt)?;
    Ok(is_right && counts.differences == 0 && counts.is_complete() && controls.are_complete())
}

fn main(rt: HostRuntime) -> ExitCode {
    match run(&rt) {
        Ok(true) => ExitCode::SUCCESS,
        Ok(false) => ExitCode::FAILURE,
        Err(error) => {
            let _ = eprintln!(rt; "{error}");
            ExitCode::FAILURE
        }
    }
}
