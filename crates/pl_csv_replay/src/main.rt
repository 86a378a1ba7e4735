//! Calls `run` over memory for each case of the files that are named, and compares its answers with the known ones.
#![tactic(auto)]

mod answer;
mod case;
mod device;

use anyhow::{Context, Result};
use case::{Case, Way};
use std::rt::{Env, Files};
use std::sync::Wait;
use std::thread::Threads;
use std::{env, fs};

// How many cases were answered as wanted, and how many were not.
#[derive(Drop)]
struct Tally {
    passed: u64,
    failed: u64,
}

impl Tally {
    fn count(&mut self, passed: bool) {
        if passed {
            self.passed = self.passed.saturating_add(1);
        } else {
            self.failed = self.failed.saturating_add(1);
        }
    }
}

// Replays a case, and prints where the answer is another one.
fn replay<R: Print + AllocGlobal + Threads + Wait + Sync>(rt: &R, case: &Case) -> Result<bool> {
    let got = case.answer(rt, rt.alloc())?;
    let passed = got == case.wanted;
    if !passed {
        let name = case.name;
        println!(rt; "{name}: wanted {}, got {got}", case.wanted)?;
    }
    Ok(passed)
}

// Replays the case of these lines in each of the ways.
fn replay_ways<R: Print + AllocGlobal + Threads + Wait + Sync>(
    rt: &R,
    lines: &str,
    tally: &mut Tally,
) -> Result<()> {
    for way in Way::ALL {
        let mut case = Case::from_lines(rt.alloc(), lines)?;
        if case.takes(way) {
            case.add(rt.alloc(), way)?;
            tally.count(replay(rt, &case)?);
        }
    }
    Ok(())
}

// Replays the cases of a file: an empty line stands behind each.
fn replay_file<R: Files + Print + AllocGlobal + Threads + Wait + Sync>(
    rt: &R,
    path: &str,
    tally: &mut Tally,
) -> Result<()> {
    let text = fs::read_to_string(rt, path)?;
    for lines in text.split("\n\n") {
        if !lines.is_empty() {
            replay_ways(rt, lines, tally)?;
        }
    }
    Ok(())
}

fn main(rt: HostRuntime) -> Result<()> {
    let mut tally = Tally {
        passed: 0,
        failed: 0,
    };
    for path in env::args(&rt)?.skip(1) {
        replay_file(&rt, &path, &mut tally).context(format_args!("in {path}"))?;
    }
    println!(rt; "{} passed, {} failed", tally.passed, tally.failed)?;
    Ok(())
}
