//! A program for tests. It makes each call that may want memory. If memory was refused, it makes the call again, then
//! with ample memory. A test refuses its requests for memory one after another.
#![tactic(auto)]

ghost use Rattle.std.specs.Prelude.{◌≤◌};

mod outcomes;
mod runs;

use outcomes::{CALLS, Outcome, outcome_of};
use std::alloc::Global;
use std::process::ExitCode;
use std::sync::Wait;
use std::thread::Threads;
use std::{env, io};

/// The exit status if an answer was another than it should be.
const WRONG: u8 = 255;

/// How many calls by this number of workers were refused memory. A call that was refused a second time counts twice.
/// The result is none if an answer was another than it should be.
fn refusals<T: Threads + Wait + Sync>(rt: &T, alloc: Global, workers: u32) -> Option<u8>
    requires { (1 ≤ workers) × (workers ≤ 64) }
{
    let mut refused: u8 = 0;
    for call in CALLS {
        for _ in 0..2 {
            match outcome_of(rt, alloc, call, workers) {
                Outcome::Right => break,
                Outcome::Refused => refused = refused.saturating_add(1),
                Outcome::Wrong => return None,
            }
        }
    }
    Some(refused)
}

/// Whether the program has a word.
fn has_word(rt: &HostRuntime) -> io::Result<bool> {
    Ok(env::args(rt)?.nth(1).is_some())
}

// The calls are made by one worker, or by two if the command line has a word. The exit status is the number of
// refusals, or 255 if an answer was wrong.
fn main(rt: HostRuntime) -> ExitCode {
    let Ok(is_pair) = has_word(&rt) else {
        return ExitCode::from(1);
    };
    let workers = if is_pair { 2 } else { 1 };
    ExitCode::from(refusals(&rt, rt.alloc(), workers).unwrap_or(WRONG))
}
