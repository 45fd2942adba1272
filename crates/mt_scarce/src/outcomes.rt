//! Which calls there are, and the outcome of one.
ghost use Rattle.std.specs.Prelude.{◌≤◌};

use crate::runs::runs;
use mt_calls::{
    answers, asks, closes, deals, enters, explains, finishes, holds, judges, publishes,
    publishes_aside, ranks, reads, registers, splits, works, works_alone,
};
use mt_samples::markets::{CHAIN, CHAIN_TEXT, SampleError, TWO_COUPLES, TWO_COUPLES_TEXT};
use std::alloc::Global;
use std::sync::Wait;
use std::thread::Threads;

/// A call, and with it those that make what it is given.
#[derive(Clone, Copy)]
pub(crate) enum Call {
    Reads,
    Splits,
    Asks,
    Holds,
    Registers,
    Ranks,
    Finishes,
    Deals,
    Closes,
    Works,
    WorksAlone,
    Enters,
    Judges,
    Explains,
    Publishes,
    PublishesAside,
    Answers,
    RunsSingles,
    RunsCouples,
}

pub(crate) const CALLS: [Call; 19] = [
    Call::Reads,
    Call::Splits,
    Call::Asks,
    Call::Holds,
    Call::Registers,
    Call::Ranks,
    Call::Finishes,
    Call::Deals,
    Call::Closes,
    Call::Works,
    Call::WorksAlone,
    Call::Enters,
    Call::Judges,
    Call::Explains,
    Call::Publishes,
    Call::PublishesAside,
    Call::Answers,
    Call::RunsSingles,
    Call::RunsCouples,
];

/// The outcome of a call: its answer is what it should be, or another, or memory was refused.
pub(crate) enum Outcome {
    Right,
    Wrong,
    Refused,
}

/// Makes a call, by this number of workers if it takes any.
pub(crate) fn outcome_of<T: Threads + Wait + Sync>(
    rt: &T,
    alloc: Global,
    call: Call,
    workers: u32,
) -> Outcome
    requires { (1 ≤ workers) × (workers ≤ 64) }
{
    let answer = match call {
        Call::Reads => reads(alloc),
        Call::Splits => splits(alloc),
        Call::Asks => asks(alloc),
        Call::Holds => holds(alloc),
        Call::Registers => registers(rt, alloc),
        Call::Ranks => ranks(rt, alloc),
        Call::Finishes => finishes(rt, alloc),
        Call::Deals => deals(alloc),
        Call::Closes => closes(rt, alloc),
        Call::Works => works(rt, alloc, workers),
        Call::WorksAlone => works_alone(rt, alloc),
        Call::Enters => enters(rt, alloc),
        Call::Judges => judges(rt, alloc),
        Call::Explains => explains(rt, alloc),
        Call::Publishes => publishes(rt, alloc),
        Call::PublishesAside => publishes_aside(rt, alloc),
        Call::Answers => answers(rt, alloc, workers),
        Call::RunsSingles => runs(rt, alloc, CHAIN, CHAIN_TEXT, workers),
        Call::RunsCouples => runs(rt, alloc, TWO_COUPLES, TWO_COUPLES_TEXT, workers),
    };
    match answer {
        Ok(true) => Outcome::Right,
        Ok(false) | Err(SampleError::Fault) => Outcome::Wrong,
        Err(SampleError::Memory) => Outcome::Refused,
    }
}
