//! Runs that are left a little more memory each time.

use crate::refusals::memory_budget::MemoryBudget;
use std::alloc::{AllocError, Global};
use std::fmt::Debug;
use std::process::Abort;

/// A call whose requests for memory are refused in turn.
pub(crate) trait AllocatingCall {
    /// Makes the call, and tells its answer as a text.
    fn answer(&mut self, alloc: Global) -> Result<String, Refusal>;
}

/// How a call was refused.
#[derive(Clone, Copy, Debug)]
pub(crate) enum Refusal {
    /// For want of memory.
    Memory,
    /// For another cause.
    Other,
}

/// How often a run is made. None here needs as many.
const TURNS: usize = 100_000;

/// How many bytes more each run is left: what the heap's blocks are multiples of.
const STEP: usize = 16;

/// Leaves a run no memory at first, and each time a little more, until it is not refused. Each run before is
/// refused for want of memory, and the last one answers what is wanted.
pub(crate) fn refuse_in_turn<W: AllocatingCall>(
    rt: &impl Abort,
    alloc: Global,
    run: &mut W,
    wanted: &str,
) {
    let mut budget = MemoryBudget::new(alloc).expect(rt, "a budget");
    for turn in 0..TURNS {
        let for_good = budget.leave(turn.saturating_mul(STEP)).expect(rt, "room");
        let answer = run.answer(alloc);
        budget.let_go(for_good);
        match answer {
            Ok(text) => {
                assert_eq!(rt; text.as_str(), wanted);
                return;
            }
            Err(Refusal::Memory) => {}
            Err(Refusal::Other) => assert!(rt; false, "refused for another cause"),
        }
    }
    assert!(rt; false, "refused to the end");
}

impl From<AllocError> for Refusal {
    fn from(_: AllocError) -> Refusal {
        Refusal::Memory
    }
}

/// What a call answers, or how it was refused, where `memory` is the error that says want of memory.
pub(crate) fn answered<T, E: Drop + PartialEq>(
    answer: Result<T, E>,
    memory: E,
) -> Result<T, Refusal> {
    match answer {
        Ok(value) => Ok(value),
        Err(error) if error == memory => Err(Refusal::Memory),
        Err(_) => Err(Refusal::Other),
    }
}

/// As `answered`, of what the call answers as `Debug` prints it.
pub(crate) fn told<T: Debug + Drop, E: Drop + PartialEq>(
    alloc: Global,
    answer: Result<T, E>,
    memory: E,
) -> Result<String, Refusal> {
    let value = answered(answer, memory)?;
    Ok(format!(in alloc; "{value:?}")?)
}
