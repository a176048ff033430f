//! What holds the memory of the process, so that there is none for others.

use std::alloc::{AllocError, Global};

/// Blocks that nobody uses. Together they have all the memory that can be had.
#[derive(Drop)]
pub(crate) struct MemoryBudget {
    alloc: Global,
    held: Vec<Vec<u8>>,
}

impl MemoryBudget {
    /// Takes all memory but the place of a block of 16 MiB, in which runs are left theirs.
    pub(crate) fn new(alloc: Global) -> Result<MemoryBudget, AllocError> {
        let held = Vec::with_capacity(alloc, 20_000)?;
        let mut budget = MemoryBudget { alloc, held };
        let ground: Vec<u8> = Vec::with_capacity(alloc, 1 << 24)?;
        budget.take_all(46);
        drop(ground);
        Ok(budget)
    }

    /// Leaves this many bytes. Answers how many blocks are held for good.
    pub(crate) fn leave(&mut self, bytes: usize) -> Result<usize, AllocError> {
        let room: Vec<u8> = Vec::with_capacity(self.alloc, bytes)?;
        let for_good = self.held.len();
        self.take_all(26);
        drop(room);
        Ok(for_good)
    }

    /// Gives back all blocks but those that are held for good.
    pub(crate) fn let_go(&mut self, for_good: usize) {
        self.held.truncate(for_good);
    }

    /// Takes blocks of less than two to the power of `largest` bytes each until none is left, larger ones
    /// first.
    fn take_all(&mut self, largest: u32) {
        for power in (4..largest.min(62)).rev() {
            let bytes: usize = 1 << power;
            for _ in self.held.len()..self.held.capacity() {
                match Vec::with_capacity(self.alloc, bytes) {
                    Ok(block) => drop(self.held.push(block)),
                    Err(_) => break,
                }
            }
        }
    }
}

/// Without this test the others would say nothing where memory cannot be held.
#[test]
fn memory_is_refused(rt: HostRuntime) {
    let mut budget = MemoryBudget::new(rt.alloc()).expect(&rt, "a budget");
    let for_good = budget.leave(1 << 16).expect(&rt, "room");
    let small: Result<Vec<u8>, AllocError> = Vec::with_capacity(rt.alloc(), 1 << 10);
    let large: Result<Vec<u8>, AllocError> = Vec::with_capacity(rt.alloc(), 1 << 20);
    budget.let_go(for_good);
    assert!(rt; small.is_ok());
    assert!(rt; large.is_err());
}
