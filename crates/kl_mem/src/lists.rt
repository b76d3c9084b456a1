// A source of blocks from a list, and a sink that keeps what it takes: both in memory, for tests.
ghost use Rattle.std.specs.Prelude.{◌≡◌, ◌≤◌, ◌↔◌, [], is_err, if◌then◌else◌, Some, None, IsErr};
ghost use Rattle.kl_store.specs.Counts.{raised};
ghost use Rattle.kl_store.specs.Calls.{HasCause};
ghost use Rattle.kl_store.specs.Outside.{Fills, Writes};

use kl_store::{Entropy, Failed, Sink};
use std::alloc::Global;

/// A source that gives the blocks of a list in order, and fails once none is left.
#[derive(Drop)]
pub struct ListEntropy {
    blocks: Vec<[u8; 32]>,
    next: usize,
    faults: u64,
}

impl ListEntropy {
    ghost use Rattle.kl_mem.specs.Lists.{blocks_left, blocks_failed};

    /// A source of these blocks, the first of them first.
    pub fn new(blocks: Vec<[u8; 32]>) -> Self
        ensures blocks { blocks_left result ≡ blocks.items }
        ensures faults { blocks_failed result ≡ 0 }
    {
        ListEntropy {
            blocks,
            next: 0,
            faults: 0,
        }
    }
}

impl Entropy for ListEntropy {
    ghost use Rattle.kl_mem.specs.Lists.{blocks_left, blocks_told};

    ghost meaning = { blocks_told };

    ghost faults = { λ s. s.faults };

    fn fill(&mut self, out: &mut [u8; 32]) -> Result<(), Failed>
        ensures fills { Fills (blocks_told self.old) (blocks_told self.new) out.new result }
        ensures cause { HasCause self.old.faults self.new.faults result }
        ensures fails { IsErr result ↔ (blocks_left self.old ≡ []) }
        ensures faults { self.new.faults ≡ (if is_err result then raised self.old.faults else self.old.faults) }
    {
        if self.next >= self.blocks.len() {
            self.faults = self.faults.saturating_add(1);
            return Err(Failed);
        }
        *out = self.blocks[self.next];
        self.next += 1;
        Ok(())
    }
}

/// A sink that keeps the bytes that it takes. Its calls of `Sink` are counted from 0, up to 2^64 - 1.
/// They fail where `fail_from` says so, or where they find no memory, and take no byte then.
#[derive(Drop)]
pub struct VecSink {
    bytes: Vec<u8>,
    fails_from: Option<u64>,
    calls: u64,
    faults: u64,
    starved: u64,
}

impl VecSink {
    ghost use Rattle.kl_mem.specs.Lists.{kept, is_to_fail};

    /// A sink that has taken nothing, with no failure planned.
    pub fn new(alloc: Global) -> Self
        ensures { kept result ≡ record { bytes = []; fails_from = None; calls = 0; faults = 0; starved = 0 } }
    {
        VecSink {
            bytes: Vec::new(alloc),
            fails_from: None,
            calls: 0,
            faults: 0,
            starved: 0,
        }
    }

    /// The bytes that it has taken.
    pub fn bytes(&self) -> &[u8]
        ensures { result.now ≡ (kept self.now).bytes }
    {
        &self.bytes
    }

    /// Makes the calls from that number on fail, counted from 0.
    pub fn fail_from(&mut self, call: u64)
        ensures { kept self.new ≡ record (kept self.old) { fails_from = Some call } }
    {
        self.fails_from = Some(call);
    }

    /// How many calls have failed for want of memory, up to 2^64 - 1.
    pub fn starved(&self) -> u64
        ensures { result ≡ (kept self.now).starved }
    {
        self.starved
    }

    // Counts a call, and says whether it is to fail.
    fn next_call(&mut self) -> bool
        ensures due { result ≡ is_to_fail self.old.fails_from self.old.calls }
        ensures counted { self.new ≡ record self.old { calls = raised self.old.calls } }
    {
        let due = match self.fails_from {
            Some(first) => first <= self.calls,
            None => false,
        };
        self.calls = self.calls.saturating_add(1);
        due
    }

    // Counts a failure.
    fn fail(&mut self) -> Failed
        ensures faults { self.new ≡ record self.old { faults = raised self.old.faults } }
        ensures later { self.old.faults ≤ self.new.faults }
    {
        self.faults = self.faults.saturating_add(1);
        Failed
    }
}

impl Sink for VecSink {
    ghost use Rattle.kl_mem.specs.Lists.{kept, taken_told, WriteEnds};

    ghost meaning = { taken_told };

    ghost faults = { λ s. s.faults };

    fn write(&mut self, bytes: &[u8]) -> Result<(), Failed>
        ensures writes { Writes bytes.now (taken_told self.old) (taken_told self.new) result }
        ensures cause { HasCause self.old.faults self.new.faults result }
        ensures ends { WriteEnds (kept self.old) (kept self.new) result }
    {
        if self.next_call() {
            return Err(self.fail());
        }
        match self.bytes.extend_from_slice(bytes) {
            Ok(()) => Ok(()),
            Err(_) => {
                self.starved = self.starved.saturating_add(1);
                Err(self.fail())
            }
        }
    }
}
