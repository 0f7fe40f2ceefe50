ghost use Rattle.std.specs.Prelude.{◌≡◌, ◌<◌, ◌↔◌, [], Some, length, Contains};
ghost use Rattle.std.specs.Io.KnownBytes.{Consumes};
ghost use Rattle.gl_outside.specs.Faults.{Rose, GoesOn};
ghost use Rattle.gl_outside.specs.Source.{taken_bytes, FitsRoom, EndsExactly};
ghost use Rattle.gl_outside.specs.MemorySource.{after_take, GivesMost};

use crate::calls::Calls;
use crate::source::{Source, Taken};
use gl_value::Bytes;
use std::marker::Model;

/// A source that gives bytes from memory, and fails where it is told to. It tells its bytes.
#[derive(Drop)]
pub struct MemorySource {
    bytes: Bytes,
    at: usize,
    step: usize,
    failing: Calls,
    calls: u64,
    faults: u64,
}

impl Model for MemorySource {
    ghost use Rattle.std.specs.Prelude.{◌<◌, ◌≤◌, length, drop};
    ghost use Rattle.gl_outside.specs.MemorySource.{SourceState};

    ghost Value = { SourceState };

    ghost view = { λ s. record {
      left = drop s.at s.bytes;
      step = s.step;
      failing = s.failing;
      calls = s.calls;
      faults = s.faults;
    } };

    ghost invariant = { λ s. (s.at ≤ length s.bytes) × (0 < s.step) };
}

impl MemorySource {
    /// Gives these bytes, at most `step` of them in a call, and fails at the calls with the given
    /// numbers, counted from 0, also where no byte is left. This takes no memory.
    pub fn new(bytes: Bytes, step: usize, failing: Calls) -> MemorySource
        requires { 0 < step }
        ensures { result ≡ record {
          left = bytes;
          step = step;
          failing = failing;
          calls = 0;
          faults = 0;
        } }
    {
        MemorySource {
            bytes,
            at: 0,
            step,
            failing,
            calls: 0,
            faults: 0,
        }
    }
}

impl Source for MemorySource {
    ghost remaining = { λ s. Some s.left };

    ghost faults = { λ s. s.faults };

    ghost never_fails = { λ s. s.failing ≡ [] };

    /// Gives as many bytes as `step`, the room and what is left allow. Counts of calls and faults
    /// stop at the highest number of 64 bits.
    fn take(&mut self, room: &mut [u8]) -> Taken
        requires { 0 < length room.old }

        // What every source promises.
        ensures fits { FitsRoom result room.new }
        ensures bytes { Consumes (Some self.old.left) (Some self.new.left)
            (taken_bytes result room.new) }
        ensures end { EndsExactly result self.old.left }
        ensures cause { result ≡ Taken.Failed → Rose self.old.faults self.new.faults }
        ensures count { GoesOn self.old.faults self.new.faults }
        ensures sound { self.old.failing ≡ []
            → (self.new.failing ≡ []) × (self.new.faults ≡ self.old.faults) }

        // What this one promises besides.
        ensures failed { (result ≡ Taken.Failed) ↔ Contains self.old.failing self.old.calls }
        ensures most { GivesMost self.old (length room.old) result }
        ensures after { self.new ≡ after_take self.old result }
    {
        let call = self.calls;
        self.calls = call.saturating_add(1);
        if self.failing.contains(call) {
            self.faults = self.faults.saturating_add(1);
            return Taken::Failed;
        }
        let left = &self.bytes.as_slice()[self.at..];
        if left.is_empty() {
            return Taken::End;
        }
        let count = self.step.min(room.len().min(left.len()));
        room[..count].copy_from_slice(&left[..count]);
        self.at += count;
        Taken::Some(count)
    }
}
