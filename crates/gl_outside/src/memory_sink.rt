ghost use Rattle.std.specs.Prelude.{◌≡◌, ◌≢◌, ◌+◌, ◌-◌, ◌<◌, ◌≤◌, ◌↔◌, ℕ, [], Some, length, IfOk};
ghost use Rattle.std.specs.Io.KnownBytes.{Appends};
ghost use Rattle.gl_outside.specs.Faults.{Rose, GoesOn};
ghost use Rattle.gl_outside.specs.Sink.{AppendsPrefix};
ghost use Rattle.gl_outside.specs.MemorySink.{after_give};

use crate::sink::{Given, Sink};
use std::alloc::{AllocError, Global};
use std::marker::Model;

/// A sink that keeps what it takes, up to a number of bytes. It tells its bytes.
#[derive(Drop)]
pub struct MemorySink {
    bytes: Vec<u8>,
    room: usize,
    faults: u64,
}

impl Model for MemorySink {
    ghost use Rattle.std.specs.Prelude.{◌≤◌, vec_len, vec_capacity};
    ghost use Rattle.gl_outside.specs.MemorySink.{SinkState};

    ghost Value = { SinkState };

    ghost view = { λ s. record { bytes = s.bytes.items; room = s.room; faults = s.faults } };

    ghost invariant = { λ s. (vec_len s.bytes ≤ s.room) × (s.room ≤ vec_capacity s.bytes) };
}

impl MemorySink {
    /// Takes `room` bytes in its life, and all the memory for them at once.
    pub fn new(alloc: Global, room: usize) -> Result<MemorySink, AllocError>
        ensures { IfOk result (λ s. s ≡ record { bytes = []; room = room; faults = 0 }) }
    {
        Ok(MemorySink {
            bytes: Vec::with_capacity(alloc, room)?,
            room,
            faults: 0,
        })
    }

    /// The bytes that it took, in order.
    pub fn bytes(&self) -> &[u8]
        ensures { result.now ≡ self.now.bytes }
    {
        self.bytes.as_slice()
    }
}

impl Sink for MemorySink {
    ghost contents = { λ s. Some s.bytes };

    ghost faults = { λ s. s.faults };

    ghost has_room = { λ s n. length s.bytes + n ≤ s.room };

    /// A piece that passes the room is taken up to it, and that is a fault. The count of faults
    /// stops at the highest number of 64 bits.
    fn give(&mut self, piece: &[u8]) -> Given

        // What every sink promises.
        ensures all { result ≡ Given.All
            → Appends (Some self.old.bytes) (Some self.new.bytes) piece.now }
        ensures part { AppendsPrefix (Some self.old.bytes) (Some self.new.bytes) piece.now }
        ensures cause { result ≡ Given.Failed → Rose self.old.faults self.new.faults }
        ensures nothing { self.new.bytes ≡ self.old.bytes → piece.now ≢ []
            → Rose self.old.faults self.new.faults }
        ensures count { GoesOn self.old.faults self.new.faults }
        ensures room { (n : ℕ) → length piece.now ≤ n → length self.old.bytes + n ≤ self.old.room
            → (length self.new.bytes + (n - length piece.now) ≤ self.new.room)
            × (self.new.faults ≡ self.old.faults) }

        // What this one promises besides.
        ensures failed { (result ≡ Given.Failed)
            ↔ (self.old.room < length self.old.bytes + length piece.now) }
        ensures after { self.new ≡ after_give self.old piece.now result }
    {
        let free = self.room - self.bytes.len();
        let taken = &piece[..piece.len().min(free)];
        self.bytes.extend_from_slice(taken).unwrap();
        if taken.len() == piece.len() {
            return Given::All;
        }
        self.faults = self.faults.saturating_add(1);
        Given::Failed
    }
}
