//! A sink in memory.
ghost use Rattle.std.specs.Prelude.{◌≡◌, ◌≤◌, ◌+◌, [], Some, IfOk, IsErr, IsOk, length, max, min, option_map, vec_len};
ghost use Rattle.std.specs.Prelude.{vec_capacity};
ghost use Rattle.std.specs.List.{All};
ghost use Rattle.fz_shelf.specs.{Calls.IsListed, Calls.one_more, Faults.HasCause, Faults.faults_after};
ghost use Rattle.fz_shelf.specs.Told.{after_put, HasRoom, IsPart, IsWithinRoom};

use crate::mem_shelf::is_listed;
use crate::{Failed, Sink};
use fz_list::{List, Memory};
use std::alloc::Global;

/// A sink in memory with limited room. Puts are numbered from 1. A put fails if its number is
/// listed, or if its piece is longer than the room left. The number of bytes that one put takes
/// is limited too.
#[derive(Drop)]
pub struct MemSink {
    bytes: Vec<u8>,
    room: u64,
    most: u64,
    puts: u32,
    failing: List<u32>,
    faults: u64,
    ghost reserved: { vec_len bytes + room ≤ vec_capacity bytes },
}

impl MemSink {
    ghost use Rattle.fz_shelf.specs.Fakes.{failing_puts_of, most_of, puts_of, sink_told};

    /// A sink that has taken nothing yet. One put takes at most `most` bytes, or 1 if `most`
    /// is 0.
    pub fn new(
        alloc: Global,
        room: u64,
        failing_puts: List<u32>,
        most: u64,
    ) -> Result<MemSink, Memory>
        ensures told { IfOk result (λ s. sink_told s
            ≡ record { taken = Some (record { bytes = []; room = room }); faults = 0 }) }
        ensures numbers { IfOk result (λ s. puts_of s ≡ 0) }
        ensures failing { IfOk result (λ s. failing_puts_of s ≡ failing_puts) }
        ensures most { IfOk result (λ s. most_of s ≡ most) }
        ensures reliable { All (λ n. n ≤ 0) failing_puts → IfOk result (λ s. ⟦<MemSink as Sink>⟧.reliable s) }
    {
        let bytes = match Vec::with_capacity(alloc, room as usize) {
            Ok(bytes) => bytes,
            Err(_) => return Err(Memory),
        };
        Ok(MemSink {
            bytes,
            room,
            most,
            puts: 0,
            failing: failing_puts,
            faults: 0,
        })
    }

    /// The bytes taken so far.
    pub fn bytes(&self) -> &[u8]
        ensures { Some result.now ≡ option_map (λ t. t.bytes) (sink_told self.now).taken }
    {
        &self.bytes
    }
}

impl Sink for MemSink {
    ghost use Rattle.fz_shelf.specs.Fakes.{failing_puts_of, most_of, puts_of, sink_told};

    ghost told = { sink_told };

    ghost reliable = { λ s. All (λ n. n ≤ s.puts) s.failing };

    /// Fails if the put is listed, or if the piece is longer than the room left.
    fn put(&mut self, bytes: &[u8]) -> Result<usize, Failed>
        ensures part { IfOk result (λ n. IsPart n (length bytes.now)) }
        ensures fits { IfOk result (IsWithinRoom (sink_told self.old).taken) }
        ensures told { (sink_told self.new).taken ≡ after_put (sink_told self.old).taken bytes.now result }
        ensures cause { HasCause (sink_told self.old).faults (sink_told self.new).faults result }
        ensures reliable { ⟦<MemSink as Sink>⟧.reliable self.old → ⟦<MemSink as Sink>⟧.reliable self.new }
        ensures steady { ⟦<MemSink as Sink>⟧.reliable self.old
            → HasRoom (sink_told self.old).taken (length bytes.now) → IsOk result }

        ensures counted { (sink_told self.new).faults ≡ faults_after (sink_told self.old).faults result }
        ensures listed { IsListed (failing_puts_of self.old) (puts_of self.old) → IsErr result }
        ensures over { IfOk result (λ n. IsWithinRoom (sink_told self.old).taken (length bytes.now)) }
        ensures unlisted { (IsListed (failing_puts_of self.old) (puts_of self.old) → ⊥)
            → HasRoom (sink_told self.old).taken (length bytes.now) → IsOk result }
        ensures most { IfOk result (λ n. n ≡ min (length bytes.now) (max (most_of self.old) 1)) }
        ensures numbered { puts_of self.new ≡ one_more (puts_of self.old) }
        ensures orders { (failing_puts_of self.new ≡ failing_puts_of self.old) × (most_of self.new ≡ most_of self.old) }
    {
        let is_listed = is_listed(self.failing.as_slice(), self.puts);
        self.puts = self.puts.saturating_add(1);
        if is_listed || bytes.len() as u64 > self.room {
            self.faults = self.faults.saturating_add(1);
            return Err(Failed);
        }
        let count = bytes.len().min(self.most.max(1) as usize);
        self.bytes.extend_from_slice(&bytes[..count]).unwrap();
        self.room -= count as u64;
        Ok(count)
    }
}
