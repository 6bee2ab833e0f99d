//! A source and a sink in memory, which fail at the calls that their maker names: for tests, and
//! for whoever has the bytes at hand.
ghost use Rattle.std.specs.Prelude.{◌≡◌, ◌<◌, ◌≤◌, ◌-◌, ◌↔◌, ◌⊎◌, if◌then◌else◌, ℕ, List, Some, [], length, min, is_err, IfOk, IsErr, Contains};
ghost use Rattle.bale_types.specs.Stream.{taken_with, before, moved_bytes, CountsFaults, MovesSome};
ghost use Rattle.bale_items.specs.Counters.{next_count};

use super::fault::Failed;
use super::stream::{Sink, Source};
use bale_items::NoMemory;
use std::alloc::Global;
use std::marker::Model;

/// Gives the bytes of a text, some at a call, and fails at the calls named.
#[derive(Drop)]
pub struct MemSource {
    /// The whole text.
    text: Vec<u8>,
    /// How many bytes of it were given.
    at: usize,
    /// The most that one call gives.
    most: usize,
    /// The numbers of the calls that fail; the first call has number 1.
    fails: Vec<u64>,
    /// How many calls were made; saturates at its end.
    calls: u64,
    /// How many of them failed; saturates at its end.
    faults: u64,
}

impl Model for MemSource {
    ghost use Rattle.std.specs.Prelude.{◌<◌, ◌≤◌, drop, vec_len};
    ghost use Rattle.bale_types.specs.Memory.{Feed};

    ghost Value = { Feed };

    ghost view = { λ s. record {
      left = drop s.at s.text.items;
      most = s.most;
      fails = s.fails.items;
      calls = s.calls;
      faults = s.faults;
    } };

    ghost invariant = { λ s. (s.at ≤ vec_len s.text) × (0 < s.most) };
}

impl MemSource {
    /// A source over a copy of `text`. A call gives as many bytes as `most`, its buffer and what is
    /// left allow; exactly the calls whose numbers, from 1, are in `fails` fail.
    ///
    /// # Errors
    ///
    /// `NoMemory` if there was none for the copies.
    pub fn new(
        alloc: Global,
        text: &[u8],
        most: usize,
        fails: &[u64],
    ) -> Result<MemSource, NoMemory>
        requires { 0 < most }
        ensures { IfOk result (λ s. s ≡ record {
          left = text.now;
          most = most;
          fails = fails.now;
          calls = 0;
          faults = 0;
        }) }
    {
        let text = Vec::from_slice(alloc, text)?;
        let fails = Vec::from_slice(alloc, fails)?;
        Ok(MemSource {
            text,
            at: 0,
            most,
            fails,
            calls: 0,
            faults: 0,
        })
    }
}

impl Source for MemSource {
    ghost left = { λ s. Some s.left };

    ghost faults = { λ s. s.faults };

    fn read(&mut self, buf: &mut [u8]) -> Result<usize, Failed>
        requires { 0 < length buf.old }
        ensures bound { IfOk result (λ count. count ≤ length buf.new) }
        ensures bytes { Some self.old.left ≡ before (moved_bytes result buf.new) (Some self.new.left) }
        ensures only_at_end { (text : List ℕ) → result ≡ Ok 0 → Some self.old.left ≡ Some text → text ≡ [] }
        ensures at_end { Some self.old.left ≡ Some [] → IfOk result (λ count. count ≡ 0) }
        ensures counts { CountsFaults self.old.faults self.new.faults result }
        ensures calls { self.new.calls ≡ next_count self.old.calls }
        ensures fails { IsErr result ↔ Contains self.old.fails self.new.calls }
        ensures count { IfOk result (λ count.
            count ≡ min (min self.old.most (length buf.old)) (length self.old.left)) }
        ensures faults { self.new.faults ≡
            (if is_err result then next_count self.old.faults else self.old.faults) }
        ensures same_most { self.new.most ≡ self.old.most }
        ensures same_fails { self.new.fails ≡ self.old.fails }
    {
        self.calls = self.calls.saturating_add(1);
        if self.fails.contains(&self.calls) {
            self.faults = self.faults.saturating_add(1);
            return Err(Failed);
        }
        let rest = &self.text[self.at..];
        let count = self.most.min(buf.len()).min(rest.len());
        buf[..count].copy_from_slice(&rest[..count]);
        self.at += count;
        Ok(count)
    }
}

/// Takes bytes, some at a call, up to the room that it has, and fails at the calls named.
#[derive(Drop)]
pub struct MemSink {
    /// The room, of which the first `len` bytes are taken.
    bytes: Vec<u8>,
    /// How many bytes were taken.
    len: usize,
    /// The most that one call takes.
    most: usize,
    /// The numbers of the calls that fail; the first call has number 1.
    fails: Vec<u64>,
    /// How many calls were made; saturates at its end.
    calls: u64,
    /// How many of them failed; saturates at its end.
    faults: u64,
}

impl Model for MemSink {
    ghost use Rattle.std.specs.Prelude.{◌<◌, ◌≤◌, take, vec_len};
    ghost use Rattle.bale_types.specs.Memory.{Store};

    ghost Value = { Store };

    ghost view = { λ s. record {
      taken = take s.len s.bytes.items;
      room = vec_len s.bytes;
      most = s.most;
      fails = s.fails.items;
      calls = s.calls;
      faults = s.faults;
    } };

    ghost invariant = { λ s. (s.len ≤ vec_len s.bytes) × (0 < s.most) };
}

impl MemSink {
    /// An empty sink with `room` bytes taken beforehand. A call takes as many bytes as `most`, the
    /// piece and the room that is left allow; exactly the calls whose numbers, from 1, are in
    /// `fails`, and those that come when `room` bytes are held, fail.
    ///
    /// # Errors
    ///
    /// `NoMemory` if there was none for the room.
    pub fn new(alloc: Global, room: usize, most: usize, fails: &[u64]) -> Result<MemSink, NoMemory>
        requires { 0 < most }
        ensures { IfOk result (λ s. s ≡ record {
          taken = [];
          room = room;
          most = most;
          fails = fails.now;
          calls = 0;
          faults = 0;
        }) }
    {
        let bytes = vec![in alloc; 0u8; room]?;
        let fails = Vec::from_slice(alloc, fails)?;
        Ok(MemSink {
            bytes,
            len: 0,
            most,
            fails,
            calls: 0,
            faults: 0,
        })
    }

    /// The bytes taken so far.
    pub fn taken(&self) -> &[u8]
        ensures { result.now ≡ self.now.taken }
    {
        &self.bytes[..self.len]
    }
}

impl Sink for MemSink {
    ghost taken = { λ s. Some s.taken };

    ghost faults = { λ s. s.faults };

    fn write(&mut self, piece: &[u8]) -> Result<usize, Failed>
        requires { 0 < length piece.now }
        ensures some { MovesSome (length piece.now) result }
        ensures bytes { Some self.new.taken ≡ taken_with (Some self.old.taken) (moved_bytes result piece.now) }
        ensures counts { CountsFaults self.old.faults self.new.faults result }
        ensures calls { self.new.calls ≡ next_count self.old.calls }
        ensures fails { IsErr result ↔
            (Contains self.old.fails self.new.calls ⊎ (length self.old.taken ≡ self.old.room)) }
        ensures count { IfOk result (λ count. count ≡
            min (min self.old.most (length piece.now)) (self.old.room - length self.old.taken)) }
        ensures faults { self.new.faults ≡
            (if is_err result then next_count self.old.faults else self.old.faults) }
        ensures same_room { self.new.room ≡ self.old.room }
        ensures same_most { self.new.most ≡ self.old.most }
        ensures same_fails { self.new.fails ≡ self.old.fails }
    {
        self.calls = self.calls.saturating_add(1);
        let room = self.bytes.len() - self.len;
        if room == 0 || self.fails.contains(&self.calls) {
            self.faults = self.faults.saturating_add(1);
            return Err(Failed);
        }
        let count = self.most.min(piece.len()).min(room);
        let end = self.len + count;
        self.bytes[self.len..end].copy_from_slice(&piece[..count]);
        self.len = end;
        Ok(count)
    }
}
