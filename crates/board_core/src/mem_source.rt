//! A source over bytes in memory.
ghost use Rattle.std.specs.Prelude.{◌≡◌, ℕ, ◌+◌, ◌<◌, ◌≤◌, ◌↔◌, [], drop, length, min, Some, IfOk, IsErr, OnErr, IsTrue};
ghost use Rattle.board_core.specs.Cause.{HasCause, Rose};
ghost use Rattle.board_core.specs.Takes.{Takes};
ghost use Rattle.board_core.specs.MemSource.{Reading, CountsRead, read_fails_next};

use crate::{Failed, Source};
use std::marker::Model;

/// A source over bytes in memory, which is modelled, returns the bytes in pieces and fails at
/// chosen calls.
#[derive(Drop)]
pub struct MemSource {
    bytes: Vec<u8>,
    taken: usize,
    piece: usize,
    fails: Vec<u64>,
    made: u64,
    faults: u64,
}

impl Model for MemSource {
    ghost use Rattle.std.specs.Prelude.{ℕ, ◌<◌, ◌≤◌, drop, vec_len};
    ghost use Rattle.board_core.specs.MemSource.{Reading};

    ghost Value = { Reading };

    ghost view = { λ s. record { left = drop s.taken s.bytes.items; piece = s.piece; fails = s.fails.items; made = s.made; faults = s.faults } };

    ghost invariant = { λ s. (s.taken ≤ vec_len s.bytes) × (0 < s.piece) };
}

impl MemSource {
    /// Returns a source of these bytes. Each call returns at most `piece` of them, which has to be
    /// at least 1. A call fails if and only if its number, from 1, is in `fails`.
    pub fn new(bytes: Vec<u8>, piece: usize, fails: Vec<u64>) -> MemSource
        requires { 0 < piece }
        ensures { result ≡ record {
          left = bytes.items;
          piece = piece;
          fails = fails.items;
          made = 0;
          faults = 0;
        } }
    {
        MemSource {
            bytes,
            taken: 0,
            piece,
            fails,
            made: 0,
            faults: 0,
        }
    }
}

impl Source for MemSource {
    ghost left = { λ s. Some s.left };

    ghost faults = { λ s. s.faults };

    fn read(&mut self, buf: &mut [u8]) -> Result<usize, Failed>
        requires { 0 < length buf.old }
        ensures within { IfOk result (λ n. n ≤ length buf.old) }
        ensures taken { IfOk result
            (λ n. Takes n buf.new (Some self.old.left) (Some self.new.left)) }
        ensures failed { OnErr result (Some self.new.left ≡ Some self.old.left) }
        ensures cause { HasCause self.old.faults self.new.faults result }

        // Each read returns a whole piece, or what is left.
        ensures piece { IfOk result
            (λ n. n ≡ min self.old.piece (min (length buf.old) (length self.old.left))) }
        // A read fails if and only if it was chosen to.
        ensures chosen { IsErr result ↔ IsTrue (read_fails_next self.old) }
        ensures counted { CountsRead self.old self.new }
    {
        self.made = self.made.saturating_add(1);
        if self.fails.contains(&self.made) {
            self.faults = self.faults.saturating_add(1);
            return Err(Failed);
        }
        let count = self.piece.min(buf.len()).min(self.bytes.len() - self.taken);
        buf[..count].copy_from_slice(&self.bytes[self.taken..self.taken + count]);
        self.taken += count;
        Ok(count)
    }
}
