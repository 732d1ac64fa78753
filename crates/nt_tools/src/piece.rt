//! The bytes of one read.

ghost use Rattle.std.specs.Prelude.{◌≡◌, ◌≤◌, ◌↔◌, [], length, drop, IfOk, OnErr, IsTrue};
ghost use Rattle.std.specs.Io.KnownBytes.{Consumes, Keeps, IsAtEnd};
ghost use Rattle.nt_link.specs.Causes.{Rose, IsLater};
ghost use Rattle.nt_tools.specs.Input.{piece_bytes};

use crate::input::PIECE;
use nt_link::{Failed, Source};
use std::alloc::{AllocError, Global};
use std::marker::Model;

/// The bytes of one read that weren't given yet. Contracts see them as a list.
#[derive(Drop)]
pub struct Piece {
    buf: Vec<u8>,
    at: usize,
    end: usize,
}

impl Model for Piece {
    ghost use Rattle.std.specs.Prelude.{◌≡◌, ◌≤◌, ℕ, List, slice_range, vec_len};
    ghost use Rattle.nt_tools.specs.Input.{piece_bytes};

    ghost Value = { List ℕ };

    ghost view = { λ p. slice_range p.buf.items p.at p.end };

    ghost invariant = { λ p. (p.at ≤ p.end) × (p.end ≤ piece_bytes)
        × (vec_len p.buf ≡ piece_bytes) };
}

impl Piece {
    /// Room for a piece, with no bytes yet.
    pub fn new(alloc: Global) -> Result<Piece, AllocError>
        ensures { IfOk result (λ p. p ≡ []) }
    {
        Ok(Piece {
            buf: vec![in alloc; 0; PIECE]?,
            at: 0,
            end: 0,
        })
    }

    /// The bytes.
    pub fn as_slice(&self) -> &[u8]
        ensures bytes { result.now ≡ self.now }
        ensures most { length self.now ≤ piece_bytes }
    {
        &self.buf[self.at..self.end]
    }

    /// Whether all bytes were given.
    pub fn is_empty(&self) -> bool
        ensures empty { IsTrue result ↔ (self.now ≡ []) }
        ensures most { length self.now ≤ piece_bytes }
    {
        self.at == self.end
    }

    /// Gives the first so many bytes.
    pub fn advance(&mut self, count: usize)
        requires { count ≤ length self.old }
        ensures { self.new ≡ drop count self.old }
    {
        self.at += count;
    }

    /// Reads a piece, where all bytes were given. No byte is the end of the source.
    ///
    /// # Errors
    ///
    /// [`Failed`] comes only where the source's count of faults rose. There are then no bytes.
    pub fn refill<R: Source>(&mut self, source: &mut R) -> Result<(), Failed>
        requires { self.old ≡ [] }
        ensures taken { IfOk result (λ _. Consumes (R.left source.old) (R.left source.new) self.new) }
        ensures ended { IfOk result (λ _. self.new ≡ [] → IsAtEnd (R.left source.new)) }
        ensures failed { OnErr result (Keeps (R.left source.old) (R.left source.new)) }
        ensures empty { OnErr result (self.new ≡ []) }
        ensures cause { OnErr result (Rose (R.faults source.old) (R.faults source.new)) }
        ensures source { IsLater R.faults R.aside source.old source.new }
    {
        self.at = 0;
        self.end = 0;
        self.end = source.read(&mut self.buf)?;
        Ok(())
    }
}
