ghost use Rattle.std.specs.Prelude.{◌≡◌, ◌<◌, ◌≤◌, ◌==◌, min, length, drop, [], Some, IfOk, IfErr, OnOk, is_err};
ghost use Rattle.std.specs.List.{list_any};
ghost use Rattle.std.specs.Io.{ReadsAtMost};
ghost use Rattle.std.specs.Io.KnownBytes.{ReadConsumes};
ghost use Rattle.wx_control.specs.Sent.{counted};
ghost use Rattle.wx_journal.specs.Told.{Counts};

use crate::source::{ReadFault, Source};
use std::alloc::Global;
use wx_text::Memory;

/// The code of each fault of a source or a sink in memory.
pub const CODE: u32 = 5;

/// A source over bytes in memory.
pub struct MemSource {
    bytes: Vec<u8>,
    position: usize,
    piece: usize,
    failing: Vec<u64>,
    calls: u64,
    faults: u64,
    ghost within: { position ≤ length bytes.items },
    ghost some: { 0 < piece },
}

// Its parts are dropped by one call: docs/DESIGN.md, "What proofs cost".
impl Drop for MemSource {
    fn drop(self) {
        let MemSource {
            bytes: _,
            position: _,
            piece: _,
            failing: _,
            calls: _,
            faults: _,
        } = self;
    }
}

impl MemSource {
    /// A source of these bytes, each read of which gives as many as there is room for.
    ///
    /// `Memory` comes where the bytes could not be copied.
    pub fn new(alloc: Global, bytes: &[u8]) -> Result<Self, Memory>
        ensures bytes { IfOk result (λ source. drop source.position source.bytes.items ≡ bytes.now) }
        ensures whole { IfOk result (λ source. (source.piece ≡ usize.MAX) × (source.failing.items ≡ [])) }
        ensures fresh { IfOk result (λ source. (source.calls ≡ 0) × (source.faults ≡ 0)) }
    {
        Ok(MemSource {
            bytes: Vec::from_slice(alloc, bytes)?,
            position: 0,
            piece: usize::MAX,
            failing: Vec::new(alloc),
            calls: 0,
            faults: 0,
        })
    }

    /// The same source, each read of which gives at most so many bytes.
    pub fn in_pieces(mut self, piece: usize) -> Self
        requires { 0 < piece }
        ensures { (some : 0 < piece) × (result ≡ record self { piece = piece; some = some }) }
    {
        self.piece = piece;
        self
    }

    /// The same source, whose reads of these numbers fail, counted from 1.
    pub fn failing(mut self, at: Vec<u64>) -> Self
        ensures { result ≡ record self { failing = at } }
    {
        self.failing = at;
        self
    }

    /// How many reads failed.
    pub fn faults(&self) -> u64
        ensures { result ≡ self.now.faults }
    {
        self.faults
    }
}

impl Source for MemSource {
    ghost left = { λ s. Some (drop s.position s.bytes.items) };

    ghost faults = { λ s. s.faults };

    fn read(&mut self, buf: &mut [u8]) -> Result<usize, ReadFault>
        ensures bound { ReadsAtMost result buf.new }
        ensures bytes { ReadConsumes (Some (drop self.old.position self.old.bytes.items)) (Some (drop self.new.position self.new.bytes.items)) result buf.new }
        ensures cause { Counts (is_err result) self.old.faults self.new.faults }
        ensures fields { (within : self.new.position ≤ length self.old.bytes.items) × (self.new ≡ record self.old { position = self.new.position; calls = counted self.old.calls; faults = self.new.faults; within = within }) }
        ensures fails { is_err result ≡ list_any (λ call. call == self.new.calls) self.old.failing.items }
        ensures code { IfErr result (λ fault. fault.0 ≡ CODE) }
        ensures part { IfOk result (λ n. n ≡ min (min (length (drop self.old.position self.old.bytes.items)) self.old.piece) (length buf.new)) }
        ensures same { OnOk result (self.new.faults ≡ self.old.faults) }
    {
        self.calls = self.calls.saturating_add(1);
        if self.failing.contains(&self.calls) {
            self.faults = self.faults.saturating_add(1);
            return Err(ReadFault(CODE));
        }
        let rest = &self.bytes[self.position..];
        let count = rest.len().min(self.piece).min(buf.len());
        buf[..count].copy_from_slice(&rest[..count]);
        self.position += count;
        Ok(count)
    }
}
