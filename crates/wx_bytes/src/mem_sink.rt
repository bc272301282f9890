ghost use Rattle.std.specs.Prelude.{◌≡◌, ◌<◌, ◌==◌, min, length, [], Some, IfOk, IfErr, OnOk, IsErr, is_err, IsTrue};
ghost use Rattle.std.specs.List.{list_any};
ghost use Rattle.std.specs.Io.{WritesAtMost};
ghost use Rattle.std.specs.Io.KnownBytes.{WriteAppends};
ghost use Rattle.wx_control.specs.Sent.{counted};
ghost use Rattle.wx_journal.specs.Told.{Counts};

use crate::mem_source::CODE;
use crate::sink::{Sink, WriteFault};
use std::alloc::Global;
use wx_text::Text;

/// A sink into memory.
pub struct MemSink {
    text: Text,
    piece: usize,
    failing: Vec<u64>,
    calls: u64,
    faults: u64,
    ghost some: { 0 < piece },
}

// Its parts are dropped by one call: docs/DESIGN.md, "What proofs cost".
impl Drop for MemSink {
    fn drop(self) {
        let MemSink {
            text: _,
            piece: _,
            failing: _,
            calls: _,
            faults: _,
        } = self;
    }
}

impl MemSink {
    /// A sink that nothing was written to, each write to which takes all its bytes.
    pub fn new(alloc: Global) -> Self
        ensures text { result.text ≡ [] }
        ensures whole { (result.piece ≡ usize.MAX) × (result.failing.items ≡ []) }
        ensures fresh { (result.calls ≡ 0) × (result.faults ≡ 0) }
    {
        MemSink {
            text: Text::new(alloc),
            piece: usize::MAX,
            failing: Vec::new(alloc),
            calls: 0,
            faults: 0,
        }
    }

    /// The same sink, each write to which takes at most so many bytes.
    pub fn in_pieces(mut self, piece: usize) -> Self
        requires { 0 < piece }
        ensures { (some : 0 < piece) × (result ≡ record self { piece = piece; some = some }) }
    {
        self.piece = piece;
        self
    }

    /// The same sink, whose writes of these numbers fail, counted from 1.
    pub fn failing(mut self, at: Vec<u64>) -> Self
        ensures { result ≡ record self { failing = at } }
    {
        self.failing = at;
        self
    }

    /// What was written.
    pub fn text(&self) -> &Text
        ensures { result.now ≡ self.now.text }
    {
        &self.text
    }

    /// How many writes failed, for want of memory or as they were told to.
    pub fn faults(&self) -> u64
        ensures { result ≡ self.now.faults }
    {
        self.faults
    }
}

impl Sink for MemSink {
    ghost held = { λ s. Some s.text };

    ghost faults = { λ s. s.faults };

    fn write(&mut self, buf: &[u8]) -> Result<usize, WriteFault>
        ensures bound { WritesAtMost result buf.now }
        ensures some { IfOk result (λ n. 0 < length buf.now → 0 < n) }
        ensures bytes { WriteAppends (Some self.old.text) (Some self.new.text) result buf.now }
        ensures cause { Counts (is_err result) self.old.faults self.new.faults }
        ensures fields { self.new ≡ record self.old { text = self.new.text; calls = counted self.old.calls; faults = self.new.faults } }
        ensures fails { IsTrue (list_any (λ call. call == self.new.calls) self.old.failing.items) → IsErr result }
        ensures code { IfErr result (λ fault. fault.0 ≡ CODE) }
        ensures part { IfOk result (λ n. n ≡ min (length buf.now) self.old.piece) }
        ensures same { OnOk result (self.new.faults ≡ self.old.faults) }
    {
        self.calls = self.calls.saturating_add(1);
        let count = buf.len().min(self.piece);
        let fails = self.failing.contains(&self.calls);
        if fails || self.text.append(&buf[..count]).is_err() {
            self.faults = self.faults.saturating_add(1);
            return Err(WriteFault(CODE));
        }
        Ok(count)
    }
}
