// The marks of the turns that were given.
ghost use Rattle.std.specs.Prelude.{◌≡◌, ◌∷◌, ◌+◌, ◌≤◌, [], OnOk};
ghost use Rattle.wx_handles.specs.Marked.{latest};

use crate::mark::Mark;
use std::alloc::Global;
use std::marker::Model;
use wx_text::Memory;

/// The marks of the turns that were given. Contracts see them, the newest first, and the room that was taken for more.
#[derive(Drop)]
pub struct Marks {
    marks: Vec<Mark>,
}

impl Model for Marks {
    ghost use Rattle.std.specs.Prelude.{reverse, ◌-◌, vec_len, vec_capacity};
    ghost use Rattle.wx_handles.specs.Marked.{Marked};

    ghost Value = { Marked };

    ghost view = { λ m. record { past = reverse m.marks.items; spare = vec_capacity m.marks - vec_len m.marks } };
}

impl Marks {
    /// No turn was given yet.
    pub fn new(alloc: Global) -> Marks
        ensures { result.past ≡ [] }
    {
        Marks {
            marks: Vec::new(alloc),
        }
    }

    /// Takes room for `n` marks more. It fails only for want of memory.
    pub fn reserve(&mut self, n: u64) -> Result<(), Memory>
        ensures same { self.new.past ≡ self.old.past }
        ensures room { OnOk result (n ≤ self.new.spare) }
        ensures kept { self.old.spare ≤ self.new.spare }
    {
        self.marks.reserve(n as usize)?;
        Ok(())
    }

    /// Adds a mark in room that was taken.
    pub fn push(&mut self, mark: Mark)
        requires { 1 ≤ self.old.spare }
        ensures past { self.new.past ≡ mark ∷ self.old.past }
        ensures room { self.new.spare + 1 ≡ self.old.spare }
    {
        self.marks.push_reserved(mark);
    }

    /// The moment of the last turn, or 0 before any.
    pub fn latest(&self) -> u64
        ensures { result ≡ latest self.now.past }
    {
        match self.marks.as_slice() {
            [.., last] => last.at,
            [] => 0,
        }
    }
}
