// The tickets that are parked until a child ends.
ghost use Rattle.std.specs.Prelude.{◌≡◌, ◌∷◌, ◌++◌, [], ◌+◌, ◌≤◌, length, OnOk, MatchOption};

use std::alloc::Global;
use std::collections::VecDeque;
use std::marker::Model;
use wx_control::Flag;
use wx_text::Memory;

/// A ticket that is parked until the child ends, and its flag.
#[derive(Drop)]
pub(crate) struct Parked {
    pub ticket: u64,
    pub done: Flag,
}

/// The tickets that are parked until the child ends, in the order in which they were picked. Contracts see them, and how
/// many more there is room for.
#[derive(Drop)]
pub(crate) struct Parking {
    items: VecDeque<Parked>,
}

impl Model for Parking {
    ghost use Rattle.std.specs.Prelude.{map, ◌-◌};
    ghost use Rattle.std.specs.VecDeque.{deque_len, deque_capacity};
    ghost use Rattle.wx_job.specs.Parkings.{Tickets};

    ghost Value = { Tickets };

    ghost view = { λ l. record { tickets = map (λ x. x.ticket) l.items.items; spare = deque_capacity l.items - deque_len l.items } };
}

impl Parking {
    /// None is parked. It takes no memory.
    pub(crate) fn new(alloc: Global) -> Parking
        ensures { result.tickets ≡ [] }
    {
        Parking {
            items: VecDeque::new(alloc),
        }
    }

    /// Takes room for `n` more. It fails only for want of memory.
    pub(crate) fn reserve(&mut self, n: u64) -> Result<(), Memory>
        ensures same { self.new.tickets ≡ self.old.tickets }
        ensures room { OnOk result (n ≤ self.new.spare) }
        ensures kept { self.old.spare ≤ self.new.spare }
    {
        self.items.reserve(n as usize)?;
        Ok(())
    }

    /// A ticket is parked behind the others, in room that was taken before.
    pub(crate) fn park(&mut self, ticket: u64, done: Flag)
        requires { 1 ≤ self.old.spare }
        ensures joins { self.new.tickets ≡ self.old.tickets ++ ticket ∷ [] }
        ensures room { self.old.spare ≤ self.new.spare + 1 }
    {
        self.items.push_back_reserved(Parked { ticket, done });
    }

    /// Takes the first one. There is none exactly where none is parked.
    pub(crate) fn take(&mut self) -> Option<Parked>
        ensures taken { MatchOption result ((self.old.tickets ≡ []) × (self.new ≡ self.old)) (λ x. self.old.tickets ≡ x.ticket ∷ self.new.tickets) }
        ensures room { self.old.spare ≤ self.new.spare }
    {
        self.items.pop_front()
    }

    /// None is parked any more.
    pub(crate) fn clear(&mut self)
        ensures empty { self.new.tickets ≡ [] }
        ensures room { self.old.spare ≤ self.new.spare }
    {
        self.items.clear();
    }

    /// How many are parked.
    pub(crate) fn len(&self) -> u64
        ensures { result ≡ length self.now.tickets }
    {
        self.items.len() as u64
    }
}
