// What a poll found and wasn't brought yet.
ghost use Rattle.std.specs.Prelude.{◌≡◌, ◌==◌, ◌∷◌, [], length, IfNone, IfSome};

use std::alloc::Global;
use std::collections::VecDeque;
use std::marker::Model;
use wx_notify::Notify;
use wx_text::List;

/// What a poll found and wasn't brought yet, in order. The first leaves in constant time. Contracts see the events.
#[derive(Drop)]
pub struct Pending {
    events: VecDeque<Notify>,
}

impl Model for Pending {
    ghost use Rattle.std.specs.Prelude.{List};
    ghost use Rattle.wx_notify.specs.declared.notify.Notify.{Notify};

    ghost Value = { List Notify };

    ghost view = { λ p. p.events.items };
}

impl Pending {
    /// Nothing pends. It takes no memory.
    pub fn new(alloc: Global) -> Pending
        ensures { result ≡ [] }
    {
        Pending {
            events: VecDeque::new(alloc),
        }
    }

    /// These events pend. It takes no memory.
    pub fn of(events: List<Notify>) -> Pending
        ensures { result ≡ events }
    {
        Pending {
            events: VecDeque::from(events.into_vec()),
        }
    }

    /// Whether nothing pends.
    pub fn is_empty(&self) -> bool
        ensures { result ≡ (length self.now == 0) }
    {
        self.events.is_empty()
    }

    /// Takes the first event out.
    pub fn take_first(&mut self) -> Option<Notify>
        ensures none { IfNone result (self.old ≡ []) }
        ensures same { IfNone result (self.new ≡ []) }
        ensures some { IfSome result (λ x. self.old ≡ x ∷ self.new) }
    {
        self.events.pop_front()
    }
}
