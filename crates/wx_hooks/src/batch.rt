// The events that wait to be handed, with the room for handing them.
ghost use Rattle.std.specs.Prelude.{◌≡◌, ◌+◌, ◌<◌, ◌≤◌, ◌==◌, [], ◌∷◌, ◌++◌, length, vec_len, vec_capacity, OnOk};

use std::alloc::Global;
use std::marker::Model;
use wx_events::Event;
use wx_journal::{Act, Named};
use wx_text::Memory;

/// The window of a worker: the names and the events, in the order in which they passed. With each event there is room
/// to hand it: for its name twice, and for the act that ends the run twice, since two entries are made of a batch.
/// Contracts see the names, the events, and for how many more there is room, capped by the room for acts.
#[derive(Drop)]
pub struct Batch {
    pub(crate) names: Vec<u64>,
    pub(crate) second_names: Vec<u64>,
    pub(crate) events: Vec<Event>,
    pub(crate) acts: Vec<Act>,
    pub(crate) second_acts: Vec<Act>,
}

impl Model for Batch {
    ghost use Rattle.std.specs.Prelude.{min, ◌-◌, vec_len, vec_capacity};
    ghost use Rattle.wx_hooks.specs.Batch.{Waiting, IsBatch};

    ghost Value = { Waiting };

    ghost view = { λ b. record {
      names = b.names.items;
      events = b.events.items;
      room = min (min (vec_capacity b.acts) (vec_capacity b.second_acts)) (min (vec_capacity b.names - vec_len b.names) (min (vec_capacity b.second_names - vec_len b.second_names) (vec_capacity b.events - vec_len b.events)));
    } };

    ghost invariant = { λ b. IsBatch b.names.items b.second_names.items b.acts.items b.second_acts.items (min (vec_capacity b.acts) (vec_capacity b.second_acts)) };
}

/// Takes room for one value more in each of two lists. It fails only for want of memory.
fn reserve_both<T>(first: &mut Vec<T>, second: &mut Vec<T>) -> Result<(), Memory>
    ensures first { first.new.items ≡ first.old.items }
    ensures second { second.new.items ≡ second.old.items }
    ensures kept { vec_capacity first.old ≤ vec_capacity first.new }
    ensures second_kept { vec_capacity second.old ≤ vec_capacity second.new }
    ensures room { OnOk result (vec_len first.new + 1 ≤ vec_capacity first.new) }
    ensures second_room { OnOk result (vec_len second.new + 1 ≤ vec_capacity second.new) }
{
    first.reserve(1)?;
    second.reserve(1)?;
    Ok(())
}

impl Batch {
    /// No event, and no room. It takes no memory.
    pub fn new(alloc: Global) -> Batch
        ensures names { result.names ≡ [] }
        ensures events { result.events ≡ [] }
    {
        Batch {
            names: Vec::new(alloc),
            second_names: Vec::new(alloc),
            events: Vec::new(alloc),
            acts: Vec::new(alloc),
            second_acts: Vec::new(alloc),
        }
    }

    /// Takes the room that one event more needs until it is handed. It fails only for want of memory.
    pub fn reserve(&mut self) -> Result<(), Memory>
        ensures names { self.new.names ≡ self.old.names }
        ensures events { self.new.events ≡ self.old.events }
        ensures room { OnOk result (1 ≤ self.new.room) }
    {
        reserve_both(&mut self.names, &mut self.second_names)?;
        self.events.reserve(1)?;
        reserve_both(&mut self.acts, &mut self.second_acts)
    }

    /// Adds an event in room that was taken.
    pub fn push(&mut self, item: Named)
        requires { 1 ≤ self.old.room }
        ensures names { self.new.names ≡ self.old.names ++ item.name ∷ [] }
        ensures events { self.new.events ≡ self.old.events ++ item.event ∷ [] }
    {
        self.names.push_reserved(item.name);
        self.second_names.push_reserved(item.name);
        self.events.push_reserved(item.event);
    }

    /// Whether no event waits.
    pub fn is_empty(&self) -> bool
        ensures { result ≡ (length self.now.names == 0) }
    {
        self.names.is_empty()
    }
}
