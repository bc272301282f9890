// The queue.
ghost use Rattle.std.specs.Prelude.{IsNone, IsOk, true, false, ◌≡◌, ◌==◌, ◌+◌, ◌<◌, ◌≤◌, [], ◌∷◌, ◌++◌, length, IfOk, OnOk, OnErr, IfErr, Err, IfSome, IfNone};
ghost use Rattle.prio_channel.specs.Channel.{open_empty, HasRoom, IsFull, AllAtMost};
ghost use Rattle.prio_channel.specs.SameBag.{SameBag, Takes};
ghost use Rattle.prio_channel.specs.Refused.{Refuses};
ghost use Rattle.prio_channel.specs.declared.queue.TrySendError.TheVariants.{Closed, Full};

use crate::waiting::Waiting;
use slab::Slab;
use std::alloc::Global;
use std::collections::BinaryHeap;
use std::marker::Model;
use wx_events::Priority;
use wx_text::Memory;

/// Why a pair was not taken, with the pair.
#[derive(Debug, Drop, PartialEq)]
pub enum TrySendError<T> {
    /// The queue is closed.
    Closed(T, Priority),
    /// The queue is open, and has as many pairs as its size.
    Full(T, Priority),
}

/// A bounded queue of pairs of a value and a priority, from which a pair of the greatest priority
/// comes first, and of equal ones that which was sent first. The values stand in slots, and a heap has
/// the order in which they leave. Contracts see the pairs as a list whose order means nothing, the size,
/// and whether the queue is closed.
#[derive(Drop, Debug)]
pub struct PrioQueue<T> {
    waiting: BinaryHeap<Waiting>,
    values: Slab<T>,
    sent: u64,
    size: u32,
    closed: bool,
}

impl<T> Model for PrioQueue<T> {
    ghost use Rattle.std.specs.Prelude.{◌≡◌, ◌≤◌, length};
    ghost use Rattle.std.specs.BinaryHeap.{IsHeap, heap_capacity, heap_items, heap_len};
    ghost use Rattle.slab.specs.Slab.{slab_len};
    ghost use Rattle.prio_channel.specs.Channel.{Channel};
    ghost use Rattle.prio_channel.specs.Waiting.{HaveSlots, pairs, waiting_cmp};

    ghost Value = { Channel T };

    ghost view = { λ q. record { items = pairs q.values (heap_items q.waiting); size = q.size; closed = q.closed } };

    ghost invariant = { λ q.
        IsHeap waiting_cmp (heap_items q.waiting)
        × HaveSlots q.values (heap_items q.waiting)
        × (slab_len q.values ≡ heap_len q.waiting)
        × (heap_len q.waiting ≤ q.size)
        × (q.size ≤ heap_capacity q.waiting)
        × (q.size ≤ q.values.capacity)
        × (1 ≤ q.size)
        × (q.size ≤ 65536) };
}

impl<T> PrioQueue<T> {
    /// An open, empty queue that may hold `size` pairs. It takes all its memory here, and answers
    /// `Memory` where that can't be had.
    pub fn bounded(alloc: Global, size: u32) -> Result<PrioQueue<T>, Memory>
        requires least { 1 ≤ size }
        requires most { size ≤ 65536 }
        ensures { IfOk result (λ queue. queue ≡ open_empty size) }
    {
        Ok(PrioQueue {
            waiting: BinaryHeap::with_capacity(alloc, size as usize)?,
            values: Slab::with_capacity(alloc, size as usize)?,
            sent: 0,
            size,
            closed: false,
        })
    }

    /// Puts a pair in. Where the queue is closed, the answer is `Closed` with the pair; else, where
    /// the queue has as many pairs as its size, `Full` with the pair. Both leave the queue as it was.
    /// It takes no memory, and fails in no other way.
    #[tactic(auto, using(crate::proofs::WaitingLemmas::pairs_length))]
    pub fn try_send(&mut self, value: T, priority: Priority) -> Result<(), TrySendError<T>>
        // What each answer says.
        ensures sent { OnOk result (SameBag self.new.items (self.old.items ++ (value, priority) ∷ [])) }
        ensures room { OnOk result (HasRoom self.old) }
        ensures refused { IfErr result (λ error. Refuses self.old value priority error) }
        ensures unchanged { OnErr result (self.new ≡ self.old) }

        // When each answer comes.
        ensures when_room { HasRoom self.old → IsOk result }
        ensures when_closed { self.old.closed ≡ true → result ≡ Err (Closed value priority) }
        ensures when_full { IsFull self.old → result ≡ Err (Full value priority) }

        // What stays.
        ensures size { self.new.size ≡ self.old.size }
        ensures closed { self.new.closed ≡ self.old.closed }
    {
        if self.closed {
            return Err(TrySendError::Closed(value, priority));
        }
        if self.waiting.len() >= self.size as usize {
            return Err(TrySendError::Full(value, priority));
        }
        let slot = self.values.insert_reserved(value);
        let sequence = self.sent;
        self.sent = sequence.wrapping_add(1);
        self.waiting
            .push(Waiting {
                priority,
                sequence,
                slot,
            })
            .unwrap();
        Ok(())
    }

    /// Takes a pair of greatest priority out, any one of equals, also from a closed queue. `None`
    /// comes exactly where the queue is empty.
    pub fn try_recv(&mut self) -> Option<(T, Priority)>
        ensures taken { IfSome result (λ item. Takes self.old.items item self.new.items) }
        ensures greatest { IfSome result (λ item. AllAtMost item.1 self.old.items) }
        ensures none { IfNone result (self.old.items ≡ []) }
        ensures when_empty { self.old.items ≡ [] → IsNone result }
        ensures unchanged { IfNone result (self.new ≡ self.old) }
        ensures size { self.new.size ≡ self.old.size }
        ensures closed { self.new.closed ≡ self.old.closed }
    {
        let Waiting { priority, slot, .. } = self.waiting.pop()?;
        Some((self.values.remove(slot), priority))
    }

    /// Closes the queue: from now on nothing is put in. What is in stays.
    pub fn close(&mut self)
        ensures closed { self.new.closed ≡ true }
        ensures items { self.new.items ≡ self.old.items }
        ensures size { self.new.size ≡ self.old.size }
    {
        self.closed = true;
    }

    /// Whether the queue was closed.
    pub fn is_closed(&self) -> bool
        ensures { result ≡ self.now.closed }
    {
        self.closed
    }

    /// How many pairs are in, which is never above the size.
    #[tactic(auto, using(crate::proofs::WaitingLemmas::pairs_length))]
    pub fn len(&self) -> u32
        ensures count { result ≡ length self.now.items }
        ensures within { result ≤ self.now.size }
    {
        self.waiting.len() as u32
    }

    /// How many pairs the queue may hold.
    pub fn size(&self) -> u32
        ensures size { result ≡ self.now.size }
        ensures least { 1 ≤ result }
        ensures most { result ≤ 65536 }
    {
        self.size
    }

    /// Whether no pair is in.
    #[tactic(auto, using(crate::proofs::WaitingLemmas::pairs_length))]
    pub fn is_empty(&self) -> bool
        ensures { result ≡ (length self.now.items == 0) }
    {
        self.waiting.is_empty()
    }
}
