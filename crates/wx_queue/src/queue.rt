// The end that takes, which makes the passes.
ghost use Rattle.std.specs.Prelude.{◌≡◌, ◌+◌, ◌<◌, ◌≤◌, ◌↔◌, [], ◌∷◌, ◌++◌, length, Err, IfOk, OnOk, MatchOption, MatchResult};
ghost use Rattle.wx_queue.specs.Ends.{sent_item};

use crate::parcel::{Queued, Sent};
use crate::pass::QueuePass;
use crate::rule::{Known, Ruled};
use crate::steps;
use crossbeam_queue::Pass;
use std::alloc::Global;
use std::marker::Model;
use std::sync::{Arc, Wait};
use wx_text::{List, Memory};

/// How many passes a queue has at most.
pub const PASSES: u32 = 16;

/// Why no further pass was made.
#[derive(Debug, Drop, Clone, Copy, PartialEq, Eq)]
pub enum SplitRefused {
    Spent,
    Memory,
}

/// The end of a queue that takes. It makes the passes. Contracts see all that it took, and how many passes it made.
#[derive(Drop)]
pub struct PassQueue<R: Wait + Copy, I, F> {
    pub(crate) rt: R,
    pub(crate) queue: Arc<Ruled<I, F>>,
    pub(crate) pass: Pass<Queued<I, F>, Known<I>>,
    pub(crate) made: u32,
    pub(crate) given: Vec<Sent<I>>,
    // room for all that may be left, and for the list of each pass
    pub(crate) left: Vec<Sent<I>>,
    pub(crate) rows: Vec<List<Sent<I>>>,
}

impl<R: Wait + Copy, I, F> Model for PassQueue<R, I, F> {
    ghost use Rattle.wx_queue.specs.Ends.{TakingEnd};

    ghost Value = { TakingEnd I };

    ghost use Rattle.std.specs.Prelude.{◌≡◌, ◌≤◌, ◌-◌, true, false, [], vec_capacity, vec_len};
    ghost use Rattle.std.specs.Arc.{arc_value};
    ghost use Rattle.crossbeam_queue.specs.Passes.{view as told, IsPassOf, ruled_capacity};
    ghost use Rattle.wx_queue.specs.Rule.{known};

    ghost view = { λ q. record { given = q.given.items; room = vec_capacity q.given - vec_len q.given; made = q.made; size = ruled_capacity (arc_value q.queue); queue = q.pass.table_id } };

    ghost invariant = { λ q. IsPassOf (arc_value q.queue) q.pass × (told q.pass ≡ known true false 0 [] q.given.items q.made []) × (q.made ≤ 16) × (q.left.items ≡ []) × (ruled_capacity (arc_value q.queue) ≤ vec_capacity q.left) × (vec_len q.rows ≡ 16) };
}

/// What was taken: which pass sent it, its number among those of this pass, two of the item, and what tells that it is done.
#[derive(Drop)]
pub struct Taken<I, F> {
    pub pass: u32,
    pub seq: u64,
    pub second: I,
    pub third: I,
    pub done: F,
}

impl<R: Wait + Copy, I, F> PassQueue<R, I, F> {
    /// A queue for this many items. It has no pass yet, and has taken the room of what `finish` gives. It fails only for want of memory.
    pub fn new(rt: R, alloc: Global, size: u32) -> Result<Self, Memory>
    where
        I: Drop,
        F: Drop,
        requires { (1 ≤ size) × (size ≤ 65536) }
        ensures { IfOk result (λ q. (q.given ≡ []) × (q.made ≡ 0) × (q.size ≡ size)) }
    {
        let rows = empty_rows(alloc)?;
        let left = Vec::with_capacity(alloc, size as usize)?;
        let (queue, pass) = Ruled::ruled(alloc, size as usize)?;
        let queue = Arc::new(alloc, queue)?;
        Ok(PassQueue {
            rt,
            queue,
            pass,
            made: 0,
            given: Vec::new(alloc),
            left,
            rows,
        })
    }

    /// How many passes it made.
    pub fn made(&self) -> u32
        ensures { result ≡ self.now.made }
    {
        self.made
    }

    /// Makes the next pass. It is refused as spent exactly where there are as many as may be, and else only for want of memory.
    pub fn split(&mut self, alloc: Global) -> Result<QueuePass<R, I, F>, SplitRefused>
        ensures spent { (result ≡ Err SplitRefused.Spent) ↔ (self.old.made ≡ 16) }
        ensures made { MatchResult result
            (λ p. (p.number ≡ self.old.made) × (p.sent ≡ []) × (p.queue ≡ self.old.queue) × (self.new ≡ record self.old { made = self.old.made + 1 }))
            (λ _. self.new ≡ self.old) }
    {
        if self.made == PASSES {
            return Err(SplitRefused::Spent);
        }
        let Ok(queue) = Arc::try_clone(&self.queue) else {
            return Err(SplitRefused::Memory);
        };
        let rt = self.rt;
        let number = self.made;
        let theirs = steps::deal(&self.queue, &mut self.pass);
        self.made += 1;
        Ok(QueuePass {
            rt,
            queue,
            number,
            pass: theirs,
            sent: Vec::new(alloc),
        })
    }

    /// Takes room for this many items more. It fails only for want of memory.
    pub fn reserve(&mut self, additional: usize) -> Result<(), Memory>
        ensures room { OnOk result (additional ≤ self.new.room) }
        ensures grows { self.old.room ≤ self.new.room }
        ensures kept { (self.new.given ≡ self.old.given) × (self.new.made ≡ self.old.made) × (self.new.size ≡ self.old.size) × (self.new.queue ≡ self.old.queue) }
    {
        self.given.reserve(additional)?;
        Ok(())
    }

    /// Takes the next item. None only where the queue was empty at a step of this call.
    pub fn take(&mut self) -> Option<Taken<I, F>>
        requires { 0 < self.old.room }
        ensures given { MatchOption result
            (self.new ≡ self.old)
            (λ t. (self.new.given ≡ self.old.given ++ sent_item t.pass t.seq t.second ∷ []) × (t.third ≡ t.second) × (self.new.room + 1 ≡ self.old.room)) }
        ensures kept { (self.new.made ≡ self.old.made) × (self.new.size ≡ self.old.size) × (self.new.queue ≡ self.old.queue) }
    {
        let rt = self.rt;
        let queued = steps::take(&rt, &self.queue, &mut self.pass)?;
        let Queued {
            sent,
            second,
            third,
            done,
        } = queued;
        let taken = Taken {
            pass: sent.pass,
            seq: sent.seq,
            second,
            third,
            done,
        };
        self.given.push_reserved(sent);
        Some(taken)
    }
}

// An empty list for each pass that there may be.
fn empty_rows<I>(alloc: Global) -> Result<Vec<List<Sent<I>>>, Memory>
where
    I: Drop,
    ensures { IfOk result (λ v. length v.items ≡ 16) }
{
    let mut rows = Vec::with_capacity(alloc, PASSES as usize)?;
    for _ in 0..PASSES {
        rows.push(List::new(alloc))?;
    }
    Ok(rows)
}
