// The passes, which send.
ghost use Rattle.std.specs.Prelude.{◌≡◌, ◌∷◌, ◌++◌, [], length, MatchResult};
ghost use Rattle.wx_queue.specs.Ends.{SendingEnd, sent_item};

use crate::parcel::{Parcel, Queued, Sent};
use crate::rule::{Known, Ruled};
use crate::steps;
use crossbeam_queue::Pass;
use std::marker::Model;
use std::sync::{Arc, Wait};

/// Why nothing was sent: the queue was full at a step of the call, or there was no memory.
#[derive(Debug, Drop, Clone, Copy, PartialEq, Eq)]
pub enum Refused {
    Full,
    Memory,
}

/// A pass of a queue, for one thread. Contracts see its number, what it sent, and of which queue it is.
#[derive(Drop)]
pub struct QueuePass<R: Wait + Copy, I, F> {
    pub(crate) rt: R,
    pub(crate) queue: Arc<Ruled<I, F>>,
    pub(crate) number: u32,
    pub(crate) pass: Pass<Queued<I, F>, Known<I>>,
    pub(crate) sent: Vec<Sent<I>>,
}

impl<R: Wait + Copy, I, F> Model for QueuePass<R, I, F> {
    ghost use Rattle.wx_queue.specs.Ends.{SendingEnd};

    ghost Value = { SendingEnd I };

    ghost use Rattle.std.specs.Prelude.{◌≡◌, true, false, []};
    ghost use Rattle.std.specs.Arc.{arc_value};
    ghost use Rattle.crossbeam_queue.specs.Passes.{view as told, IsPassOf};
    ghost use Rattle.wx_queue.specs.Rule.{known};

    ghost view = { λ p. record { number = p.number; sent = p.sent.items; queue = p.pass.table_id } };

    ghost invariant = { λ p. IsPassOf (arc_value p.queue) p.pass × (told p.pass ≡ known false true p.number p.sent.items [] 0 []) };
}

impl<R: Wait + Copy, I, F> QueuePass<R, I, F> {
    /// Sends an item, which gets the next number of this pass. Where it is refused, it is dropped, and what was sent stays as it was.
    pub fn send(&mut self, item: I, parcel: Parcel<I, F>) -> Result<(), Refused>
    where
        I: Drop,
        F: Drop,
        requires same { item ≡ parcel.item }
        ensures sent { MatchResult result
            (λ _. self.new.sent ≡ self.old.sent ++ sent_item self.old.number (length self.old.sent) item ∷ [])
            (λ _. self.new.sent ≡ self.old.sent) }
        ensures kept { (self.new.number ≡ self.old.number) × (self.new.queue ≡ self.old.queue) }
    {
        if self.sent.reserve(1).is_err() {
            return Err(Refused::Memory);
        }
        let number = self.number;
        let seq = self.sent.len() as u64;
        let Parcel {
            item: first,
            second,
            third,
            done,
        } = parcel;
        let queued = Queued {
            sent: Sent {
                pass: number,
                seq,
                item: first,
            },
            second,
            third,
            done,
        };
        let rt = self.rt;
        if steps::put(&rt, &self.queue, &mut self.pass, queued).is_err() {
            return Err(Refused::Full);
        }
        self.sent.push_reserved(Sent {
            pass: number,
            seq,
            item,
        });
        Ok(())
    }
}

/// What holds a pass of a queue, as a handle does. `PassQueue::finish` takes such in.
pub trait HoldsPass<R: Wait + Copy, I, F> {
    /// The pass that it holds.
    ghost pass: { Self → SendingEnd I };

    /// Gives the pass.
    fn into_pass(self) -> QueuePass<R, I, F>
        ensures { result ≡ pass self };
}

impl<R: Wait + Copy, I, F> HoldsPass<R, I, F> for QueuePass<R, I, F> {
    ghost pass = { λ p. p };

    fn into_pass(self) -> QueuePass<R, I, F> {
        self
    }
}
