// All passes come back to the end that takes, and what is left is taken out.
ghost use Rattle.std.specs.Prelude.{◌≡◌, ℕ, ◌<◌, ◌≤◌, ◌↔◌, true, [], ◌++◌, length, map, Some, IfOk, IfErr, IsErr, slice_get, vec_len, vec_capacity, All};
ghost use Rattle.crossbeam_queue.specs.Passes.{view as told, IsPassOf, ruled_capacity};
ghost use Rattle.wx_queue.specs.Rule.{of, Tells, IsNoted};
ghost use Rattle.wx_queue.specs.Ends.{entry};

use crate::parcel::{Queued, Sent};
use crate::pass::{HoldsPass, QueuePass};
use crate::queue::PassQueue;
use crate::rule::{Known, Ruled};
use crate::steps;
use crossbeam_queue::Pass;
use std::sync::Wait;
use wx_text::List;

/// What was given, what each pass sent, by its number, and what was left.
#[derive(Drop)]
pub struct Given<I> {
    pub given: List<Sent<I>>,
    pub sent: List<List<Sent<I>>>,
    pub left: List<Sent<I>>,
}

/// Passes are missing: all that was handed in, and how many passes were made.
#[derive(Drop)]
pub struct Missing<R: Wait + Copy, I, F, P> {
    pub queue: PassQueue<R, I, F>,
    pub passes: List<P>,
    pub made: u32,
}

// Takes the passes in, each list to the place of its pass.
fn gather<R: Wait + Copy, I, F, P>(
    queue: &Ruled<I, F>,
    world: &mut Pass<Queued<I, F>, Known<I>>,
    rows: &mut Vec<List<Sent<I>>>,
    passes: Vec<P>,
)
where
    I: Drop,
    F: Drop,
    P: HoldsPass<R, I, F> + Drop,
    requires own { All (λ p. (P.pass p).queue ≡ world.old.table_id) passes.items }
    requires world { IsPassOf queue.now world.old × ((told world.old).takes ≡ true) × ((told world.old).noted ≡ []) × ((told world.old).made ≤ 16) }
    requires rows { vec_len rows.old ≡ 16 }
    ensures world { IsPassOf queue.now world.new × ((told world.new).takes ≡ true) × ((told world.new).given ≡ (told world.old).given) × ((told world.new).made ≡ (told world.old).made) }
    ensures noted { (told world.new).noted ≡ map (λ p. entry (P.pass p)) passes.items }
    ensures rows { (vec_len rows.new ≡ 16) × IsNoted (told world.new).noted rows.new.items }
{
    let mut passes = passes;
    while let Some(holder) = passes.pop() {
        let handle = holder.into_pass();
        let QueuePass {
            number,
            pass,
            sent,
            rt: _,
            queue: _,
        } = handle;
        steps::join(queue, world, pass);
        steps::learn(queue, world);
        rows[number as usize] = List::from_vec(sent);
    }
}

// Takes what is left, where each pass was taken in.
fn drain<R: Wait + Copy, I, F>(
    rt: R,
    queue: &Ruled<I, F>,
    world: &mut Pass<Queued<I, F>, Known<I>>,
    left: &mut Vec<Sent<I>>,
)
where
    I: Drop,
    F: Drop,
    requires world { IsPassOf queue.now world.old × ((told world.old).takes ≡ true) }
    requires whole { (told world.old).made ≤ length (told world.old).noted }
    requires room { (left.old.items ≡ []) × (ruled_capacity queue.now ≤ vec_capacity left.old) }
    ensures { Tells (told world.old) left.new.items }
{
    let _most = steps::count(&rt, queue, world);
    for _ in rt.forever() {
        match steps::take(&rt, queue, world) {
            Some(queued) => {
                steps::learn(queue, world);
                left.push_reserved(queued.sent);
            }
            None => return,
        }
    }
    unreachable!()
}

impl<R: Wait + Copy, I, F> PassQueue<R, I, F> {
    /// Takes the passes in, in any order, and then what is left. It takes no memory. Where fewer passes are handed in than were made, all
    /// is given back.
    pub fn finish<P>(self, passes: List<P>) -> Result<Given<I>, Missing<R, I, F, P>>
    where
        I: Drop,
        F: Drop,
        P: HoldsPass<R, I, F> + Drop,
        requires own { All (λ p. (P.pass p).queue ≡ self.queue) passes }
        ensures missing { IsErr result ↔ (length passes < self.made) }
        ensures back { IfErr result (λ m. (m.queue ≡ self) × (m.passes ≡ passes) × (m.made ≡ self.made)) }
        ensures given { IfOk result (λ g. g.given ≡ self.given) }
        ensures sent { IfOk result (λ g. (length g.sent ≡ self.made) × All (λ p. slice_get g.sent (P.pass p).number ≡ Some (P.pass p).sent) passes) }
        ensures delivered { IfOk result (λ g. (k : ℕ) → k < self.made → slice_get g.sent k ≡ Some (of k g.given ++ of k g.left)) }
        ensures only { IfOk result (λ g. All (λ s. s.pass < self.made) (g.given ++ g.left)) }
    {
        if passes.len() < self.made as usize {
            let made = self.made;
            return Err(Missing {
                queue: self,
                passes,
                made,
            });
        }
        let PassQueue {
            rt,
            queue,
            pass,
            made,
            given,
            left,
            rows,
        } = self;
        let mut pass = pass;
        let mut left = left;
        let mut rows = rows;
        gather::<R, I, F, P>(&queue, &mut pass, &mut rows, passes.into_vec());
        drain(rt, &queue, &mut pass, &mut left);
        rows.truncate(made as usize);
        Ok(Given {
            given: List::from_vec(given),
            sent: List::from_vec(rows),
            left: List::from_vec(left),
        })
    }
}
