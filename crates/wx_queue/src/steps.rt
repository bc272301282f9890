// The steps on the queue, each under its rule.
ghost use Rattle.std.specs.Prelude.{◌≡◌, ◌+◌, ◌<◌, ◌≤◌, true, false, List, [], ◌∷◌, ◌++◌, map, MatchOption, MatchResult, length};
ghost use Rattle.crossbeam_queue.specs.Passes.{view, IsPassOf, ruled_capacity};
ghost use Rattle.crossbeam_queue.specs.Fifo.{Held};
ghost use Rattle.wx_queue.specs.Rule.{known, Tells};
ghost use Rattle.wx_queue.specs.declared.parcel.Queued.{Queued as a-Queued};

use crate::parcel::Queued;
use crate::rule::{Deals, Known, Notes, Puts, Ruled, Takes};
use crossbeam_queue::Pass;
use std::sync::Wait;

/// Puts an item in. A refused one leaves the pass as it was, and the queue held its size at a step of this call.
pub(crate) fn put<R: Wait, I, F>(
    rt: &R,
    queue: &Ruled<I, F>,
    pass: &mut Pass<Queued<I, F>, Known<I>>,
    queued: Queued<I, F>,
) -> Result<(), Queued<I, F>>
    requires pass { IsPassOf queue.now pass.old × ((view pass.old).sends ≡ true) × (queued.sent.pass ≡ (view pass.old).number) }
    ensures pass { IsPassOf queue.now pass.new }
    ensures sent { MatchResult result
        (λ _. view pass.new ≡ known (view pass.old).takes (view pass.old).sends (view pass.old).number ((view pass.old).sent ++ queued.sent ∷ []) (view pass.old).given (view pass.old).made (view pass.old).noted)
        (λ x. (x ≡ queued) × (view pass.new ≡ view pass.old) × Held {T = a-Queued I F} (ruled_capacity queue.now) (λ items. Unit {0})) }
{
    queue.push_as::<Puts, R>(rt, pass, queued)
}

/// Takes an item. None only where the queue was empty at a step of this call.
pub(crate) fn take<R: Wait, I, F>(
    rt: &R,
    queue: &Ruled<I, F>,
    world: &mut Pass<Queued<I, F>, Known<I>>,
) -> Option<Queued<I, F>>
    requires pass { IsPassOf queue.now world.old × ((view world.old).takes ≡ true) }
    ensures pass { IsPassOf queue.now world.new }
    ensures taken { MatchOption result
        ((view world.new ≡ view world.old) × Held {T = a-Queued I F} 0 (λ items. Tells (view world.old) (map (λ x. x.sent) items)))
        (λ x. view world.new ≡ known (view world.old).takes (view world.old).sends (view world.old).number (view world.old).sent ((view world.old).given ++ x.sent ∷ []) (view world.old).made (view world.old).noted) }
{
    queue.pop_as::<Takes, R>(rt, world)
}

/// Makes a pass with the next number. It takes no memory.
pub(crate) fn deal<I, F>(
    queue: &Ruled<I, F>,
    world: &mut Pass<Queued<I, F>, Known<I>>,
) -> Pass<Queued<I, F>, Known<I>>
    requires pass { IsPassOf queue.now world.old × ((view world.old).takes ≡ true) }
    ensures pass { IsPassOf queue.now world.new × IsPassOf queue.now result }
    ensures world { view world.new ≡ known (view world.old).takes (view world.old).sends (view world.old).number (view world.old).sent (view world.old).given ((view world.old).made + 1) (view world.old).noted }
    ensures new { view result ≡ known false true (view world.old).made [] [] 0 [] }
{
    queue.another::<Deals>(world)
}

/// Takes a pass in. From then on the world's end knows what it sent, and that its number is no other's.
pub(crate) fn join<I, F>(
    queue: &Ruled<I, F>,
    world: &mut Pass<Queued<I, F>, Known<I>>,
    pass: Pass<Queued<I, F>, Known<I>>,
)
    requires pass { IsPassOf queue.now world.old × IsPassOf queue.now pass × ((view world.old).takes ≡ true) × ((view pass).sends ≡ true) }
    ensures pass { IsPassOf queue.now world.new }
    ensures world { view world.new ≡ known (view world.old).takes (view world.old).sends (view world.old).number (view world.old).sent (view world.old).given (view world.old).made (((view pass).number, (view pass).sent) ∷ (view world.old).noted) }
{
    queue.absorb::<Notes>(world, pass)
}

/// What is known of the passes that were taken in, at a step of this call.
pub(crate) fn learn<I, F>(queue: &Ruled<I, F>, world: &mut Pass<Queued<I, F>, Known<I>>)
    requires pass { IsPassOf queue.now world.old × ((view world.old).takes ≡ true) }
    ensures pass { IsPassOf queue.now world.new × (view world.new ≡ view world.old) }
    ensures told { (items : List (a-Queued I F)) × Tells (view world.old) (map (λ x. x.sent) items) }
{
    queue.learn_as::<Takes>(world)
}

/// How many items the queue held at a step of this call.
pub(crate) fn count<R: Wait, I, F>(
    rt: &R,
    queue: &Ruled<I, F>,
    world: &mut Pass<Queued<I, F>, Known<I>>,
) -> usize
    requires pass { IsPassOf queue.now world.old × ((view world.old).takes ≡ true) }
    ensures pass { IsPassOf queue.now world.new × (view world.new ≡ view world.old) }
    ensures few { result ≤ ruled_capacity queue.now }
    ensures told { (items : List (a-Queued I F)) × (length items ≡ result) × Tells (view world.old) (map (λ x. x.sent) items) }
{
    queue.len_as::<Takes, R>(rt, world)
}
