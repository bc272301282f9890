// Handles under load.
ghost use Rattle.std.specs.Prelude.{◌≡◌, ◌∷◌, [], IfOk, IfSome};

use crate::trial::{next_turn, spawn, with_ends};
use std::alloc::{Alloc, Global};
use std::process::Abort;
use std::sync::Wait;
use std::thread;
use std::thread::{Threads, join_mut};
use wx_control::Refused;
use wx_handles::{Given, HandlePass, Item, Sent, ThreadWorld};
use wx_hooks::World;
use wx_job::Outside;
use wx_journal::TurnKind;
use wx_mem_live::EndingLive;
use wx_text::{List, Memory};

/// How many items each of four threads sends.
const COUNT: u32 = 25_000;

/// How many children end meanwhile.
const ENDS: u64 = 100;

/// How many turns there are at most.
const TURNS: u64 = 10_000_000;

/// Sends a number as bytes, again and again while the queue is full. False for want of memory.
fn send<R: Wait + Copy>(rt: &R, alloc: Global, pass: &mut HandlePass<R>, number: u32) -> bool
    ensures { pass.new.pass.queue ≡ pass.old.pass.queue }
{
    let bytes = number.to_le_bytes();
    for _ in rt.forever() {
        match pass.keys(alloc, &bytes) {
            Ok(()) => return true,
            Err(Refused::Memory) => return false,
            Err(Refused::Full) => thread::yield_now(),
        }
    }
    unreachable!()
}

/// Sends the numbers below the count, in order. False for want of memory.
fn send_all<R: Wait + Copy>(rt: &R, alloc: Global, pass: &mut HandlePass<R>) -> bool
    ensures { pass.new.pass.queue ≡ pass.old.pass.queue }
{
    for number in 0..COUNT {
        if !send(rt, alloc, pass, number) {
            return false;
        }
    }
    true
}

/// Sends by two handles at once, each in a thread of its own.
fn two_send<R: Threads + Wait + Copy + Send + Sync>(
    rt: &R,
    alloc: Global,
    first: &mut HandlePass<R>,
    second: &mut HandlePass<R>,
) -> bool
    ensures first { first.new.pass.queue ≡ first.old.pass.queue }
    ensures second { second.new.pass.queue ≡ second.old.pass.queue }
{
    let (one, two) = join_mut(
        rt,
        &mut || send_all(rt, alloc, first),
        &mut || send_all(rt, alloc, second),
    );
    one && two
}

/// Sends by four handles at once, each in a thread of its own.
fn four_send<R: Threads + Wait + Copy + Send + Sync>(
    rt: &R,
    alloc: Global,
    a: &mut HandlePass<R>,
    b: &mut HandlePass<R>,
    c: &mut HandlePass<R>,
    d: &mut HandlePass<R>,
) -> bool
    ensures a { a.new.pass.queue ≡ a.old.pass.queue }
    ensures b { b.new.pass.queue ≡ b.old.pass.queue }
    ensures c { c.new.pass.queue ≡ c.old.pass.queue }
    ensures d { d.new.pass.queue ≡ d.old.pass.queue }
{
    let (one, two) = join_mut(
        rt,
        &mut || two_send(rt, alloc, a, b),
        &mut || two_send(rt, alloc, c, d),
    );
    one && two
}

/// A further handle, where there is one.
fn split<R: Wait + Copy>(world: &mut ThreadWorld<R, EndingLive>) -> Option<HandlePass<R>>
    ensures own { IfSome result (λ p. p.pass.queue ≡ (⟦<ThreadWorld<R, EndingLive> as Outside>⟧.seen world.old).plan.queue) }
    ensures kept { (⟦<ThreadWorld<R, EndingLive> as Outside>⟧.seen world.new).plan.queue ≡ (⟦<ThreadWorld<R, EndingLive> as Outside>⟧.seen world.old).plan.queue }
{
    world.split().ok()
}

/// Spawns the children, which then end by themselves. False where that failed.
fn spawn_all<W: World>(alloc: Global, world: &mut W) -> bool
    ensures { (W.seen world.new).plan ≡ (W.seen world.old).plan }
{
    for child in 0..ENDS {
        if !spawn(alloc, world, child) {
            return false;
        }
    }
    true
}

/// Takes turns until all items and all ends came. False where an end didn't come in its order, or where turns or memory lacked.
fn take_all<W: World>(world: &mut W) -> bool
    ensures { (W.seen world.new).plan ≡ (W.seen world.old).plan }
{
    let mut items: u32 = 0;
    let mut ends: u64 = 0;
    for _ in 0..TURNS {
        let Some(next) = next_turn(world) else {
            return false;
        };
        match &next.turn.kind {
            TurnKind::Keys(_) => items = items.saturating_add(1),
            TurnKind::Ended(child) if *child == ends => ends = ends.saturating_add(1),
            TurnKind::Ended(_) => return false,
            _ => {}
        }
        if items == 4 * COUNT && ends == ENDS {
            return true;
        }
    }
    false
}

/// Four threads send, while this one takes turns until all came.
fn four_send_and_one_takes<R: Threads + Wait + Copy + Send + Sync>(
    rt: &R,
    alloc: Global,
    world: &mut ThreadWorld<R, EndingLive>,
    a: &mut HandlePass<R>,
    b: &mut HandlePass<R>,
    c: &mut HandlePass<R>,
    d: &mut HandlePass<R>,
) -> bool
    ensures world { (⟦<ThreadWorld<R, EndingLive> as Outside>⟧.seen world.new).plan ≡ (⟦<ThreadWorld<R, EndingLive> as Outside>⟧.seen world.old).plan }
    ensures a { a.new.pass.queue ≡ a.old.pass.queue }
    ensures b { b.new.pass.queue ≡ b.old.pass.queue }
    ensures c { c.new.pass.queue ≡ c.old.pass.queue }
    ensures d { d.new.pass.queue ≡ d.old.pass.queue }
{
    let (is_sent, has_come) = join_mut(
        rt,
        &mut || four_send(rt, alloc, a, b, c, d),
        &mut || take_all(world),
    );
    is_sent && has_come
}

/// A list of four handles.
fn four<R: Wait + Copy>(
    alloc: Global,
    a: HandlePass<R>,
    b: HandlePass<R>,
    c: HandlePass<R>,
    d: HandlePass<R>,
) -> Result<List<HandlePass<R>>, Memory>
    ensures { IfOk result (λ passes. passes ≡ a ∷ b ∷ c ∷ d ∷ []) }
{
    let mut passes = List::new(alloc);
    passes.push(a)?;
    passes.push(b)?;
    passes.push(c)?;
    passes.push(d)?;
    Ok(passes)
}

/// What was given and is left, where all four handles are handed in.
fn finish<R: Wait + Copy>(
    alloc: Global,
    world: ThreadWorld<R, EndingLive>,
    a: HandlePass<R>,
    b: HandlePass<R>,
    c: HandlePass<R>,
    d: HandlePass<R>,
) -> Option<Given>
    requires a { a.pass.queue ≡ (⟦<ThreadWorld<R, EndingLive> as Outside>⟧.seen world).plan.queue }
    requires b { b.pass.queue ≡ (⟦<ThreadWorld<R, EndingLive> as Outside>⟧.seen world).plan.queue }
    requires c { c.pass.queue ≡ (⟦<ThreadWorld<R, EndingLive> as Outside>⟧.seen world).plan.queue }
    requires d { d.pass.queue ≡ (⟦<ThreadWorld<R, EndingLive> as Outside>⟧.seen world).plan.queue }
{
    let passes = four(alloc, a, b, c, d).ok()?;
    world.finish(passes).ok()
}

/// Whether these are the numbers below the count, in order.
fn is_whole(sent: &[Sent<Item>]) -> bool {
    if sent.len() != COUNT as usize {
        return false;
    }
    for number in 0..COUNT {
        let Some(one) = sent.get(number as usize) else {
            return false;
        };
        let bytes = number.to_le_bytes();
        let is_next = match &one.item {
            Item::Keys(found) => found.as_slice() == bytes.as_slice(),
            _ => false,
        };
        if one.seq != number as u64 || !is_next {
            return false;
        }
    }
    true
}

/// Whether all that this handle sent was given, in order.
fn was_given(given: &Given, pass: u32) -> bool {
    let mut next: u64 = 0;
    for sent in given.given.as_slice() {
        if sent.pass == pass {
            if sent.seq != next {
                return false;
            }
            next = next.saturating_add(1);
        }
    }
    next == COUNT as u64
}

/// Whether the list of each of four handles is whole, all of it was given in its order, and nothing is left.
fn is_complete(given: &Given) -> bool {
    for sent in given.sent.as_slice() {
        if !is_whole(sent.as_slice()) {
            return false;
        }
    }
    for pass in 0..4 {
        if !was_given(given, pass) {
            return false;
        }
    }
    given.sent.len() == 4 && given.left.is_empty()
}

/// Four threads send a hundred thousand items through a queue of 64, each again while it is full, and a hundred children end meanwhile: each
/// list is whole, all of it was given in its order, nothing is left, and no end is missing.
#[test]
fn nothing_is_lost_under_load(rt: HostRuntime) {
    let alloc = rt.alloc();
    let (mut world, mut a) = with_ends(rt, alloc, TURNS, 64).expect(&rt, "memory");
    let mut b = split(&mut world).expect(&rt, "a handle");
    let mut c = split(&mut world).expect(&rt, "a handle");
    let mut d = split(&mut world).expect(&rt, "a handle");
    assert!(rt; spawn_all(alloc, &mut world));
    assert!(rt; four_send_and_one_takes(&rt, alloc, &mut world, &mut a, &mut b, &mut c, &mut d));
    let given = finish(alloc, world, d, b, a, c).expect(&rt, "all handles");
    assert!(rt; is_complete(&given));
}
