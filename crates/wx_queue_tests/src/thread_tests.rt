// Threads that send, each by its pass, while another takes.
ghost use Rattle.std.specs.Prelude.{◌≡◌, ◌∷◌, [], IfOk};

use crate::tests::{send, two_passes};
use std::alloc::{Alloc, Global};
use std::process::Abort;
use std::sync::Wait;
use std::thread;
use std::thread::{Threads, join_mut};
use wx_queue::{Given, PassQueue, QueuePass, Refused};
use wx_text::{List, Memory};

/// Sends a number, again and again while the queue is full. False for want of memory.
fn send_when_there_is_room<R: Wait + Copy>(
    rt: &R,
    pass: &mut QueuePass<R, u64, ()>,
    number: u64,
) -> bool
    ensures { pass.new.queue ≡ pass.old.queue }
{
    for _ in rt.forever() {
        match send(pass, number) {
            Ok(()) => return true,
            Err(Refused::Memory) => return false,
            Err(Refused::Full) => thread::yield_now(),
        }
    }
    unreachable!()
}

/// Sends the numbers below this one, in order. False for want of memory.
fn send_all<R: Wait + Copy>(rt: &R, pass: &mut QueuePass<R, u64, ()>, count: u64) -> bool
    ensures { pass.new.queue ≡ pass.old.queue }
{
    for number in 0..count {
        if !send_when_there_is_room(rt, pass, number) {
            return false;
        }
    }
    true
}

/// Sends by two passes at once, each from a thread of its own.
fn two_send<R: Threads + Wait + Copy + Send + Sync>(
    rt: &R,
    first: &mut QueuePass<R, u64, ()>,
    second: &mut QueuePass<R, u64, ()>,
    count: u64,
) -> bool
    ensures first { first.new.queue ≡ first.old.queue }
    ensures second { second.new.queue ≡ second.old.queue }
{
    let (one, two) = join_mut(
        rt,
        &mut || send_all(rt, first, count),
        &mut || send_all(rt, second, count),
    );
    one && two
}

/// Waits for an item, and takes it.
fn take_next<R: Wait + Copy>(rt: &R, queue: &mut PassQueue<R, u64, ()>) -> Result<(), Memory>
    ensures { queue.new.queue ≡ queue.old.queue }
{
    for _ in rt.forever() {
        queue.reserve(1)?;
        if queue.take().is_some() {
            return Ok(());
        }
        thread::yield_now();
    }
    unreachable!()
}

/// Takes so many items.
fn take_all<R: Wait + Copy>(
    rt: &R,
    queue: &mut PassQueue<R, u64, ()>,
    count: u64,
) -> Result<(), Memory>
    ensures { queue.new.queue ≡ queue.old.queue }
{
    for _ in 0..count {
        take_next(rt, queue)?;
    }
    Ok(())
}

/// Two threads send, while this one takes all of it. False for want of memory.
fn two_send_and_one_takes<R: Threads + Wait + Copy + Send + Sync>(
    rt: &R,
    queue: &mut PassQueue<R, u64, ()>,
    first: &mut QueuePass<R, u64, ()>,
    second: &mut QueuePass<R, u64, ()>,
) -> bool
    ensures queue { queue.new.queue ≡ queue.old.queue }
    ensures first { first.new.queue ≡ first.old.queue }
    ensures second { second.new.queue ≡ second.old.queue }
{
    let (is_sent, taken) = join_mut(
        rt,
        &mut || two_send(rt, first, second, 100),
        &mut || take_all(rt, queue, 200),
    );
    is_sent && taken.is_ok()
}

/// Sends by four passes at once, each from a thread of its own.
fn four_send<R: Threads + Wait + Copy + Send + Sync>(
    rt: &R,
    a: &mut QueuePass<R, u64, ()>,
    b: &mut QueuePass<R, u64, ()>,
    c: &mut QueuePass<R, u64, ()>,
    d: &mut QueuePass<R, u64, ()>,
) -> bool
    ensures a { a.new.queue ≡ a.old.queue }
    ensures b { b.new.queue ≡ b.old.queue }
    ensures c { c.new.queue ≡ c.old.queue }
    ensures d { d.new.queue ≡ d.old.queue }
{
    let (one, two) = join_mut(
        rt,
        &mut || two_send(rt, a, b, 25_000),
        &mut || two_send(rt, c, d, 25_000),
    );
    one && two
}

/// Four threads send, while this one takes all of it. False for want of memory.
fn four_send_and_one_takes<R: Threads + Wait + Copy + Send + Sync>(
    rt: &R,
    queue: &mut PassQueue<R, u64, ()>,
    a: &mut QueuePass<R, u64, ()>,
    b: &mut QueuePass<R, u64, ()>,
    c: &mut QueuePass<R, u64, ()>,
    d: &mut QueuePass<R, u64, ()>,
) -> bool
    ensures queue { queue.new.queue ≡ queue.old.queue }
    ensures a { a.new.queue ≡ a.old.queue }
    ensures b { b.new.queue ≡ b.old.queue }
    ensures c { c.new.queue ≡ c.old.queue }
    ensures d { d.new.queue ≡ d.old.queue }
{
    let (is_sent, taken) = join_mut(
        rt,
        &mut || four_send(rt, a, b, c, d),
        &mut || take_all(rt, queue, 100_000),
    );
    is_sent && taken.is_ok()
}

/// A list of four passes.
fn four<R: Wait + Copy>(
    alloc: Global,
    a: QueuePass<R, u64, ()>,
    b: QueuePass<R, u64, ()>,
    c: QueuePass<R, u64, ()>,
    d: QueuePass<R, u64, ()>,
) -> Result<List<QueuePass<R, u64, ()>>, Memory>
    ensures { IfOk result (λ passes. passes ≡ a ∷ b ∷ c ∷ d ∷ []) }
{
    let mut passes = List::new(alloc);
    passes.push(a)?;
    passes.push(b)?;
    passes.push(c)?;
    passes.push(d)?;
    Ok(passes)
}

/// How many numbers of this pass were given, or None where one is out of its order.
fn count_of(given: &Given<u64>, pass: u32) -> Option<u64> {
    let mut next: u64 = 0;
    for sent in given.given.as_slice() {
        if sent.pass == pass {
            if sent.item != next || sent.seq != next {
                return None;
            }
            next = next.saturating_add(1);
        }
    }
    Some(next)
}

/// Two threads send, and what each sent was given, whole and in order.
#[test]
fn two_threads_send(rt: HostRuntime) {
    let alloc = rt.alloc();
    let mut queue = PassQueue::new(rt, alloc, 2).expect(&rt, "memory");
    let (mut first, mut second) = two_passes(alloc, &mut queue).expect(&rt, "passes");
    assert!(rt; two_send_and_one_takes(&rt, &mut queue, &mut first, &mut second));
    let passes = List::from_vec(vec![in alloc; first, second].expect(&rt, "memory"));
    let given = queue.finish(passes).ok().expect(&rt, "all passes");
    for pass in [0, 1] {
        assert_eq!(rt; count_of(&given, pass), Some(100));
    }
    assert!(rt; given.left.is_empty());
}

/// Four threads send a hundred thousand numbers through a queue of 64, each again while it is full: all were given, whole and in order.
#[test]
fn four_threads_send_a_hundred_thousand(rt: HostRuntime) {
    let alloc = rt.alloc();
    let mut queue = PassQueue::new(rt, alloc, 64).expect(&rt, "memory");
    let (mut a, mut b) = two_passes(alloc, &mut queue).expect(&rt, "passes");
    let (mut c, mut d) = two_passes(alloc, &mut queue).expect(&rt, "passes");
    assert!(rt; four_send_and_one_takes(&rt, &mut queue, &mut a, &mut b, &mut c, &mut d));
    let passes = four(alloc, d, b, a, c).expect(&rt, "memory");
    let given = queue.finish(passes).ok().expect(&rt, "all passes");
    assert_eq!(rt; given.given.len(), 100_000);
    assert_eq!(rt; given.sent.len(), 4);
    for sent in given.sent.as_slice() {
        assert_eq!(rt; sent.len(), 25_000);
    }
    for pass in 0..4 {
        assert_eq!(rt; count_of(&given, pass), Some(25_000));
    }
    assert!(rt; given.left.is_empty());
}
