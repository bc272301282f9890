// Handles that are used by two threads.
ghost use Rattle.std.specs.Prelude.{◌≡◌};

use crate::trial::{finish_two, in_memory, job_of, start, take_turns};
use std::alloc::{Alloc, Global};
use std::process::Abort;
use std::sync::Wait;
use std::thread;
use std::thread::{Threads, join_mut};
use wx_control::{Ask, Control, Flag, Id, Job};
use wx_handles::{Given, HandlePass, Item, Sent};

/// Asks for a start, and then for a stop. False where that was refused.
fn start_and_stop<R: Wait + Copy>(alloc: Global, job: &Job, pass: &mut HandlePass<R>) -> bool
    ensures { pass.new.pass.queue ≡ pass.old.pass.queue }
{
    let is_started = start(alloc, job, pass).is_ok();
    is_started && job.stop(alloc, pass).is_ok()
}

/// A thread asks for a start and a stop by one handle, while another asks for a start by the other.
fn both_ask<R: Threads + Wait + Copy + Send + Sync>(
    rt: &R,
    alloc: Global,
    job: &Job,
    a: &mut HandlePass<R>,
    b: &mut HandlePass<R>,
) -> bool
    ensures a { a.new.pass.queue ≡ a.old.pass.queue }
    ensures b { b.new.pass.queue ≡ b.old.pass.queue }
{
    let (one, two) = join_mut(
        rt,
        &mut || start_and_stop(alloc, job, a),
        &mut || start(alloc, job, b),
    );
    one && two.is_ok()
}

/// Whether these are asks of job 0 for these controls, numbered in order.
fn are_asks(sent: &[Sent<Item>], controls: &[Control]) -> bool {
    if sent.len() != controls.len() {
        return false;
    }
    for (place, control) in controls.iter().enumerate() {
        let Some(one) = sent.get(place) else {
            return false;
        };
        let is_asked = match &one.item {
            Item::Ask(Id(0), ask) => *ask == Ask::One(*control),
            _ => false,
        };
        if one.seq != place as u64 || !is_asked {
            return false;
        }
    }
    true
}

/// Whether the first handle sent a start and a stop, the second a start, all three were given, and nothing is left.
fn are_both_given(given: &Given) -> bool {
    let are_sent = match given.sent.as_slice() {
        [first, second] => {
            are_asks(first.as_slice(), &[Control::Start, Control::Stop])
                && are_asks(second.as_slice(), &[Control::Start])
        }
        _ => false,
    };
    are_sent && given.given.len() == 3 && given.left.is_empty()
}

/// Two threads ask by a handle each, and three turns are given: each list is what its thread sent, and nothing is left.
#[test]
fn two_threads_ask_for_starts_and_a_stop(rt: HostRuntime) {
    let alloc = rt.alloc();
    let job = job_of(alloc, Id(0)).expect(&rt, "memory");
    let (mut world, mut a) = in_memory(rt, alloc, 10, 1, 8).expect(&rt, "memory");
    let mut b = world.split().ok().expect(&rt, "a handle");
    assert!(rt; both_ask(&rt, alloc, &job, &mut a, &mut b));
    assert!(rt; take_turns(&mut world, 3));
    let given = finish_two(alloc, world, a, b).expect(&rt, "both handles");
    assert!(rt; are_both_given(&given));
}

/// How often a thread looks at the flag of another at most.
const LOOKS: u32 = 100_000_000;

/// Asks for a start, raises its own flag, and looks at the other's. False where the ask was refused, or the flag was never seen.
fn start_and_look<R: Wait + Copy>(
    alloc: Global,
    job: &Job,
    pass: &mut HandlePass<R>,
    own: &Flag,
    other: &Flag,
) -> bool
    ensures { pass.new.pass.queue ≡ pass.old.pass.queue }
{
    let is_started = start(alloc, job, pass).is_ok();
    own.raise();
    for _ in 0..LOOKS {
        if other.raised() {
            return is_started;
        }
        thread::yield_now();
    }
    false
}

/// Two threads ask for a start by a handle each, and look at each other's flag.
fn both_look<R: Threads + Wait + Copy + Send + Sync>(
    rt: &R,
    alloc: Global,
    job: &Job,
    a: &mut HandlePass<R>,
    b: &mut HandlePass<R>,
    flags: &(Flag, Flag),
) -> bool
    ensures a { a.new.pass.queue ≡ a.old.pass.queue }
    ensures b { b.new.pass.queue ≡ b.old.pass.queue }
{
    let (one, two) = join_mut(
        rt,
        &mut || start_and_look(alloc, job, a, &flags.0, &flags.1),
        &mut || start_and_look(alloc, job, b, &flags.1, &flags.0),
    );
    one && two
}

/// Two handles are used at once: each of two threads sees the flag that the other raised behind its ask.
#[test]
fn two_handles_are_used_at_once(rt: HostRuntime) {
    let alloc = rt.alloc();
    let job = job_of(alloc, Id(0)).expect(&rt, "memory");
    let of_a = Flag::new(alloc, false).expect(&rt, "memory");
    let of_b = Flag::new(alloc, false).expect(&rt, "memory");
    let (mut world, mut a) = in_memory(rt, alloc, 1, 1, 2).expect(&rt, "memory");
    let mut b = world.split().ok().expect(&rt, "a handle");
    assert!(rt; both_look(&rt, alloc, &job, &mut a, &mut b, &(of_a, of_b)));
    let given = finish_two(alloc, world, b, a).expect(&rt, "both handles");
    assert_eq!(rt; (given.given.len(), given.left.len()), (0, 2));
}
