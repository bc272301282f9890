// Where memory is refused: `tools/refused_memory.py --sends` refuses each allocation once.
ghost use Rattle.std.specs.Prelude.{◌≡◌, [], IfOk, IfSome};

use crate::trial::{in_memory, job_of, next_turn, start};
use std::alloc::{Alloc, Global};
use std::process::Abort;
use std::sync::Wait;
use wx_control::{Ask, Control, Id, Job, Refused};
use wx_handles::{Given, HandlePass, Item, Sent, SplitRefused, ThreadWorld};
use wx_hooks::World;
use wx_job::Outside;
use wx_mem_live::MemLive;
use wx_text::{List, Memory};

/// A world with room for ten items, made again where memory is refused, and its first handle.
fn world<R: Wait + Copy>(
    rt: R,
    alloc: Global,
) -> Result<(ThreadWorld<R, MemLive>, HandlePass<R>), Memory>
    ensures { IfOk result (λ made. made.1.pass.queue ≡ (⟦<ThreadWorld<R, MemLive> as Outside>⟧.seen made.0).plan.queue) }
{
    match in_memory(rt, alloc, 10, 1, 10) {
        Ok(made) => Ok(made),
        Err(Memory) => in_memory(rt, alloc, 10, 1, 10),
    }
}

/// A further handle, asked for again where memory is refused.
fn split<R: Wait + Copy>(world: &mut ThreadWorld<R, MemLive>) -> Option<HandlePass<R>>
    ensures own { IfSome result (λ p. p.pass.queue ≡ (⟦<ThreadWorld<R, MemLive> as Outside>⟧.seen world.old).plan.queue) }
    ensures kept { (⟦<ThreadWorld<R, MemLive> as Outside>⟧.seen world.new).plan.queue ≡ (⟦<ThreadWorld<R, MemLive> as Outside>⟧.seen world.old).plan.queue }
{
    match world.split() {
        Ok(pass) => Some(pass),
        Err(SplitRefused::Memory) => world.split().ok(),
        Err(SplitRefused::Spent) => None,
    }
}

/// Asks for a start, and again where memory is refused.
fn ask<R: Wait + Copy>(alloc: Global, job: &Job, pass: &mut HandlePass<R>) -> bool
    ensures { pass.new.pass.queue ≡ pass.old.pass.queue }
{
    match start(alloc, job, pass) {
        Ok(()) => true,
        Err(Refused::Memory) => start(alloc, job, pass).is_ok(),
        Err(Refused::Full) => false,
    }
}

/// Sends a key, and again where memory is refused.
fn key<R: Wait + Copy>(alloc: Global, pass: &mut HandlePass<R>, key: u8) -> bool
    ensures { pass.new.pass.queue ≡ pass.old.pass.queue }
{
    match pass.keys(alloc, &[key]) {
        Ok(()) => true,
        Err(Refused::Memory) => pass.keys(alloc, &[key]).is_ok(),
        Err(Refused::Full) => false,
    }
}

/// Asks for two starts, and sends three keys between them. The list of what was sent begins with an ask, and grows with one.
fn asks_and_keys<R: Wait + Copy>(alloc: Global, job: &Job, pass: &mut HandlePass<R>) -> bool
    ensures { pass.new.pass.queue ≡ pass.old.pass.queue }
{
    let one = ask(alloc, job, pass);
    let two = key(alloc, pass, b'a');
    let three = key(alloc, pass, b'b');
    let four = key(alloc, pass, b'c');
    let five = ask(alloc, job, pass);
    one && two && three && four && five
}

/// Sends five keys. The list of what was sent begins with a key, and grows with one.
fn five_keys<R: Wait + Copy>(alloc: Global, pass: &mut HandlePass<R>) -> bool
    ensures { pass.new.pass.queue ≡ pass.old.pass.queue }
{
    let one = key(alloc, pass, b'd');
    let two = key(alloc, pass, b'e');
    let three = key(alloc, pass, b'f');
    let four = key(alloc, pass, b'g');
    let five = key(alloc, pass, b'h');
    one && two && three && four && five
}

/// Takes a turn, in room that is asked for again where memory is refused.
fn turn<W: World>(world: &mut W) -> bool
    ensures { (W.seen world.new).plan ≡ (W.seen world.old).plan }
{
    match next_turn(world) {
        Some(_) => true,
        None => next_turn(world).is_some(),
    }
}

/// Takes three such turns.
fn three_turns<W: World>(world: &mut W) -> bool
    ensures { (W.seen world.new).plan ≡ (W.seen world.old).plan }
{
    let one = turn(world);
    let two = turn(world);
    let three = turn(world);
    one && two && three
}

/// A job, made again where memory is refused.
fn job(alloc: Global) -> Option<Job> {
    match job_of(alloc, Id(0)) {
        Ok(job) => Some(job),
        Err(Memory) => job_of(alloc, Id(0)).ok(),
    }
}

/// Room for two handles, asked for again where memory is refused.
fn room<R: Wait + Copy>(alloc: Global) -> Option<Vec<HandlePass<R>>>
    ensures { IfSome result (λ passes. passes.items ≡ []) }
{
    match Vec::with_capacity(alloc, 2) {
        Ok(passes) => Some(passes),
        Err(_) => Vec::with_capacity(alloc, 2).ok(),
    }
}

/// What was given and is left, where both handles are handed in, in room that was taken.
fn finish<R: Wait + Copy>(
    world: ThreadWorld<R, MemLive>,
    passes: Vec<HandlePass<R>>,
    first: HandlePass<R>,
    second: HandlePass<R>,
) -> Option<Given>
    requires empty { passes.items ≡ [] }
    requires first { first.pass.queue ≡ (⟦<ThreadWorld<R, MemLive> as Outside>⟧.seen world).plan.queue }
    requires second { second.pass.queue ≡ (⟦<ThreadWorld<R, MemLive> as Outside>⟧.seen world).plan.queue }
{
    let mut passes = passes;
    passes.push(first).ok()?;
    passes.push(second).ok()?;
    world.finish(List::from_vec(passes)).ok()
}

/// What is sent, in order: by which handle, its number among those of this handle, and its letter.
const SENDS: [(u32, u64, u8); 10] = [
    (0, 0, b'S'),
    (0, 1, b'a'),
    (0, 2, b'b'),
    (0, 3, b'c'),
    (0, 4, b'S'),
    (1, 0, b'd'),
    (1, 1, b'e'),
    (1, 2, b'f'),
    (1, 3, b'g'),
    (1, 4, b'h'),
];

/// A key, or `S` for an ask for a start of job 0.
fn letter_of(item: &Item) -> u8 {
    match item {
        Item::Ask(Id(0), ask) if *ask == Ask::One(Control::Start) => b'S',
        Item::Keys(bytes) => match bytes.as_slice() {
            [key] => *key,
            _ => b'?',
        },
        _ => b'?',
    }
}

/// Whether these are just those.
fn are(sent: &[Sent<Item>], wanted: &[(u32, u64, u8)]) -> bool {
    if sent.len() != wanted.len() {
        return false;
    }
    for (place, (pass, seq, letter)) in wanted.iter().enumerate() {
        let Some(one) = sent.get(place) else {
            return false;
        };
        if (one.pass, one.seq) != (*pass, *seq) || letter_of(&one.item) != *letter {
            return false;
        }
    }
    true
}

/// Whether each handle sent its half, the first six were given, and the others are left.
fn is_all(given: &Given) -> bool {
    let is_sent = match given.sent.as_slice() {
        [first, second] => {
            are(first.as_slice(), &SENDS[..5]) && are(second.as_slice(), &SENDS[5..])
        }
        _ => false,
    };
    is_sent && are(given.given.as_slice(), &SENDS[..6]) && are(given.left.as_slice(), &SENDS[6..])
}

/// Each call is tried again where memory was refused: what was refused stands in no list, and what was sent was given or is left, in
/// order.
#[test]
fn nothing_is_lost_where_memory_is_refused(rt: HostRuntime) {
    let alloc = rt.alloc();
    let passes = room(alloc).expect(&rt, "room");
    let job = job(alloc).expect(&rt, "a job");
    let (mut world, mut first) = world(rt, alloc).expect(&rt, "a world");
    let mut second = split(&mut world).expect(&rt, "a handle");
    assert!(rt; asks_and_keys(alloc, &job, &mut first));
    assert!(rt; three_turns(&mut world));
    assert!(rt; five_keys(alloc, &mut second));
    assert!(rt; three_turns(&mut world));
    let given = finish(world, passes, first, second).expect(&rt, "both handles");
    assert!(rt; is_all(&given));
}
