// What worlds with handles give when they are finished. The expected values are worked out by hand.
ghost use Rattle.std.specs.Prelude.{◌≡◌};

use crate::trial::{finish_one, in_memory, job_of, one, start};
use std::alloc::{Alloc, Global};
use std::process::Abort;
use std::sync::Wait;
use wx_control::{Id, Refused};
use wx_handles::{Given, HandlePass, SplitRefused, ThreadWorld};
use wx_job::Outside;
use wx_mem_live::MemLive;

/// Whether one item was sent by one handle, none was given, and the first of handle 0 is left.
fn is_one_left(given: &Given) -> bool {
    match (given.sent.as_slice(), given.left.as_slice()) {
        ([sent], [left]) => {
            given.given.is_empty() && sent.len() == 1 && (left.pass, left.seq) == (0, 0)
        }
        _ => false,
    }
}

/// Of two sends into a queue of one, the second is refused: one item was sent, and it is left.
#[test]
fn full_queue_refuses_an_ask(rt: HostRuntime) {
    let alloc = rt.alloc();
    let job = job_of(alloc, Id(0)).expect(&rt, "memory");
    let (world, mut pass) = in_memory(rt, alloc, 1, 1, 1).expect(&rt, "memory");
    assert_eq!(rt; start(alloc, &job, &mut pass), Ok(()));
    assert_eq!(rt; start(alloc, &job, &mut pass), Err(Refused::Full));
    assert_eq!(rt; pass.keys(alloc, b"q"), Err(Refused::Full));
    let given = finish_one(alloc, world, pass).expect(&rt, "all handles");
    assert!(rt; is_one_left(&given));
}

/// Makes three handles more, which are let go. False where one was refused.
fn three_more<R: Wait + Copy>(world: &mut ThreadWorld<R, MemLive>) -> bool
    ensures { (⟦<ThreadWorld<R, MemLive> as Outside>⟧.seen world.new).plan.queue ≡ (⟦<ThreadWorld<R, MemLive> as Outside>⟧.seen world.old).plan.queue }
{
    let one = world.split().is_ok();
    let two = world.split().is_ok();
    let three = world.split().is_ok();
    one && two && three
}

/// Makes fifteen handles more, which are let go. False where one was refused.
fn fifteen_more<R: Wait + Copy>(world: &mut ThreadWorld<R, MemLive>) -> bool
    ensures { (⟦<ThreadWorld<R, MemLive> as Outside>⟧.seen world.new).plan.queue ≡ (⟦<ThreadWorld<R, MemLive> as Outside>⟧.seen world.old).plan.queue }
{
    let one = three_more(world);
    let two = three_more(world);
    let three = three_more(world);
    let four = three_more(world);
    let five = three_more(world);
    one && two && three && four && five
}

/// How many handles were made, and how many came back, where some are missing beside this one.
fn made_and_back<R: Wait + Copy>(
    alloc: Global,
    world: ThreadWorld<R, MemLive>,
    pass: HandlePass<R>,
) -> Option<(u32, usize)>
    requires own { pass.pass.queue ≡ (⟦<ThreadWorld<R, MemLive> as Outside>⟧.seen world).plan.queue }
{
    let passes = one(alloc, pass).ok()?;
    let missing = world.finish(passes).err()?;
    Some((missing.made, missing.passes.len()))
}

/// Sixteen handles are made, with the first one. Where fewer are handed in, all is given back, with how many were made.
#[test]
fn sixteen_handles_are_made(rt: HostRuntime) {
    let alloc = rt.alloc();
    let (mut world, first) = in_memory(rt, alloc, 1, 1, 1).expect(&rt, "memory");
    assert!(rt; fifteen_more(&mut world));
    assert_eq!(rt; world.split().err(), Some(SplitRefused::Spent));
    assert_eq!(rt; made_and_back(alloc, world, first), Some((16, 1)));
}

/// Of two handles one is missing: it is said that two were made.
#[test]
fn missing_handle_is_told(rt: HostRuntime) {
    let alloc = rt.alloc();
    let (mut world, first) = in_memory(rt, alloc, 1, 1, 1).expect(&rt, "memory");
    assert!(rt; world.split().is_ok());
    assert_eq!(rt; made_and_back(alloc, world, first), Some((2, 1)));
}
