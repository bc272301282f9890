// The turns of worlds with handles, and what their outsides are told. The expected lines are worked out by hand.
use crate::trial::{in_memory, lines_of, next_turn, spawn, take_turns, with_ends};
use std::alloc::{Alloc, Global};
use std::process::Abort;
use std::sync::Wait;
use wx_control::Flag;
use wx_handles::{Lent, Live, Parts, ThreadWorld};
use wx_hooks::World;
use wx_job::Host;
use wx_journal::TurnKind;
use wx_mem_live::MemLive;
use wx_text::{Memory, Text};
use wx_watch::Watcher;

const ROUNDS: &str = "\
turn 1000000 keys 2 7 8
turn 2000000 work
turn 3000000 job 0
turn 4000000 job 1
turn 5000000 listen
turn 6000000 file
turn 7000000 work
turn 8000000 job 0
turn 9000000 keys 1 9
turn 10000000 job 1
turn 11000000 last
turn 12000000 last
";

/// The lines that the outside of this world was told.
fn lines_told<R: Wait + Copy>(
    alloc: Global,
    world: ThreadWorld<R, MemLive>,
) -> Result<Text, Memory> {
    let Parts { live, items: _ } = world.into_parts();
    lines_of(alloc, live.told())
}

/// Keys come before the next of the round, and the last turns when all others were given. Each moment is a millisecond later. The
/// outside was told each turn.
#[test]
fn keys_come_before_rounds(rt: HostRuntime) {
    let alloc = rt.alloc();
    let (mut world, mut pass) = in_memory(rt, alloc, 10, 2, 1).expect(&rt, "memory");
    assert_eq!(rt; pass.keys(alloc, &[7, 8]), Ok(()));
    assert!(rt; take_turns(&mut world, 8));
    assert_eq!(rt; pass.keys(alloc, &[9]), Ok(()));
    assert!(rt; take_turns(&mut world, 4));
    let told = lines_told(alloc, world).expect(&rt, "memory");
    assert_eq!(rt; told.as_slice(), ROUNDS.as_bytes());
}

/// Whether the next turn brings keys.
fn is_keys<W: World>(world: &mut W) -> bool {
    match next_turn(world) {
        Some(next) => matches!(&next.turn.kind, TurnKind::Keys(_)),
        None => false,
    }
}

/// Whether the next turn is the one of work.
fn is_work<W: World>(world: &mut W) -> bool {
    match next_turn(world) {
        Some(next) => matches!(&next.turn.kind, TurnKind::Work),
        None => false,
    }
}

/// Whether the next turn tells the end of this child.
fn is_end<W: World>(world: &mut W, child: u64) -> bool {
    match next_turn(world) {
        Some(next) => matches!(&next.turn.kind, TurnKind::Ended(found) if *found == child),
        None => false,
    }
}

/// What the queue has comes first, then the ends that are left, in their order, and then the round.
#[test]
fn ends_come_before_rounds(rt: HostRuntime) {
    let alloc = rt.alloc();
    let (mut world, mut pass) = with_ends(rt, alloc, 10, 1).expect(&rt, "memory");
    assert!(rt; spawn(alloc, &mut world, 5) && spawn(alloc, &mut world, 3));
    assert_eq!(rt; pass.keys(alloc, &[9]), Ok(()));
    assert!(rt; is_keys(&mut world));
    assert!(rt; is_end(&mut world, 5));
    assert!(rt; is_end(&mut world, 3));
    assert!(rt; is_work(&mut world));
}

const CALLS: &str = "\
make 0 native on ok
word quiet
ready 1
";

/// Makes a backend, and asks it what it brings. False where it wasn't made, or brings something.
fn makes_quiet_backend<W: World>(world: &mut W) -> bool {
    if world.reserve(2).is_err() {
        return false;
    }
    match world.make_backend(0, Watcher::Native, true) {
        Ok(mut back) => world.listen(0, 0, &mut back).is_none(),
        Err(_) => false,
    }
}

/// A backend that is made and brings nothing, and a revision that is ready, are told to the outside. The flag of the revision is raised.
#[test]
fn calls_are_told_to_the_outside(rt: HostRuntime) {
    let alloc = rt.alloc();
    let flag = Flag::new(alloc, false).expect(&rt, "memory");
    let (mut world, _pass) = in_memory(rt, alloc, 1, 1, 1).expect(&rt, "memory");
    assert!(rt; makes_quiet_backend(&mut world));
    world.reserve(1).expect(&rt, "memory");
    world.ready(1, &flag);
    assert!(rt; flag.raised());
    let told = lines_told(alloc, world).expect(&rt, "memory");
    assert_eq!(rt; told.as_slice(), CALLS.as_bytes());
}

/// Takes two turns of a world over an outside that is lent, behind one key. False where that failed.
fn two_lent_turns<R: Wait + Copy>(rt: R, alloc: Global, live: &mut MemLive) -> bool {
    let lent = Lent::new(live);
    let Ok((mut world, mut pass)) = ThreadWorld::<R, Lent<MemLive>>::new(rt, alloc, lent, 2, 1, 1)
    else {
        return false;
    };
    let is_sent = pass.keys(alloc, b"q").is_ok();
    is_sent && take_turns(&mut world, 2)
}

/// An outside that was lent to a world has all that it was told, and its moments go on.
#[test]
fn outside_that_was_lent_comes_back(rt: HostRuntime) {
    let alloc = rt.alloc();
    let mut live = MemLive::new(alloc).expect(&rt, "memory");
    assert!(rt; two_lent_turns(rt, alloc, &mut live));
    let told = lines_of(alloc, live.told()).expect(&rt, "memory");
    let want = "turn 1000000 keys 1 113\nturn 2000000 work\n";
    assert_eq!(rt; told.as_slice(), want.as_bytes());
    assert_eq!(rt; live.now(), 3_000_000);
    assert_eq!(rt; live.ended(), None);
    let folder = live.folder().expect(&rt, "memory");
    assert_eq!(rt; folder.text().as_slice(), b"/".as_slice());
}
