// One thread: what is refused, and what `finish` gives. The expected values are worked out by hand.
ghost use Rattle.std.specs.Prelude.{◌≡◌, ◌∷◌, [], IfOk, IfSome};

use std::alloc::{Alloc, Global};
use std::process::Abort;
use std::sync::Wait;
use wx_queue::{PASSES, Parcel, PassQueue, QueuePass, Refused, Sent, SplitRefused};
use wx_text::{List, Memory};

/// Sends a number.
pub(crate) fn send<R: Wait + Copy>(
    pass: &mut QueuePass<R, u64, ()>,
    number: u64,
) -> Result<(), Refused>
    ensures { pass.new.queue ≡ pass.old.queue }
{
    pass.send(
        number,
        Parcel {
            item: number,
            second: number,
            third: number,
            done: (),
        },
    )
}

/// Two passes of the queue.
pub(crate) fn two_passes<R: Wait + Copy>(
    alloc: Global,
    queue: &mut PassQueue<R, u64, ()>,
) -> Option<(QueuePass<R, u64, ()>, QueuePass<R, u64, ()>)>
    ensures own { IfSome result (λ passes. (passes.0.queue ≡ queue.old.queue) × (passes.1.queue ≡ queue.old.queue)) }
    ensures kept { queue.new.queue ≡ queue.old.queue }
{
    let first = queue.split(alloc).ok()?;
    match queue.split(alloc) {
        Ok(second) => Some((first, second)),
        Err(_) => {
            drop(first);
            None
        }
    }
}

/// A list of one pass.
fn one<R: Wait + Copy>(
    alloc: Global,
    pass: QueuePass<R, u64, ()>,
) -> Result<List<QueuePass<R, u64, ()>>, Memory>
    ensures { IfOk result (λ passes. passes ≡ pass ∷ []) }
{
    let mut passes = List::new(alloc);
    passes.push(pass)?;
    Ok(passes)
}

/// Takes the next item, in room that is asked for, and compares it with this one of pass 0.
fn takes<R: Wait + Copy>(queue: &mut PassQueue<R, u64, ()>, seq: u64, number: u64) -> bool
    ensures { queue.new.queue ≡ queue.old.queue }
{
    if queue.reserve(1).is_err() {
        return false;
    }
    match queue.take() {
        Some(taken) => {
            (taken.pass, taken.seq) == (0, seq) && (taken.second, taken.third) == (number, number)
        }
        None => false,
    }
}

/// What is sent into a full queue is refused, and stands in no list.
#[test]
fn full_queue_refuses_what_is_sent(rt: HostRuntime) {
    let alloc = rt.alloc();
    let mut queue = PassQueue::new(rt, alloc, 1).expect(&rt, "memory");
    let mut pass = queue.split(alloc).ok().expect(&rt, "a pass");
    assert_eq!(rt; send(&mut pass, 7), Ok(()));
    assert_eq!(rt; send(&mut pass, 8), Err(Refused::Full));
    let passes = List::from_vec(vec![in alloc; pass].expect(&rt, "memory"));
    let given = queue.finish(passes).ok().expect(&rt, "all passes");
    let first = Sent {
        pass: 0,
        seq: 0,
        item: 7,
    };
    assert!(rt; given.given.is_empty());
    assert_eq!(rt; given.left.as_slice(), [first].as_slice());
    assert_eq!(rt; given.sent.len(), 1);
    assert_eq!(rt; given.sent.as_slice()[0].as_slice(), [first].as_slice());
}

/// What was taken, and then what is left, is what was sent, in this order.
#[test]
fn what_is_taken_comes_in_order(rt: HostRuntime) {
    let alloc = rt.alloc();
    let mut queue = PassQueue::new(rt, alloc, 3).expect(&rt, "memory");
    let mut pass = queue.split(alloc).ok().expect(&rt, "a pass");
    assert_eq!(rt; send(&mut pass, 5), Ok(()));
    assert_eq!(rt; send(&mut pass, 6), Ok(()));
    assert_eq!(rt; send(&mut pass, 7), Ok(()));
    assert!(rt; takes(&mut queue, 0, 5));
    assert!(rt; takes(&mut queue, 1, 6));
    let passes = one(alloc, pass).expect(&rt, "memory");
    let given = queue.finish(passes).ok().expect(&rt, "all passes");
    assert_eq!(rt; (given.given.len(), given.left.len()), (2, 1));
    assert_eq!(rt; given.left.as_slice()[0].item, 7);
}

/// Nothing is taken of an empty queue.
#[test]
fn empty_queue_gives_nothing(rt: HostRuntime) {
    let alloc = rt.alloc();
    let mut queue = PassQueue::<HostRuntime, u64, ()>::new(rt, alloc, 1).expect(&rt, "memory");
    queue.reserve(1).expect(&rt, "memory");
    assert!(rt; queue.take().is_none());
}

/// Sixteen passes are made, each with the next number, and then none.
#[test]
fn sixteen_passes_are_made(rt: HostRuntime) {
    let alloc = rt.alloc();
    let mut queue = PassQueue::<HostRuntime, u64, ()>::new(rt, alloc, 1).expect(&rt, "memory");
    for number in 0..PASSES {
        assert_eq!(rt; queue.made(), number);
        assert!(rt; queue.split(alloc).is_ok());
    }
    assert_eq!(rt; queue.split(alloc).err(), Some(SplitRefused::Spent));
}

/// Where a pass is missing, all is given back, with how many were made.
#[test]
fn missing_pass_gives_all_back(rt: HostRuntime) {
    let alloc = rt.alloc();
    let mut queue = PassQueue::<HostRuntime, u64, ()>::new(rt, alloc, 1).expect(&rt, "memory");
    let (first, second) = two_passes(alloc, &mut queue).expect(&rt, "passes");
    drop(first);
    let passes = one(alloc, second).expect(&rt, "memory");
    let missing = queue.finish(passes).err().expect(&rt, "a pass is missing");
    assert_eq!(rt; (missing.made, missing.passes.len()), (2, 1));
    assert_eq!(rt; missing.queue.made(), 2);
}
