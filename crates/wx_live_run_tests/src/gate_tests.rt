// A test that keys are heard while the command runs.
use crate::gate::{GateLive, GateSource};
use crate::trial::{command, count};
use std::alloc::{Alloc, Global};
use std::process::Abort;
use wx_bytes::MemSink;
use wx_control::Flag;
use wx_live_run::live;
use wx_mem_live::MemLive;
use wx_replay::Status;
use wx_text::{Copies, List, Memory};

/// An outside and a source that share these flags.
fn gates(alloc: Global) -> Result<(GateLive, GateSource), Memory> {
    let spawned = Flag::new(alloc, false)?;
    let first = Flag::new(alloc, false)?;
    let second = Flag::new(alloc, false)?;
    let mut awaited = List::new(alloc);
    awaited.push(first.copy(alloc)?)?;
    awaited.push(second.copy(alloc)?)?;
    let outside = GateLive {
        inner: MemLive::new(alloc)?,
        spawned: spawned.copy(alloc)?,
        awaited,
        rounds: 0,
        seen: 0,
    };
    let source = GateSource {
        spawned,
        first,
        second,
        reads: 0,
        has_seen: false,
    };
    Ok((outside, source))
}

#[test]
fn a_key_is_heard_between_the_spawn_and_the_third_round(rt: HostRuntime) {
    let alloc = rt.alloc();
    let (mut outside, mut source) = gates(alloc).expect(&rt, "flags");
    let mut sink = MemSink::new(alloc);
    let runs = command(alloc).expect(&rt, "a command");
    let status = live(
        &rt,
        alloc,
        100,
        &[],
        &runs,
        &mut source,
        &mut sink,
        &mut outside,
    );
    assert!(rt; status == Status::Done);
    assert!(rt; source.has_seen);
    assert_eq!(rt; outside.seen, 2);
    assert!(rt; count(sink.text(), b"turn ", b" keys 1 120") > 0);
    drop(runs);
    drop(outside);
    drop(source);
    drop(sink);
}
