// Tests of a whole run over an outside in memory.
use crate::trial::{command, count};
use std::alloc::{Alloc, Global};
use std::process::Abort;
use wx_bytes::{MemSink, MemSource};
use wx_live_run::live;
use wx_mem_live::MemLive;
use wx_print::print_journal;
use wx_replay::Status;
use wx_text::{Memory, Text};

/// The first words of entries that are calls on the outside, with what stands behind them.
const CALLS: [&[u8]; 11] = [
    b"turn ",
    b"spawn ",
    b"signal ",
    b"kill ",
    b"wait ",
    b"drop ",
    b"raise ",
    b"gone ",
    b"make ",
    b"brought ",
    b"ready ",
];

/// Whether a line is a call on the outside, where this one stands before it.
fn is_call(before: &[u8], line: &[u8]) -> bool {
    if line == b"word quiet".as_slice() {
        return before.ends_with(b" listen");
    }
    CALLS.iter().any(|word| line.starts_with(word))
}

/// The lines of the calls on the outside.
fn calls(alloc: Global, text: &Text) -> Result<Text, Memory> {
    let mut out = Text::new(alloc);
    let mut before: &[u8] = b"";
    for line in text.as_slice().split(|byte| *byte == 10) {
        if is_call(before, line) {
            out.append(line)?;
            out.push(10)?;
        }
        before = line;
    }
    Ok(out)
}

/// The lines of what the outside was told.
fn told(alloc: Global, outside: &MemLive) -> Result<Text, Memory> {
    let text = print_journal(alloc, outside.told(), &Ok(()))?;
    let mut out = Text::new(alloc);
    for line in text.as_slice().split(|byte| *byte == 10) {
        if !line.is_empty() && !line.starts_with(b"end ") {
            out.append(line)?;
            out.push(10)?;
        }
    }
    drop(text);
    Ok(out)
}

#[test]
fn the_command_is_spawned_once_and_the_outside_is_told_just_its_calls(rt: HostRuntime) {
    let alloc = rt.alloc();
    let mut outside = MemLive::new(alloc).expect(&rt, "an outside");
    let mut source = MemSource::new(alloc, b"").expect(&rt, "a source");
    let mut sink = MemSink::new(alloc);
    let runs = command(alloc).expect(&rt, "a command");
    let status = live(
        &rt,
        alloc,
        4,
        &[],
        &runs,
        &mut source,
        &mut sink,
        &mut outside,
    );
    assert!(rt; status == Status::Done);
    assert_eq!(rt; count(sink.text(), b"spawn ", b""), 1);
    let spawned = b"spawn 0 0 default ---- 1 a ok".as_slice();
    assert_eq!(rt; count(sink.text(), spawned, spawned), 1);
    assert_eq!(rt; count(sink.text(), b"end ok lost 0", b"end ok lost 0"), 1);
    let of_journal = calls(alloc, sink.text()).expect(&rt, "memory");
    let of_outside = told(alloc, &outside).expect(&rt, "memory");
    assert!(rt; of_journal == of_outside);
    assert_eq!(rt; count(&of_outside, b"turn ", b""), 5);
    drop(of_outside);
    drop(of_journal);
    drop(runs);
    drop(outside);
    drop(sink);
    drop(source);
}

#[test]
fn a_failed_write_leaves_a_front_of_the_journal(rt: HostRuntime) {
    let alloc = rt.alloc();
    let at = vec![in alloc; 2].expect(&rt, "a number");
    let mut outside = MemLive::new(alloc).expect(&rt, "an outside");
    let mut source = MemSource::new(alloc, b"").expect(&rt, "a source");
    let mut sink = MemSink::new(alloc).in_pieces(6).failing(at);
    let runs = command(alloc).expect(&rt, "a command");
    let status = live(
        &rt,
        alloc,
        4,
        &[],
        &runs,
        &mut source,
        &mut sink,
        &mut outside,
    );
    assert!(rt; status == Status::WriteFault);
    assert!(rt; sink.text().as_slice() == b"begin ".as_slice());
    drop(runs);
    drop(outside);
    drop(sink);
    drop(source);
}
