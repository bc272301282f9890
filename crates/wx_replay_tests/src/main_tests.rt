// Replays: a script that is too long, reads and writes that fail, and the numbers of statuses. What runs of scripts write stands in the
// folder `data` of `wx_examples`.
use std::alloc::Global;
use std::process::Abort;
use wx_bytes::{LIMIT, MemSink, MemSource};
use wx_replay::{Status, replay};
use wx_text::Memory;

/// What is written for a script, and how its run ends.
pub(crate) fn run(alloc: Global, script: &[u8]) -> Result<(MemSink, Status), Memory> {
    let mut source = MemSource::new(alloc, script)?;
    let mut sink = MemSink::new(alloc);
    let status = replay(alloc, &mut source, &mut sink);
    Ok((sink, status))
}

/// Ends the test where this isn't so of this script.
pub(crate) fn expect_so(rt: &impl Abort, so: bool, script: &[u8]) {
    assert!(rt; so, "of {script:?}");
}

/// Holds what is written for this script to be this text, and the run to end so.
fn expect_text(rt: &impl Abort, alloc: Global, script: &[u8], text: &[u8], want: Status) {
    let (sink, status) = run(alloc, script).expect(rt, "memory for a run");
    expect_so(rt, sink.text().as_slice() == text, script);
    expect_so(rt, status == want, script);
    drop(sink);
}

// Lines whose ends are no end of a form: no line feed, and a space before it.
const ENDS: [&[u8]; 2] = [b"turn 0 work", b"turn 0 work \n"];

#[test]
fn a_line_ends_as_its_form_does(rt: HostRuntime) {
    for script in &ENDS {
        expect_text(&rt, rt.alloc(), script, b"bad line 1\n", Status::NoScript);
    }
}

#[test]
fn the_limit(rt: HostRuntime) {
    let mut bytes = vec![in rt.alloc(); b'#'; LIMIT + 1].expect(&rt, "a long script");
    expect_text(
        &rt,
        rt.alloc(),
        bytes.as_slice(),
        b"too long\n",
        Status::NoScript,
    );
    // one byte less is a comment, but for its line feed
    bytes.pop();
    expect_text(
        &rt,
        rt.alloc(),
        bytes.as_slice(),
        b"bad line 1\n",
        Status::NoScript,
    );
}

/// Ends the test where this isn't so where this call fails.
fn expect_at(rt: &impl Abort, so: bool, call: u64) {
    assert!(rt; so, "at {call}");
}

/// A source of a script that is read in pieces of 5, where this call fails.
fn failing_source(rt: &impl Abort, alloc: Global, call: u64) -> MemSource {
    let at = vec![in alloc; call].expect(rt, "a call");
    let source = MemSource::new(alloc, b"turn 0 work\n").expect(rt, "a source");
    source.in_pieces(5).failing(at)
}

/// A run in which this read fails.
fn expect_no_read(rt: &impl Abort, alloc: Global, call: u64) {
    let mut source = failing_source(rt, alloc, call);
    let mut sink = MemSink::new(alloc);
    let status = replay(alloc, &mut source, &mut sink);
    expect_at(rt, status == Status::ReadFault, call);
    expect_at(rt, sink.text().as_slice().is_empty(), call);
    expect_at(rt, source.faults() == 1, call);
    drop(sink);
    drop(source);
}

#[test]
fn a_failed_read_writes_nothing(rt: HostRuntime) {
    // in pieces of 5 these are four reads, of which the last finds the end
    for call in [1, 2, 3, 4] {
        expect_no_read(&rt, rt.alloc(), call);
    }
}

/// A sink that is written in pieces of 4, where this call fails.
fn failing_sink(rt: &impl Abort, alloc: Global, call: u64) -> MemSink {
    let at = vec![in alloc; call].expect(rt, "a call");
    MemSink::new(alloc).in_pieces(4).failing(at)
}

/// A run in which this write fails, and these bytes were written.
fn expect_no_write(rt: &impl Abort, alloc: Global, call: u64, held: &[u8]) {
    let mut source = MemSource::new(alloc, b"no\n").expect(rt, "a source");
    let mut sink = failing_sink(rt, alloc, call);
    let status = replay(alloc, &mut source, &mut sink);
    expect_at(rt, status == Status::WriteFault, call);
    expect_at(rt, sink.text().as_slice() == held, call);
    expect_at(rt, sink.faults() == 1, call);
    drop(sink);
    drop(source);
}

#[test]
fn a_failed_write_leaves_a_front(rt: HostRuntime) {
    expect_no_write(&rt, rt.alloc(), 1, b"");
    expect_no_write(&rt, rt.alloc(), 2, b"bad ");
    expect_no_write(&rt, rt.alloc(), 3, b"bad line");
}

const CODES: [(Status, u8); 7] = [
    (Status::Done, 0),
    (Status::Critical, 1),
    (Status::Usage, 2),
    (Status::NoScript, 3),
    (Status::ReadFault, 4),
    (Status::WriteFault, 5),
    (Status::Memory, 6),
];

#[test]
fn each_status_has_its_number(rt: HostRuntime) {
    for (status, code) in &CODES {
        assert!(rt; status.code() == *code);
    }
}
