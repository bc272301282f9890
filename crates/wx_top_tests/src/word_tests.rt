// Tests of the words of a call: which of them ask for something.
use std::alloc::Global;
use std::process::Abort;
use std::sync::Wait;
use std::thread::Threads;
use wx_bytes::{MemSink, MemSource};
use wx_mem_live::MemLive;
use wx_replay::Status;
use wx_text::{Memory, Text};
use wx_top::{bad_pattern, wx_main};

/// These words, of which a space stands between two.
fn words_of(alloc: Global, line: &[u8]) -> Result<Vec<Text>, Memory> {
    let mut words = Vec::new(alloc);
    for word in line.split(|byte| *byte == b' ') {
        if !word.is_empty() {
            words.push(Text::from_slice(alloc, word)?)?;
        }
    }
    Ok(words)
}

/// Calls with these words: what was written, and how the call ended.
pub(crate) fn call<R: Threads + Wait + Copy + Send + Sync>(
    rt: &R,
    alloc: Global,
    line: &[u8],
    source: &mut MemSource,
    mut sink: MemSink,
) -> Result<(MemSink, Status), Memory> {
    let words = words_of(alloc, line)?;
    let mut outside = MemLive::new(alloc)?;
    let status = wx_main(rt, alloc, words.as_slice(), source, &mut sink, &mut outside);
    drop(outside);
    Ok((sink, status))
}

/// A source whose first read fails: it tells whether there was one.
pub(crate) fn unread(rt: &impl Abort, alloc: Global) -> MemSource {
    let at = vec![in alloc; 1].expect(rt, "a call");
    MemSource::new(alloc, b"")
        .expect(rt, "a source")
        .failing(at)
}

/// Ends the test where this isn't so of these words.
pub(crate) fn expect_so(rt: &impl Abort, so: bool, line: &[u8]) {
    assert!(rt; so, "of {line:?}");
}

const OTHER_WORDS: [&[u8]; 43] = [
    b"",
    b"Replay",
    b"replay x",
    b"replay replay",
    b"repla",
    b"replays",
    b"flood",
    b"flood 1",
    b"flood 1 0 0",
    b"Flood 1 0",
    b"floods 1 0",
    b"flood 07 1",
    b"flood 7 01",
    b"flood +7 1",
    b"flood -7 1",
    b"flood 7 x",
    b"flood 0x7 1",
    b"flood 100001 1",
    b"flood 18446744073709551616 1",
    b"flood 1 18446744073709551616",
    b"live",
    b"live --",
    b"live true",
    b"Live -- true",
    b"lives -- true",
    b"live - true",
    b"live --turns",
    b"live --turns 4",
    b"live --turns 4 --",
    b"live --turns 4 true",
    b"live --turns -- true",
    b"live --turns 04 -- true",
    b"live --turns 4194305 -- true",
    b"live --ignore",
    b"live --ignore a",
    b"live --ignore -- a",
    b"live --ignore a --",
    b"live --ignore / -- a",
    b"live --ignore a/../b -- a",
    b"live --ignore a --turns 4 -- a",
    b"live --turns 4 --ignore -- a",
    b"live --turns 4 --ignore a b -- a",
    b"live --ignored a -- a",
];

/// These words ask for nothing, and nothing is read or written.
fn expect_usage<R: Abort + Threads + Wait + Copy + Send + Sync>(
    rt: &R,
    alloc: Global,
    line: &[u8],
) {
    let mut source = unread(rt, alloc);
    let (sink, status) = call(rt, alloc, line, &mut source, MemSink::new(alloc)).expect(
        rt,
        "memory for a call",
    );
    expect_so(rt, status == Status::Usage, line);
    expect_so(rt, sink.text().as_slice().is_empty(), line);
    expect_so(rt, source.faults() == 0, line);
    drop(sink);
    drop(source);
}

#[test]
fn other_words_ask_for_nothing(rt: HostRuntime) {
    for line in &OTHER_WORDS {
        expect_usage(&rt, rt.alloc(), line);
    }
}

#[test]
fn a_space_in_a_word_makes_no_two_words(rt: HostRuntime) {
    let mut words = Vec::new(rt.alloc());
    let word = Text::from_slice(rt.alloc(), b"flood 1 0").expect(&rt, "a word");
    words.push(word).expect(&rt, "words");
    let mut source = unread(&rt, rt.alloc());
    let mut sink = MemSink::new(rt.alloc());
    let mut outside = MemLive::new(rt.alloc()).expect(&rt, "an outside");
    let status = wx_main(
        &rt,
        rt.alloc(),
        words.as_slice(),
        &mut source,
        &mut sink,
        &mut outside,
    );
    assert!(rt; status == Status::Usage);
    assert!(rt; sink.text().as_slice().is_empty());
}

#[test]
fn a_replay_reads_and_writes(rt: HostRuntime) {
    let mut source = MemSource::new(rt.alloc(), b"turn 0 wrok\n").expect(&rt, "a source");
    let sink = MemSink::new(rt.alloc());
    let (sink, status) = call(&rt, rt.alloc(), b"replay", &mut source, sink).expect(
        &rt,
        "memory for a call",
    );
    assert!(rt; status == Status::NoScript);
    assert!(rt; sink.text().as_slice() == b"bad line 1\n".as_slice());
    drop(sink);
}

/// How many lines that were written begin so.
fn count(sink: &MemSink, front: &[u8]) -> usize {
    sink.text()
        .as_slice()
        .split(|byte| *byte == 10)
        .filter(|line| line.starts_with(front))
        .count()
}

#[test]
fn a_command_is_spawned_once_where_nothing_changes(rt: HostRuntime) {
    let alloc = rt.alloc();
    let mut source = MemSource::new(alloc, b"").expect(&rt, "a source");
    let (sink, status) = call(
        &rt,
        alloc,
        b"live --turns 4 -- a",
        &mut source,
        MemSink::new(alloc),
    )
    .expect(&rt, "memory for a call");
    assert!(rt; status == Status::Done);
    assert_eq!(rt; count(&sink, b"spawn "), 1);
    assert_eq!(rt; count(&sink, b"spawn 0 0 default ---- 1 a ok"), 1);
    drop(sink);
    drop(source);
}

/// Words that ask for a command, and the number of turns of its run, the last one too.
const COMMANDS: [(&[u8], usize); 5] = [
    (b"live --turns 4 -- a", 5),
    (b"live --turns 0 -- a b --", 1),
    (b"live --turns 3 --ignore out --ignore !/a*/ -- a", 4),
    (b"live --turns 2 --ignore --ignore -- a --ignore", 3),
    (b"live --turns 10 -- live --turns 3 -- a", 11),
];

#[test]
fn a_command_runs_for_so_many_turns(rt: HostRuntime) {
    let alloc = rt.alloc();
    for (line, turns) in &COMMANDS {
        let mut source = MemSource::new(alloc, b"").expect(&rt, "a source");
        let (sink, status) = call(&rt, alloc, line, &mut source, MemSink::new(alloc)).expect(
            &rt,
            "memory for a call",
        );
        expect_so(&rt, status == Status::Done, line);
        expect_so(&rt, count(&sink, b"turn ") == *turns, line);
        drop(sink);
        drop(source);
    }
}

/// The words that run a command for one turn and say so many times that a name is ignored.
fn ignoring(alloc: Global, count: usize) -> Result<Text, Memory> {
    let mut line = Text::from_slice(alloc, b"live --turns 1")?;
    for _ in 0..count {
        line.append(b" --ignore a")?;
    }
    line.append(b" -- a")?;
    Ok(line)
}

#[test]
fn at_most_64_patterns_may_be_said(rt: HostRuntime) {
    let alloc = rt.alloc();
    let most = ignoring(alloc, 64).expect(&rt, "words");
    let mut source = MemSource::new(alloc, b"").expect(&rt, "a source");
    let sink = MemSink::new(alloc);
    let (sink, status) = call(&rt, alloc, most.as_slice(), &mut source, sink).expect(
        &rt,
        "memory for a call",
    );
    assert!(rt; status == Status::Done);
    assert_eq!(rt; count(&sink, b"turn "), 2);
    let more = ignoring(alloc, 65).expect(&rt, "words");
    expect_usage(&rt, alloc, more.as_slice());
    drop(more);
    drop(sink);
    drop(source);
    drop(most);
}

/// Words, and the pattern among them that is none.
const BAD_PATTERNS: [(&[u8], &[u8]); 9] = [
    (b"live --ignore / -- a", b"/"),
    (b"live --ignore !/ -- a", b"!/"),
    (b"live --turns 4 --ignore a --ignore b//c -- a", b"b//c"),
    (b"live --ignore .. --ignore . -- a", b".."),
    // there is none
    (b"live --ignore a -- a", b""),
    (b"live -- a --ignore /", b""),
    (b"live --turns --ignore / -- a", b""),
    (b"replay --ignore /", b""),
    (b"", b""),
];

#[test]
fn the_first_word_is_told_that_is_no_pattern(rt: HostRuntime) {
    for (line, bad) in &BAD_PATTERNS {
        let words = words_of(rt.alloc(), line).expect(&rt, "words");
        let told = match bad_pattern(words.as_slice()) {
            Some(word) => word.as_slice(),
            None => b"",
        };
        expect_so(&rt, told == *bad, line);
    }
}
