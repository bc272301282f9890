// What filters, makers of backends and hosts answer, as words.
use crate::expecting::{expect_no, expect_yes};
use std::alloc::Global;
use std::num::NonZeroI32;
use std::process::Abort;
use wx_error::RuntimeError;
use wx_events::ProcessEnd;
use wx_journal::{BackedRef, HostFault, VerdictRef, read_backed, read_verdict};
use wx_text::{Memory, Text};
use wx_watch::NotifyFault;
use wx_words::{Fields, ResultRef, Spelled, Words, read_result};

/// Whether these words, each behind a space, are those of this whole line, of which nothing is left.
fn is_whole(written: &Text, words: &Words, line: &str) -> bool {
    words.is_done() && written.as_slice().strip_prefix(b" ") == Some(line.as_bytes())
}

/// The words of an answer of a filter, where there is one.
fn verdict_words(
    alloc: Global,
    found: &Option<Result<bool, RuntimeError>>,
) -> Result<Text, Memory> {
    let mut text = Text::new(alloc);
    if let Some(answer) = found {
        VerdictRef { answer }.put_fields(&mut text)?;
    }
    Ok(text)
}

/// Whether this whole line is the answer of a filter, and is written so again. The answer is dropped by generic code, which is
/// quicker to prove.
fn is_verdict(alloc: Global, line: &str) -> Result<bool, Memory> {
    let mut words = Words::new(line.as_bytes());
    let found = read_verdict(alloc, &mut words)?;
    let written = verdict_words(alloc, &found);
    drop(found);
    Ok(is_whole(&written?, &words, line))
}

/// The words of an answer of a maker, where there is one.
fn backed_words(alloc: Global, found: &Option<Result<(), NotifyFault>>) -> Result<Text, Memory> {
    let mut text = Text::new(alloc);
    if let Some(answer) = found {
        BackedRef { answer }.put_fields(&mut text)?;
    }
    Ok(text)
}

/// Whether this whole line is the answer of a maker of backends, and is written so again.
fn is_backed(alloc: Global, line: &str) -> Result<bool, Memory> {
    let mut words = Words::new(line.as_bytes());
    let found = read_backed(alloc, &mut words)?;
    let written = backed_words(alloc, &found);
    drop(found);
    Ok(is_whole(&written?, &words, line))
}

/// The words of an answer of a host, where there is one.
fn answer_words<T: Spelled>(
    alloc: Global,
    found: &Option<Result<T, HostFault>>,
) -> Result<Text, Memory> {
    let mut text = Text::new(alloc);
    if let Some(result) = found {
        ResultRef { result }.put_fields(&mut text)?;
    }
    Ok(text)
}

/// Whether this whole line is the answer of a host, and is written so again.
fn is_answer<T: Spelled>(alloc: Global, line: &str) -> Result<bool, Memory> {
    let mut words = Words::new(line.as_bytes());
    let found: Option<Result<T, HostFault>> = read_result(alloc, &mut words)?;
    let written = answer_words(alloc, &found);
    drop(found);
    Ok(is_whole(&written?, &words, line))
}

/// Holds the first lines to be answers of a host, and the others to be none.
fn expect_answers<T: Spelled>(rt: &impl Abort, alloc: Global, lines: &str, others: &str) {
    for line in lines.lines() {
        expect_yes(rt, is_answer::<T>(alloc, line), line);
    }
    for line in others.lines() {
        expect_no(rt, is_answer::<T>(alloc, line), line);
    }
}

const VERDICTS: &str = "\
pass
reject
fail exit
fail filterer glob bad%20rule
fail memory";

// In this table and the others that begin so the first line is empty.
const NO_VERDICTS: &str = "
passes
pass 0
reject exit
fail
fail no";

#[test]
fn what_filters_answer(rt: HostRuntime) {
    for line in VERDICTS.lines() {
        expect_yes(&rt, is_verdict(rt.alloc(), line), line);
    }
    for line in NO_VERDICTS.lines() {
        expect_no(&rt, is_verdict(rt.alloc(), line), line);
    }
}

const BACKED: &str = "\
ok
fail generic % 0
fail io 4294967295 2 /w /v
fail nopath 1 /w
fail nowatch 1 /w
fail badconfig 0
fail maxwatches 0
fail memory 0";

const NOT_BACKED: &str = "
oka
ok 0
pass
fault 3
fail
fail memory
fail io 0
fail io 4294967296 0
fail nopath 2 /w
fail exit";

#[test]
fn what_makers_answer(rt: HostRuntime) {
    for line in BACKED.lines() {
        expect_yes(&rt, is_backed(rt.alloc(), line), line);
    }
    for line in NOT_BACKED.lines() {
        expect_no(&rt, is_backed(rt.alloc(), line), line);
    }
}

const DONE: &str = "\
ok
fault 0
fault 4294967295";

const NOT_DONE: &str = "
fault 4294967296
fault
oka
success";

const ENDS: &str = "\
success
error.-7
signal.custom.64
continued
fault 5";

const NO_ENDS: &str = "\
fault x
error.0
ok";

#[test]
fn what_hosts_answer(rt: HostRuntime) {
    expect_answers::<()>(&rt, rt.alloc(), DONE, NOT_DONE);
    expect_answers::<ProcessEnd>(&rt, rt.alloc(), ENDS, NO_ENDS);
}

/// Takes the answer at the front of these words, and holds it to be this one.
fn expect_next<T: Spelled + PartialEq>(
    rt: &impl Abort,
    alloc: Global,
    words: &mut Words,
    want: Option<Result<T, HostFault>>,
) {
    let answer: Result<Option<Result<T, HostFault>>, Memory> = read_result(alloc, words);
    let found = answer.expect(rt, "an answer");
    assert!(rt; found == want);
}

#[test]
fn answers_by_value(rt: HostRuntime) {
    let alloc = rt.alloc();
    let stop = NonZeroI32::new(19).expect(&rt, "nineteen");
    let mut words = Words::new(b"ok fault 7 stop.19 fault");
    expect_next::<()>(&rt, alloc, &mut words, Some(Ok(())));
    expect_next::<()>(&rt, alloc, &mut words, Some(Err(HostFault(7))));
    let end = Some(Ok(ProcessEnd::ExitStop(stop)));
    expect_next::<ProcessEnd>(&rt, alloc, &mut words, end);
    expect_next::<ProcessEnd>(&rt, alloc, &mut words, None);
}
