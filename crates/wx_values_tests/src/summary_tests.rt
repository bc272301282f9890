// Summaries of events by their rules: the expected values are worked out by hand.
use crate::expecting::{expect_none, expect_yes};
use std::alloc::Global;
use std::process::Abort;
use wx_events::Event;
use wx_summary::{PATH_SEPARATOR, Summary, summarise_events_to_env};
use wx_text::{Copies, List, Memory, Text};
use wx_words_trial::{first_wrong_value, read_line};

/// All names that a summary may have.
const NAMES: &str = "COMMON CREATED META_CHANGED OTHERWISE_CHANGED REMOVED RENAMED WRITTEN";

/// Appends this name and its text, where it has one, and says how many were appended.
fn put_name(alloc: Global, summary: &Summary, name: &str, out: &mut Text) -> Result<u32, Memory> {
    let Some(text) = summary.get(&Text::from_slice(alloc, name.as_bytes())?) else {
        return Ok(0);
    };
    if out.len() > 0 {
        out.push(b' ')?;
    }
    out.append(name.as_bytes())?;
    out.push(b'=')?;
    out.append(text.as_slice())?;
    Ok(1)
}

/// Each name that has a text, with its text, in the order of `NAMES`. It is absent where the summary has more pairs.
fn line_of(alloc: Global, summary: &Summary) -> Result<Option<Text>, Memory> {
    let mut line = Text::new(alloc);
    let mut count = 0u32;
    for name in NAMES.split(' ') {
        count = count.saturating_add(put_name(alloc, summary, name, &mut line)?);
    }
    Ok((summary.pairs.len() as u64 == u64::from(count)).then_some(line))
}

/// Whether these events come to this line.
fn comes_to(
    alloc: Global,
    events: &List<Event>,
    _line: &str,
    expected: &str,
) -> Result<bool, Memory> {
    let summary = summarise_events_to_env(alloc, events)?;
    match line_of(alloc, &summary)? {
        Some(line) => Ok(line.as_slice() == expected.as_bytes()),
        None => Ok(false),
    }
}

/// Each line: how many events, the words of each, and what they come to.
const SUMMARIES: &str = "\
0|
2 2 kind create.file path /a/b/x.rs file 2 kind modify.data.any path /a/c/y.rs file|COMMON=/a CREATED=b/x.rs WRITTEN=c/y.rs
1 2 kind create.folder path /a dir|COMMON=/a CREATED=
1 1 kind create.file|
1 1 path /a/x file|COMMON=/a
1 2 source filesystem signal quit|
1 2 kind modify.meta.perm path /a/x file|COMMON=/a META_CHANGED=x
2 2 kind remove.file path /a/x file 2 kind remove.folder path /a/d dir|COMMON=/a REMOVED=d:x
1 3 kind modify.name.both path /a/old file path /a/new file|COMMON=/a RENAMED=new:old
2 2 kind modify.name.from path /a/old none 2 kind modify.name.to path /b/new none|COMMON=/ RENAMED=a/old:b/new
2 2 kind access.close.write path /a/x file 2 kind access.close.read path /a/y file|COMMON=/a OTHERWISE_CHANGED=y WRITTEN=x
4 2 kind any path /a/p file 2 kind other path /a/q file 2 kind modify.any path /a/r file 2 kind access.open.write path /a/s file|COMMON=/a OTHERWISE_CHANGED=p:q:r:s
3 2 kind modify.data.content path /a/x file 2 kind modify.data.size path /a/x file 2 kind access.close.write path /a/x file|COMMON=/a WRITTEN=x
4 2 kind create.any path /a/b file 2 kind create.any path /a/B file 2 kind create.any path /a/a.b file 2 kind create.any path /a/a/c file|COMMON=/a CREATED=B:a.b:a/c:b
2 2 kind create.file path a/b file 2 kind create.file path a/c file|COMMON=a CREATED=b:c
2 2 kind create.file path b file 2 kind create.file path a file|CREATED=a:b
2 2 kind create.file path a/x file 2 kind create.file path /a/x file|CREATED=/a/x:a/x
1 2 kind create.file path /x file|COMMON=/ CREATED=x
2 2 kind modify.meta.owner path /x file 2 kind modify.meta.owner path / dir|COMMON=/ META_CHANGED=:x
1 2 kind remove.any path / none|COMMON=/ REMOVED=
2 2 kind create.file path /a//b/x file 2 kind create.file path /a/./b/y file|COMMON=/a/b CREATED=x:y
2 2 kind create.file path /a//x file 2 kind create.file path /a/x file|COMMON=/a CREATED=x
2 2 kind create.folder path /a/b dir 2 kind create.file path /a/b/c file|COMMON=/a/b CREATED=:c
2 2 kind create.folder path /a/b dir 2 kind create.file path /a/x file|COMMON=/a CREATED=b:x
1 3 kind create.file kind modify.data.any path /a/x file|COMMON=/a CREATED=x WRITTEN=x
1 3 kind create.file kind create.any path /a/x file|COMMON=/a CREATED=x
1 2 kind create.any path /a/b none|COMMON=/a CREATED=b
2 2 kind create.any path /a/b symlink 2 kind create.any path /a/c other|COMMON=/a CREATED=b:c
2 2 kind create.file path /a/b/x file 1 path /a/c/y file|COMMON=/a CREATED=b/x
2 2 kind create.file path ../x file 2 kind create.file path ../y/z file|COMMON=.. CREATED=x:y/z
2 2 kind create.file path ./x file 2 kind create.file path ./d/y file|COMMON=. CREATED=d/y:x
2 2 kind create.file path ./x file 2 kind create.file path x file|CREATED=./x:x
2 2 kind create.file path /a/x file 2 kind remove.file path /a/x file|COMMON=/a CREATED=x REMOVED=x
2 2 kind create.file path a//b file 2 kind create.file path c file|CREATED=a//b:c
2 2 kind create.file path /ab/x file 2 kind create.file path /a/y file|COMMON=/ CREATED=a/y:ab/x
1 3 path /a/b/c/x file kind remove.file path /a/b/d/y file|COMMON=/a/b REMOVED=c/x:d/y
2 2 kind create.folder path /a/b/c dir 2 kind modify.meta.any path /a/b dir|COMMON=/a/b CREATED=c META_CHANGED=
";

#[test]
fn summaries(rt: HostRuntime) {
    expect_none(&rt, first_wrong_value(rt.alloc(), SUMMARIES, "|", comes_to));
}

/// Four events, two of which are about one path.
const FOUR: &str =
    "4 2 kind create.file path /a/c/z file 2 kind modify.data.any path /a/b file 3 kind modify.data.any path /a/d dir path /a/b file 1 path /a/e none";

/// What they come to in each order.
const TOGETHER: &str = "COMMON=/a CREATED=c/z WRITTEN=b:d";

/// Each order of four.
const ORDERS: &str = "\
0123 0132 0213 0231 0312 0321 1023 1032 1203 1230 1302 1320 \
2013 2031 2103 2130 2301 2310 3012 3021 3102 3120 3201 3210";

/// These events in the order of these digits.
fn in_order(alloc: Global, events: &List<Event>, order: &str) -> Result<List<Event>, Memory> {
    let mut ordered = List::new(alloc);
    for digit in order.as_bytes() {
        if let Some(event) = events.as_slice().get(digit.wrapping_sub(b'0') as usize) {
            ordered.push(event.copy(alloc)?)?;
        }
    }
    Ok(ordered)
}

/// Whether these four events in this order come to the same.
fn is_order(alloc: Global, events: &List<Event>, order: &str) -> Result<bool, Memory> {
    let ordered = in_order(alloc, events, order)?;
    Ok(ordered.len() == 4 && comes_to(alloc, &ordered, order, TOGETHER)?)
}

/// The four events.
fn four(rt: &impl Abort, alloc: Global) -> List<Event> {
    let found = read_line(alloc, FOUR.as_bytes()).expect(rt, "a line");
    found.expect(rt, "four events")
}

#[test]
fn summaries_in_each_order(rt: HostRuntime) {
    let events = four(&rt, rt.alloc());
    for order in ORDERS.split(' ') {
        expect_yes(&rt, is_order(rt.alloc(), &events, order), order);
    }
    drop(events);
}

/// Whether a summary of these events has no text for another name.
fn has_no_other(alloc: Global, events: &List<Event>) -> Result<bool, Memory> {
    let summary = summarise_events_to_env(alloc, events)?;
    let written = Text::from_slice(alloc, b"written")?;
    let empty = Text::new(alloc);
    Ok(summary.get(&written).is_none() && summary.get(&empty).is_none())
}

#[test]
fn other_names(rt: HostRuntime) {
    let events = four(&rt, rt.alloc());
    expect_yes(&rt, has_no_other(rt.alloc(), &events), "other names");
    drop(events);
    assert!(&rt; PATH_SEPARATOR == ":", "the separator");
}
