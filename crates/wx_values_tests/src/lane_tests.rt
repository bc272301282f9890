// What a lane does: the expected values are worked out by hand.
use crate::expecting::{expect_none, expect_yes};
use std::alloc::Global;
use wx_lane::{Lane, LaneItem, Notify, NotifyFault};
use wx_text::{List, Memory};
use wx_watch::NotifyFaultKind;
use wx_words_trial::{first_wrong_pair, read_line};

// For each case the calls on a new lane for two events, and what each answers. `t N` puts an event that says something of the tree,
// `d N` one that doesn't, and `f N` a fault, each named N: the answer is whether there was room. `<N` asks for the fence, `hN` says
// that N was heard, `1` asks for the first item, and `x` takes it. An item is shown by its name, with `h` where it was heard and `u`
// where it is full.
const CALLS: &str = "\
1 x <9 = - - -
t1 1 x 1 = y 1 1 -
t1 d2 t3 x x x x = y y n 1 2 3u -
t1 t2 d3 x x x = y y n 1 2 -
t1 t2 f3 x x x x = y y y 1 2 3 -
f1 f2 f3 t4 t5 t6 = y y y y y n
t1 t2 t3 x t4 t5 = y y n 1 y n
t1 t2 t3 t4 x d5 x x x x = y y n n 1 y 2 3u 4u 5
d1 t2 f3 <9 <2 <3 h2 <9 h3 <9 = y y y 2 - 2 . 3 . -
d1 t2 f3 h2 h3 x x x = y y y . . 1 2h -
t1 t2 t3 h3 x x x = y y n . 1 2 -
t1 t2 t3 <9 h1 <9 h2 <9 h3 <9 = y y n 1 . 2 . 3u . -
t1 t2 h1 h2 t3 d4 x x x = y y . . n n 1h 2h 3u
f1 h1 1 = y . -
t1 h7 x = y . 1
t5 t3 <5 <4 <3 = y y 3 3 -
d1 <9 h1 x = y - . 1h
";

/// The number that this text spells.
fn number(text: &str) -> u64 {
    match text.parse::<u64>() {
        Ok(n) => n,
        Err(_) => 0,
    }
}

/// An item as a word with a space before it.
fn shown(alloc: Global, item: Option<&LaneItem>) -> Result<String, Memory> {
    let Some(item) = item else {
        return Ok(format!(in alloc; " -")?);
    };
    let heard = if item.heard { "h" } else { "" };
    let full = if item.full { "u" } else { "" };
    Ok(format!(in alloc; " {name}{heard}{full}", name = item.name)?)
}

fn event(alloc: Global, line: &str) -> Result<Result<Notify, NotifyFault>, Memory> {
    match read_line::<Notify>(alloc, line.as_bytes())? {
        Some(notification) => Ok(Ok(notification)),
        None => Err(Memory),
    }
}

fn fault(alloc: Global) -> Result<Notify, NotifyFault> {
    Err(NotifyFault {
        kind: NotifyFaultKind::Io(5),
        paths: List::new(alloc),
    })
}

/// What a put answers, as a word with a space before it.
fn put(
    alloc: Global,
    lane: &mut Lane,
    name: u64,
    item: Result<Notify, NotifyFault>,
) -> Result<String, Memory> {
    if lane.put(name, 0, item)? {
        Ok(format!(in alloc; " y")?)
    } else {
        Ok(format!(in alloc; " n")?)
    }
}

/// What this call answers, as a word with a space before it.
fn answer(alloc: Global, lane: &mut Lane, call: &str) -> Result<String, Memory> {
    if let Some(name) = call.strip_prefix("t") {
        return put(
            alloc,
            lane,
            number(name),
            event(alloc, "create.file 1 /w/a file - -")?,
        );
    }
    if let Some(name) = call.strip_prefix("d") {
        return put(
            alloc,
            lane,
            number(name),
            event(alloc, "modify.data.any 1 /w/a file - -")?,
        );
    }
    if let Some(name) = call.strip_prefix("f") {
        return put(alloc, lane, number(name), fault(alloc));
    }
    if let Some(below) = call.strip_prefix("<") {
        return shown(alloc, lane.fence(number(below)));
    }
    if let Some(name) = call.strip_prefix("h") {
        lane.hear(number(name));
        return Ok(format!(in alloc; " .")?);
    }
    if call == "x" {
        let taken = lane.take();
        return shown(alloc, taken.as_ref());
    }
    shown(alloc, lane.first())
}

/// Whether these calls have these answers.
fn has_answers(alloc: Global, calls: &str, wanted: &str) -> Result<bool, Memory> {
    let mut lane = Lane::new(alloc, 2)?;
    let mut all = String::new(alloc);
    for call in calls.split(" ") {
        let one = answer(alloc, &mut lane, call)?;
        all.push_str(one.as_str())?;
    }
    Ok(all.as_str() == wanted)
}

#[test]
fn lanes_answer(rt: HostRuntime) {
    expect_none(&rt, first_wrong_pair(rt.alloc(), CALLS, " =", has_answers));
}

/// Whether an event in a lane for none is refused, and is kept where it says something of the tree.
fn is_refused(alloc: Global) -> Result<bool, Memory> {
    let mut lane = Lane::new(alloc, 0)?;
    let silent = lane.put(1, 4, event(alloc, "access.any 1 /w/a file - -")?)?;
    let telling = lane.put(2, 5, event(alloc, "access.any 1 /w/a file rescan -")?)?;
    let Some(item) = lane.take() else {
        return Ok(false);
    };
    let is_kept = item.name == 2 && item.back == 5 && item.full && !item.heard && item.item.is_ok();
    Ok(!silent && !telling && is_kept && lane.first().is_none())
}

#[test]
fn a_lane_for_none(rt: HostRuntime) {
    expect_yes(&rt, is_refused(rt.alloc()), "a lane for none");
}
