// Words, asks, levels and lists: the expected values are worked out by hand.
use crate::expecting::{expect_next, expect_none};
use std::alloc::Global;
use std::cmp::Ordering;
use std::process::Abort;
use wx_control::{
    Ask, Control, Flag, Id, Level, Picked, ThreeLists, are_equal_ids, are_equal_levels,
    compare_ids, compare_levels,
};
use wx_text::{Copies, Memory, Text};
use wx_words::{Spelled, Words};
use wx_words_trial::{
    first_accepted, first_misread, first_wrong_pair, first_wrong_value, is_refused, is_spelled,
    line_of, read_line,
};

/// Ends the test where this isn't so, and says what was looked at.
pub fn expect_so(rt: &impl Abort, so: bool, what: &str) {
    assert!(rt; so, "{what}");
}

const LEVELS: &str = "\
normal = Normal
high = High
urgent = Urgent
";

// The last line has a space behind the word.
const BAD_LEVELS: &str = "\
low
Normal

normal\x20
";

const CONTROLS: &str = "\
start = Start
stop = Stop
gracefulstop terminate 0 = GracefulStop { signal: Terminate, grace: 0 }
gracefulstop custom.-3 18446744073709551615 = GracefulStop { signal: Custom(-3), grace: 18446744073709551615 }
tryrestart = TryRestart
trygracefulrestart user1 5000000 = TryGracefulRestart { signal: User1, grace: 5000000 }
continue = ContinueTryGracefulRestart
signal suspend = Signal(TerminalSuspend)
delete = Delete
nextending = NextEnding
run 0 = SyncFunc(0)
runasync 4294967295 = AsyncFunc(4294967295)
sethook 0 = SetSyncSpawnHook(0)
unsethook = UnsetSpawnHook
seterror 12 = SetSyncErrorHandler(12)
unseterror = UnsetErrorHandler
setspawn 7 = SetSpawnFn(7)
setchild 4294967295 = SetSpawnChildFn(4294967295)
clearspawn = ClearSpawnFn
";

const ASKS: &str = "\
restart = Restart
restartsignal interrupt 18446744073709551615 = RestartWithSignal { signal: Interrupt, grace: 18446744073709551615 }
stopdelete = Delete
deletenow = DeleteNow
towait = ToWait
";

/// Whether this ask has the fields of this control, and is written by this line.
fn is_one(alloc: Global, ask: &Ask, line: &str, fields: &str) -> Result<bool, Memory> {
    let one = format!(in alloc; "One({fields})")?;
    is_spelled(alloc, ask, line, one.as_str())
}

const BAD_ASKS: &str = "
Start
stop 1
starts
one start
gracefulstop
gracefulstop terminate
gracefulstop 5 terminate
gracefulstop terminate 5 5
gracefulstop terminate 18446744073709551616
gracefulstop terminate -1
gracefulstop none 5
trygracefulrestart user1
tryrestart 1
continue terminate 5
signal
signal none
signal 15
delete 0
nextending 0
run
run start
run 4294967296
run async 1
runasync
runasync -1
sethook
sethook 4294967296
unsethook 1
seterror
seterror 4294967296
unseterror 0
setchild -1
restart 1
restartsignal
restartsignal terminate
restartsignal 5
restartsignal terminate 05
stopdelete 1
delete now
deletenow 0
towait 1
";

const NAMES: &str = "\
0 = Id(0)
4294967295 = Id(4294967295)
";

const BAD_NAMES: &str = "\
4294967296
-1
";

#[test]
fn values_and_their_words(rt: HostRuntime) {
    let alloc = rt.alloc();
    expect_none(&rt, first_misread::<Level>(alloc, LEVELS));
    expect_none(&rt, first_misread::<Control>(alloc, CONTROLS));
    expect_none(&rt, first_misread::<Ask>(alloc, ASKS));
    expect_none(&rt, first_wrong_value(alloc, CONTROLS, " = ", is_one));
    expect_none(&rt, first_misread::<Id>(alloc, NAMES));
}

#[test]
fn lines_that_are_no_values(rt: HostRuntime) {
    let alloc = rt.alloc();
    expect_none(&rt, first_accepted::<Level>(alloc, BAD_LEVELS));
    expect_none(&rt, first_accepted::<Ask>(alloc, BAD_ASKS));
    expect_none(&rt, first_accepted::<Control>(alloc, BAD_ASKS));
    expect_none(
        &rt,
        first_wrong_pair(alloc, ASKS, " = ", |alloc, line, _| {
            is_refused::<Control>(alloc, line.as_bytes())
        }),
    );
    expect_none(&rt, first_accepted::<Id>(alloc, BAD_NAMES));
}

#[test]
fn a_name_a_level_and_a_control(rt: HostRuntime) {
    let alloc = rt.alloc();
    let mut words = Words::new(b"7 normal stop");
    expect_next(&rt, alloc, &mut words, Some(Id(7)));
    expect_next::<Id>(&rt, alloc, &mut words, None);
    expect_next(&rt, alloc, &mut words, Some(Level::Normal));
    expect_next(&rt, alloc, &mut words, Some(Control::Stop));
    assert!(rt; words.is_done());
}

/// Appends the second control that an ask sends, where there is one.
fn put_second(second: Option<Control>, out: &mut Text) -> Result<(), Memory> {
    match second {
        Some(second) => {
            out.append(b", ")?;
            second.put(out)
        }
        None => Ok(()),
    }
}

/// Appends the controls that an ask sends, then their level.
pub fn put_sends(ask: &Ask, out: &mut Text) -> Result<(), Memory> {
    let sends = ask.controls();
    sends.first.put(out)?;
    put_second(sends.second, out)?;
    out.append(b"; ")?;
    sends.level.put(out)
}

/// What this ask sends: its controls, then their level.
fn sends_of(alloc: Global, ask: &Ask) -> Result<Text, Memory> {
    let mut sent = Text::new(alloc);
    put_sends(ask, &mut sent)?;
    Ok(sent)
}

/// Whether this ask sends these controls.
fn is_sent(alloc: Global, ask: &Ask, _line: &str, sends: &str) -> Result<bool, Memory> {
    Ok(sends_of(alloc, ask)?.as_slice() == sends.as_bytes())
}

/// Whether this ask, which is one control, sends itself alone.
fn is_sent_alone(alloc: Global, ask: &Ask, line: &str, _fields: &str) -> Result<bool, Memory> {
    let alone = format!(in alloc; "{line}; normal")?;
    is_sent(alloc, ask, line, alone.as_str())
}

const SENDS: &str = "\
restart = stop, start; normal
restartsignal user2 7 = gracefulstop user2 7, start; normal
stopdelete = stop, delete; normal
deletenow = stop, delete; urgent
towait = nextending; high
";

#[test]
fn asks_and_their_controls(rt: HostRuntime) {
    expect_none(&rt, first_wrong_value(rt.alloc(), SENDS, " = ", is_sent));
    expect_none(
        &rt,
        first_wrong_value(rt.alloc(), CONTROLS, " = ", is_sent_alone),
    );
}

/// Whether these levels compare as their places do, and the rank of the first is its place.
fn are_in_order(x: Level, i: usize, y: Level, j: usize) -> bool {
    compare_levels(x, y) == i.cmp(&j)
        && are_equal_levels(x, y) == (i == j)
        && x.rank() as usize == i
}

/// Each two levels are in the order of their ranks.
fn expect_levels_in_order(rt: &impl Abort) {
    let levels = [Level::Normal, Level::High, Level::Urgent];
    for i in 0..3 {
        for j in 0..3 {
            let so = are_in_order(levels[i], i, levels[j], j);
            expect_so(rt, so, "two levels");
        }
    }
}

#[test]
fn levels_and_names_in_order(rt: HostRuntime) {
    expect_levels_in_order(&rt);
    let order = compare_ids(Id(2), Id(10));
    assert!(rt; order == Ordering::Less);
    assert!(rt; are_equal_ids(Id(2), Id(2)) && !are_equal_ids(Id(2), Id(3)));
}

/// A flag that isn't raised.
pub fn new_flag(rt: &impl Abort, alloc: Global) -> Flag {
    Flag::new(alloc, false).expect(rt, "a flag")
}

/// Another handle on the same flag.
pub fn copy_of(rt: &impl Abort, alloc: Global, flag: &Flag) -> Flag {
    flag.copy(alloc).expect(rt, "a copy of a flag")
}

/// A control waits in these lists, with this ticket and flag.
fn put(
    rt: &impl Abort,
    lists: &mut ThreeLists,
    ticket: u64,
    flag: Flag,
    control: Control,
    level: Level,
) {
    let answer = lists.put(ticket, flag, control, level);
    answer.expect(rt, "room in the lists");
}

/// A control waits in these lists, with this ticket and a flag of its own.
fn put_new(
    rt: &impl Abort,
    alloc: Global,
    lists: &mut ThreeLists,
    ticket: u64,
    control: Control,
    level: Level,
) {
    put(rt, lists, ticket, new_flag(rt, alloc), control, level);
}

/// Controls wait in these lists, each with its ticket and level.
fn put_seven(rt: &impl Abort, alloc: Global, lists: &mut ThreeLists) {
    put_new(rt, alloc, lists, 0, Control::Start, Level::Normal);
    put_new(rt, alloc, lists, 1, Control::Stop, Level::Urgent);
    put_new(rt, alloc, lists, 2, Control::Start, Level::High);
    put_new(rt, alloc, lists, 3, Control::Stop, Level::Normal);
    put_new(rt, alloc, lists, 4, Control::Start, Level::Urgent);
    put_new(rt, alloc, lists, 5, Control::Stop, Level::High);
    put_new(rt, alloc, lists, 6, Control::Start, Level::Normal);
}

/// Appends a control with its ticket.
fn put_control(ticket: u64, control: Control, line: &mut Text) -> Result<(), Memory> {
    ticket.put(line)?;
    line.append(b" ")?;
    control.put(line)
}

/// Appends what comes first, its ticket and control.
fn put_first(first: Option<(u64, Control)>, line: &mut Text) -> Result<(), Memory> {
    if let Some((ticket, control)) = first {
        put_control(ticket, control, line)?;
    }
    line.append(b": ")
}

/// Appends what was picked, its ticket, control and level.
fn put_picked(picked: &Option<Picked>, line: &mut Text) -> Result<(), Memory> {
    if let Some(picked) = picked {
        put_control(picked.ticket, picked.control, line)?;
        line.append(b" ")?;
        picked.level.put(line)?;
    }
    line.append(b"; ")
}

/// Picks one control where a grace runs or not, and appends what came first and what was picked.
fn pick(rt: &impl Abort, lists: &mut ThreeLists, grace: bool, line: &mut Text) {
    let first = put_first(lists.first(grace), line);
    first.expect(rt, "room in the line");
    let picked = lists.pick(grace);
    let written = put_picked(&picked, line);
    written.expect(rt, "room in the line");
    drop(picked);
}

/// What came first and was picked, one after another, where a grace ran or not.
fn picks_of(rt: &impl Abort, alloc: Global, lists: &mut ThreeLists, graces: &[bool]) -> Text {
    let mut line = Text::new(alloc);
    for grace in graces {
        pick(rt, lists, *grace, &mut line);
    }
    line
}

const GRACES: [bool; 10] = [
    false, true, true, false, true, false, false, true, false, false,
];

// For each of these graces what came first and what was picked.
const PICKS: &str = "\
    1 stop: 1 stop urgent; 4 start: 4 start urgent; \
    2 start: 2 start high; 5 stop: 5 stop high; : ; \
    0 start: 0 start normal; 3 stop: 3 stop normal; : ; 6 start: 6 start normal; : ; ";

#[test]
fn the_most_pressing_is_picked_first(rt: HostRuntime) {
    let mut lists = ThreeLists::new(rt.alloc()).expect(&rt, "lists");
    put_seven(&rt, rt.alloc(), &mut lists);
    expect_so(&rt, lists.count() == Some(7), "seven wait");
    let line = picks_of(&rt, rt.alloc(), &mut lists, &GRACES);
    expect_so(&rt, line.as_slice() == PICKS.as_bytes(), "the picks");
    drop(lists);
}

/// Two controls wait, for which room was taken before.
fn put_two(rt: &impl Abort, alloc: Global, lists: &mut ThreeLists) {
    let answer = lists.reserve(2);
    answer.expect(rt, "room in the lists");
    lists.put_reserved(7, new_flag(rt, alloc), Control::Start, Level::Normal);
    lists.put_reserved(8, new_flag(rt, alloc), Control::Stop, Level::Normal);
}

/// Picks one control, and holds its ticket to be this one.
fn expect_pick(rt: &impl Abort, lists: &mut ThreeLists, want: Option<u64>) {
    let ticket = lists.pick(false).map(|x| x.ticket);
    assert!(rt; ticket == want);
}

#[test]
fn what_is_put_behind_a_pick_waits_behind(rt: HostRuntime) {
    let mut lists = ThreeLists::new(rt.alloc()).expect(&rt, "lists");
    put_two(&rt, rt.alloc(), &mut lists);
    expect_pick(&rt, &mut lists, Some(7));
    let flag = new_flag(&rt, rt.alloc());
    put(&rt, &mut lists, 9, flag, Control::Start, Level::Normal);
    expect_pick(&rt, &mut lists, Some(8));
    let next = lists.first(false) == Some((9, Control::Start));
    expect_so(&rt, next && lists.count() == Some(1), "the third waits");
    lists.clear();
    let none = lists.first(false).is_none() && lists.count() == Some(0);
    expect_so(&rt, none, "none waits");
    expect_pick(&rt, &mut lists, None);
    drop(lists);
}

/// Picks one control, and raises its flag.
fn finish_one(lists: &mut ThreeLists) {
    if let Some(picked) = lists.pick(false) {
        picked.done.raise();
    }
}

#[test]
fn each_pick_has_the_flag_that_was_put_with_it(rt: HostRuntime) {
    let alloc = rt.alloc();
    let later = new_flag(&rt, alloc);
    let sooner = new_flag(&rt, alloc);
    let mut lists = ThreeLists::new(alloc).expect(&rt, "lists");
    let flag = copy_of(&rt, alloc, &later);
    put(&rt, &mut lists, 0, flag, Control::Stop, Level::Normal);
    let flag = copy_of(&rt, alloc, &sooner);
    put(&rt, &mut lists, 1, flag, Control::Stop, Level::Urgent);
    finish_one(&mut lists);
    expect_so(&rt, sooner.raised() && !later.raised(), "one is raised");
    finish_one(&mut lists);
    expect_so(&rt, later.raised(), "both are raised");
    drop(lists);
}
