// Values that stand in entries: what handlers ask, what turns bring, what spawns, and why items are let go.
use crate::expecting::{expect_no, expect_yes};
use std::alloc::Global;
use std::process::Abort;
use wx_journal::{Act, LetGoCause, SpawnTag, TurnKind};
use wx_text::{Copies, Memory};
use wx_words::Spelled;
use wx_words_trial::{is_read, is_read_again, is_written, read_line};

/// Holds the first lines to be values of a type that are written so again, and the others to be none.
fn expect_words<T: Spelled>(rt: &impl Abort, alloc: Global, lines: &str, others: &str) {
    for line in lines.lines() {
        expect_yes(rt, is_read_again::<T>(alloc, line.as_bytes()), line);
    }
    for line in others.lines() {
        expect_no(rt, is_read::<T>(alloc, line.as_bytes()), line);
    }
}

const ACTS: &str = "\
create 0 exec ---- 1 a
create 4294967295 exec g-r- 2 a %20
ask 0 start
ask 0 stop
ask 4294967295 stop
ask 3 gracefulstop custom.-3 18446744073709551615
ask 0 deletenow
change signal
change paths 1 n /a
quit
quitgracefully terminate 0
quitgracefully custom.-3 18446744073709551615";

const NO_ACTS: &str = "\
create
create 0
create x exec ---- 1 a
create 0 exec ---- 0
create 4294967296 exec ---- 1 a
create exec ---- 1 a 0
ask
ask 0
ask 0 go
ask 0 gracefulstop terminate
ask 0 deletenow 5
ask start 0
change
change quit
Quit
quit 0
quitgracefully
quitgracefully terminate
quitgracefully 5 terminate
quitgracefully terminate 18446744073709551616
quitgracefully terminate 5 6
quitgracefully custom.-0 5";

#[test]
fn what_handlers_ask(rt: HostRuntime) {
    expect_words::<Act>(&rt, rt.alloc(), ACTS, NO_ACTS);
}

// In this table and the others that begin so the first line is empty.
const NO_SPAWN_TAGS: &str = "
command
command.
child.4294967296
child.-1
default.1
command 7
child.1.2";

const SPAWN_TAGS: &str = "\
default
command.0
command.7
child.4294967295";

#[test]
fn what_spawns(rt: HostRuntime) {
    expect_words::<SpawnTag>(&rt, rt.alloc(), SPAWN_TAGS, NO_SPAWN_TAGS);
}

const CAUSES: &str = "\
full
obsolete
uncovered";

const NO_CAUSES: &str = "
Full
fulls
full 0
covered
queued
-";

#[test]
fn why_items_are_let_go(rt: HostRuntime) {
    expect_words::<LetGoCause>(&rt, rt.alloc(), CAUSES, NO_CAUSES);
}

const TURNS: &str = "\
arrive high 0
signal suspend
signal custom.-7
keys 0
keys 3 0 3 255
keys 12 1 2 3 4 5 6 7 8 9 10 11 12
work
job 4294967295
ended 18446744073709551615
ask 0 start
ask 1 stop
ask 1 signal quit
ask 1 restartsignal user2 5000000
change paths 2 r /a n /b%20c
change onaction 4294967295
change watcher poll 7
listen
file
last";

const NO_TURNS: &str = "\
arrive 0 high
signal
signal 2
signal stop
keys
keys 1
keys 1 256
keys 1 -1
keys 2 1
keys 1 1 1
work 1
job
job x
job 4294967296
ended -1
ended
ask 0
ask 0 go
ask 0 signal
ask 0 restartsignal 5 user2
ask start 0
change
change throttle
change 0 throttle
listen 0
listens
file 0
rest";

/// Whether a copy of the value of this line is written by the line.
fn is_copied<T: Spelled + Copies>(alloc: Global, line: &str) -> Result<bool, Memory> {
    match read_line::<T>(alloc, line.as_bytes())? {
        Some(value) => is_written(alloc, &value.copy(alloc)?, line.as_bytes()),
        None => Ok(false),
    }
}

#[test]
fn what_turns_bring(rt: HostRuntime) {
    expect_words::<TurnKind>(&rt, rt.alloc(), TURNS, NO_TURNS);
    for line in TURNS.lines() {
        expect_yes(&rt, is_copied::<TurnKind>(rt.alloc(), line), line);
    }
}
