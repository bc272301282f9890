// How many steps runs take behind each line `applied`, and how many are enough where a script is still. That is worked out by hand: four
// times the sum of 1, the roots applied before, the roots, the roots times the paths, and the roots applied before times the paths.
// The paths are those of the tree at the first turn.
use crate::main_tests::{expect_so, run};
use std::alloc::Global;
use std::process::Abort;
use wx_text::{Memory, Text};
use wx_words::cut;

/// A script, and the steps that are enough behind lines of its journal.
type Row = (&'static [u8], &'static [(&'static [u8], u64)]);

const STILL: [Row; 5] = [
    // a root with a directory and a file below it, which is written again: 4 · (1 + 0 + 1 + 4 + 0)
    (
        b"set follow off\nset path r /w\nnode dir /\nnode dir /w\nnode dir /w/a\nnode file /w/f 1\nturn 0 file\nturn 0 file\nturn 0 file\nturn 0 file\nturn 0 file\nturn 0 file\nturn 0 file\nturn 0 file\nnode file /w/f 2\nturn 1 listen\nturn 1 file\nturn 1 file\nturn 1 file\n",
        &[(b"applied 0", 24)],
    ),
    // a root that is absent: 4 · (1 + 0 + 1 + 1 + 0)
    (
        b"set follow off\nset path n /w\nnode dir /\nturn 0 file\nturn 0 file\nturn 0 file\nturn 0 file\n",
        &[(b"applied 0", 12)],
    ),
    // other roots: 4 · (1 + 0 + 1 + 3 + 0), 4 · (1 + 1 + 2 + 6 + 3) and 4 · (1 + 3 + 1 + 3 + 9)
    (
        b"set follow off\nset path n /w\nnode dir /\nnode dir /w\nnode dir /v\nturn 0 file\nturn 0 file\nturn 0 file\nturn 0 file\nturn 0 change paths 2 n /w r /v\nturn 0 file\nturn 0 file\nturn 0 file\nturn 0 file\nturn 0 file\nturn 0 file\nturn 0 change paths 1 n /v\nturn 0 file\nturn 0 file\nturn 0 file\nturn 0 file\n",
        &[(b"applied 0", 20), (b"applied 1", 52), (b"applied 2", 68)],
    ),
    // another watcher: 4 · (1 + 0 + 1 + 2 + 0) and 4 · (1 + 1 + 1 + 2 + 2)
    (
        b"set follow off\nset path n /w\nnode dir /\nnode dir /w\nturn 0 file\nturn 0 file\nturn 0 file\nturn 0 file\nturn 0 change watcher poll 5\nturn 0 file\nturn 0 file\nturn 0 file\nturn 0 file\n",
        &[(b"applied 0", 16), (b"applied 1", 28)],
    ),
    // each child and backend may fail: 4 · (1 + 0 + 1 + 3 + 0)
    (
        b"spawn fault 2\nmake ok\nmake fail io 5 0\nset follow off\nset path r /w\nnode dir /\nnode dir /w\nnode dir /w/a\naction create exec ---- 1 a ask 0 start\nsend urgent 0\nturn 0 work\nturn 0 job 0\nturn 0 file\nturn 0 file\nturn 0 file\nturn 0 file\nturn 0 file\nturn 0 file\nturn 0 file\nturn 0 change watcher poll 5\nturn 0 file\n",
        &[(b"applied 0", 20)],
    ),
];

// A root that comes and goes: 4 · (1 + 0 + 1 + 1 + 0), since it isn't there at the first turn.
const MOVES: Row = (
    b"set follow off\nset path n /w\nnode dir /\nturn 0 file\nturn 0 file\nturn 0 file\nnode dir /w\nturn 0 listen\nturn 0 file\nturn 0 file\nturn 0 file\nturn 0 file\nturn 0 file\ngone /w\nturn 0 listen\nturn 0 file\nturn 0 file\nturn 0 file\nturn 0 file\nturn 0 file\nnode dir /w\nturn 0 listen\nturn 0 file\nturn 0 file\nturn 0 file\nturn 0 file\nturn 0 file\ngone /w\nturn 0 listen\nturn 0 file\nturn 0 file\nturn 0 file\nturn 0 file\nturn 0 file\n",
    &[(b"applied 0", 12)],
);

/// How many steps a journal has behind this line, before settings are applied again.
fn steps_behind(journal: &[u8], applied: &[u8]) -> u64 {
    let mut steps = 0u64;
    let mut counts = false;
    for line in journal.split(|byte| *byte == 10) {
        if line.starts_with(b"applied ") {
            counts = line == applied;
        }
        if counts && line == b"word stepped".as_slice() {
            steps = steps.saturating_add(1);
        }
    }
    steps
}

/// Holds the steps behind each line of this row to be some, and to be enough, or not.
fn expect_steps(rt: &impl Abort, alloc: Global, row: &Row, enough: bool) {
    let (sink, _) = run(alloc, row.0).expect(rt, "memory for a run");
    for (applied, most) in row.1 {
        let steps = steps_behind(sink.text().as_slice(), applied);
        expect_so(rt, steps > 0, row.0);
        expect_so(rt, (steps <= *most) == enough, row.0);
    }
    drop(sink);
}

#[test]
fn few_steps_are_enough_where_a_script_is_still(rt: HostRuntime) {
    for row in &STILL {
        expect_steps(&rt, rt.alloc(), row, true);
    }
}

#[test]
fn more_steps_come_where_the_tree_changes(rt: HostRuntime) {
    expect_steps(&rt, rt.alloc(), &MOVES, false);
}

/// These lines, and thirty turns about files behind them.
fn with_turns(alloc: Global, lines: &[u8]) -> Result<Text, Memory> {
    let mut text = Text::from_slice(alloc, lines)?;
    for _ in 0..30 {
        text.append(b"turn 1 file\n")?;
    }
    Ok(text)
}

/// What begins so, and goes on with 29 turns about files: so many do a step, in one it is told that all is watched, and then there is
/// nothing to do.
fn with_steps(alloc: Global, front: &[u8], steps: u32) -> Result<Text, Memory> {
    let mut text = Text::from_slice(alloc, front)?;
    for _ in 0..steps {
        text.append(b"turn 1 file\nword stepped\n")?;
    }
    text.append(b"turn 1 file\nready 1\n")?;
    for _ in steps..28 {
        text.append(b"turn 1 file\nword quiet\n")?;
    }
    text.append(b"turn 1 last\nend ok lost 0\n")?;
    Ok(text)
}

/// Whether thirty turns behind these lines bring what begins so, and then at least one step, at most 16, that all is watched, and
/// nothing more to do.
fn settles(alloc: Global, lines: &[u8], front: &[u8]) -> Result<bool, Memory> {
    let script = with_turns(alloc, lines)?;
    let (sink, _) = run(alloc, script.as_slice())?;
    let journal = cut(sink.text().as_slice(), 10).map_or(b"".as_slice(), |parts| parts.1);
    for steps in 1..17 {
        if journal == with_steps(alloc, front, steps)?.as_slice() {
            return Ok(true);
        }
    }
    Ok(false)
}

#[test]
fn few_steps_are_enough(rt: HostRuntime) {
    let lines = b"set follow off\nnode dir /\nnode dir /w\nturn 0 change paths 1 r /w\n";
    let front =
        b"turn 0 change paths 1 r /w\nchanged 1\nturn 1 file\napplied 1\nmake 0 native off ok\n";
    assert!(rt;
        settles(rt.alloc(), lines, front) == Ok(true),
        "links not followed"
    );
    let lines = b"node dir /\nnode dir /w\nturn 0 change paths 1 r /w\n";
    let front =
        b"turn 0 change paths 1 r /w\nchanged 1\nturn 1 file\napplied 1\nmake 0 native on ok\n";
    assert!(rt;
        settles(rt.alloc(), lines, front) == Ok(true),
        "links followed"
    );
}
