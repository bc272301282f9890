// Hooks that follow a script, asked for what the filter answers: the expected values are worked out by hand.
//
// A run is a text. Each line asks the filter about the event of a name, or about a directory, with what it answers behind ` = `.
use std::alloc::Global;
use std::process::Abort;
use std::test::Fail;
use wx_follow::ScriptHooks;
use wx_follow_trial::{dir_verdict, event_verdict, hooks_of};
use wx_job::JobHooks;
use wx_text::{Memory, Text};
use wx_words::number_of;

/// Scripts, and runs of the hooks that follow them.
const RUNS: [(&str, &str); 3] = [
    // where a script has no answer each event passes
    ("action quit\nturn 8 work\n", "event 0 = pass\n"),
    (
        "filter reject\nfilter fail exit\n",
        "event 0 = reject\nevent 1 = fail exit\nevent 2 = pass\n",
    ),
    // answers about directories are counted by themselves
    (
        "dir reject\nfilter fail nocommands\ndir pass\ndir fail exit\n",
        "dir /w/a = reject\ndir /w/a = pass\nevent 0 = fail nocommands\ndir /w/b = fail exit\nevent 0 = pass\ndir /w/a = pass\n",
    ),
];

/// What the filter answers about the directory or the event that these words name.
fn asked(alloc: Global, hooks: &mut ScriptHooks, words: &str) -> Result<Text, Memory> {
    match words.strip_prefix("dir ") {
        Some(path) => dir_verdict(alloc, hooks, 0, path.as_bytes()),
        None => {
            let name = words.strip_prefix("event ").unwrap_or("");
            event_verdict(alloc, hooks, number_of(name.as_bytes()).unwrap_or(0))
        }
    }
}

/// Whether a line of a run holds.
fn holds(alloc: Global, hooks: &mut ScriptHooks, line: &str) -> Result<bool, Memory> {
    let Some((words, wanted)) = line.split_once(" = ") else {
        return Ok(false);
    };
    let given = asked(alloc, hooks, words)?;
    Ok(given.as_slice() == wanted.as_bytes())
}

/// Ends the test where a line of a run doesn't hold, or these hooks find no memory.
fn each_line_holds(rt: &impl Abort, alloc: Global, hooks: &mut ScriptHooks, run: &str) {
    assert!(rt; hooks.reserve(2).is_ok());
    for line in run.lines() {
        assert!(rt; holds(alloc, hooks, line) == Ok(true), "at {line}");
    }
    assert!(rt; !hooks.short());
}

/// Each line of this run holds of hooks that follow this script, one after the other.
fn each_holds(rt: &impl Abort, alloc: Global, script: &str, run: &str) -> Result<(), Fail> {
    let mut hooks = hooks_of(alloc, script.as_bytes())?;
    each_line_holds(rt, alloc, &mut hooks, run);
    drop(hooks);
    Ok(())
}

#[test]
fn the_filter_answers_in_order(rt: HostRuntime) -> Result<(), Fail> {
    for (script, run) in &RUNS {
        each_holds(&rt, rt.alloc(), script, run)?;
    }
    Ok(())
}
