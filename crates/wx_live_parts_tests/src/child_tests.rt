// Children: how they end is worked out by hand from what a shell does.
use crate::expecting::expect_yes;
use crate::trial::{Parts, new_parts, run_shell, spawn_shell, spawnable};
use std::alloc::Global;
use std::test::Fail;
use wx_command::{SpawnOptions, Spawnable};
use wx_control::{Flag, Id};
use wx_job::Host;
use wx_journal::{HostFault, SpawnTag};
use wx_live::Live;
use wx_text::Memory;

/// Scripts of a shell, and how it ends.
const ENDS: &[(&str, &str)] = &[
    ("exit 0", "success"),
    ("exit 3", "error.3"),
    ("exit 255", "error.255"),
    ("kill -1 $$", "signal.hangup"),
    ("kill -2 $$", "signal.interrupt"),
    ("kill -3 $$", "signal.quit"),
    ("kill -9 $$", "signal.forcestop"),
    ("kill -10 $$", "signal.user1"),
    ("kill -12 $$", "signal.user2"),
    ("kill -15 $$", "signal.terminate"),
    ("kill -14 $$", "signal.custom.14"),
    ("kill -18 $$; exit 5", "error.5"),
    ("test \"$(readlink /proc/$$/fd/0)\" = /dev/null", "success"),
];

/// Whether this script ends so.
fn ends_so(alloc: Global, parts: &mut Parts, script: &str, want: &str) -> Result<bool, Memory> {
    match run_shell(alloc, parts, script)? {
        Some(end) => Ok(format!(in alloc; "{end}")?.as_str() == want),
        None => Ok(false),
    }
}

#[test]
fn a_child_ends_as_the_system_says(rt: HostRuntime) -> Result<(), Fail> {
    let mut parts = new_parts(rt)?;
    for (script, want) in ENDS.iter() {
        let answer = ends_so(rt.alloc(), &mut parts, script, want);
        expect_yes(&rt, answer, script);
    }
    assert_eq!(rt; parts.host_faults(), 0);
    drop(parts);
    Ok(())
}

/// A shell that waits, with what it does at a signal; the number of the signal that it is sent; and how it ends.
const SIGNALS: &[(&str, i32, &str)] = &[
    ("", 15, "signal.terminate"),
    ("", 2, "signal.interrupt"),
    ("", 9, "signal.forcestop"),
    ("", 31, "signal.custom.31"),
    ("trap 'exit 7' TERM; ", 15, "error.7"),
    ("trap 'exit 8' HUP; ", 1, "error.8"),
];

/// Whether a shell that waits ends so at this signal.
fn ends_at(
    alloc: Global,
    parts: &mut Parts,
    mark: &str,
    trap: &str,
    number: i32,
    want: &str,
) -> Result<bool, Memory> {
    let script = format!(in alloc; "{trap}: > {mark}; for _ in $(seq 2000); do sleep 0.01; done")?;
    let begun = spawn_shell(alloc, parts, 1, script.as_str())?;
    let ready = format!(in alloc;
        "for _ in $(seq 2000); do rm {mark} 2> /dev/null && exit 0; sleep 0.01; done; exit 1"
    )?;
    let is_ready = ends_so(alloc, parts, ready.as_str(), "success")?;
    if !begun || !is_ready || parts.ended().is_some() || parts.signal(1, number).is_err() {
        return Ok(false);
    }
    match parts.wait(1) {
        Ok(end) => Ok(format!(in alloc; "{end}")?.as_str() == want),
        Err(_) => Ok(false),
    }
}

#[test]
fn a_child_gets_its_signal(rt: HostRuntime) -> Result<(), Fail> {
    let mut parts = new_parts(rt)?;
    let mark = format!(in rt.alloc(); "/tmp/wx_signal.{}", std::process::id(rt.process()))?;
    for (trap, number, want) in SIGNALS.iter() {
        let answer = ends_at(rt.alloc(), &mut parts, mark.as_str(), trap, *number, want);
        expect_yes(&rt, answer, want);
    }
    drop(parts);
    Ok(())
}

#[test]
fn a_number_that_no_signal_has_is_a_fault(rt: HostRuntime) -> Result<(), Fail> {
    let mut parts = new_parts(rt)?;
    let spawned = spawn_shell(rt.alloc(), &mut parts, 2, "exec sleep 20");
    expect_yes(&rt, spawned, "the child");
    for number in [0, 65, -9] {
        let answer = parts.signal(2, number);
        assert_eq!(rt; answer, Err(HostFault(22)), "at {number}");
    }
    assert_eq!(rt; parts.host_faults(), 3);
    assert!(rt; parts.ended().is_none());
    parts.drop_child(2);
    drop(parts);
    Ok(())
}

/// The first end that comes, for which it waits up to 100 rests.
fn next_end(parts: &mut Parts) -> Option<u64> {
    for _ in 0..100 {
        let ended = parts.ended();
        if ended.is_some() {
            return ended;
        }
        parts.rest();
    }
    None
}

/// Whether of three children the two that end are told, each once and in their order, and the third once it was killed.
fn are_told(alloc: Global, parts: &mut Parts) -> Result<bool, Memory> {
    let spawned = spawn_shell(alloc, parts, 5, "sleep 0.4")?
        && spawn_shell(alloc, parts, 6, "exec sleep 20")?
        && spawn_shell(alloc, parts, 7, "sleep 0.8; exit 1")?;
    let first = next_end(parts);
    let second = next_end(parts);
    let none = parts.ended();
    let killed = parts.kill(6);
    let third = next_end(parts);
    Ok(
        spawned
            && first == Some(5)
            && second == Some(7)
            && none.is_none()
            && killed.is_ok()
            && third == Some(6),
    )
}

/// Whether these children are still known behind their ends, and forgotten once they were waited for.
fn are_waited_for(alloc: Global, parts: &mut Parts) -> Result<bool, Memory> {
    for (child, want) in [(5, "success"), (6, "signal.forcestop"), (7, "error.1")] {
        // one that has ended takes no signal, and can't be killed again
        if parts.signal(child, 15).is_err() || parts.kill(child).is_err() {
            return Ok(false);
        }
        let Ok(end) = parts.wait(child) else {
            return Ok(false);
        };
        if format!(in alloc; "{end}")?.as_str() != want {
            return Ok(false);
        }
        if parts.wait(child) != Err(HostFault(10)) {
            return Ok(false);
        }
    }
    Ok(true)
}

#[test]
fn each_end_is_told_once(rt: HostRuntime) -> Result<(), Fail> {
    let mut parts = new_parts(rt)?;
    let told = are_told(rt.alloc(), &mut parts);
    expect_yes(&rt, told, "the ends");
    let waited = are_waited_for(rt.alloc(), &mut parts);
    expect_yes(&rt, waited, "the waits");
    assert!(rt; parts.ended().is_none());
    assert_eq!(rt; parts.host_faults(), 3);
    drop(parts);
    Ok(())
}

/// Words that can't be spawned, and the code of the fault.
const REFUSED: &[(&[&[u8]], u32)] = &[
    (&[b"/no/such/program"], 2),
    (&[b"no_such_program_anywhere"], 2),
    (&[b"/"], 13),
    (&[], 22),
    (&[b"sh", b"a\0b"], 22),
    (&[b"\xff"], 84),
    (&[b"sh", b"\xc3\x28"], 84),
];

/// Whether spawning this is the fault of this code, and is counted.
fn is_refused(parts: &mut Parts, what: Spawnable, code: u32) -> bool {
    let before = parts.host_faults();
    let answer = parts.spawn(0, Id(0), what, SpawnTag::Default);
    answer == Err(HostFault(code)) && parts.host_faults().saturating_sub(before) == 1
}

#[test]
fn what_cannot_be_spawned_is_a_fault_that_is_counted(rt: HostRuntime) -> Result<(), Fail> {
    let mut parts = new_parts(rt)?;
    for (words, code) in REFUSED.iter() {
        let what = spawnable(rt.alloc(), words)?;
        let refused = is_refused(&mut parts, what, *code);
        assert!(rt; refused, "at {code}");
    }
    let mut grouped = spawnable(rt.alloc(), &[b"true"])?;
    grouped.options = SpawnOptions {
        grouped: true,
        ..SpawnOptions::default()
    };
    let refused = is_refused(&mut parts, grouped, 95);
    assert!(rt; refused, "options");
    assert_eq!(rt; parts.signal(0, 15), Err(HostFault(10)));
    assert_eq!(rt; parts.kill(0), Err(HostFault(10)));
    assert_eq!(rt; parts.wait(0), Err(HostFault(10)));
    parts.drop_child(0);
    assert_eq!(rt; parts.host_faults(), 12);
    drop(parts);
    Ok(())
}

/// Whether a child that is let go does nothing more.
fn is_let_go(alloc: Global, parts: &mut Parts, mark: &str) -> Result<bool, Memory> {
    let late = format!(in alloc; "sleep 0.5; : > {mark}")?;
    let spawned = spawn_shell(alloc, parts, 3, late.as_str())?;
    parts.drop_child(3);
    let look = format!(in alloc; "sleep 1; test ! -e {mark}")?;
    let nothing = ends_so(alloc, parts, look.as_str(), "success")?;
    Ok(spawned && nothing && parts.wait(3) == Err(HostFault(10)))
}

#[test]
fn a_child_that_is_let_go_is_killed(rt: HostRuntime) -> Result<(), Fail> {
    let mut parts = new_parts(rt)?;
    let mark = format!(in rt.alloc(); "/tmp/wx_let_go.{}", std::process::id(rt.process()))?;
    let answer = is_let_go(rt.alloc(), &mut parts, mark.as_str());
    expect_yes(&rt, answer, "the mark");
    drop(parts);
    Ok(())
}

#[test]
fn flags_are_raised(rt: HostRuntime) -> Result<(), Fail> {
    let mut parts = new_parts(rt)?;
    let done = Flag::new(rt.alloc(), false)?;
    let gone = Flag::new(rt.alloc(), false)?;
    parts.raise(0, &done);
    assert!(rt; done.raised() && !gone.raised());
    parts.gone(Id(0), &gone);
    assert!(rt; gone.raised());
    drop(done);
    drop(gone);
    drop(parts);
    Ok(())
}
