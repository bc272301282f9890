// Moments, rests and the folder.
use crate::expecting::expect_yes;
use crate::trial::{Parts, new_parts, run_shell, spawn_shell};
use std::alloc::Global;
use std::test::Fail;
use wx_events::{FileEventKind, ProcessEnd};
use wx_job::Host;
use wx_journal::{Entry, Turn, TurnKind, Word};
use wx_live::Live;
use wx_live_parts::current_folder;
use wx_notify::Notify;
use wx_scan::Scanner;
use wx_text::{List, Memory, Text};
use wx_watch::{NotifyFault, NotifyFaultKind};
use wx_words::TextPath;

/// A whole rest, in nanoseconds.
const REST: u64 = 50_000_000;

/// How many rests are taken at once. So many that wait take a second.
const MANY: u64 = 20;

/// What happens in a round before a rest.
#[derive(Clone, Copy)]
enum Happens {
    Nothing,
    /// What watches files brought an event.
    Event,
    /// What watches files brought a fault.
    Fault,
    /// It looked at files to listen.
    LookToListen,
    /// A turn about files looked at the tree.
    LookAtTree,
    /// Keys were read.
    Keys,
}

fn turn(kind: TurnKind) -> Entry {
    Entry::Turn(Turn { at: 0, kind })
}

fn brought(alloc: Global, is_fault: bool) -> Entry {
    let answer = if is_fault {
        Err(NotifyFault {
            kind: NotifyFaultKind::Io(5),
            paths: List::new(alloc),
        })
    } else {
        Ok(Notify {
            kind: FileEventKind::Any,
            paths: List::new(alloc),
            rescan: false,
            process: None,
        })
    };
    Entry::Brought {
        item: 0,
        back: 0,
        answer,
    }
}

/// Tells a round in which this happens.
fn tell_round(alloc: Global, parts: &mut Parts, path: &TextPath, happens: Happens) {
    parts.note(turn(TurnKind::Work));
    parts.note(turn(TurnKind::Listen));
    match happens {
        Happens::Event => parts.note(brought(alloc, false)),
        Happens::Fault => parts.note(brought(alloc, true)),
        Happens::LookToListen => {
            let _ = parts.stamp(path);
            parts.note(Entry::Word(Word::Quiet));
        }
        Happens::Keys => parts.note(turn(TurnKind::Keys(List::new(alloc)))),
        Happens::Nothing | Happens::LookAtTree => parts.note(Entry::Word(Word::Quiet)),
    }
    parts.note(turn(TurnKind::File));
    if let Happens::LookAtTree = happens {
        let _ = parts.classify(path, false);
    }
}

/// How long so many rests take, each behind such a round.
fn time_of(alloc: Global, parts: &mut Parts, path: &TextPath, happens: Happens, count: u64) -> u64 {
    let begun = parts.now();
    for _ in 0..count {
        tell_round(alloc, parts, path, happens);
        parts.rest();
    }
    parts.now().saturating_sub(begun)
}

#[test]
fn a_rest_waits_where_nothing_was_done(rt: HostRuntime) -> Result<(), Fail> {
    let alloc = rt.alloc();
    let mut parts = new_parts(rt)?;
    let path = TextPath::new(Text::from_slice(alloc, b"/")?);
    for happens in [Happens::Nothing, Happens::Fault, Happens::LookToListen] {
        let time = time_of(alloc, &mut parts, &path, happens, 3);
        assert!(rt; 3 * REST <= time);
    }
    for (happens, more) in [
        (Happens::Event, 3),
        (Happens::LookAtTree, 0),
        (Happens::Keys, 0),
    ] {
        let time = time_of(alloc, &mut parts, &path, happens, MANY);
        assert!(rt; time < MANY * REST);
        // so many rests more aren't taken, and the next one is
        let behind = time_of(alloc, &mut parts, &path, Happens::Nothing, more);
        assert!(rt; behind < more.max(1) * REST);
        let next = time_of(alloc, &mut parts, &path, Happens::Nothing, 1);
        assert!(rt; REST <= next);
    }
    assert_eq!(rt; parts.clock_faults(), 0);
    drop(path);
    drop(parts);
    Ok(())
}

/// How long so many rests take.
fn time_of_rests(parts: &mut Parts, count: u64) -> u64 {
    let begun = parts.now();
    for _ in 0..count {
        parts.rest();
    }
    parts.now().saturating_sub(begun)
}

#[test]
fn a_rest_ends_where_a_child_has_ended(rt: HostRuntime) -> Result<(), Fail> {
    let alloc = rt.alloc();
    let mut parts = new_parts(rt)?;
    let spawned = spawn_shell(alloc, &mut parts, 7, "exit 0");
    expect_yes(&rt, spawned, "the child");
    // by then it has ended
    let waited = run_shell(alloc, &mut parts, "sleep 0.5")?;
    assert!(rt; waited.is_some());
    assert!(rt; time_of_rests(&mut parts, MANY) < MANY * REST);
    assert_eq!(rt; parts.ended(), Some(7));
    // once that is told it is nothing new
    assert!(rt; REST <= time_of_rests(&mut parts, 1));
    drop(parts);
    Ok(())
}

#[test]
fn a_rest_is_whole_beside_a_child_that_runs(rt: HostRuntime) -> Result<(), Fail> {
    let alloc = rt.alloc();
    let mut parts = new_parts(rt)?;
    let spawned = spawn_shell(alloc, &mut parts, 0, "exec sleep 20");
    expect_yes(&rt, spawned, "the child");
    // a spawn is something that was done
    assert!(rt; time_of_rests(&mut parts, 2) < 2 * REST);
    assert!(rt; REST <= time_of_rests(&mut parts, 1));
    parts.drop_child(0);
    drop(parts);
    Ok(())
}

/// Whether it is in the folder in which the shell is.
fn is_here(alloc: Global, parts: &mut Parts) -> Result<bool, Memory> {
    let folder = parts.folder()?;
    let Ok(name) = std::str::from_utf8(folder.text().as_slice()) else {
        return Ok(false);
    };
    let script = format!(in alloc; "test \"$(pwd -P)\" = '{name}'")?;
    let end = run_shell(alloc, parts, script.as_str())?;
    Ok(end == Some(ProcessEnd::Success))
}

#[test]
fn its_folder_is_that_of_the_program(rt: HostRuntime) -> Result<(), Fail> {
    let mut parts = new_parts(rt)?;
    let here = is_here(rt.alloc(), &mut parts);
    expect_yes(&rt, here, "the folder");
    let again = current_folder(&rt)?;
    assert!(rt; parts.folder()? == again);
    drop(again);
    drop(parts);
    Ok(())
}
