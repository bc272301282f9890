// Runs over a tree in memory, and over a poller that looks at it. A text has runs, each behind `# ` and what it shows. A line edits
// the tree, or asks the tree or the poller for something, with what it answers behind ` = `.
use std::alloc::Global;
use std::process::Abort;
use wx_fs_trial::{is_found, path, put_node, put_path};
use wx_mem_tree::MemTree;
use wx_notify::Notify;
use wx_poller::Poller;
use wx_scan::{Backend, EntryKind, ScanError, Scanner};
use wx_text::{List, Memory, Text};
use wx_watch::NotifyFault;
use wx_words::{Escaped, Spelled, TextPath};

/// Two trees, and the poller that looks at the first.
struct Outside {
    alloc: Global,
    tree: MemTree,
    other: MemTree,
    poller: Poller,
}

// Its parts are dropped by one call: docs/DESIGN.md, "What proofs cost".
impl Drop for Outside {
    fn drop(self) {
        let Outside {
            alloc: _,
            tree: _,
            other: _,
            poller: _,
        } = self;
    }
}

/// What can't be answered, as a text.
fn shown_error(alloc: Global, error: ScanError) -> Result<String, Memory> {
    Ok(match error {
        ScanError::NotFound => format!(in alloc; "none")?,
        ScanError::Io(code) => format!(in alloc; "io {code}")?,
        ScanError::Memory => format!(in alloc; "memory")?,
    })
}

fn shown_kind(alloc: Global, answer: Result<EntryKind, ScanError>) -> Result<String, Memory> {
    match answer {
        Ok(kind) => Ok(format!(in alloc; "{kind}")?),
        Err(error) => shown_error(alloc, error),
    }
}

fn shown_path(alloc: Global, answer: Result<TextPath, ScanError>) -> Result<String, Memory> {
    match answer {
        Ok(path) => Ok(format!(in alloc; "{path}", path = Escaped(path.text()))?),
        Err(error) => shown_error(alloc, error),
    }
}

fn shown_stamp(alloc: Global, answer: Result<u64, ScanError>) -> Result<String, Memory> {
    match answer {
        Ok(stamp) => Ok(format!(in alloc; "{stamp}")?),
        Err(error) => shown_error(alloc, error),
    }
}

fn shown_list(alloc: Global, answer: Result<List<TextPath>, ScanError>) -> Result<String, Memory> {
    match answer {
        Ok(paths) => {
            let mut shown = format!(in alloc; "entries")?;
            for path in paths.as_slice() {
                put_path(alloc, path, &mut shown)?;
            }
            Ok(shown)
        }
        Err(error) => shown_error(alloc, error),
    }
}

fn shown_fault(alloc: Global, fault: &NotifyFault) -> Result<Text, Memory> {
    let mut shown = Text::new(alloc);
    fault.put(&mut shown)?;
    Ok(shown)
}

/// What a call on the poller answered.
fn shown_call(alloc: Global, answer: Result<(), NotifyFault>) -> Result<Text, Memory> {
    match answer {
        Ok(()) => Text::from_slice(alloc, b"ok"),
        Err(fault) => shown_fault(alloc, &fault),
    }
}

/// What the poller brought.
fn shown_brought(
    alloc: Global,
    answer: Option<Result<Notify, NotifyFault>>,
) -> Result<Text, Memory> {
    match answer {
        None => Text::from_slice(alloc, b"none"),
        Some(Err(fault)) => shown_fault(alloc, &fault),
        Some(Ok(event)) => {
            let mut shown = Text::new(alloc);
            event.put(&mut shown)?;
            Ok(shown)
        }
    }
}

/// What a call on a tree answers.
fn asked_of_tree(
    alloc: Global,
    tree: &mut MemTree,
    call: &str,
    at: &TextPath,
) -> Result<String, Memory> {
    match call {
        "look" => shown_kind(alloc, tree.classify(at, false)),
        "follow" => shown_kind(alloc, tree.classify(at, true)),
        "canonical" => shown_path(alloc, tree.canonicalize(at)),
        "stamp" => shown_stamp(alloc, tree.stamp(at)),
        "scan" => shown_list(alloc, tree.scan(at)),
        _ => Ok(format!(in alloc; "no call")?),
    }
}

/// What a call on the poller about a path answers.
fn asked_of_poller(outside: &mut Outside, call: &str, at: &TextPath) -> Result<Text, Memory> {
    if call == "watch" {
        let answer = outside.poller.watch(&mut outside.tree, at);
        return shown_call(outside.alloc, answer);
    }
    let answer = outside.poller.unwatch(&mut outside.tree, at);
    shown_call(outside.alloc, answer)
}

/// Whether the call about a path answers this.
fn answers_at(outside: &mut Outside, call: &str, at: &str, wanted: &str) -> Result<bool, Memory> {
    let at = path(outside.alloc, at)?;
    match call {
        "watch" | "unwatch" => {
            let given = asked_of_poller(outside, call, &at)?;
            Ok(given.as_slice() == wanted.as_bytes())
        }
        _ => {
            let given = asked_of_tree(outside.alloc, &mut outside.tree, call, &at)?;
            Ok(is_found(given.as_str(), wanted))
        }
    }
}

/// Whether what is asked for by one word is this.
fn answers(outside: &mut Outside, call: &str, wanted: &str) -> Result<bool, Memory> {
    match call {
        "faults" => Ok(wanted.parse::<u64>() == Ok(outside.poller.faults())),
        "looks" => Ok(wanted.parse::<u64>() == Ok(outside.tree.looks())),
        "next" => {
            let brought = outside.poller.next(&mut outside.tree);
            Ok(shown_brought(outside.alloc, brought)?.as_slice() == wanted.as_bytes())
        }
        _ => Ok(false),
    }
}

/// The look of this number is to fail with this code. The number is counted from 0, or behind `+` from the next look on.
fn fails(tree: &mut MemTree, words: &str) -> Result<bool, Memory> {
    let (number, code) = words.split_once(" ").unwrap_or((words, ""));
    let from = if number.starts_with("+") {
        tree.looks()
    } else {
        0
    };
    let counted = number.strip_prefix("+").unwrap_or(number).parse::<u64>();
    match (counted, code.parse::<u32>()) {
        (Ok(look), Ok(code)) => {
            tree.fail(look.saturating_add(from), code)?;
            Ok(true)
        }
        _ => Ok(false),
    }
}

/// Takes a path away.
fn takes_away(tree: &mut MemTree, alloc: Global, at: &str) -> Result<bool, Memory> {
    tree.gone(&path(alloc, at)?)?;
    Ok(true)
}

/// Edits the tree, or behind `other` the other one. No where the words name nothing.
fn edits(outside: &mut Outside, word: &str, more: &str) -> Result<bool, Memory> {
    let alloc = outside.alloc;
    match word {
        "gone" => takes_away(&mut outside.tree, alloc, more),
        "fail" => fails(&mut outside.tree, more),
        "other" => match more.split_once(" ") {
            Some((kind, at)) => put_node(alloc, &mut outside.other, kind, at),
            None => Ok(false),
        },
        _ => put_node(alloc, &mut outside.tree, word, more),
    }
}

/// Exchanges what stands in the trees.
fn swaps(outside: &mut Outside) -> bool {
    outside.tree.swap(&mut outside.other);
    true
}

/// Looks at the other tree from here on, in the place of the first.
fn turns(outside: &mut Outside) -> bool {
    std::mem::swap(&mut outside.tree, &mut outside.other);
    true
}

/// The poller is one that follows links.
fn follows(outside: &mut Outside) -> Result<bool, Memory> {
    outside.poller = Poller::new(outside.alloc, true)?;
    Ok(true)
}

/// Whether a line that says no answer can be done.
fn does(outside: &mut Outside, line: &str) -> Result<bool, Memory> {
    match line.split_once(" ") {
        Some((word, more)) => edits(outside, word, more),
        None => match line {
            "follows" => follows(outside),
            "swap" => Ok(swaps(outside)),
            "turn" => Ok(turns(outside)),
            _ => Ok(false),
        },
    }
}

/// Whether a line of a run holds.
fn holds(outside: &mut Outside, line: &str) -> Result<bool, Memory> {
    match line.split_once(" = ") {
        Some((asked, wanted)) => match asked.split_once(" ") {
            Some((call, at)) => answers_at(outside, call, at, wanted),
            None => answers(outside, asked, wanted),
        },
        None => does(outside, line),
    }
}

fn make(alloc: Global) -> Result<Outside, Memory> {
    let tree = MemTree::new(alloc)?;
    let other = MemTree::new(alloc)?;
    let poller = Poller::new(alloc, false)?;
    Ok(Outside {
        alloc,
        tree,
        other,
        poller,
    })
}

/// Ends the test where the answer isn't yes, and says what the run shows, and at which line it is.
fn expect_yes(rt: &impl Abort, answer: Result<bool, Memory>, shows: &str, line: &str) {
    assert!(rt; answer == Ok(true), "{shows}: {line}");
}

/// The run holds behind these lines, for empty trees and a poller that watches nothing. Its first line says what it shows.
fn run_holds(rt: &impl Abort, alloc: Global, before: &str, run: &str) {
    let (shows, lines) = run.split_once("\n").unwrap_or((run, ""));
    let mut outside = make(alloc).expect(rt, shows);
    for line in before.lines() {
        expect_yes(rt, holds(&mut outside, line), shows, line);
    }
    for line in lines.lines() {
        expect_yes(rt, holds(&mut outside, line), shows, line);
    }
    drop(outside);
}

/// Each run of the text holds behind these lines.
pub fn runs_hold(rt: &impl Abort, alloc: Global, before: &str, runs: &str) {
    for run in runs.split("# ") {
        if !run.is_empty() {
            run_holds(rt, alloc, before, run);
        }
    }
}
