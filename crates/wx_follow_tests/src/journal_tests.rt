// Tests of ids and of printed journals: the expected values are worked out by hand.
use std::alloc::Global;
use std::process::Abort;
use std::test::Fail;
use wx_control::Id;
use wx_error::CriticalError;
use wx_hooks::IdCount;
use wx_journal::{Entry, Journal};
use wx_print::{lost, print_journal};
use wx_text::{List, Memory, Text};
use wx_words::{Spelled, Words};

/// The first id of a count, and what it gives one after the other.
const IDS: [(u64, [Option<Id>; 3]); 4] = [
    (0, [Some(Id(0)), Some(Id(1)), Some(Id(2))]),
    (4_294_967_294, [Some(Id(4_294_967_294)), None, None]),
    (4_294_967_295, [None, None, None]),
    (u64::MAX, [None, None, None]),
];

/// Takes ids of the count that begins so, and holds them to be these.
fn expect_ids(rt: &impl Abort, first: u64, wants: &[Option<Id>]) {
    let mut count = IdCount::new(first);
    for want in wants {
        let given = count.next();
        assert!(rt; given == *want, "from {first}: {given:?}");
    }
}

#[test]
fn ids_are_given_once(rt: HostRuntime) {
    for (first, wants) in &IDS {
        expect_ids(&rt, *first, wants.as_slice());
    }
}

/// A journal, with the critical error of its answer, or none, and the end line that it is printed with, and the names that are lost.
#[derive(Clone, Copy)]
struct Row {
    lines: &'static str,
    error: &'static str,
    end: &'static str,
    lost: &'static [u64],
}

const UNTAGGED: &str = "sent 0 low 0\ntake 0\n";

const ROWS: [Row; 8] = [
    Row {
        lines: UNTAGGED,
        error: "",
        end: "end ok lost 1 0\n",
        lost: &[0],
    },
    Row {
        lines: UNTAGGED,
        error: "memory",
        end: "end error memory lost 1 0\n",
        lost: &[0],
    },
    Row {
        lines: UNTAGGED,
        error: "io turn 5",
        end: "end error io turn 5 lost 1 0\n",
        lost: &[0],
    },
    // what was handed isn't lost
    Row {
        lines: "sent 0 urgent 0\nsent 1 urgent 0\nsent 2 urgent 0\ntake 0\nhand 0 2 0 1\ntake 2\n",
        error: "",
        end: "end ok lost 1 2\n",
        lost: &[2],
    },
    // what passed waits, and nothing else
    Row {
        lines: "sent 0 high 1 unknown\ntake 0\nfilter 0 0 pass\n",
        error: "",
        end: "end ok lost 1 0\n",
        lost: &[0],
    },
    Row {
        lines: "sent 0 high 1 unknown\ntake 0\nfilter 0 0 reject\n",
        error: "",
        end: "end ok lost 0\n",
        lost: &[],
    },
    Row {
        lines: "sent 0 high 1 unknown\ntake 0\nfilter 0 0 fail exit\n",
        error: "",
        end: "end ok lost 0\n",
        lost: &[],
    },
    Row {
        lines: "sent 0 high 1 unknown\ntake 0\nfilter 0 0 fail memory\n",
        error: "",
        end: "end ok lost 0\n",
        lost: &[],
    },
];

/// Adds the entry that this line spells.
fn push_line(alloc: Global, journal: &mut Journal, line: &str) -> Result<(), Fail> {
    journal.reserve(1)?;
    match Entry::take(alloc, &mut Words::new(line.as_bytes()))? {
        Some(entry) => {
            journal.push(entry);
            Ok(())
        }
        None => Err(Fail::new("no entry")),
    }
}

/// The journal of these lines.
fn journal_of(alloc: Global, lines: &str) -> Result<Journal, Fail> {
    let mut journal = Journal::new(alloc)?;
    for line in lines.lines() {
        push_line(alloc, &mut journal, line)?;
    }
    Ok(journal)
}

/// The answer with the critical error of these words, or a good one where there are none.
fn answer_of(alloc: Global, error: &str) -> Result<Result<(), CriticalError>, Memory> {
    let found = CriticalError::take(alloc, &mut Words::new(error.as_bytes()))?;
    Ok(match found {
        Some(error) => Err(error),
        None => Ok(()),
    })
}

/// The names that are lost of this journal, and its text with the answer that has this error.
fn printed(alloc: Global, journal: &Journal, error: &str) -> Result<(List<u64>, Text), Memory> {
    let answer = answer_of(alloc, error)?;
    let text = print_journal(alloc, journal, &answer);
    drop(answer);
    let text = text?;
    Ok((lost(alloc, journal)?, text))
}

/// Holds the journal of a row to be printed so, and what is lost to be this.
fn expect_row(rt: &impl Abort, alloc: Global, row: &Row) -> Result<(), Fail> {
    let journal = journal_of(alloc, row.lines)?;
    let found = printed(alloc, &journal, row.error);
    drop(journal);
    let (names, text) = found?;
    assert!(rt; names.as_slice() == row.lost, "{}", row.lines);
    let rest = text.as_slice().strip_prefix(row.lines.as_bytes());
    assert!(rt; rest == Some(row.end.as_bytes()), "{}", row.lines);
    Ok(())
}

#[test]
fn a_journal_is_printed_with_its_end_line(rt: HostRuntime) -> Result<(), Fail> {
    for row in &ROWS {
        expect_row(&rt, rt.alloc(), row)?;
    }
    Ok(())
}
