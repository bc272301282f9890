// The journal: what it counts, and its entries in order.
use crate::entry_tests::read_entry;
use crate::expecting::expect_yes;
use std::alloc::Global;
use std::process::Abort;
use wx_journal::{Entry, Journal};
use wx_text::{Memory, Text};

/// Lists an entry, which takes the room of one.
fn list(rt: &impl Abort, journal: &mut Journal, entry: Entry) {
    journal.reserve(1).expect(rt, "room in the journal");
    let room = journal.spare();
    journal.push(entry);
    assert!(rt; journal.spare() == room - 1);
}

/// Whether a journal has so many entries, tickets, children, backends and brought items, and the next job has this number.
fn counts(alloc: Global, journal: &Journal, want: &str) -> Result<bool, Memory> {
    let (len, next) = (journal.len(), journal.next_job());
    let (tickets, children) = (journal.tickets(), journal.children());
    let (backs, items) = (journal.backs(), journal.items());
    let counted = format!(in alloc; "{len} {tickets} {children} {backs} {items} {next}")?;
    Ok(counted.as_str() == want)
}

/// Whether the entries of the journal are those of this table.
fn are_listed(alloc: Global, journal: &Journal, table: &str) -> Result<bool, Memory> {
    let mut lines = table.lines();
    let mut same = journal.as_slice().len() == table.lines().count();
    for entry in journal.iter() {
        let mut text = Text::new(alloc);
        entry.put(&mut text)?;
        text.append(b" = ")?;
        let line = lines.next().unwrap_or("");
        same = same && line.as_bytes().starts_with(text.as_slice());
    }
    Ok(same)
}

/// Lists the entry of a line, and holds what is counted then to what stands behind ` = `.
fn expect_listed(rt: &impl Abort, alloc: Global, journal: &mut Journal, line: &str) {
    let (words, want) = line.split_once(" = ").expect(rt, "an entry and counts");
    let found = read_entry(alloc, words).expect(rt, "words");
    list(rt, journal, found.expect(rt, "an entry"));
    assert!(rt; !journal.is_empty());
    expect_yes(rt, counts(alloc, journal, want), line);
}

/// Lists the entries of a table in a journal.
fn expect_counts(rt: &impl Abort, alloc: Global, table: &str) {
    let mut journal = Journal::new(alloc).expect(rt, "a journal");
    assert!(rt; journal.is_empty());
    for line in table.lines() {
        expect_listed(rt, alloc, &mut journal, line);
    }
    expect_yes(rt, are_listed(alloc, &journal, table), table);
    drop(journal);
}

// A job, two controls and a child.
const JOBS: &str = "\
made 3 = 1 0 0 0 0 4
asked 0 3 high stop = 2 1 0 0 0 4
asked 1 3 high stop = 3 2 0 0 0 4
spawn 0 3 default g--- 2 sh a%20b ok = 4 2 1 0 0 4";

// Settings that are applied, and two makes, of which the first fails.
const BACKENDS: &str = "\
applied 0 = 1 0 0 0 0 0
make 2 poll 5 on fail maxwatches 0 = 2 0 0 1 0 0
make 1 native off ok = 3 0 0 2 0 0";

// What is brought, and what becomes of it.
const ITEMS: &str = "\
brought 3 2 ok modify.data.any 1 /w/a file - - = 1 0 0 0 1 0
letgo 3 full = 2 0 0 0 1 0
brought 3 2 fail io 5 0 = 3 0 0 0 2 0
heard 1 = 4 0 0 0 2 0";

// A child of each of two jobs. The second wasn't spawned.
const CHILDREN: &str = "\
made 3
spawn 0 3 default g--- 2 sh a%20b ok
spawn 1 0 default g--- 2 sh a%20b fault 9";

/// The number of the job for which this child was spawned.
fn owner_of(journal: &Journal, child: u64) -> Option<u32> {
    let id = journal.owner(child)?;
    Some(id.0)
}

#[test]
fn a_child_is_of_the_job_for_which_it_was_spawned(rt: HostRuntime) {
    let mut journal = Journal::new(rt.alloc()).expect(&rt, "a journal");
    for words in CHILDREN.lines() {
        let found = read_entry(rt.alloc(), words).expect(&rt, "words");
        list(&rt, &mut journal, found.expect(&rt, "an entry"));
    }
    assert_eq!(rt; owner_of(&journal, 0), Some(3));
    assert_eq!(rt; owner_of(&journal, 1), Some(0));
    assert_eq!(rt; owner_of(&journal, 2), None);
}

#[test]
fn a_journal_counts(rt: HostRuntime) {
    for table in &[JOBS, BACKENDS, ITEMS] {
        expect_counts(&rt, rt.alloc(), table);
    }
}
