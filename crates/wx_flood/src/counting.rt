// The summary of a run.
ghost use Rattle.std.specs.Prelude.{◌≡◌, ◌+◌, ◌++◌, IfOk, OnOk};
ghost use Rattle.wx_flood.specs.Summaries.{counted, counts_of, count_line, rows, with_lines, summary};

use std::alloc::Global;
use wx_journal::{Entry, Journal, Offered};
use wx_print::lost;
use wx_text::{Memory, Text};

/// How often a run did what a summary counts.
#[derive(Clone, Copy, PartialEq, Eq)]
struct Counts {
    turns: u64,
    queued: u64,
    full: u64,
    batches: u64,
    handed: u64,
    spawned: u64,
    reaped: u64,
    dropped: u64,
    raised: u64,
}

/// Adds to a count. More than a count holds would not fit in memory.
fn add(count: &mut u64, n: u64) -> Result<(), Memory>
    ensures { OnOk result (count.new ≡ count.old + n) }
{
    *count = count.checked_add(n).ok_or(Memory)?;
    Ok(())
}

/// Counts an entry. It fails only for want of memory.
fn count(entry: &Entry, counts: &mut Counts) -> Result<(), Memory>
    ensures { OnOk result (counts.new ≡ counted counts.old entry.now) }
{
    match entry {
        Entry::Turn(_) => add(&mut counts.turns, 1),
        Entry::Offer {
            result: Offered::Queued,
            ..
        } => add(&mut counts.queued, 1),
        Entry::Offer {
            result: Offered::Full,
            ..
        } => add(&mut counts.full, 1),
        Entry::Hand { names, .. } => {
            add(&mut counts.batches, 1)?;
            add(&mut counts.handed, names.len() as u64)
        }
        Entry::Spawn { answer: Ok(()), .. } => add(&mut counts.spawned, 1),
        Entry::Wait { answer: Ok(_), .. } => add(&mut counts.reaped, 1),
        Entry::Dropped(_) => add(&mut counts.dropped, 1),
        Entry::Raise(_) => add(&mut counts.raised, 1),
        _ => Ok(()),
    }
}

/// The counts of a journal. It fails only for want of memory.
fn counts_of(journal: &Journal) -> Result<Counts, Memory>
    ensures { IfOk result (λ found. found ≡ counts_of journal.now.past) }
{
    let mut found = Counts {
        turns: 0,
        queued: 0,
        full: 0,
        batches: 0,
        handed: 0,
        spawned: 0,
        reaped: 0,
        dropped: 0,
        raised: 0,
    };
    let entries = journal.as_slice();
    for entry in entries {
        count(entry, &mut found)?;
    }
    Ok(found)
}

/// Appends the line of a count. A part of it may stand in `out` where memory runs out.
fn put_count(name: &[u8], count: u64, out: &mut Text) -> Result<(), Memory>
    ensures { OnOk result (out.new ≡ out.old ++ count_line (name.now, count)) }
{
    out.append(name)?;
    out.push(32)?;
    out.append_number(count)?;
    out.push(10)
}

/// Appends the lines of the counts. A part of them may stand in `out` where memory runs out.
fn put_counts(found: Counts, lost: u64, out: &mut Text) -> Result<(), Memory>
    ensures { OnOk result (out.new ≡ with_lines out.old (rows found lost)) }
{
    put_count(b"turns", found.turns, out)?;
    put_count(b"queued", found.queued, out)?;
    put_count(b"full", found.full, out)?;
    put_count(b"batches", found.batches, out)?;
    put_count(b"handed", found.handed, out)?;
    put_count(b"spawned", found.spawned, out)?;
    put_count(b"reaped", found.reaped, out)?;
    put_count(b"dropped", found.dropped, out)?;
    put_count(b"raised", found.raised, out)?;
    put_count(b"lost", lost, out)
}

/// The summary of a run that ended with Ok: a line for each count, and the end line. It fails only for want of memory.
pub fn summary_of(alloc: Global, journal: &Journal) -> Result<Text, Memory>
    ensures { IfOk result (λ text. text ≡ summary journal.now.past) }
{
    let found = counts_of(journal)?;
    let names = lost(alloc, journal)?;
    let mut text = Text::new(alloc);
    put_counts(found, names.len() as u64, &mut text)?;
    text.append(b"end ok\n")?;
    Ok(text)
}
