// The lines of entries, and the end line of a run.
ghost use Rattle.std.specs.Prelude.{◌≡◌, ◌++◌, OnOk};
ghost use Rattle.std.specs.List.{flat_map};
ghost use Rattle.wx_words.specs.Line.{behind, joined};
ghost use Rattle.wx_journal.specs.Lines.{answer, AnswerFits, end_words, entry_line, line_of};
ghost use Rattle.std.specs.List.{AllByRecursion};
ghost use Rattle.wx_journal.specs.Entries.{EntryFits};

use crate::entry::Entry;
use crate::words::append_entry;
use wx_error::CriticalError;
use wx_text::{List, Memory, Text};
use wx_words::{Spelled, put_row, put_word};

/// Appends the line of an entry.
fn put_line(entry: &Entry, out: &mut Text) -> Result<(), Memory>
    ensures text { OnOk result (out.new ≡ out.old ++ entry_line entry.now) }
    ensures fits { OnOk result (EntryFits entry.now) }
{
    append_entry(entry, out)?;
    out.push(10)
}

/// Appends the line of each entry. A part of the lines may stand in `out` where memory runs out.
pub fn put_lines(entries: &[Entry], out: &mut Text) -> Result<(), Memory>
    ensures text { OnOk result (out.new ≡ out.old ++ flat_map entry_line entries.now) }
    ensures fits { OnOk result (AllByRecursion EntryFits entries.now) }
{
    for entry in entries {
        put_line(entry, out)?;
    }
    Ok(())
}

/// Appends the words of the answer of a run.
#[tactic(auto, using(wx_words::specs::LineLaws::behinds), unfolding(crate::specs::Lines::answer))]
fn put_outcome(outcome: &Result<(), CriticalError>, out: &mut Text) -> Result<(), Memory>
    ensures text { OnOk result (out.new ≡ behind out.old (answer.words outcome.now)) }
    ensures fits { OnOk result (AnswerFits outcome.now) }
{
    match outcome {
        Ok(()) => put_word(b"ok", out),
        Err(error) => {
            put_word(b"error", out)?;
            error.put_after(out)?;
            Ok(())
        }
    }
}

/// Appends the words of the end line.
#[tactic(auto, using(wx_words::specs::LineLaws::begins), unfolding(wx_words::specs::Parts::both))]
fn put_end_words(
    answer: &Result<(), CriticalError>,
    lost: &List<u64>,
    out: &mut Text,
) -> Result<(), Memory>
    ensures text { OnOk result (out.new ≡ out.old ++ joined (end_words answer.now lost.now)) }
    ensures fits { OnOk result (AnswerFits answer.now) }
{
    out.append(b"end")?;
    put_outcome(answer, out)?;
    put_row(b"lost", &lost, out)?;
    Ok(())
}

/// Appends the end line. A part of it may stand in `out` where memory runs out.
pub fn put_end(
    answer: &Result<(), CriticalError>,
    lost: &List<u64>,
    out: &mut Text,
) -> Result<(), Memory>
    ensures text { OnOk result (out.new ≡ out.old ++ line_of (end_words answer.now lost.now)) }
    ensures fits { OnOk result (AnswerFits answer.now) }
{
    put_end_words(answer, lost, out)?;
    out.push(10)
}
