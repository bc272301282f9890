// A journal as text.
ghost use Rattle.std.specs.Prelude.{◌≡◌, ◌∷◌, List as Listed, OnOk, IfOk};
ghost use Rattle.wx_machine.specs.Journal.{window};
ghost use Rattle.wx_print.specs.Printed.{printed};
ghost use Rattle.wx_print.specs.Window.{AreNoted, is_noted};
ghost use Rattle.wx_journal.specs.Lines.{Answer, JournalFits, AnswerFits};
ghost use Rattle.wx_journal.specs.declared.entry.Entry.{Entry as AnEntry};

use crate::window::Window;
use std::alloc::Global;
use std::collections::HashMap;
use wx_error::CriticalError;
use wx_journal::{Entry, Journal, put_end, put_lines};
use wx_machine::is_unseen;
use wx_text::{List, Memory, Text};

/// Of names that entries list, whether their events pass unseen.
type Unseen = HashMap<u64, bool>;

/// Whether a table notes that the event of this name passes unseen.
fn is_noted(unseen: &Unseen, name: u64) -> bool
    ensures { result ≡ is_noted unseen.now name }
{
    unseen.get(&name).copied().unwrap_or(false)
}

/// Notes whether the event that an entry lists passes unseen, where it lists one. It fails only for want of memory.
fn note_listed(entry: &Entry, unseen: &mut Unseen) -> Result<(), Memory>
    ensures { OnOk result ((p : Listed AnEntry) → AreNoted unseen.old p → AreNoted unseen.new (entry.now ∷ p)) }
{
    match entry {
        Entry::Sent {
            name,
            event,
            priority,
        } => {
            unseen.insert(*name, is_unseen(event, *priority))?;
        }
        Entry::Offer {
            name,
            event,
            priority,
            ..
        } => {
            unseen.insert(*name, is_unseen(event, *priority))?;
        }
        _ => {}
    }
    Ok(())
}

/// Adds an event that joins the window, and drops those that are handed, by an entry and those before it. It fails only
/// for want of memory.
fn follow(entry: &Entry, unseen: &Unseen, names: &mut Window) -> Result<(), Memory>
    ensures { OnOk result ((p : Listed AnEntry) → AreNoted unseen.now p → names.old ≡ window p → names.new ≡ window (entry.now ∷ p)) }
{
    match entry {
        Entry::Take(name) => {
            if is_noted(unseen, *name) {
                names.join(*name)?;
            }
        }
        Entry::Filter {
            name,
            answer: Ok(true),
            ..
        } => names.join(*name)?,
        Entry::Hand { names: batch, .. } => names.hand(batch.as_slice())?,
        _ => {}
    }
    Ok(())
}

/// The names of the events that passed and were not handed, in order. It fails only for want of memory.
pub fn lost(alloc: Global, journal: &Journal) -> Result<List<u64>, Memory>
    ensures { IfOk result (λ names. names ≡ window journal.now.past) }
{
    let mut unseen = HashMap::new(alloc);
    let mut names = Window::new(alloc);
    let entries = journal.as_slice();
    for entry in entries {
        follow(entry, &unseen, &mut names)?;
        note_listed(entry, &mut unseen)?;
    }
    names.to_list(alloc)
}

/// The text of a journal, an entry a line and the oldest first, and of the end line with the answer of the run. Both are
/// such that the text has one spelling. It fails only for want of memory.
pub fn print_journal(
    alloc: Global,
    journal: &Journal,
    answer: &Result<(), CriticalError>,
) -> Result<Text, Memory>
    ensures text { IfOk result (λ text. text ≡ printed journal.now.past answer.now) }
    ensures fits { OnOk result (JournalFits journal.now.past × AnswerFits answer.now) }
{
    let names = lost(alloc, journal)?;
    let mut text = Text::new(alloc);
    put_lines(journal.as_slice(), &mut text)?;
    put_end(answer, &names, &mut text)?;
    Ok(text)
}

/// A printed journal is the text of one journal and of one answer.
pub fn one_spelling()
    ensures { (j k : Listed AnEntry) (a b : Answer) → JournalFits j → JournalFits k → AnswerFits a → AnswerFits b → printed j a ≡ printed k b → (j ≡ k) × (a ≡ b) }
{}
