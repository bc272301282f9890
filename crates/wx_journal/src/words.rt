// Entries as words.
ghost use Rattle.std.specs.Prelude.{◌≡◌, ◌++◌, ℕ, List, true, OnOk, OnErr, IfOk, IfSome, IfNone};
ghost use Rattle.wx_words.specs.Forms.{Stood};
ghost use Rattle.wx_words.specs.Line.{joined, Taken};
ghost use Rattle.wx_words.specs.Texts.{text_in};
ghost use Rattle.wx_journal.specs.Entries.{entry_words, read_entry, EntryFits};
ghost use Rattle.wx_journal.specs.Sorts.{is_of_files, is_of_job};
ghost use Rattle.wx_journal.specs.declared.entry.Entry.{Entry as AnEntry};
ghost use Rattle.wx_journal.specs.declared.entry.Entry.TheVariants.{Hand};

use crate::answers::{BackedRef, HookedRef, NewsRef, ReadyRef, VerdictRef};
use crate::entry::{Act, Entry, LetGoCause, Offered, Word};
use crate::reading::read_entry;
use std::alloc::Global;
use wx_text::{List, Memory, Text};
use wx_words::{ResultRef, Spelled, Words, begin_row, put_items, put_word, read_rows};

#[tactic(auto, unfolding(crate::specs::Words::offered))]
impl Spelled for Offered {
    ghost use Rattle.wx_journal.specs.Words.{offered};

    ghost spelling = { offered };

    fn put_after(&self, out: &mut Text) -> Result<(), Memory> {
        match self {
            Offered::Queued => put_word(b"queued", out),
            Offered::Full => put_word(b"full", out),
            Offered::Closed => put_word(b"closed", out),
        }
    }

    fn read(_alloc: Global, line: &mut Words) -> Result<Option<Offered>, Memory> {
        read_rows!(_alloc, line;
            b"queued" => Offered::Queued,
            b"full" => Offered::Full,
            b"closed" => Offered::Closed,
        )
    }
}

#[tactic(auto, unfolding(crate::specs::Words::said))]
impl Spelled for Word {
    ghost use Rattle.wx_journal.specs.Words.{said};

    ghost spelling = { said };

    fn put_after(&self, out: &mut Text) -> Result<(), Memory> {
        match self {
            Word::Idle => put_word(b"idle", out),
            Word::Ignored => put_word(b"ignored", out),
            Word::Quitting => put_word(b"quitting", out),
            Word::Later => put_word(b"later", out),
            Word::Quiet => put_word(b"quiet", out),
            Word::Stepped => put_word(b"stepped", out),
        }
    }

    fn read(_alloc: Global, line: &mut Words) -> Result<Option<Word>, Memory> {
        read_rows!(_alloc, line;
            b"idle" => Word::Idle,
            b"ignored" => Word::Ignored,
            b"quitting" => Word::Quitting,
            b"later" => Word::Later,
            b"quiet" => Word::Quiet,
            b"stepped" => Word::Stepped,
        )
    }
}

#[tactic(auto, unfolding(crate::specs::Words::cause))]
impl Spelled for LetGoCause {
    ghost use Rattle.wx_journal.specs.Words.{cause};

    ghost spelling = { cause };

    fn put_after(&self, out: &mut Text) -> Result<(), Memory> {
        match self {
            LetGoCause::Full => put_word(b"full", out),
            LetGoCause::Obsolete => put_word(b"obsolete", out),
            LetGoCause::Uncovered => put_word(b"uncovered", out),
        }
    }

    fn read(_alloc: Global, line: &mut Words) -> Result<Option<LetGoCause>, Memory> {
        read_rows!(_alloc, line;
            b"full" => LetGoCause::Full,
            b"obsolete" => LetGoCause::Obsolete,
            b"uncovered" => LetGoCause::Uncovered,
        )
    }
}

/// Appends the words of a batch that was handed, and of the acts that were asked for.
#[tactic(auto, using(wx_words::specs::LineLaws::spaces), unfolding(wx_words::specs::Parts::both))]
fn put_hand(n: u32, names: &List<u64>, acts: &List<Act>, out: &mut Text) -> Result<(), Memory>
    ensures text { OnOk result (out.new ≡ out.old ++ joined (entry_words (Hand n names.now acts.now))) }
    ensures fits { OnOk result (EntryFits (Hand n names.now acts.now)) }
{
    begin_row(b"hand", &(&n, names), out)?;
    put_items(acts.as_slice(), out)
}

/// Appends the words of an entry of a job.
#[tactic(auto, unfolding(crate::specs::Entries::entry, wx_words::specs::Parts::both))]
fn put_job_entry(entry: &Entry, out: &mut Text) -> Result<(), Memory>
    requires { is_of_job entry.now ≡ true }
    ensures text { OnOk result (out.new ≡ out.old ++ joined (entry_words entry.now)) }
    ensures fits { OnOk result (EntryFits entry.now) }
{
    match entry {
        Entry::Made(job) => begin_row(b"made", &job, out),
        Entry::Asked {
            ticket,
            job,
            level,
            control,
        } => begin_row(b"asked", &(ticket, (job, (level, control))), out),
        Entry::Pick { job, ticket } => begin_row(b"pick", &(job, ticket), out),
        Entry::GraceOver(job) => begin_row(b"grace", &job, out),
        Entry::Spawn {
            child,
            job,
            tag,
            what,
            answer: result,
        } => begin_row(
            b"spawn",
            &(child, (job, (tag, (what, ResultRef { result })))),
            out,
        ),
        Entry::Signal {
            child,
            number,
            answer: result,
        } => begin_row(b"signal", &(child, (number, ResultRef { result })), out),
        Entry::Kill {
            child,
            answer: result,
        } => begin_row(b"kill", &(child, ResultRef { result }), out),
        Entry::Wait {
            child,
            answer: result,
        } => begin_row(b"wait", &(child, ResultRef { result }), out),
        Entry::Dropped(child) => begin_row(b"drop", &child, out),
        Entry::Raise(ticket) => begin_row(b"raise", &ticket, out),
        Entry::Gone(job) => begin_row(b"gone", &job, out),
        Entry::Run { job, n } => begin_row(b"run", &(job, n), out),
        Entry::Begun { job, n } => begin_row(b"begun", &(job, n), out),
        Entry::Poll { job, n, ready } => {
            begin_row(b"poll", &(job, (n, ReadyRef { ready })), out)
        }
        Entry::Hook { job, n, answer } => {
            begin_row(b"hook", &(job, (n, HookedRef { answer })), out)
        }
        Entry::JobError { job, n, code } => begin_row(b"joberror", &(job, (n, code)), out),
        _ => Ok(()),
    }
}

/// Appends the words of an entry of what is watched.
#[tactic(auto, unfolding(crate::specs::Entries::entry, wx_words::specs::Parts::both))]
fn put_file_entry(entry: &Entry, out: &mut Text) -> Result<(), Memory>
    requires { is_of_files entry.now ≡ true }
    ensures text { OnOk result (out.new ≡ out.old ++ joined (entry_words entry.now)) }
    ensures fits { OnOk result (EntryFits entry.now) }
{
    match entry {
        Entry::Dir { n, path, answer } => {
            begin_row(b"dir", &(n, (path, VerdictRef { answer })), out)
        }
        Entry::Make {
            back,
            watcher,
            follow,
            answer,
        } => begin_row(
            b"make",
            &(back, (watcher, (follow, BackedRef { answer }))),
            out,
        ),
        Entry::Applied(revision) => begin_row(b"applied", &revision, out),
        Entry::Heard(item) => begin_row(b"heard", &item, out),
        Entry::Brought { item, back, answer } => {
            begin_row(b"brought", &(item, (back, NewsRef { answer })), out)
        }
        Entry::LetGo { item, cause } => begin_row(b"letgo", &(item, cause), out),
        Entry::Ready(revision) => begin_row(b"ready", &revision, out),
        _ => Ok(()),
    }
}

/// Appends the words of an entry with one space between them.
#[tactic(auto, unfolding(crate::specs::Entries::entry, wx_words::specs::Parts::both))]
pub fn append_entry(entry: &Entry, out: &mut Text) -> Result<(), Memory>
    ensures text { OnOk result (out.new ≡ out.old ++ joined (entry_words entry.now)) }
    ensures fits { OnOk result (EntryFits entry.now) }
{
    match entry {
        Entry::Begin(beginning) => begin_row(b"begin", &beginning, out),
        Entry::Sent {
            name,
            event,
            priority,
        } => begin_row(b"sent", &(name, (priority, event)), out),
        Entry::Turn(turn) => begin_row(b"turn", &turn, out),
        Entry::TurnFault(code) => begin_row(b"turnfault", &code, out),
        Entry::Offer {
            name,
            item,
            result: outcome,
            event,
            priority,
        } => begin_row(b"offer", &(name, (item, (outcome, (priority, event)))), out),
        Entry::Word(word) => begin_row(b"word", &word, out),
        Entry::Take(name) => begin_row(b"take", &name, out),
        Entry::Filter { n, name, answer } => {
            begin_row(b"filter", &(n, (name, VerdictRef { answer })), out)
        }
        Entry::Show { n, error, wish } => begin_row(b"show", &(n, (error, wish)), out),
        Entry::Hand { n, names, acts } => put_hand(*n, names, acts, out),
        Entry::Changed(revision) => begin_row(b"changed", &revision, out),
        Entry::Dir { .. }
        | Entry::Make { .. }
        | Entry::Applied(_)
        | Entry::Heard(_)
        | Entry::Brought { .. }
        | Entry::LetGo { .. }
        | Entry::Ready(_) => put_file_entry(entry, out),
        Entry::Made(_)
        | Entry::Asked { .. }
        | Entry::Pick { .. }
        | Entry::GraceOver(_)
        | Entry::Spawn { .. }
        | Entry::Signal { .. }
        | Entry::Kill { .. }
        | Entry::Wait { .. }
        | Entry::Dropped(_)
        | Entry::Raise(_)
        | Entry::Gone(_)
        | Entry::Run { .. }
        | Entry::Begun { .. }
        | Entry::Poll { .. }
        | Entry::Hook { .. }
        | Entry::JobError { .. } => put_job_entry(entry, out),
    }
}

impl Entry {
    /// Appends the words of the entry with one space between them. It fails only for want of memory, and leaves the
    /// text as it was then.
    pub fn put(&self, out: &mut Text) -> Result<(), Memory>
        ensures ok { OnOk result (out.new ≡ out.old ++ joined (entry_words self.now)) }
        ensures fits { OnOk result (EntryFits self.now) }
        ensures err { OnErr result (out.new ≡ out.old) }
    {
        let mut spelled = Text::new(out.allocator());
        append_entry(self, &mut spelled)?;
        out.append(spelled.as_slice())
    }

    /// Takes the entry at the front, and leaves the line where none stands there: what is taken spells the entry, and
    /// nothing else does. A `Hand` takes as many acts as stand behind it. It leaves the line as it was where memory runs
    /// out.
    #[tactic(auto, using(crate::proofs::EntryLaws::entry_spelt, crate::proofs::EntryLaws::none_stands))]
    pub fn take(alloc: Global, line: &mut Words) -> Result<Option<Entry>, Memory>
        ensures exact { IfOk result (λ o. Taken line.old line.new o (read_entry line.old)) }
        ensures some { IfOk result (λ o. IfSome o (λ e. EntryFits e × Stood text_in (entry_words e) line.old line.new)) }
        ensures none { IfOk result (λ o. IfNone o ((e : AnEntry) (rest : List (List ℕ)) → EntryFits e → line.old ≡ entry_words e ++ rest → ⊥)) }
        ensures err { OnErr result (line.new ≡ line.old) }
    {
        let mut ahead = line.fork();
        let found = read_entry(alloc, &mut ahead)?;
        if found.is_some() {
            *line = ahead;
        }
        Ok(found)
    }
}
