// Turns, and what they bring, as words.
use crate::bytes::{BytesRef, read_bytes};
use crate::entry::{Turn, TurnKind};
use std::alloc::Global;
use wx_text::{Memory, Text};
use wx_words::{Fields, Spelled, Words, put_row, put_word, read_rows};

#[tactic(auto, unfolding(crate::specs::Kinds::kind, wx_words::specs::Parts::both))]
impl Spelled for TurnKind {
    ghost use Rattle.wx_journal.specs.Kinds.{kind};

    ghost spelling = { kind };

    fn put_after(&self, out: &mut Text) -> Result<(), Memory> {
        match self {
            TurnKind::Arrive(event, priority) => put_row(b"arrive", &(priority, event), out),
            TurnKind::Signal(signal) => put_row(b"signal", &signal, out),
            TurnKind::Keys(bytes) => put_row(b"keys", &BytesRef { bytes }, out),
            TurnKind::Work => put_word(b"work", out),
            TurnKind::Job(job) => put_row(b"job", &job, out),
            TurnKind::Ended(child) => put_row(b"ended", &child, out),
            TurnKind::Ask(job, ask) => put_row(b"ask", &(job, ask), out),
            TurnKind::Change(change) => put_row(b"change", &change, out),
            TurnKind::Listen => put_word(b"listen", out),
            TurnKind::File => put_word(b"file", out),
            TurnKind::Last => put_word(b"last", out),
        }
    }

    fn read(alloc: Global, line: &mut Words) -> Result<Option<TurnKind>, Memory> {
        read_rows!(alloc, line;
            b"arrive" (priority, event) => TurnKind::Arrive(event, priority),
            b"signal" (signal) => TurnKind::Signal(signal),
            b"keys" (bytes = read_bytes) => TurnKind::Keys(bytes),
            b"work" => TurnKind::Work,
            b"job" (job) => TurnKind::Job(job),
            b"ended" (child) => TurnKind::Ended(child),
            b"ask" (job, ask) => TurnKind::Ask(job, ask),
            b"change" (change) => TurnKind::Change(change),
            b"listen" => TurnKind::Listen,
            b"file" => TurnKind::File,
            b"last" => TurnKind::Last,
        )
    }
}

#[tactic(auto, unfolding(crate::specs::Kinds::turn, wx_words::specs::Parts::both))]
impl Spelled for Turn {
    ghost use Rattle.wx_journal.specs.Kinds.{turn};

    ghost spelling = { turn };

    fn put_after(&self, out: &mut Text) -> Result<(), Memory> {
        (&self.at, &self.kind).put_fields(out)
    }

    fn read(alloc: Global, line: &mut Words) -> Result<Option<Turn>, Memory> {
        let Some((at, kind)) = Spelled::read(alloc, line)? else {
            return Ok(None);
        };
        Ok(Some(Turn { at, kind }))
    }
}
