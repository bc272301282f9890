// What a call on a child answers, and what a filter, a spawn hook, a maker of backends and a backend do, as words.
ghost use Rattle.std.specs.Prelude.{IfOk};
ghost use Rattle.wx_words.specs.Line.{Reads};
ghost use Rattle.wx_journal.specs.Answers.{AreReadAgain, done, waited, verdict, backed, news, readied, memory, hooked};

use crate::child::HostFault;
use std::alloc::Global;
use wx_command::Spawnable;
use wx_error::RuntimeError;
use wx_notify::Notify;
use wx_text::{Memory, Text};
use wx_watch::NotifyFault;
use wx_words::{Fields, Spelled, Words, put_row, put_word, read_rows};

#[tactic(auto, unfolding(crate::specs::Answers::fault))]
impl Spelled for HostFault {
    ghost use Rattle.wx_journal.specs.Answers.{fault};

    ghost spelling = { fault };

    fn put_after(&self, out: &mut Text) -> Result<(), Memory> {
        put_row(b"fault", &&self.0, out)
    }

    fn read(alloc: Global, line: &mut Words) -> Result<Option<HostFault>, Memory> {
        read_rows!(alloc, line;
            b"fault" (code) => HostFault(code),
        )
    }
}

/// What a filter answered, lent to be written.
#[derive(Clone, Copy)]
pub struct VerdictRef<'a> {
    pub answer: &'a Result<bool, RuntimeError>,
}

#[tactic(auto, unfolding(crate::specs::Answers::verdict))]
impl<'a> Fields for VerdictRef<'a> {
    ghost use Rattle.wx_journal.specs.Answers.{verdict};

    ghost fits = { λ lent. verdict.fits lent.answer.now };

    ghost words = { λ lent. verdict.words lent.answer.now };

    fn put_fields(&self, out: &mut Text) -> Result<(), Memory> {
        match self.answer {
            Ok(true) => put_word(b"pass", out),
            Ok(false) => put_word(b"reject", out),
            Err(error) => put_row(b"fail", &error, out),
        }
    }
}

/// Takes the answer of a filter at the front, or loses the place.
#[tactic(auto, unfolding(crate::specs::Answers::verdict))]
pub fn read_verdict(
    alloc: Global,
    line: &mut Words,
) -> Result<Option<Result<bool, RuntimeError>>, Memory>
    ensures { IfOk result (λ x. Reads line.new x (verdict.read line.old)) }
{
    read_rows!(alloc, line;
        b"pass" => Ok(true),
        b"reject" => Ok(false),
        b"fail" (error) => Err(error),
    )
}

/// What a maker of backends answered, lent to be written.
#[derive(Clone, Copy)]
pub struct BackedRef<'a> {
    pub answer: &'a Result<(), NotifyFault>,
}

#[tactic(auto, unfolding(crate::specs::Answers::backed))]
impl<'a> Fields for BackedRef<'a> {
    ghost use Rattle.wx_journal.specs.Answers.{backed};

    ghost fits = { λ lent. backed.fits lent.answer.now };

    ghost words = { λ lent. backed.words lent.answer.now };

    fn put_fields(&self, out: &mut Text) -> Result<(), Memory> {
        match self.answer {
            Ok(()) => put_word(b"ok", out),
            Err(fault) => put_row(b"fail", &fault, out),
        }
    }
}

/// Takes the answer of a maker of backends at the front, or loses the place.
#[tactic(auto, unfolding(crate::specs::Answers::backed))]
pub fn read_backed(
    alloc: Global,
    line: &mut Words,
) -> Result<Option<Result<(), NotifyFault>>, Memory>
    ensures { IfOk result (λ x. Reads line.new x (backed.read line.old)) }
{
    read_rows!(alloc, line;
        b"ok" => Ok(()),
        b"fail" (fault) => Err(fault),
    )
}

/// What a backend brought, lent to be written.
#[derive(Clone, Copy)]
pub struct NewsRef<'a> {
    pub answer: &'a Result<Notify, NotifyFault>,
}

#[tactic(auto, unfolding(crate::specs::Answers::news))]
impl<'a> Fields for NewsRef<'a> {
    ghost use Rattle.wx_journal.specs.Answers.{news};

    ghost fits = { λ lent. news.fits lent.answer.now };

    ghost words = { λ lent. news.words lent.answer.now };

    fn put_fields(&self, out: &mut Text) -> Result<(), Memory> {
        match self.answer {
            Ok(event) => put_row(b"ok", &event, out),
            Err(fault) => put_row(b"fail", &fault, out),
        }
    }
}

/// Takes what a backend brought at the front, or loses the place.
#[tactic(auto, unfolding(crate::specs::Answers::news))]
pub fn read_news(
    alloc: Global,
    line: &mut Words,
) -> Result<Option<Result<Notify, NotifyFault>>, Memory>
    ensures { IfOk result (λ x. Reads line.new x (news.read line.old)) }
{
    read_rows!(alloc, line;
        b"ok" (event) => Ok(event),
        b"fail" (error) => Err(error),
    )
}

/// Whether a begun function is ready, lent to be written.
#[derive(Clone, Copy)]
pub struct ReadyRef<'a> {
    pub ready: &'a bool,
}

#[tactic(auto, unfolding(crate::specs::Answers::readied))]
impl<'a> Fields for ReadyRef<'a> {
    ghost use Rattle.wx_journal.specs.Answers.{readied};

    ghost fits = { λ lent. readied.fits lent.ready.now };

    ghost words = { λ lent. readied.words lent.ready.now };

    fn put_fields(&self, out: &mut Text) -> Result<(), Memory> {
        match self.ready {
            true => put_word(b"ready", out),
            false => put_word(b"later", out),
        }
    }
}

/// Takes whether a begun function is ready, or loses the place.
#[tactic(auto, unfolding(crate::specs::Answers::readied))]
pub fn read_ready(alloc: Global, line: &mut Words) -> Result<Option<bool>, Memory>
    ensures { IfOk result (λ x. Reads line.new x (readied.read line.old)) }
{
    read_rows!(alloc, line;
        b"ready" => true,
        b"later" => false,
    )
}

/// What a spawn hook answered, lent to be written.
#[derive(Clone, Copy)]
pub struct HookedRef<'a> {
    pub answer: &'a Result<Spawnable, Memory>,
}

#[tactic(auto, unfolding(crate::specs::Answers::memory))]
impl<'a> Fields for HookedRef<'a> {
    ghost use Rattle.wx_journal.specs.Answers.{hooked};

    ghost fits = { λ lent. hooked.fits lent.answer.now };

    ghost words = { λ lent. hooked.words lent.answer.now };

    fn put_fields(&self, out: &mut Text) -> Result<(), Memory> {
        match self.answer {
            Ok(what) => what.put_after(out),
            Err(_) => put_word(b"memory", out),
        }
    }
}

/// Takes the word of want of memory, or loses the place.
#[tactic(auto, unfolding(crate::specs::Answers::memory))]
fn read_memory(alloc: Global, line: &mut Words) -> Result<Option<Memory>, Memory>
    ensures { IfOk result (λ x. Reads line.new x (memory.read line.old)) }
{
    read_rows!(alloc, line;
        b"memory" => Memory,
    )
}

/// Takes what a spawn hook answered, or loses the place.
pub fn read_hooked(
    alloc: Global,
    line: &mut Words,
) -> Result<Option<Result<Spawnable, Memory>>, Memory>
    ensures { IfOk result (λ x. Reads line.new x (hooked.read line.old)) }
{
    let mut ahead = line.fork();
    if let Some(what) = Spawnable::read(alloc, &mut ahead)? {
        *line = ahead;
        return Ok(Some(Ok(what)));
    }
    match read_memory(alloc, line)? {
        Some(memory) => Ok(Some(Err(memory))),
        None => Ok(None),
    }
}

/// Answers are read again from their words, what is read was spelled so, and no word has a space.
pub fn answers_are_read_again()
    ensures done { AreReadAgain done }
    ensures waited { AreReadAgain waited }
    ensures verdict { AreReadAgain verdict }
    ensures backed { AreReadAgain backed }
    ensures news { AreReadAgain news }
    ensures readied { AreReadAgain readied }
    ensures hooked { AreReadAgain hooked }
{}
