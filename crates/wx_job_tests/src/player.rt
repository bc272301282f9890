// One job in a world of its own, which is driven by moves that stand in a text.
ghost use Rattle.std.specs.Prelude.{IfOk};
ghost use Rattle.wx_job.specs.Stands.{TaskStands};

use crate::test_world::{World, end_child, end_job, make_job, new_world, step};
use std::alloc::Global;
use std::process::Abort;
use wx_control::{Ask, Flag, Id, Job, Ticket};
use wx_job::JobTask;
use wx_machine::Stepped;
use wx_text::{Copies, Memory};
use wx_words::Spelled;
use wx_words_trial::read_line;

/// The value of these words, where the test has one there.
fn value_of<T: Spelled>(rt: &impl Abort, alloc: Global, words: &str) -> T {
    let found = read_line(alloc, words.as_bytes()).expect(rt, "words");
    found.expect(rt, "a value")
}

/// What came of the moves of a line.
#[derive(Clone, Copy)]
pub(crate) struct Played {
    /// How many entries were listed before the last move.
    pub(crate) listed: usize,
    /// What the last move answered.
    pub(crate) answer: Result<Option<Stepped>, Memory>,
}

/// A ticket that was given, and the name that it has in the journal. That of a job that was gone has none.
#[derive(Drop)]
pub(crate) struct Given {
    pub(crate) name: Option<u64>,
    pub(crate) ticket: Ticket,
}

/// A job, which runs the program `a`, in a world, with a handle on it and the tickets that were given.
pub(crate) struct One {
    pub(crate) handle: Job,
    pub(crate) tickets: Vec<Given>,
    pub(crate) task: JobTask,
    pub(crate) world: World,
    ghost stands: { TaskStands task world.journal.past },
}

// Its parts are dropped by one call: docs/DESIGN.md, "What proofs cost".
impl Drop for One {
    fn drop(self) {
        let One {
            handle: _,
            tickets: _,
            task: _,
            world: _,
        } = self;
    }
}

/// The job that was made in this world. What is long is dropped by generic code here, which is quicker to prove.
fn one_of(alloc: Global, made: Result<(Job, JobTask), Memory>, world: World) -> Result<One, Memory>
    requires { IfOk made (λ x. TaskStands x.1 world.journal.past) }
{
    match made {
        Ok((handle, task)) => Ok(One {
            handle,
            tickets: Vec::new(alloc),
            task,
            world,
        }),
        Err(want) => {
            drop(world);
            Err(want)
        }
    }
}

/// A job of this name as it was made, in this world.
pub(crate) fn job_in(rt: &impl Abort, alloc: Global, id: Id, mut world: World) -> One {
    let made = make_job(alloc, id, &mut world);
    one_of(alloc, made, world).expect(rt, "a job")
}

/// Job 0 as it was made, in a world of its own.
pub(crate) fn new_job(rt: &impl Abort, alloc: Global) -> One {
    job_in(rt, alloc, Id(0), new_world(alloc).expect(rt, "a world"))
}

impl One {
    /// The world alone.
    pub(crate) fn into_world(self) -> World {
        let One {
            handle: _,
            tickets: _,
            task: _,
            world,
        } = self;
        world
    }

    /// Makes the move of these words, and gives what a step answered.
    fn play(
        &mut self,
        rt: &impl Abort,
        alloc: Global,
        words: &str,
    ) -> Result<Option<Stepped>, Memory> {
        match words.split_once(" ") {
            Some(("step", at)) => self.step(alloc, value_of(rt, alloc, at)),
            Some(("ended", at)) => self.end_child(alloc, value_of(rt, alloc, at)),
            Some(("poll" | "ends" | "word", _)) => self.foretell(rt, alloc, words),
            None if words == "end" => self.end(),
            None if words == "close" => self.close(),
            _ => self.ask(alloc, value_of(rt, alloc, words)),
        }
    }

    /// What a call that comes later answers: a poll of a function, the end of a child, or the word that a spawn hook adds.
    fn foretell(
        &mut self,
        rt: &impl Abort,
        alloc: Global,
        words: &str,
    ) -> Result<Option<Stepped>, Memory> {
        match words.split_once(" ") {
            Some(("poll", "ready")) => self.world.hooks.polls.push(true)?,
            Some(("poll", "later")) => self.world.hooks.polls.push(false)?,
            Some(("ends", end)) => self.world.host.ends.push(value_of(rt, alloc, end))?,
            Some(("word", word)) => self.world.hooks.words.push(value_of(rt, alloc, word))?,
            _ => return Err(Memory),
        }
        Ok(None)
    }

    /// This is asked, and the ticket is kept.
    fn ask(&mut self, alloc: Global, wish: Ask) -> Result<Option<Stepped>, Memory> {
        let named = self.world.journal.tickets();
        let ticket = self.task.send(alloc, wish, None, &mut self.world.journal)?;
        let name = name_behind(named, self.world.journal.tickets());
        self.tickets.push(Given { name, ticket })?;
        Ok(None)
    }

    /// A turn of the job.
    pub(crate) fn step(&mut self, alloc: Global, at: u64) -> Result<Option<Stepped>, Memory> {
        let id = self.handle.id();
        let answer = step(&mut self.task, id, alloc, at, &mut self.world)?;
        Ok(Some(answer))
    }

    /// A turn that tells the end of the running child.
    fn end_child(&mut self, alloc: Global, at: u64) -> Result<Option<Stepped>, Memory> {
        let answer = end_child(&mut self.task, alloc, at, &mut self.world)?;
        Ok(Some(answer))
    }

    /// There are no more handles.
    fn close(&mut self) -> Result<Option<Stepped>, Memory> {
        self.task.close();
        Ok(None)
    }

    /// The end of the job.
    pub(crate) fn end(&mut self) -> Result<Option<Stepped>, Memory> {
        end_job(&mut self.task, &mut self.world)?;
        Ok(None)
    }

    /// Asks this over a flag of the caller. Its ticket isn't kept here.
    pub(crate) fn ask_over(
        &mut self,
        alloc: Global,
        wish: Ask,
        last: &Flag,
    ) -> Result<Ticket, Memory> {
        let last = Some(last.copy(alloc)?);
        self.task.send(alloc, wish, last, &mut self.world.journal)
    }

    /// The moves of a line. Where a number stands behind ` ! ` in it, the call on the host of this number, from 0, fails.
    fn moves_in<'a>(&mut self, rt: &impl Abort, alloc: Global, line: &'a str) -> &'a str {
        match line.split_once(" ! ") {
            Some((moves, number)) => {
                self.world.host.fail_at(value_of(rt, alloc, number));
                moves
            }
            None => line,
        }
    }

    /// Makes the moves of a line.
    pub(crate) fn play_line(&mut self, rt: &impl Abort, alloc: Global, line: &str) -> Played {
        let moves = self.moves_in(rt, alloc, line);
        let mut played = Played {
            listed: 0,
            answer: Ok(None),
        };
        for words in moves.split(",") {
            let listed = self.world.journal.as_slice().len();
            let answer = self.play(rt, alloc, words);
            played = Played { listed, answer };
        }
        played
    }
}

/// The name of a ticket that was given when so many had names before, and so many have them now.
fn name_behind(before: u64, now: u64) -> Option<u64> {
    if now > before { Some(now - 1) } else { None }
}
