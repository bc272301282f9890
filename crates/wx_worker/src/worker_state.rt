// What an engine keeps between turns.
ghost use Rattle.std.specs.Prelude.{◌≡◌, ◌∷◌, [], ◌+◌, ◌*◌, ◌^◌, ◌<◌, ◌≤◌, ◌&&◌, ◌||◌, not, false, length, List, IfOk, OnOk, OnErr};
ghost use Rattle.wx_events.specs.declared.event.Event.{Event as AnEvent};
ghost use Rattle.wx_events.specs.declared.priority.Priority.{Priority as APriority};
ghost use Rattle.wx_config.specs.Changes.{changed, last_revision};
ghost use Rattle.wx_journal.specs.declared.entry.Entry.TheVariants.{Changed};
ghost use Rattle.wx_journal.specs.declared.entry.Word.TheVariants.{Ignored};
ghost use Rattle.wx_journal.specs.Names.{NamesItem};
ghost use Rattle.wx_machine.specs.Steady.{OnlyRoom};
ghost use Rattle.wx_machine.specs.Kept.{OnlyHooksRoom};
ghost use Rattle.wx_worker.specs.Serves.{Grows, OwesRest};
ghost use Rattle.wx_machine.specs.Start.{Start, IsSize};
ghost use Rattle.wx_machine.specs.Journal.{closed, bag};
ghost use Rattle.wx_machine.specs.Keyboard.{ended_over};
ghost use Rattle.wx_machine.specs.Answer.{NoneIsToGo};
ghost use Rattle.wx_machine.specs.Due.{Sends, Offers, Says, Agenda, Comes, Due, Open, begin_of, offers, is_quitting, agenda};
ghost use Rattle.wx_worker.specs.Calls.{offer_of};
ghost use Rattle.wx_keys.specs.Keys.{ends_input};
ghost use Rattle.wx_worker.specs.Stands.{Stands, Owes, IsOffered, end_room};

use prio_channel::{PrioQueue, TrySendError};
use std::alloc::Global;
use wx_config::{Change, Config};
use wx_events::{Event, Priority};
use wx_hooks::{Batch, JobList, with_copy};
use wx_job::{Host, JobHooks};
use wx_journal::{Entry, Journal, Named, Offered, Word};
use wx_keys::ends_input;
use wx_text::{List, Memory};

/// What an engine keeps between turns: its settings, the queue, how many events have a name, the window, the moment at
/// which the window's first event was taken, in nanoseconds, the jobs that a handler sees, by rising name, whether a graceful quit
/// was asked for, and whether the end of the keyboard's input was read since keyboard events last went on, or since the start.
pub struct Worker {
    pub config: Config,
    pub queue: PrioQueue<Named>,
    pub named: u64,
    pub batch: Batch,
    pub first: u64,
    pub jobs: JobList,
    pub graceful: bool,
    pub ended: bool,
}

// Its parts are dropped by one call: docs/DESIGN.md, "What proofs cost".
impl Drop for Worker {
    fn drop(self) {
        let Worker {
            config: _,
            queue: _,
            named: _,
            batch: _,
            first: _,
            jobs: _,
            graceful: _,
            ended: _,
        } = self;
    }
}

/// The room for so many entries, besides what the end of so many jobs takes.
fn room_besides(jobs: u64, n: u64) -> Result<u64, Memory>
    ensures { IfOk result (λ room. room ≡ n + 2 * jobs) }
{
    let end = jobs.checked_mul(2).ok_or(Memory)?;
    let room = end.checked_add(n).ok_or(Memory)?;
    Ok(room)
}

impl Worker {
    /// A worker with an empty queue. It stands for the journal that holds the beginning alone. It fails only for want of
    /// memory.
    pub fn new(alloc: Global, config: Config) -> Result<Worker, Memory>
        requires size { IsSize config.event_channel_size }
        ensures stands { IfOk result (λ worker. (s : Start) → s.config ≡ config → Stands s worker (begin_of s ∷ [])) }
        ensures room { IfOk result (λ worker. end_room worker ≡ 0) }
    {
        match PrioQueue::bounded(alloc, config.event_channel_size) {
            Ok(queue) => Ok(Worker {
                config,
                queue,
                named: 0,
                batch: Batch::new(alloc),
                first: 0,
                jobs: JobList::new(alloc),
                graceful: false,
                ended: false,
            }),
            Err(memory) => {
                drop(config);
                Err(memory)
            }
        }
    }

    /// Takes room in the journal for so many entries, besides what the end of all jobs takes. It fails only for want of
    /// memory.
    pub fn reserve(&self, n: u64, journal: &mut Journal) -> Result<(), Memory>
        ensures same { journal.new.past ≡ journal.old.past }
        ensures kept { journal.old.spare ≤ journal.new.spare }
        ensures room { OnOk result (n + end_room self.now ≤ journal.new.spare) }
        ensures fits { OnOk result (length journal.new.past + journal.new.spare < 2 ^ 64) }
    {
        let room = room_besides(self.jobs.len() as u64, n)?;
        journal.reserve(room)?;
        Ok(())
    }

    /// The same for a host.
    pub fn reserve_host<W: Host>(&self, n: u64, host: &mut W) -> Result<(), Memory>
        ensures room { OnOk result (n + end_room self.now ≤ (W.seen host.new).spare) }
        ensures rest { OnlyRoom (W.seen host.old) (W.seen host.new) }
    {
        let room = room_besides(self.jobs.len() as u64, n)?;
        host.reserve(room)?;
        Ok(())
    }

    /// Takes room in the journal and in a host, as both above do, and in the hooks, for so many entries each. It fails only
    /// for want of memory.
    pub fn reserve_calls<W: Host, H: JobHooks>(
        &self,
        n: u64,
        hosted: u64,
        hooked: u64,
        host: &mut W,
        hooks: &mut H,
        journal: &mut Journal,
    ) -> Result<(), Memory>
        ensures same { journal.new.past ≡ journal.old.past }
        ensures kept { journal.old.spare ≤ journal.new.spare }
        ensures host { OnlyRoom (W.seen host.old) (W.seen host.new) }
        ensures hooks { OnlyHooksRoom H.seen H.stands hooks.old hooks.new }
        ensures room { OnOk result (n + end_room self.now ≤ journal.new.spare) }
        ensures host_room { OnOk result (hosted + end_room self.now ≤ (W.seen host.new).spare) }
        ensures hooks_room { OnOk result (hooked ≤ (H.seen hooks.new).spare) }
    {
        self.reserve(n, journal)?;
        self.reserve_host(hosted, host)?;
        hooks.reserve(hooked)
    }

    /// Lists an event that was sent before the run, and puts it into the queue, where there is room. It fails only for
    /// want of memory. The worker stays as it was then, and no entry is added.
    pub fn send(
        &mut self,
        alloc: Global,
        event: Event,
        priority: Priority,
        journal: &mut Journal,
    ) -> Result<(), Memory>
        ghost start: { Start }
        requires owes { (more : Agenda) × Owes start self.old journal.old.past (Comes (Sends event priority) more) }
        requires fits { length (bag journal.old.past) < start.config.event_channel_size }
        requires takes { closed journal.old.past ≡ false }
        ensures grows { Grows start self.old journal.old self.new journal.new }
        ensures done { OnOk result (OwesRest start (Sends event priority) journal.old.past journal.new.past) }
        ensures bag { OnOk result (length (bag journal.new.past) ≡ length (bag journal.old.past) + 1) }
        ensures takes { closed journal.new.past ≡ false }
        ensures err { OnErr result (journal.new.past ≡ journal.old.past) }
        ensures same { OnErr result (self.new ≡ self.old) }
    {
        let Ok(()) = self.reserve(1, journal) else {
            drop(event);
            return Err(Memory);
        };
        let (event, twice) = with_copy(alloc, event)?;
        let name = self.named;
        let _ = offer_to(&mut self.queue, Named { name, event: twice }, priority);
        self.named = name + 1;
        journal.push(Entry::Sent {
            name,
            event,
            priority,
        });
        Ok(())
    }

    /// Offers an event to the queue, which is due: of this item of a backend, where it is made of one. It fails only for want of
    /// memory. The worker stays as it was then, and no entry is added.
    pub fn offer(
        &mut self,
        alloc: Global,
        item: Option<u64>,
        event: Event,
        priority: Priority,
        journal: &mut Journal,
    ) -> Result<(), Memory>
        ghost start: { Start }
        requires stands { Stands start self.old journal.old.past }
        requires due { Due start journal.old.past (offer_of start journal.old.past item event priority) }
        requires named { NamesItem journal.old.past item }
        ensures grows { Grows start self.old journal.old self.new journal.new }
        ensures done { OnOk result (journal.new.past ≡ offer_of start journal.old.past item event priority ∷ journal.old.past) }
        ensures err { OnErr result (journal.new.past ≡ journal.old.past) }
        ensures same { OnErr result (self.new ≡ self.old) }
    {
        let Ok(()) = self.reserve(1, journal) else {
            drop(event);
            return Err(Memory);
        };
        let (event, twice) = with_copy(alloc, event)?;
        let name = self.named;
        let result = offer_to(&mut self.queue, Named { name, event: twice }, priority);
        self.named = name + 1;
        journal.push(Entry::Offer {
            name,
            item,
            result,
            event,
            priority,
        });
        Ok(())
    }

    /// Offers an event to the queue. It fails only for want of memory. The worker stays as it was then, and no entry is added.
    pub fn arrive(
        &mut self,
        alloc: Global,
        event: Event,
        priority: Priority,
        journal: &mut Journal,
    ) -> Result<(), Memory>
        ghost start: { Start }
        requires owes { (more : Agenda) × Owes start self.old journal.old.past (Comes (Offers event priority) more) }
        ensures grows { Grows start self.old journal.old self.new journal.new }
        ensures done { OnOk result (OwesRest start (Offers event priority) journal.old.past journal.new.past) }
        ensures quits { is_quitting journal.new.past ≡ is_quitting journal.old.past }
        ensures err { OnErr result (journal.new.past ≡ journal.old.past) }
        ensures same { OnErr result (self.new ≡ self.old) }
    {
        self.offer(alloc, None, event, priority, journal)
    }

    /// Offers these events of keys to the queue, one by one. It fails only for want of memory, behind any of the offers.
    pub fn arrive_keys(
        &mut self,
        alloc: Global,
        events: List<Event>,
        journal: &mut Journal,
    ) -> Result<(), Memory>
        ghost start: { Start }
        requires owes { Owes start self.old journal.old.past (offers events) }
        requires going { is_quitting journal.old.past ≡ false }
        ensures grows { Grows start self.old journal.old self.new journal.new }
        ensures done { OnOk result (agenda start journal.new.past ≡ Open) }
        ensures cut { OnErr result (NoneIsToGo (agenda start journal.new.past)) }
    {
        let mut left = events;
        while let Some(event) = left.take_first() {
            self.arrive(alloc, event, Priority::Normal, journal)?;
        }
        Ok(())
    }

    /// Says this of a turn. It fails only for want of memory, and adds no entry then.
    pub fn say(&self, word: Word, journal: &mut Journal) -> Result<(), Memory>
        ghost start: { Start }
        requires owes { (more : Agenda) × Owes start self.now journal.old.past (Comes (Says word) more) }
        ensures grows { Grows start self.now journal.old self.now journal.new }
        ensures done { OnOk result (OwesRest start (Says word) journal.old.past journal.new.past) }
        ensures err { OnErr result (journal.new.past ≡ journal.old.past) }
    {
        self.say_due(word, journal)
    }

    /// Says of a turn that what it is about isn't there. It fails only for want of memory, and adds no entry then.
    pub fn ignored(&self, journal: &mut Journal) -> Result<(), Memory>
        ghost start: { Start }
        requires owes { (more : Agenda) × Owes start self.now journal.old.past (Comes (Says Ignored) more) }
        ensures grows { Grows start self.now journal.old self.now journal.new }
        ensures done { OnOk result (OwesRest start (Says Ignored) journal.old.past journal.new.past) }
        ensures err { OnErr result (journal.new.past ≡ journal.old.past) }
    {
        self.say(Word::Ignored, journal)
    }

    /// Whether keys are heard: keyboard events are on, and the input hasn't ended.
    pub fn hears_keys(&self) -> bool
        ensures { result ≡ (self.now.config.keyboard_events && not self.now.ended) }
    {
        *self.config.keyboard_events.get() && !self.ended
    }

    /// Keeps that the input of the keyboard ended, where this read holds its end and keyboard events are on. It takes no memory.
    pub fn keep_read(&mut self, bytes: &[u8])
        ensures { self.new ≡ record self.old { ended = self.old.ended || (self.old.config.keyboard_events && ends_input bytes.now) } }
    {
        if *self.config.keyboard_events.get() && ends_input(bytes) {
            self.ended = true;
        }
    }

    /// Changes the settings, whose revision can be raised, and lists the new revision, in room that was taken.
    pub fn change(&mut self, change: Change, journal: &mut Journal)
        requires room { 1 ≤ journal.old.spare }
        requires fits { self.old.config.change_signal < last_revision }
        ensures same { self.new ≡ record self.old { config = self.new.config; ended = self.new.ended } }
        ensures ended { self.new.ended ≡ ended_over self.old.config.keyboard_events self.new.config.keyboard_events self.old.ended }
        ensures changed { self.new.config ≡ changed change self.old.config }
        ensures past { journal.new.past ≡ Changed self.new.config.change_signal ∷ journal.old.past }
        ensures room { journal.new.spare + 1 ≡ journal.old.spare }
    {
        let before = *self.config.keyboard_events.get();
        let Ok(()) = self.config.apply(change) else {
            unreachable!()
        };
        let now = *self.config.keyboard_events.get();
        self.ended = self.ended && (before || !now);
        journal.push(Entry::Changed(self.config.change_signal));
    }
}

/// Offers an item to a queue, which drops it where it is closed or full.
fn offer_to(queue: &mut PrioQueue<Named>, item: Named, priority: Priority) -> Offered
    ensures offered { IsOffered queue.old (item, priority) queue.new result }
    ensures size { queue.new.size ≡ queue.old.size }
    ensures closed { queue.new.closed ≡ queue.old.closed }
{
    match queue.try_send(item, priority) {
        Ok(()) => Offered::Queued,
        Err(TrySendError::Full(item, _)) => {
            drop(item);
            Offered::Full
        }
        Err(TrySendError::Closed(item, _)) => {
            drop(item);
            Offered::Closed
        }
    }
}
