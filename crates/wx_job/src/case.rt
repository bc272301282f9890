// The cases of a job: what it does with what it picked.
ghost use Rattle.std.specs.Prelude.{◌≡◌, ◌+◌, ◌≤◌, ◌∷◌, OnOk, OnErr, IfOk, IfSome, IfNone, Option, Some, None, is_some, true, false, length};
ghost use Rattle.wx_control.specs.declared.control.Control.TheVariants.{Stop, Delete, AsyncFunc};
ghost use Rattle.wx_control.specs.Waits.{picked, first_of};
ghost use Rattle.wx_journal.specs.declared.entry.Entry.{Entry};
ghost use Rattle.wx_journal.specs.Names.{moment};
ghost use Rattle.wx_machine.specs.History.{before_spawn, picked_last, begins_by, set_hook, set_handler, set_tag};
ghost use Rattle.wx_machine.specs.Table.{Done, adds, raises, reap, waiters, kit_after, row, graceful, signalled, over, ended_in, ended, polled, number_of, spawns, deletes, is_restart, is_spawning, is_deletion, is_parking, case};
ghost use Rattle.wx_job.specs.Prepared.{twice, prepared, fresh_or, fresh_in};
ghost use Rattle.wx_machine.specs.Case.{PlanFollowsHost, PlanFollowsHooks, PlanFollows, PlanGivesUp};
ghost use Rattle.wx_job.specs.Calls.{IsReady, IsReadyAt, IsTicketInHand, AreRoomy, HasCalled, HasServed, HasDone};
ghost use Rattle.wx_machine.specs.Steady.{AreSpare, Spends};
ghost use Rattle.wx_job.specs.Stands.{TaskKeeps, StepFails, SameJob, kit_of, grace_of, begun_of, holds, choice_of, spawned};
ghost use Rattle.wx_machine.specs.States.{child_of};

use crate::context::JobTaskContext;
use crate::function::Begun;
use crate::grace::Standing;
use crate::outside::{Host, JobHooks};
use crate::task::JobTask;
use std::alloc::Global;
use wx_command::Spawnable;
use wx_control::{Control, Flag, Picked};
use wx_events::Signal;
use wx_journal::{Entry, Journal, SpawnTag, Word};
use wx_machine::{Choice, CommandState, Function, Grace, child_of};
use wx_text::Memory;

#[tactic(auto, using(crate::proofs::Sets::steps))]
impl JobTask {
    /// Spawns a fresh child, where what it spawns is given, and raises the ticket.
    fn start<H: Host, K: JobHooks>(
        &mut self,
        alloc: Global,
        ticket: u64,
        done: &Flag,
        what: Option<(Spawnable, Spawnable)>,
        at: u64,
        host: &mut H,
        hooks: &mut K,
        journal: &mut Journal,
    ) -> Result<(), Memory>
        requires unheld { holds ticket self.old ≡ 0 }
        requires what { what ≡ twice self.old.command (is_some what) }
        requires runs { IfSome what (λ two. child_of self.old.state ≡ None) }
        requires before { before_spawn self.old.id journal.old.past ≡ self.old.state }
        requires ready { IsReadyAt at self.old 4 2 journal.old (H.seen host.old) (K.seen hooks.old) }
        ensures done { HasDone result self.new (is_some what) (fresh_or (is_some what) self.old.id (kit_of self.old) ticket) journal.old.past (H.seen host.old) (K.seen hooks.old).told journal.new.past (H.seen host.new) (K.seen hooks.new).told }
        ensures fields { self.new ≡ spawned self.old self.new }
        ensures served { HasServed K.seen K.rule K.stands 4 2 journal.old (H.seen host.old) hooks.old self.new journal.new (H.seen host.new) hooks.new }
    {
        if let Some((what, listed)) = what {
            self.fresh(alloc, what, listed, at, host, hooks, journal)?;
        }
        self.raise(ticket, done, host, journal);
        Ok(())
    }

    /// The case of Stop.
    fn stop<H: Host, K: JobHooks>(
        &mut self,
        ticket: u64,
        done: &Flag,
        at: u64,
        host: &mut H,
        hooks: &mut K,
        journal: &mut Journal,
    )
        requires unheld { holds ticket self.old ≡ 0 }
        requires ready { IsReadyAt at self.old (7 + length self.old.parked.tickets) 2 journal.old (H.seen host.old) (K.seen hooks.old) }
        ensures follows { PlanFollows (row self.old.id (kit_of self.old) ticket Stop (child_of self.old.state)) journal.old.past (H.seen host.old) (K.seen hooks.old).told Done journal.new.past (H.seen host.new) (K.seen hooks.new).told }
        ensures fields { self.new ≡ record self.old { state = self.new.state; kept = self.new.kept; grace = self.new.grace; parked = self.new.parked } }
        ensures served { HasServed K.seen K.rule K.stands (7 + length self.old.parked.tickets) 2 journal.old (H.seen host.old) hooks.old self.new journal.new (H.seen host.new) hooks.new }
    {
        if let Some(child) = child_of(self.state) {
            let Ok(standing) = self.reap(child, ticket, done, at, host, hooks, journal) else {
                return;
            };
            self.raise_parked(host, journal);
            if let Some(standing) = standing {
                self.raise(standing.grace.ticket, &standing.done, host, journal);
            }
        }
        self.raise(ticket, done, host, journal);
    }

    /// The cases of GracefulStop and TryGracefulRestart: the child is sent a signal, and is given a grace.
    fn graceful<H: Host, K: JobHooks>(
        &mut self,
        picked: Picked,
        signal: Signal,
        ends: u128,
        restarts: bool,
        host: &mut H,
        hooks: &mut K,
        journal: &mut Journal,
    )
        requires in_hand { IsTicketInHand picked.ticket self.old journal.old.past }
        requires begins { begins_by (picked_last self.old.id journal.old.past) (moment journal.old.past) (grace_of self.old) ≡ Some (record { ends = ends; ticket = picked.ticket; restarts = restarts }) }
        requires ready { IsReady self.old 3 1 journal.old (H.seen host.old) (K.seen hooks.old) }
        ensures follows { PlanFollows (graceful self.old.id self.old.handler signal picked.ticket (child_of self.old.state)) journal.old.past (H.seen host.old) (K.seen hooks.old).told Done journal.new.past (H.seen host.new) (K.seen hooks.new).told }
        ensures fields { self.new ≡ record self.old { grace = self.new.grace } }
        ensures served { HasServed K.seen K.rule K.stands 3 1 journal.old (H.seen host.old) hooks.old self.new journal.new (H.seen host.new) hooks.new }
    {
        let Some(child) = child_of(self.state) else {
            self.raise(picked.ticket, &picked.done, host, journal);
            return;
        };
        let standing = Standing {
            grace: Grace {
                ends,
                ticket: picked.ticket,
                restarts,
            },
            done: picked.done,
        };
        let number = number_of(signal);
        if let Some(back) = self.begin(child, number, standing, host, hooks, journal) {
            self.raise(back.grace.ticket, &back.done, host, journal);
        }
    }

    /// Reaps the child, raises the parked tickets, spawns a fresh child where it is given, and raises the ticket.
    fn restart<H: Host, K: JobHooks>(
        &mut self,
        alloc: Global,
        child: u64,
        ticket: u64,
        done: &Flag,
        what: Option<(Spawnable, Spawnable)>,
        at: u64,
        host: &mut H,
        hooks: &mut K,
        journal: &mut Journal,
    ) -> Result<(), Memory>
        requires unheld { holds ticket self.old ≡ 0 }
        requires runs { child_of self.old.state ≡ Some child }
        requires what { what ≡ twice self.old.command (is_some what) }
        requires ready { IsReadyAt at self.old (9 + length self.old.parked.tickets) 4 journal.old (H.seen host.old) (K.seen hooks.old) }
        ensures done { HasDone result self.new (is_some what) (reap self.old.id self.old.handler child ticket (waiters self.old.parked.tickets (fresh_or (is_some what) self.old.id (kit_of self.old) ticket))) journal.old.past (H.seen host.old) (K.seen hooks.old).told journal.new.past (H.seen host.new) (K.seen hooks.new).told }
        ensures fields { self.new ≡ record (spawned self.old self.new) { grace = self.new.grace; parked = self.new.parked } }
        ensures served { HasServed K.seen K.rule K.stands (9 + length self.old.parked.tickets) 4 journal.old (H.seen host.old) hooks.old self.new journal.new (H.seen host.new) hooks.new }
    {
        if self
            .reap(child, ticket, done, at, host, hooks, journal)
            .is_err()
        {
            return Ok(());
        }
        self.raise_parked(host, journal);
        self.start(alloc, ticket, done, what, at, host, hooks, journal)
    }

    /// The case of a control that may spawn a child: one that runs is reaped, and a fresh one is spawned where it is
    /// given.
    fn start_afresh<H: Host, K: JobHooks>(
        &mut self,
        alloc: Global,
        picked: &Picked,
        what: Option<(Spawnable, Spawnable)>,
        at: u64,
        host: &mut H,
        hooks: &mut K,
        journal: &mut Journal,
    ) -> Result<(), Memory>
        requires unheld { holds picked.now.ticket self.old ≡ 0 }
        requires what { what ≡ twice self.old.command (is_some what) }
        requires before { before_spawn self.old.id journal.old.past ≡ self.old.state }
        requires ready { IsReadyAt at self.old (9 + length self.old.parked.tickets) 4 journal.old (H.seen host.old) (K.seen hooks.old) }
        ensures done { HasDone result self.new (is_some what) (fresh_in self.old.id (kit_of self.old) picked.now.ticket (is_some what) (child_of self.old.state)) journal.old.past (H.seen host.old) (K.seen hooks.old).told journal.new.past (H.seen host.new) (K.seen hooks.new).told }
        ensures fields { self.new ≡ record (spawned self.old self.new) { grace = self.new.grace; parked = self.new.parked } }
        ensures served { HasServed K.seen K.rule K.stands (9 + length self.old.parked.tickets) 4 journal.old (H.seen host.old) hooks.old self.new journal.new (H.seen host.new) hooks.new }
    {
        let ticket = picked.ticket;
        let done = &picked.done;
        match child_of(self.state) {
            Some(child) => self.restart(alloc, child, ticket, done, what, at, host, hooks, journal),
            None => self.start(alloc, ticket, done, what, at, host, hooks, journal),
        }
    }

    /// The case of Signal.
    fn send_signal<H: Host, K: JobHooks>(
        &mut self,
        picked: &Picked,
        signal: Signal,
        host: &mut H,
        hooks: &mut K,
        journal: &mut Journal,
    )
        requires unheld { holds picked.now.ticket self.old ≡ 0 }
        requires begins { begins_by (picked_last self.old.id journal.old.past) (moment journal.old.past) (grace_of self.old) ≡ grace_of self.old }
        requires ready { IsReady self.old 3 1 journal.old (H.seen host.old) (K.seen hooks.old) }
        ensures follows { PlanFollows (signalled self.old.id self.old.handler signal picked.now.ticket (child_of self.old.state)) journal.old.past (H.seen host.old) (K.seen hooks.old).told Done journal.new.past (H.seen host.new) (K.seen hooks.new).told }
        ensures fields { self.new ≡ self.old }
        ensures served { HasServed K.seen K.rule K.stands 3 1 journal.old (H.seen host.old) hooks.old self.new journal.new (H.seen host.new) hooks.new }
    {
        if let Some(child) = child_of(self.state) {
            self.signal(child, number_of(signal), host, hooks, journal);
        }
        self.raise(picked.ticket, &picked.done, host, journal);
    }

    /// The case of Delete: the ticket is raised, and the job ends.
    fn delete<H: Host>(&mut self, picked: &Picked, host: &mut H, journal: &mut Journal)
        requires stands { TaskKeeps self.old journal.old.past }
        requires here { self.old.gone ≡ false }
        requires unheld { holds picked.now.ticket self.old ≡ 0 }
        requires room { AreSpare 3 journal.old (H.seen host.old) }
        ensures stands { TaskKeeps self.new journal.new.past }
        ensures follows { PlanFollowsHost (row self.old.id (kit_of self.old) picked.now.ticket Delete (child_of self.old.state)) journal.old.past (H.seen host.old) Done journal.new.past (H.seen host.new) }
        ensures fields { self.new ≡ record self.old { waiting = self.new.waiting; kept = false; gone = true; grace = None; begun = None; parked = self.new.parked } }
        ensures spends { Spends 3 journal.old (H.seen host.old) journal.new (H.seen host.new) }
    {
        self.raise(picked.ticket, &picked.done, host, journal);
        self.let_go(child_of(self.state), host, journal);
    }

    /// The case of the end of a grace: the child is reaped, and a fresh one is spawned where the grace is one of a restart.
    fn end_grace<H: Host, K: JobHooks>(
        &mut self,
        alloc: Global,
        child: u64,
        grace: Grace,
        what: Option<(Spawnable, Spawnable)>,
        at: u64,
        host: &mut H,
        hooks: &mut K,
        journal: &mut Journal,
    ) -> Result<(), Memory>
        requires runs { child_of self.old.state ≡ Some child }
        requires stood { grace_of self.old ≡ Some grace }
        requires what { what ≡ twice self.old.command (grace.restarts) }
        requires ready { IsReadyAt at self.old (10 + length self.old.parked.tickets) 4 journal.old (H.seen host.old) (K.seen hooks.old) }
        ensures done { HasDone result self.new (grace.restarts) (over self.old.id (kit_of self.old) child grace) journal.old.past (H.seen host.old) (K.seen hooks.old).told journal.new.past (H.seen host.new) (K.seen hooks.new).told }
        ensures fields { self.new ≡ record (spawned self.old self.new) { grace = self.new.grace; parked = self.new.parked } }
        ensures served { HasServed K.seen K.rule K.stands (10 + length self.old.parked.tickets) 4 journal.old (H.seen host.old) hooks.old self.new journal.new (H.seen host.new) hooks.new }
    {
        let Some(standing) = self.grace.take() else {
            unreachable!()
        };
        journal.push(Entry::GraceOver(self.id));
        let ticket = standing.grace.ticket;
        self.restart(
            alloc,
            child,
            ticket,
            &standing.done,
            what,
            at,
            host,
            hooks,
            journal,
        )
    }

    /// The case of the end of the child: the parked tickets are raised, and that of a grace that stood, behind a fresh
    /// spawn where that is one of a restart.
    fn end_child<H: Host, K: JobHooks>(
        &mut self,
        alloc: Global,
        child: u64,
        what: Option<(Spawnable, Spawnable)>,
        at: u64,
        host: &mut H,
        hooks: &mut K,
        journal: &mut Journal,
    ) -> Result<(), Memory>
        requires runs { child_of self.old.state ≡ Some child }
        requires what { what ≡ twice self.old.command (is_restart (grace_of self.old)) }
        requires ready { IsReadyAt at self.old (6 + length self.old.parked.tickets) 3 journal.old (H.seen host.old) (K.seen hooks.old) }
        ensures done { HasDone result self.new (is_restart (grace_of self.old)) (ended self.old.id (kit_of self.old) child) journal.old.past (H.seen host.old) (K.seen hooks.old).told journal.new.past (H.seen host.new) (K.seen hooks.new).told }
        ensures fields { self.new ≡ record (spawned self.old self.new) { grace = self.new.grace; parked = self.new.parked } }
        ensures served { HasServed K.seen K.rule K.stands (6 + length self.old.parked.tickets) 3 journal.old (H.seen host.old) hooks.old self.new journal.new (H.seen host.new) hooks.new }
    {
        match self.wait(child, at, host, hooks, journal) {
            Ok(Some(standing)) => {
                self.end_in_grace(alloc, standing, what, at, host, hooks, journal)
            }
            Ok(None) => {
                drop(what);
                self.raise_parked(host, journal);
                Ok(())
            }
            Err(_) => {
                drop(what);
                Ok(())
            }
        }
    }

    /// The child ended in this grace, which stands no longer: the parked tickets are raised, and that of the grace, behind a
    /// fresh spawn where it is one of a restart.
    fn end_in_grace<H: Host, K: JobHooks>(
        &mut self,
        alloc: Global,
        standing: Standing,
        what: Option<(Spawnable, Spawnable)>,
        at: u64,
        host: &mut H,
        hooks: &mut K,
        journal: &mut Journal,
    ) -> Result<(), Memory>
        requires unheld { holds standing.grace.ticket self.old ≡ 0 }
        requires runs { child_of self.old.state ≡ None }
        requires what { what ≡ twice self.old.command (standing.grace.restarts) }
        requires before { before_spawn self.old.id journal.old.past ≡ self.old.state }
        requires ready { IsReadyAt at self.old (4 + length self.old.parked.tickets) 2 journal.old (H.seen host.old) (K.seen hooks.old) }
        ensures done { HasDone result self.new (standing.grace.restarts) (ended_in self.old.id (kit_of self.old) standing.grace) journal.old.past (H.seen host.old) (K.seen hooks.old).told journal.new.past (H.seen host.new) (K.seen hooks.new).told }
        ensures fields { self.new ≡ record (spawned self.old self.new) { parked = self.new.parked } }
        ensures served { HasServed K.seen K.rule K.stands (4 + length self.old.parked.tickets) 2 journal.old (H.seen host.old) hooks.old self.new journal.new (H.seen host.new) hooks.new }
    {
        let Standing { grace, done } = standing;
        if grace.restarts {
            self.raise_parked(host, journal);
            return self.start(alloc, grace.ticket, &done, what, at, host, hooks, journal);
        }
        drop(what);
        self.raise(grace.ticket, &done, host, journal);
        self.raise_parked(host, journal);
        Ok(())
    }

    /// The case of SyncFunc: the function of this number is called, and the ticket is raised.
    fn run<H: Host, K: JobHooks>(
        &self,
        picked: &Picked,
        n: u32,
        host: &mut H,
        hooks: &mut K,
        journal: &mut Journal,
    )
        requires unheld { holds picked.now.ticket self.now ≡ 0 }
        requires ready { IsReady self.now 2 1 journal.old (H.seen host.old) (K.seen hooks.old) }
        ensures follows { PlanFollows (adds (Entry.Run self.now.id n) (raises picked.now.ticket)) journal.old.past (H.seen host.old) (K.seen hooks.old).told Done journal.new.past (H.seen host.new) (K.seen hooks.new).told }
        ensures served { HasServed K.seen K.rule K.stands 2 1 journal.old (H.seen host.old) hooks.old self.now journal.new (H.seen host.new) hooks.new }
    {
        let job = self.id;
        hooks.run(job, n, &self.context());
        journal.push(Entry::Run { job, n });
        self.raise(picked.ticket, &picked.done, host, journal);
    }

    /// The case of AsyncFunc: the function of this number is begun, and holds the ticket.
    fn begin_function<K: JobHooks>(
        &mut self,
        picked: Picked,
        n: u32,
        hooks: &mut K,
        journal: &mut Journal,
    )
        requires stands { TaskKeeps self.old journal.old.past }
        requires here { self.old.gone ≡ false }
        requires just { picked_last self.old.id journal.old.past ≡ Some (picked.ticket, AsyncFunc n) }
        requires in_hand { IsTicketInHand picked.ticket self.old journal.old.past }
        requires none { begun_of self.old ≡ None }
        requires room { AreRoomy 1 1 journal.old (K.seen hooks.old) }
        ensures follows { PlanFollowsHooks (adds (Entry.Begun self.old.id n) Done) journal.old.past (K.seen hooks.old).told Done journal.new.past (K.seen hooks.new).told }
        ensures fields { self.new ≡ record self.old { begun = self.new.begun } }
        ensures called { HasCalled K.seen K.rule K.stands 1 1 journal.old hooks.old self.new journal.new hooks.new }
    {
        let job = self.id;
        hooks.begin(job, n, &self.context());
        journal.push(Entry::Begun { job, n });
        self.begun = Some(Begun {
            function: Function {
                n,
                ticket: picked.ticket,
            },
            done: picked.done,
        });
    }

    /// The case of a begun function: it is polled, and where it is ready the ticket that it holds is raised.
    fn poll<H: Host, K: JobHooks>(
        &mut self,
        function: Function,
        host: &mut H,
        hooks: &mut K,
        journal: &mut Journal,
    )
        requires begun { begun_of self.old ≡ Some function }
        requires ready { IsReady self.old 2 1 journal.old (H.seen host.old) (K.seen hooks.old) }
        ensures follows { PlanFollows (polled self.old.id function) journal.old.past (H.seen host.old) (K.seen hooks.old).told Done journal.new.past (H.seen host.new) (K.seen hooks.new).told }
        ensures fields { self.new ≡ record self.old { begun = self.new.begun } }
        ensures served { HasServed K.seen K.rule K.stands 2 1 journal.old (H.seen host.old) hooks.old self.new journal.new (H.seen host.new) hooks.new }
    {
        let (job, n) = (self.id, function.n);
        let ready = hooks.poll(job, n);
        journal.push(Entry::Poll { job, n, ready });
        if !ready {
            journal.push(Entry::Word(Word::Later));
            return;
        }
        let Some(begun) = self.begun.take() else {
            unreachable!()
        };
        self.raise(function.ticket, &begun.done, host, journal);
    }

    /// What functions and hooks are shown of the job.
    pub(crate) fn context(&self) -> JobTaskContext<'_>
        ensures { result.command.now ≡ self.now.command }
    {
        JobTaskContext {
            command: self.command.get(),
            current: &self.state,
            previous: self.previous.as_ref(),
        }
    }

    /// What a step picks at this moment.
    pub(crate) fn choose(&self, at: u64) -> Choice
        requires here { self.now.gone ≡ false }
        ensures chosen { result ≡ choice_of self.now at }
    {
        if let Some(begun) = &self.begun {
            return Choice::Poll(begun.function);
        }
        if let Some(child) = child_of(self.state) {
            if let Some(standing) = &self.grace {
                if standing.grace.ends <= at as u128 {
                    return Choice::Over(child, standing.grace);
                }
            }
            if self.kept {
                return Choice::End(child);
            }
        }
        match self.waiting.first(self.grace.is_some()) {
            Some((ticket, control)) => Choice::Next { ticket, control },
            None if self.closed && self.grace.is_none() => Choice::Leave,
            None => Choice::Nothing,
        }
    }

    /// What a case spawns, twice, where it spawns. It takes no memory where it doesn't.
    fn prepare(
        &self,
        alloc: Global,
        spawning: bool,
    ) -> Result<Option<(Spawnable, Spawnable)>, Memory>
        ensures ok { IfOk result (λ what. what ≡ twice self.now.command spawning) }
        ensures err { OnErr result (spawning ≡ true) }
    {
        if !spawning {
            return Ok(None);
        }
        let what = self.command.get().to_spawnable(alloc)?;
        let listed = self.command.get().to_spawnable(alloc)?;
        Ok(Some((what, listed)))
    }

    /// Whether a grace of a restart stands.
    fn restarts(&self) -> bool
        ensures { result ≡ is_restart (grace_of self.now) }
    {
        match &self.grace {
            Some(standing) => standing.grace.restarts,
            None => false,
        }
    }

    /// Takes the control that is picked out of those that wait. It sets or clears the spawn hook, the error handler
    /// and what spawns. There is none to do where its ticket is parked.
    fn pick(&mut self, ticket: u64, control: Control, journal: &mut Journal) -> Option<Picked>
        requires stands { TaskKeeps self.old journal.old.past }
        requires here { self.old.gone ≡ false }
        requires chosen { first_of (is_some (grace_of self.old)) self.old.waiting ≡ Some (ticket, control) }
        requires journal_room { 1 ≤ journal.old.spare }
        ensures stands { TaskKeeps self.new journal.new.past }
        ensures picked { IfSome result (λ x. (picked x ≡ (ticket, control)) × (is_parking control self.old.state ≡ false)) }
        ensures parks { IfNone result (is_parking control self.old.state ≡ true) }
        ensures unheld { IfSome result (λ x. holds ticket self.new ≡ 0) }
        ensures entry { journal.new.past ≡ Entry.Pick self.old.id ticket ∷ journal.old.past }
        ensures just { picked_last self.old.id journal.new.past ≡ Some (ticket, control) }
        ensures fields { self.new ≡ record self.old { waiting = self.new.waiting; parked = self.new.parked; hook = set_hook (Some control) self.old.hook; handler = set_handler (Some control) self.old.handler; tag = set_tag (Some control) self.old.tag } }
        ensures kept { IfSome result (λ x. self.new.parked ≡ self.old.parked) }
        ensures journal_room { journal.old.spare ≤ journal.new.spare + 1 }
    {
        let Some(picked) = self.waiting.pick(self.grace.is_some()) else {
            unreachable!()
        };
        journal.push(Entry::Pick {
            job: self.id,
            ticket: picked.ticket,
        });
        self.hook = hook_after(picked.control, self.hook);
        self.handler = handler_after(picked.control, self.handler);
        self.tag = tag_after(picked.control, self.tag);
        if is_parking(picked.control, self.state) {
            self.parked.park(picked.ticket, picked.done);
            return None;
        }
        Some(picked)
    }

    /// The case of a control that was picked.
    fn control<H: Host, K: JobHooks>(
        &mut self,
        alloc: Global,
        control: Control,
        picked: Picked,
        what: Option<(Spawnable, Spawnable)>,
        at: u64,
        host: &mut H,
        hooks: &mut K,
        journal: &mut Journal,
    ) -> Result<(), Memory>
        requires in_hand { IsTicketInHand picked.ticket self.old journal.old.past }
        requires just { picked_last self.old.id journal.old.past ≡ Some (picked.ticket, control) }
        requires none { begun_of self.old ≡ None }
        requires here { is_parking control self.old.state ≡ false }
        requires what { what ≡ prepared self.old.command control (child_of self.old.state) }
        requires before { before_spawn self.old.id journal.old.past ≡ self.old.state }
        requires ready { IsReadyAt at self.old (9 + length self.old.parked.tickets) 4 journal.old (H.seen host.old) (K.seen hooks.old) }
        ensures done { HasDone result self.new (spawns control (child_of self.old.state)) (row self.old.id (kit_of self.old) picked.ticket control (child_of self.old.state)) journal.old.past (H.seen host.old) (K.seen hooks.old).told journal.new.past (H.seen host.new) (K.seen hooks.new).told }
        ensures gone { self.new.gone ≡ deletes control }
        ensures job { SameJob self.old self.new }
        ensures served { HasServed K.seen K.rule K.stands (9 + length self.old.parked.tickets) 4 journal.old (H.seen host.old) hooks.old self.new journal.new (H.seen host.new) hooks.new }
    {
        if what.is_some() {
            return self.start_afresh(alloc, &picked, what, at, host, hooks, journal);
        }
        self.control_alone(control, picked, at, host, hooks, journal);
        Ok(())
    }

    /// The case of a control that was picked, and that spawns no child.
    fn control_alone<H: Host, K: JobHooks>(
        &mut self,
        control: Control,
        picked: Picked,
        at: u64,
        host: &mut H,
        hooks: &mut K,
        journal: &mut Journal,
    )
        requires in_hand { IsTicketInHand picked.ticket self.old journal.old.past }
        requires just { picked_last self.old.id journal.old.past ≡ Some (picked.ticket, control) }
        requires none { begun_of self.old ≡ None }
        requires here { is_parking control self.old.state ≡ false }
        requires alone { spawns control (child_of self.old.state) ≡ false }
        requires ready { IsReadyAt at self.old (9 + length self.old.parked.tickets) 4 journal.old (H.seen host.old) (K.seen hooks.old) }
        ensures follows { PlanFollows (row self.old.id (kit_of self.old) picked.ticket control (child_of self.old.state)) journal.old.past (H.seen host.old) (K.seen hooks.old).told Done journal.new.past (H.seen host.new) (K.seen hooks.new).told }
        ensures gone { self.new.gone ≡ deletes control }
        ensures job { SameJob self.old self.new }
        ensures served { HasServed K.seen K.rule K.stands (9 + length self.old.parked.tickets) 4 journal.old (H.seen host.old) hooks.old self.new journal.new (H.seen host.new) hooks.new }
    {
        let (ticket, done) = (picked.ticket, &picked.done);
        match control {
            Control::Stop => self.stop(ticket, done, at, host, hooks, journal),
            Control::GracefulStop { signal, grace } => {
                let over = over_at(at, grace);
                self.graceful(picked, signal, over, false, host, hooks, journal);
            }
            Control::TryGracefulRestart { signal, grace } => {
                let over = over_at(at, grace);
                self.graceful(picked, signal, over, true, host, hooks, journal);
            }
            Control::Signal(signal) => self.send_signal(&picked, signal, host, hooks, journal),
            Control::Delete => self.delete(&picked, host, journal),
            Control::SyncFunc(n) => self.run(&picked, n, host, hooks, journal),
            Control::AsyncFunc(n) => self.begin_function(picked, n, hooks, journal),
            Control::Start
            | Control::TryRestart
            | Control::ContinueTryGracefulRestart
            | Control::NextEnding
            | Control::SetSyncErrorHandler(_)
            | Control::UnsetErrorHandler
            | Control::SetSyncSpawnHook(_)
            | Control::UnsetSpawnHook
            | Control::SetSpawnFn(_)
            | Control::SetSpawnChildFn(_)
            | Control::ClearSpawnFn => self.raise(ticket, done, host, journal),
        }
    }

    /// Picks a control, and does its case where its ticket isn't parked.
    fn next<H: Host, K: JobHooks>(
        &mut self,
        alloc: Global,
        ticket: u64,
        control: Control,
        what: Option<(Spawnable, Spawnable)>,
        at: u64,
        host: &mut H,
        hooks: &mut K,
        journal: &mut Journal,
    ) -> Result<(), Memory>
        requires chosen { first_of (is_some (grace_of self.old)) self.old.waiting ≡ Some (ticket, control) }
        requires none { begun_of self.old ≡ None }
        requires what { what ≡ prepared self.old.command control (child_of self.old.state) }
        requires ready { IsReadyAt at self.old (10 + length self.old.parked.tickets) 4 journal.old (H.seen host.old) (K.seen hooks.old) }
        ensures done { HasDone result self.new (spawns control (child_of self.old.state)) (adds (Entry.Pick self.old.id ticket) (row self.old.id (kit_after control (kit_of self.old)) ticket control (child_of self.old.state))) journal.old.past (H.seen host.old) (K.seen hooks.old).told journal.new.past (H.seen host.new) (K.seen hooks.new).told }
        ensures gone { self.new.gone ≡ deletes control }
        ensures job { SameJob self.old self.new }
        ensures served { HasServed K.seen K.rule K.stands (10 + length self.old.parked.tickets) 4 journal.old (H.seen host.old) hooks.old self.new journal.new (H.seen host.new) hooks.new }
    {
        match self.pick(ticket, control, journal) {
            Some(picked) => self.control(alloc, control, picked, what, at, host, hooks, journal),
            None => Ok(()),
        }
    }

    /// Does what was picked. Want of memory comes before anything was done, or behind the call of a hook.
    pub(crate) fn act<H: Host, K: JobHooks>(
        &mut self,
        alloc: Global,
        choice: Choice,
        at: u64,
        host: &mut H,
        hooks: &mut K,
        journal: &mut Journal,
    ) -> Result<(), Memory>
        requires chosen { choice ≡ choice_of self.old at }
        requires ready { IsReadyAt at self.old (10 + length self.old.parked.tickets) 4 journal.old (H.seen host.old) (K.seen hooks.old) }
        ensures ok { OnOk result (PlanFollows (case self.old.id (kit_of self.old) (child_of self.old.state) choice) journal.old.past (H.seen host.old) (K.seen hooks.old).told Done journal.new.past (H.seen host.new) (K.seen hooks.new).told) }
        ensures err { OnErr result (StepFails self.old journal.old host.old hooks.old self.new journal.new host.new hooks.new (PlanGivesUp (case self.old.id (kit_of self.old) (child_of self.old.state) choice) journal.old.past (H.seen host.old) (K.seen hooks.old).told journal.new.past (H.seen host.new) (K.seen hooks.new).told)) }
        ensures memory { OnErr result (is_spawning choice (child_of self.old.state) (grace_of self.old) ≡ true) }
        ensures gone { self.new.gone ≡ is_deletion choice }
        ensures job { SameJob self.old self.new }
        ensures served { HasServed K.seen K.rule K.stands (10 + length self.old.parked.tickets) 4 journal.old (H.seen host.old) hooks.old self.new journal.new (H.seen host.new) hooks.new }
    {
        match choice {
            Choice::Poll(function) => {
                self.poll(function, host, hooks, journal);
                Ok(())
            }
            Choice::Over(child, grace) => {
                let what = self.prepare(alloc, grace.restarts)?;
                self.end_grace(alloc, child, grace, what, at, host, hooks, journal)
            }
            Choice::End(child) => {
                let what = self.prepare(alloc, self.restarts())?;
                self.end_child(alloc, child, what, at, host, hooks, journal)
            }
            Choice::Next { ticket, control } => {
                let what = self.prepare(alloc, spawns(control, child_of(self.state)))?;
                self.next(alloc, ticket, control, what, at, host, hooks, journal)
            }
            Choice::Leave => {
                self.let_go(child_of(self.state), host, journal);
                Ok(())
            }
            Choice::Nothing => {
                journal.push(Entry::Word(Word::Idle));
                Ok(())
            }
        }
    }
}

/// Whether the case of a control spawns a child, where this one runs.
fn spawns(control: Control, child: Option<u64>) -> bool
    ensures { result ≡ spawns control child }
{
    match control {
        Control::Start => child.is_none(),
        Control::TryRestart => child.is_some(),
        Control::ContinueTryGracefulRestart => true,
        Control::Stop
        | Control::GracefulStop { .. }
        | Control::TryGracefulRestart { .. }
        | Control::Signal(_)
        | Control::Delete
        | Control::NextEnding
        | Control::SyncFunc(_)
        | Control::AsyncFunc(_)
        | Control::SetSyncErrorHandler(_)
        | Control::UnsetErrorHandler
        | Control::SetSyncSpawnHook(_)
        | Control::UnsetSpawnHook
        | Control::SetSpawnFn(_)
        | Control::SetSpawnChildFn(_)
        | Control::ClearSpawnFn => false,
    }
}

/// Whether the ticket of this control is parked, in this state.
fn is_parking(control: Control, state: CommandState) -> bool
    ensures { result ≡ is_parking control state }
{
    match control {
        Control::NextEnding => !state.is_finished(),
        _ => false,
    }
}

/// The end of a grace of so many nanoseconds that begins at this moment.
fn over_at(at: u64, grace: u64) -> u128
    ensures { result ≡ at + grace }
{
    at as u128 + grace as u128
}

/// The number that is sent for a signal: 15 for one without a number on the system.
fn number_of(signal: Signal) -> i32
    ensures { result ≡ number_of signal }
{
    match signal.native() {
        Some(number) => number,
        None => 15,
    }
}

/// The spawn hook that is set once this control was picked.
fn hook_after(control: Control, before: Option<u32>) -> Option<u32>
    ensures { result ≡ set_hook (Some control) before }
{
    match control {
        Control::SetSyncSpawnHook(n) => Some(n),
        Control::UnsetSpawnHook => None,
        _ => before,
    }
}

/// The error handler that is set once this control was picked.
fn handler_after(control: Control, before: Option<u32>) -> Option<u32>
    ensures { result ≡ set_handler (Some control) before }
{
    match control {
        Control::SetSyncErrorHandler(n) => Some(n),
        Control::UnsetErrorHandler => None,
        _ => before,
    }
}

/// What spawns once this control was picked.
fn tag_after(control: Control, before: SpawnTag) -> SpawnTag
    ensures { result ≡ set_tag (Some control) before }
{
    match control {
        Control::SetSpawnFn(n) => SpawnTag::Command(n),
        Control::SetSpawnChildFn(n) => SpawnTag::Child(n),
        Control::ClearSpawnFn => SpawnTag::Default,
        _ => before,
    }
}
