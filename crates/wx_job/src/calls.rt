// The calls that the cases of a job are made of, each with its entry.
ghost use Rattle.std.specs.Prelude.{◌≡◌, ℕ, ◌≤◌, ◌∷◌, [], OnOk, OnErr, IfOk, IfSome, IfNone, Some, None, false, length};
ghost use Rattle.wx_command.specs.Spawnables.{spawnable_of};
ghost use Rattle.wx_journal.specs.declared.entry.Entry.{Entry};
ghost use Rattle.wx_journal.specs.Names.{moment};
ghost use Rattle.wx_journal.specs.Told.{tell};
ghost use Rattle.wx_machine.specs.declared.state.CommandState.TheVariants.{Pending};
ghost use Rattle.wx_machine.specs.History.{finish, before_spawn, picked_last, begins_by};
ghost use Rattle.wx_machine.specs.Table.{Plan, Done, Words, Signals, Kills, Waits, adds, shows, tries, reap, waiters, spawn, fresh};
ghost use Rattle.wx_machine.specs.Case.{PlanFollowsHost, PlanFollowsHooks, PlanFollows, PlanGivesUp, HookedOnly, words_of, newest_code};
ghost use Rattle.wx_machine.specs.Kept.{Quiet};
ghost use Rattle.wx_job.specs.Calls.{IsReady, IsReadyAt, IsTicketInHand, AreRoomy, HasCalled, HasWaited, HasServed};
ghost use Rattle.wx_machine.specs.Steady.{AreSpare, Spends};
ghost use Rattle.wx_job.specs.Stands.{TaskKeeps, kit_of, grace_of, holds, spawned};
ghost use Rattle.wx_machine.specs.States.{child_of};

use crate::grace::Standing;
use crate::outside::{Host, JobHooks};
use crate::task::JobTask;
use std::alloc::Global;
use wx_command::Spawnable;
use wx_control::Flag;
use wx_events::ProcessEnd;
use wx_journal::{Entry, HostFault, Journal};
use wx_machine::CommandState;
use wx_text::{Copies, Memory};

#[tactic(auto, using(crate::proofs::Sets::steps))]
impl JobTask {
    /// Raises a ticket, which the task doesn't hold.
    pub(crate) fn raise<H: Host>(
        &self,
        ticket: u64,
        done: &Flag,
        host: &mut H,
        journal: &mut Journal,
    )
        requires stands { TaskKeeps self.now journal.old.past }
        requires unheld { holds ticket self.now ≡ 0 }
        requires room { AreSpare 1 journal.old (H.seen host.old) }
        ensures stands { TaskKeeps self.now journal.new.past }
        ensures follows { (k : Plan) → PlanFollowsHost (adds (Entry.Raise ticket) k) journal.old.past (H.seen host.old) k journal.new.past (H.seen host.new) }
        ensures before { before_spawn self.now.id journal.new.past ≡ self.now.state }
        ensures quiet { Quiet journal.old.past journal.new.past }
        ensures spends { Spends 1 journal.old (H.seen host.old) journal.new (H.seen host.new) }
    {
        host.raise(ticket, done);
        journal.push(Entry::Raise(ticket));
    }

    /// Raises each parked ticket, in order.
    pub(crate) fn raise_parked<H: Host>(&mut self, host: &mut H, journal: &mut Journal)
        requires stands { TaskKeeps self.old journal.old.past }
        requires before { before_spawn self.old.id journal.old.past ≡ self.old.state }
        requires room { AreSpare (length self.old.parked.tickets) journal.old (H.seen host.old) }
        ensures stands { TaskKeeps self.new journal.new.past }
        ensures follows { (k : Plan) → PlanFollowsHost (waiters self.old.parked.tickets k) journal.old.past (H.seen host.old) k journal.new.past (H.seen host.new) }
        ensures fields { self.new ≡ record self.old { parked = self.new.parked } }
        ensures none { self.new.parked.tickets ≡ [] }
        ensures held { (t : ℕ) → holds t self.new ≤ holds t self.old }
        ensures before { before_spawn self.new.id journal.new.past ≡ self.new.state }
        ensures quiet { Quiet journal.old.past journal.new.past }
        ensures spends { Spends (length self.old.parked.tickets) journal.old (H.seen host.old) journal.new (H.seen host.new) }
    {
        while let Some(parked) = self.parked.take() {
            host.raise(parked.ticket, &parked.done);
            journal.push(Entry::Raise(parked.ticket));
        }
    }

    /// Shows the fault that the journal's newest entry holds to the error handler, where one is set.
    fn show<K: JobHooks>(&self, fault: HostFault, hooks: &mut K, journal: &mut Journal)
        requires stands { TaskKeeps self.now journal.old.past }
        requires newest { newest_code journal.old.past ≡ fault.0 }
        requires room { AreRoomy 1 1 journal.old (K.seen hooks.old) }
        ensures follows { (k : Plan) → PlanFollowsHooks (shows self.now.id self.now.handler k) journal.old.past (K.seen hooks.old).told k journal.new.past (K.seen hooks.new).told }
        ensures called { HasCalled K.seen K.rule K.stands 1 1 journal.old hooks.old self.now journal.new hooks.new }
    {
        let Some(n) = self.handler else {
            return;
        };
        let job = self.id;
        hooks.job_error(job, n, fault);
        journal.push(Entry::JobError {
            job,
            n,
            code: fault.0,
        });
    }

    /// Sends the signal of this number to the child, whatever comes of it. The grace stays as it is.
    pub(crate) fn signal<H: Host, K: JobHooks>(
        &self,
        child: u64,
        number: i32,
        host: &mut H,
        hooks: &mut K,
        journal: &mut Journal,
    )
        requires begins { begins_by (picked_last self.now.id journal.old.past) (moment journal.old.past) (grace_of self.now) ≡ grace_of self.now }
        requires ready { IsReady self.now 2 1 journal.old (H.seen host.old) (K.seen hooks.old) }
        ensures follows { (k : Plan) → PlanFollows (tries self.now.id self.now.handler (Signals child number) k k) journal.old.past (H.seen host.old) (K.seen hooks.old).told k journal.new.past (H.seen host.new) (K.seen hooks.new).told }
        ensures served { HasServed K.seen K.rule K.stands 2 1 journal.old (H.seen host.old) hooks.old self.now journal.new (H.seen host.new) hooks.new }
    {
        let answer = host.signal(child, number);
        journal.push(Entry::Signal {
            child,
            number,
            answer,
        });
        if let Err(fault) = answer {
            self.show(fault, hooks, journal);
        }
    }

    /// Sends the signal of this number to the child, in the case of a control that begins this grace. Where that is done
    /// the grace stands, and else it is given back.
    pub(crate) fn begin<H: Host, K: JobHooks>(
        &mut self,
        child: u64,
        number: i32,
        standing: Standing,
        host: &mut H,
        hooks: &mut K,
        journal: &mut Journal,
    ) -> Option<Standing>
        requires runs { child_of self.old.state ≡ Some child }
        requires begins { begins_by (picked_last self.old.id journal.old.past) (moment journal.old.past) (grace_of self.old) ≡ Some standing.grace }
        requires in_hand { IsTicketInHand standing.grace.ticket self.old journal.old.past }
        requires ready { IsReady self.old 2 1 journal.old (H.seen host.old) (K.seen hooks.old) }
        ensures begun { IfNone result ((k : Plan) (f : Plan) → PlanFollows (tries self.old.id self.old.handler (Signals child number) k f) journal.old.past (H.seen host.old) (K.seen hooks.old).told k journal.new.past (H.seen host.new) (K.seen hooks.new).told) }
        ensures failed { IfSome result (λ back. (k : Plan) (f : Plan) → PlanFollows (tries self.old.id self.old.handler (Signals child number) k f) journal.old.past (H.seen host.old) (K.seen hooks.old).told f journal.new.past (H.seen host.new) (K.seen hooks.new).told) }
        ensures back { IfSome result (λ back. (back ≡ standing) × (self.new ≡ self.old)) }
        ensures fields { self.new ≡ record self.old { grace = self.new.grace } }
        ensures served { HasServed K.seen K.rule K.stands 2 1 journal.old (H.seen host.old) hooks.old self.new journal.new (H.seen host.new) hooks.new }
    {
        let answer = host.signal(child, number);
        journal.push(Entry::Signal {
            child,
            number,
            answer,
        });
        if let Err(fault) = answer {
            self.show(fault, hooks, journal);
            return Some(standing);
        }
        self.grace = Some(standing);
        None
    }

    /// Kills the child.
    pub(crate) fn kill<H: Host, K: JobHooks>(
        &self,
        child: u64,
        host: &mut H,
        hooks: &mut K,
        journal: &mut Journal,
    ) -> Result<(), HostFault>
        requires ready { IsReady self.now 2 1 journal.old (H.seen host.old) (K.seen hooks.old) }
        ensures ok { OnOk result ((k : Plan) (f : Plan) → PlanFollows (tries self.now.id self.now.handler (Kills child) k f) journal.old.past (H.seen host.old) (K.seen hooks.old).told k journal.new.past (H.seen host.new) (K.seen hooks.new).told) }
        ensures err { OnErr result ((k : Plan) (f : Plan) → PlanFollows (tries self.now.id self.now.handler (Kills child) k f) journal.old.past (H.seen host.old) (K.seen hooks.old).told f journal.new.past (H.seen host.new) (K.seen hooks.new).told) }
        ensures served { HasServed K.seen K.rule K.stands 2 1 journal.old (H.seen host.old) hooks.old self.now journal.new (H.seen host.new) hooks.new }
    {
        let answer = host.kill(child);
        journal.push(Entry::Kill { child, answer });
        if let Err(fault) = answer {
            self.show(fault, hooks, journal);
            return Err(fault);
        }
        Ok(())
    }

    /// Waits for the child's end, which is kept no longer. Where that is done a grace that stood has ended, and is answered.
    pub(crate) fn wait<H: Host, K: JobHooks>(
        &mut self,
        child: u64,
        at: u64,
        host: &mut H,
        hooks: &mut K,
        journal: &mut Journal,
    ) -> Result<Option<Standing>, HostFault>
        requires runs { child_of self.old.state ≡ Some child }
        requires ready { IsReadyAt at self.old 2 1 journal.old (H.seen host.old) (K.seen hooks.old) }
        ensures ok { OnOk result ((k : Plan) (f : Plan) → PlanFollows (tries self.old.id self.old.handler (Waits child) k f) journal.old.past (H.seen host.old) (K.seen hooks.old).told k journal.new.past (H.seen host.new) (K.seen hooks.new).told) }
        ensures err { OnErr result ((k : Plan) (f : Plan) → PlanFollows (tries self.old.id self.old.handler (Waits child) k f) journal.old.past (H.seen host.old) (K.seen hooks.old).told f journal.new.past (H.seen host.new) (K.seen hooks.new).told) }
        ensures waited { HasWaited result self.old self.new }
        ensures stays { OnErr result (self.new.grace ≡ self.old.grace) }
        ensures before { OnOk result (before_spawn self.new.id journal.new.past ≡ self.new.state) }
        ensures served { HasServed K.seen K.rule K.stands 2 1 journal.old (H.seen host.old) hooks.old self.new journal.new (H.seen host.new) hooks.new }
    {
        let answer = host.wait(child);
        journal.push(Entry::Wait { child, answer });
        self.kept = false;
        match answer {
            Ok(status) => {
                self.state = finished(child, status, at, self.state);
                Ok(self.grace.take())
            }
            Err(fault) => {
                self.show(fault, hooks, journal);
                Err(fault)
            }
        }
    }

    /// Kills the child and waits for it. Where both are done a grace that stood has ended, and is answered. Where they
    /// aren't it raises the ticket.
    pub(crate) fn reap<H: Host, K: JobHooks>(
        &mut self,
        child: u64,
        ticket: u64,
        done: &Flag,
        at: u64,
        host: &mut H,
        hooks: &mut K,
        journal: &mut Journal,
    ) -> Result<Option<Standing>, HostFault>
        requires unheld { holds ticket self.old ≡ 0 }
        requires runs { child_of self.old.state ≡ Some child }
        requires ready { IsReadyAt at self.old 5 2 journal.old (H.seen host.old) (K.seen hooks.old) }
        ensures ok { OnOk result ((k : Plan) → PlanFollows (reap self.old.id self.old.handler child ticket k) journal.old.past (H.seen host.old) (K.seen hooks.old).told k journal.new.past (H.seen host.new) (K.seen hooks.new).told) }
        ensures err { OnErr result ((k : Plan) → PlanFollows (reap self.old.id self.old.handler child ticket k) journal.old.past (H.seen host.old) (K.seen hooks.old).told Done journal.new.past (H.seen host.new) (K.seen hooks.new).told) }
        ensures waited { HasWaited result self.old self.new }
        ensures before { before_spawn self.new.id journal.new.past ≡ self.new.state }
        ensures served { HasServed K.seen K.rule K.stands 5 2 journal.old (H.seen host.old) hooks.old self.new journal.new (H.seen host.new) hooks.new }
    {
        if let Err(fault) = self.kill(child, host, hooks, journal) {
            self.raise(ticket, done, host, journal);
            return Err(fault);
        }
        match self.wait(child, at, host, hooks, journal) {
            Ok(standing) => Ok(standing),
            Err(fault) => {
                self.raise(ticket, done, host, journal);
                Err(fault)
            }
        }
    }

    /// Spawns a child. What is spawned is given twice, for the call and for its entry. `before` is the state before it, or
    /// before the hook that was called for it.
    pub(crate) fn spawn<H: Host, K: JobHooks>(
        &mut self,
        what: Spawnable,
        listed: Spawnable,
        before: CommandState,
        at: u64,
        host: &mut H,
        hooks: &mut K,
        journal: &mut Journal,
    )
        requires runs { child_of self.old.state ≡ None }
        requires listed { listed ≡ what }
        requires before { before ≡ before_spawn self.old.id journal.old.past }
        requires ready { IsReadyAt at self.old 2 1 journal.old (H.seen host.old) (K.seen hooks.old) }
        ensures follows { (words : Words) → words_of journal.old.past words ≡ what → (k : Plan) → PlanFollows (spawn self.old.id self.old.handler self.old.tag words k) journal.old.past (H.seen host.old) (K.seen hooks.old).told k journal.new.past (H.seen host.new) (K.seen hooks.new).told }
        ensures fields { self.new ≡ spawned self.old self.new }
        ensures served { HasServed K.seen K.rule K.stands 2 1 journal.old (H.seen host.old) hooks.old self.new journal.new (H.seen host.new) hooks.new }
    {
        let child = journal.children();
        let answer = host.spawn(child, self.id, what, self.tag);
        journal.push(Entry::Spawn {
            child,
            job: self.id,
            tag: self.tag,
            what: listed,
            answer,
        });
        self.previous = Some(before);
        match answer {
            Ok(()) => {
                self.state = CommandState::Running { child, started: at };
                self.kept = false;
            }
            Err(fault) => {
                self.state = CommandState::Pending;
                self.show(fault, hooks, journal);
            }
        }
    }

    /// Lets the spawn hook of this number change what is spawned, and answers twice what it left. It fails for want of
    /// memory, and then the case is given up.
    pub(crate) fn call_hook<K: JobHooks>(
        &mut self,
        alloc: Global,
        n: u32,
        mut what: Spawnable,
        hooks: &mut K,
        journal: &mut Journal,
    ) -> Result<(Spawnable, Spawnable), Memory>
        requires stands { TaskKeeps self.old journal.old.past }
        requires runs { child_of self.old.state ≡ None }
        requires here { self.old.gone ≡ false }
        requires what { what ≡ spawnable_of self.old.command }
        requires room { AreRoomy 1 1 journal.old (K.seen hooks.old) }
        ensures same { IfOk result (λ two. two.1 ≡ two.0) }
        ensures adds { IfOk result (λ two. (journal.new.past ≡ Entry.Hook self.old.id n (Ok two.0) ∷ journal.old.past) × ((K.seen hooks.new).told ≡ tell (Entry.Hook self.old.id n (Ok two.0)) (K.seen hooks.old).told)) }
        ensures err { OnErr result (HookedOnly self.old.id n journal.old.past (K.seen hooks.old).told journal.new.past (K.seen hooks.new).told) }
        ensures fields { self.new ≡ record self.old { state = Pending; previous = Some self.old.state } }
        ensures called { HasCalled K.seen K.rule K.stands 1 1 journal.old hooks.old self.new journal.new hooks.new }
    {
        self.previous = Some(self.state);
        self.state = CommandState::Pending;
        let answer = hooks.spawn_hook(self.id, n, &mut what, &self.context());
        let job = self.id;
        match answer {
            Ok(()) => {
                let copies = two_copies(alloc, &what);
                let answer = Ok(what);
                journal.push(Entry::Hook { job, n, answer });
                copies
            }
            Err(error) => {
                let answer = Err(error);
                journal.push(Entry::Hook { job, n, answer });
                Err(error)
            }
        }
    }

    /// Spawns a fresh child of these words, or of what the spawn hook leaves of them where one is set. It fails only for
    /// want of memory, behind the call of a hook, and then the case is given up.
    pub(crate) fn fresh<H: Host, K: JobHooks>(
        &mut self,
        alloc: Global,
        what: Spawnable,
        listed: Spawnable,
        at: u64,
        host: &mut H,
        hooks: &mut K,
        journal: &mut Journal,
    ) -> Result<(), Memory>
        requires runs { child_of self.old.state ≡ None }
        requires what { (what ≡ spawnable_of self.old.command) × (listed ≡ what) }
        requires before { before_spawn self.old.id journal.old.past ≡ self.old.state }
        requires ready { IsReadyAt at self.old 3 2 journal.old (H.seen host.old) (K.seen hooks.old) }
        ensures ok { OnOk result ((k : Plan) → PlanFollows (fresh self.old.id (kit_of self.old) k) journal.old.past (H.seen host.old) (K.seen hooks.old).told k journal.new.past (H.seen host.new) (K.seen hooks.new).told) }
        ensures err { OnErr result ((k : Plan) → PlanGivesUp (fresh self.old.id (kit_of self.old) k) journal.old.past (H.seen host.old) (K.seen hooks.old).told journal.new.past (H.seen host.new) (K.seen hooks.new).told) }
        ensures pending { OnErr result (self.new.state ≡ Pending) }
        ensures fields { self.new ≡ spawned self.old self.new }
        ensures served { HasServed K.seen K.rule K.stands 3 2 journal.old (H.seen host.old) hooks.old self.new journal.new (H.seen host.new) hooks.new }
    {
        let before = self.state;
        let Some(n) = self.hook else {
            self.spawn(what, listed, before, at, host, hooks, journal);
            return Ok(());
        };
        let (what, listed) = self.call_hook(alloc, n, what, hooks, journal)?;
        self.spawn(what, listed, before, at, host, hooks, journal);
        Ok(())
    }
}

/// Two copies of what is spawned.
fn two_copies(alloc: Global, what: &Spawnable) -> Result<(Spawnable, Spawnable), Memory>
    ensures { IfOk result (λ two. (two.0 ≡ what.now) × (two.1 ≡ what.now)) }
{
    let one = what.copy(alloc)?;
    let two = what.copy(alloc)?;
    Ok((one, two))
}

/// The state after this child ended.
fn finished(child: u64, status: ProcessEnd, at: u64, state: CommandState) -> CommandState
    ensures { result ≡ finish child status at state }
{
    match state {
        CommandState::Running {
            child: running,
            started,
        } if running == child => {
            CommandState::Finished {
                status,
                started,
                finished: at,
            }
        }
        other => other,
    }
}
