// The controls that wait for a job.
ghost use Rattle.std.specs.Prelude.{◌≡◌, ◌∷◌, ◌++◌, [], ◌+◌, ◌≤◌, ◌<◌, ◌^◌, ◌==◌, false, OnOk, OnErr, IfOk, IfSome, IfNone, MatchOption, option_map};
ghost use Rattle.std.specs.VecDeque.{deque_len, deque_capacity};
ghost use Rattle.wx_control.specs.Waits.{IsEmpty, ticketed, picked, joined, headed, first_of, first_level, waiting_count};

use crate::control::Control;
use crate::flag::Flag;
use crate::level::Level;
use std::alloc::Global;
use std::collections::VecDeque;
use std::marker::Model;
use wx_text::Memory;

/// A control that waits.
#[derive(Drop, Debug)]
struct Waiting {
    ticket: u64,
    done: Flag,
    control: Control,
}

/// A control that was picked: its ticket, the flag to raise once it is done, and the level at which it waited.
#[derive(Drop, Debug)]
pub struct Picked {
    pub ticket: u64,
    pub done: Flag,
    pub control: Control,
    pub level: Level,
}

/// The controls that wait for a job, a list for each level, first in first out. Contracts see those of each level with
/// their tickets, and how many more there is room for at every level.
#[derive(Drop, Debug)]
pub struct ThreeLists {
    urgent: VecDeque<Waiting>,
    high: VecDeque<Waiting>,
    normal: VecDeque<Waiting>,
}

impl Model for ThreeLists {
    ghost use Rattle.std.specs.Prelude.{map, min, ◌-◌};
    ghost use Rattle.std.specs.VecDeque.{deque_len, deque_capacity};
    ghost use Rattle.wx_control.specs.Waits.{Waits, ticketed};

    ghost Value = { Waits };

    ghost view = { λ l. record {
      urgent = map ticketed l.urgent.items;
      high = map ticketed l.high.items;
      normal = map ticketed l.normal.items;
      spare = min (deque_capacity l.urgent - deque_len l.urgent) (min (deque_capacity l.high - deque_len l.high) (deque_capacity l.normal - deque_len l.normal));
    } };
}

impl ThreeLists {
    /// Lists in which none waits. It fails only for want of memory.
    pub fn new(alloc: Global) -> Result<ThreeLists, Memory>
        ensures { IfOk result (λ lists. IsEmpty lists) }
    {
        Ok(ThreeLists {
            urgent: VecDeque::new(alloc),
            high: VecDeque::new(alloc),
            normal: VecDeque::new(alloc),
        })
    }

    /// Takes room for `n` more at every level. It fails only for want of memory.
    pub fn reserve(&mut self, n: u64) -> Result<(), Memory>
        ensures same { self.new ≡ record self.old { spare = self.new.spare } }
        ensures room { OnOk result (n ≤ self.new.spare) }
        ensures kept { self.old.spare ≤ self.new.spare }
    {
        self.urgent.reserve(n as usize)?;
        self.high.reserve(n as usize)?;
        self.normal.reserve(n as usize)?;
        Ok(())
    }

    /// A control waits at a level, behind the others. It fails only for want of memory, and nothing changes then.
    pub fn put(
        &mut self,
        ticket: u64,
        done: Flag,
        control: Control,
        level: Level,
    ) -> Result<(), Memory>
        ensures ok { OnOk result (self.new ≡ record (joined level (ticket, control) self.old) { spare = self.new.spare }) }
        ensures err { OnErr result (self.new ≡ self.old) }
    {
        let waiting = Waiting {
            ticket,
            done,
            control,
        };
        match level {
            Level::Urgent => put_in(&mut self.urgent, waiting),
            Level::High => put_in(&mut self.high, waiting),
            Level::Normal => put_in(&mut self.normal, waiting),
        }
    }

    /// A control waits at a level, behind the others, in room that was taken before.
    pub fn put_reserved(&mut self, ticket: u64, done: Flag, control: Control, level: Level)
        requires { 1 ≤ self.old.spare }
        ensures joins { self.new ≡ record (joined level (ticket, control) self.old) { spare = self.new.spare } }
        ensures room { self.old.spare ≤ self.new.spare + 1 }
    {
        let waiting = Waiting {
            ticket,
            done,
            control,
        };
        match level {
            Level::Urgent => self.urgent.push_back_reserved(waiting),
            Level::High => self.high.push_back_reserved(waiting),
            Level::Normal => self.normal.push_back_reserved(waiting),
        }
    }

    /// The control that `pick` would take, with its ticket.
    pub fn first(&self, grace: bool) -> Option<(u64, Control)>
        ensures { result ≡ first_of grace self.now }
    {
        if let Some(waiting) = self.urgent.front() {
            return Some((waiting.ticket, waiting.control));
        }
        if let Some(waiting) = self.high.front() {
            return Some((waiting.ticket, waiting.control));
        }
        match self.normal.front() {
            Some(_) if grace => None,
            Some(waiting) => Some((waiting.ticket, waiting.control)),
            None => None,
        }
    }

    /// Takes the first urgent one, else the first of the level High, else, where no grace runs, the first of the level
    /// Normal. There is none exactly where none of these waits. It takes no memory.
    pub fn pick(&mut self, grace: bool) -> Option<Picked>
        ensures picked { option_map picked result ≡ first_of grace self.old }
        ensures level { option_map (λ x. x.level) result ≡ first_level grace self.old }
        ensures taken { IfSome result (λ x. self.old ≡ record (headed x.level (picked x) self.new) { spare = self.old.spare }) }
        ensures none { IfNone result (self.new ≡ self.old) }
        ensures room { self.old.spare ≤ self.new.spare }
    {
        if !self.urgent.is_empty() {
            return Some(take_first(&mut self.urgent, Level::Urgent));
        }
        if !self.high.is_empty() {
            return Some(take_first(&mut self.high, Level::High));
        }
        if grace {
            return None;
        }
        if self.normal.is_empty() {
            return None;
        }
        Some(take_first(&mut self.normal, Level::Normal))
    }

    /// How many wait at all levels. There is no answer exactly where that is 2^64 or more.
    pub fn count(&self) -> Option<u64>
        ensures { MatchOption result (2 ^ 64 ≤ waiting_count self.now) (λ n. n ≡ waiting_count self.now) }
    {
        let pressing = (self.urgent.len() as u64).checked_add(self.high.len() as u64)?;
        pressing.checked_add(self.normal.len() as u64)
    }

    /// None waits any more.
    pub fn clear(&mut self)
        ensures empty { IsEmpty self.new }
        ensures room { self.old.spare ≤ self.new.spare }
    {
        self.urgent.clear();
        self.high.clear();
        self.normal.clear();
    }
}

/// Adds one at the end of a list. It fails only for want of memory, and nothing changes then.
fn put_in(list: &mut VecDeque<Waiting>, waiting: Waiting) -> Result<(), Memory>
    ensures ok { OnOk result (list.new.items ≡ list.old.items ++ waiting ∷ []) }
    ensures items { OnErr result (list.new.items ≡ list.old.items) }
    ensures len { OnErr result (deque_len list.new ≡ deque_len list.old) }
    ensures capacity { OnErr result (deque_capacity list.new ≡ deque_capacity list.old) }
{
    make_room(list)?;
    list.push_back_reserved(waiting);
    Ok(())
}

/// Takes room for at least one more, and for twice as many where there is none. It fails only for want of memory, and
/// nothing changes then: `reserve_exact` promises that, and `reserve` doesn't.
fn make_room(list: &mut VecDeque<Waiting>) -> Result<(), Memory>
    ensures items { list.new.items ≡ list.old.items }
    ensures len { deque_len list.new ≡ deque_len list.old }
    ensures room { OnOk result (deque_len list.new < deque_capacity list.new) }
    ensures kept { OnErr result (deque_capacity list.new ≡ deque_capacity list.old) }
{
    if list.len() < list.capacity() {
        return Ok(());
    }
    list.reserve_exact(list.len().max(1))?;
    Ok(())
}

/// Takes the first of the list of this level.
fn take_first(list: &mut VecDeque<Waiting>, level: Level) -> Picked
    requires { (deque_len list.old == 0) ≡ false }
    ensures items { list.old.items ≡ record { ticket = result.ticket; done = result.done; control = result.control } ∷ list.new.items }
    ensures level { result.level ≡ level }
    ensures len { deque_len list.new + 1 ≡ deque_len list.old }
    ensures capacity { deque_capacity list.new ≡ deque_capacity list.old }
{
    let Some(first) = list.pop_front() else {
        unreachable!()
    };
    let Waiting {
        ticket,
        done,
        control,
    } = first;
    Picked {
        ticket,
        done,
        control,
        level,
    }
}
