// Flags and tickets, before and after they are raised.
use crate::control_tests::{copy_of, expect_so, new_flag};
use futures::task::Poll;
use futures::test::MockTask;
use std::alloc::Global;
use std::process::Abort;
use wx_control::{Flag, Ticket};
use wx_text::Copies;

/// Holds what this flag is and what was seen of it by this handle to be so.
fn expect_flag(rt: &impl Abort, flag: &Flag, raised: bool, seen: bool) {
    assert!(rt; flag.raised() == raised && flag.seen() == seen);
}

/// Looks at a flag, and holds what is seen to be so.
fn expect_look(rt: &impl Abort, flag: &mut Flag, raised: bool) {
    assert!(rt; flag.look() == raised && flag.seen() == raised);
}

/// Looks at a flag, which is raised from the start or is not, before and after it is raised.
fn expect_looks(rt: &impl Abort, alloc: Global, value: bool) {
    let mut flag = Flag::new(alloc, value).expect(rt, "a flag");
    expect_flag(rt, &flag, value, false);
    expect_look(rt, &mut flag, value);
    flag.raise();
    expect_flag(rt, &flag, true, value);
    expect_look(rt, &mut flag, true);
    flag.raise();
    expect_so(rt, flag.raised() && flag.look(), "raised twice");
}

#[test]
fn a_look_sees_what_was_raised(rt: HostRuntime) {
    expect_looks(&rt, rt.alloc(), false);
    expect_looks(&rt, rt.alloc(), true);
}

#[test]
fn copies_of_a_flag_share_the_raise_and_not_the_looks(rt: HostRuntime) {
    let alloc = rt.alloc();
    let flag = new_flag(&rt, alloc);
    let mut early = copy_of(&rt, alloc, &flag);
    expect_look(&rt, &mut early, false);
    early.raise();
    let mut late = copy_of(&rt, alloc, &flag);
    expect_flag(&rt, &flag, true, false);
    expect_flag(&rt, &early, true, false);
    expect_flag(&rt, &late, true, false);
    expect_look(&rt, &mut late, true);
    expect_look(&rt, &mut early, true);
    expect_so(&rt, !flag.seen(), "no look by the first");
    let last = copy_of(&rt, alloc, &late);
    expect_so(&rt, last.seen(), "a copy of the look");
    let mut other = new_flag(&rt, alloc);
    expect_look(&rt, &mut other, false);
}

/// Polls a flag that isn't raised.
fn expect_waits(rt: &impl Abort, task: &MockTask, flag: &mut Flag) {
    let is_ready = matches!(task.poll(flag), Poll::Ready(()));
    assert!(rt; !is_ready && task.is_woken() && !flag.seen());
}

/// Polls a flag that is raised.
fn expect_raised(rt: &impl Abort, task: &MockTask, flag: &mut Flag) {
    let is_ready = matches!(task.poll(flag), Poll::Ready(()));
    assert!(rt; is_ready && flag.seen());
}

#[test]
fn a_flag_is_polled(rt: HostRuntime) {
    let task = MockTask::new(&rt).expect(&rt, "a task");
    let mut flag = new_flag(&rt, rt.alloc());
    expect_waits(&rt, &task, &mut flag);
    expect_waits(&rt, &task, &mut flag);
    flag.raise();
    expect_raised(&rt, &task, &mut flag);
    expect_raised(&rt, &task, &mut flag);
    drop(task);
}

/// Whether one poll by this task finds the ticket ready.
pub fn is_ready(task: &MockTask, ticket: &mut Ticket) -> bool {
    matches!(task.poll(ticket), Poll::Ready(()))
}

/// Polls a ticket that isn't ready.
fn expect_not_ready(rt: &impl Abort, task: &MockTask, ticket: &mut Ticket) {
    assert!(rt; !is_ready(task, ticket) && task.is_woken());
}

/// Polls a ticket that is ready.
fn expect_ready(rt: &impl Abort, task: &MockTask, ticket: &mut Ticket) {
    assert!(rt; is_ready(task, ticket));
}

/// Another handle on the same ticket.
fn copy_of_ticket(rt: &impl Abort, alloc: Global, ticket: &Ticket) -> Ticket {
    ticket.copy(alloc).expect(rt, "a copy of a ticket")
}

/// Holds what was seen of the two flags of a ticket to be so.
fn expect_seen(rt: &impl Abort, ticket: &Ticket, gone: bool, done: bool) {
    assert!(rt; ticket.gone.seen() == gone && ticket.done.seen() == done);
}

/// Polls a ticket over two flags, before and after one of them is raised.
fn expect_ticket(rt: &impl Abort, alloc: Global, task: &MockTask, by_done: bool) {
    let gone = new_flag(rt, alloc);
    let done = new_flag(rt, alloc);
    let mut ticket = Ticket { gone, done };
    let mut early = copy_of_ticket(rt, alloc, &ticket);
    expect_not_ready(rt, task, &mut ticket);
    expect_not_ready(rt, task, &mut ticket);
    if by_done {
        ticket.done.raise();
    } else {
        ticket.gone.raise();
    }
    expect_ready(rt, task, &mut ticket);
    expect_ready(rt, task, &mut ticket);
    let mut late = copy_of_ticket(rt, alloc, &ticket);
    drop(ticket);
    expect_seen(rt, &late, !by_done, by_done);
    expect_ready(rt, task, &mut late);
    expect_ready(rt, task, &mut early);
    drop(late);
    drop(early);
}

#[test]
fn a_ticket_is_ready_once_it_is_done_or_gone(rt: HostRuntime) {
    let task = MockTask::new(&rt).expect(&rt, "a task");
    expect_ticket(&rt, rt.alloc(), &task, false);
    expect_ticket(&rt, rt.alloc(), &task, true);
    drop(task);
}

/// The ticket of a job that goes by this flag.
fn ticket_of(rt: &impl Abort, alloc: Global, gone: &Flag) -> Ticket {
    Ticket::resolved(alloc, gone).expect(rt, "a ticket")
}

#[test]
fn a_ticket_of_a_gone_job(rt: HostRuntime) {
    let alloc = rt.alloc();
    let task = MockTask::new(&rt).expect(&rt, "a task");
    let mut gone = new_flag(&rt, alloc);
    let mut before = ticket_of(&rt, alloc, &gone);
    expect_not_ready(&rt, &task, &mut before);
    gone.raise();
    let mut unseen = ticket_of(&rt, alloc, &gone);
    expect_seen(&rt, &unseen, false, false);
    expect_so(&rt, gone.look(), "the job is gone");
    let mut after = ticket_of(&rt, alloc, &gone);
    drop(gone);
    expect_seen(&rt, &after, true, true);
    expect_ready(&rt, &task, &mut after);
    expect_ready(&rt, &task, &mut unseen);
    expect_ready(&rt, &task, &mut before);
    drop(after);
    drop(unseen);
    drop(before);
    drop(task);
}
