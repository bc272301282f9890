// What a queue takes and gives, before and after it is closed: the expected values are worked out by hand.
use crate::expecting::expect_none;
use prio_channel::PrioQueue;
use std::alloc::Global;
use wx_events::Priority;
use wx_text::Memory;
use wx_words_trial::{first_wrong_pair, read_line};

// For each case the size of a new queue, the calls on it, and what each answers. `1 low` sends 1 with this priority, `take` takes
// one, `close` closes it, and `look` asks whether it is open and whether it is empty, how many are in, and for how many it is.
const CALLS: &str = "\
2: 1 low, 2 urgent, 3 high, take, take, take, look = sent, sent, Full(3, High), 2 urgent, 1 low, none, open empty 0 of 2
1: 1 normal, look, close, look, 2 urgent, look, take, 3 low, take = sent, open 1 of 1, closed, closed 1 of 1, Closed(2, Urgent), closed 1 of 1, 1 normal, Closed(3, Low), none
4: 1 high, 2 low, 3 high, 4 high, take, 5 high, take, take, take, take, take = sent, sent, sent, sent, 1 high, sent, 3 high, 4 high, 5 high, 2 low, none
";

/// What the queue shows.
fn look(alloc: Global, queue: &PrioQueue<u64>) -> Result<String, Memory> {
    let open = if queue.is_closed() { "closed" } else { "open" };
    let empty = if queue.is_empty() { " empty" } else { "" };
    let (len, size) = (queue.len(), queue.size());
    Ok(format!(in alloc; ", {open}{empty} {len} of {size}")?)
}

/// What is taken.
fn take(alloc: Global, queue: &mut PrioQueue<u64>) -> Result<String, Memory> {
    match queue.try_recv() {
        Some((value, priority)) => Ok(format!(in alloc; ", {value} {priority}")?),
        None => Ok(format!(in alloc; ", none")?),
    }
}

/// What is answered where the value of these words is sent with its priority.
fn send(alloc: Global, queue: &mut PrioQueue<u64>, words: &str) -> Result<String, Memory> {
    let Some((value, priority)) = read_line::<(u64, Priority)>(alloc, words.as_bytes())? else {
        return Ok(format!(in alloc; ", no value")?);
    };
    match queue.try_send(value, priority) {
        Ok(()) => Ok(format!(in alloc; ", sent")?),
        Err(error) => Ok(format!(in alloc; ", {error:?}")?),
    }
}

/// What this call answers, with a comma before it.
fn answer(alloc: Global, queue: &mut PrioQueue<u64>, call: &str) -> Result<String, Memory> {
    if call == "take" {
        return take(alloc, queue);
    }
    if call == "close" {
        queue.close();
        return Ok(format!(in alloc; ", closed")?);
    }
    if call == "look" {
        return look(alloc, queue);
    }
    send(alloc, queue, call)
}

/// Whether these calls on a queue of this size have these answers.
fn has_answers(alloc: Global, case: &str, wanted: &str) -> Result<bool, Memory> {
    let Some((size, calls)) = case.split_once(": ") else {
        return Ok(false);
    };
    let Ok(size @ 1..=65536) = size.parse::<u32>() else {
        return Ok(false);
    };
    let mut queue = PrioQueue::bounded(alloc, size)?;
    let mut answers = format!(in alloc; "")?;
    for call in calls.split(", ") {
        let one = answer(alloc, &mut queue, call)?;
        answers.push_str(one.as_str())?;
    }
    Ok(answers.as_str().strip_prefix(", ") == Some(wanted))
}

#[test]
fn queues_give_the_greatest_first_and_what_is_left_after_close(rt: HostRuntime) {
    expect_none(&rt, first_wrong_pair(rt.alloc(), CALLS, " = ", has_answers));
}
