// Why a line has no form.
use crate::reasons::{Front, Reason};
use std::alloc::Global;
use wx_events::Tag;
use wx_journal::{Turn, TurnKind};
use wx_script::ScriptAct;
use wx_text::{Memory, Text};
use wx_watch::WatchedPath;
use wx_words::{Spelled, Words, is_word, take_literal};

/// The length that a list says, and how many items stand behind it to the end of the line.
#[derive(Clone, Copy)]
struct Counted {
    said: u64,
    found: u64,
}

/// How many items stand to the end of the line. `None` where something else stands among them.
fn items_left<T: Spelled + Drop>(alloc: Global, words: &mut Words) -> Result<Option<u64>, Memory> {
    for count in 0..u64::MAX {
        if words.is_done() {
            return Ok(Some(count));
        }
        match T::read(alloc, words)? {
            Some(item) => drop(item),
            None => return Ok(None),
        }
    }
    Ok(None)
}

/// The lengths of a list.
fn list_of<T: Spelled + Drop>(alloc: Global, words: &mut Words) -> Result<Option<Counted>, Memory> {
    match u64::read(alloc, words)? {
        Some(said) => Ok(items_left::<T>(alloc, words)?.map(|found| Counted { said, found })),
        None => Ok(None),
    }
}

/// Those of the tags of an event, whose priority stands before them.
fn list_of_event(alloc: Global, words: &mut Words) -> Result<Option<Counted>, Memory> {
    let _ = words.next();
    list_of::<Tag>(alloc, words)
}

/// Those of the paths of a change.
fn list_of_change(alloc: Global, words: &mut Words) -> Result<Option<Counted>, Memory> {
    if take_literal(b"paths", words) {
        list_of::<WatchedPath>(alloc, words)
    } else {
        Ok(None)
    }
}

/// Those of what a turn brings, whose moment stands before it.
fn list_of_turn(alloc: Global, words: &mut Words) -> Result<Option<Counted>, Memory> {
    let _ = words.next();
    match words.next() {
        Some(kind) if is_word(kind, b"arrive") => list_of_event(alloc, words),
        Some(kind) if is_word(kind, b"keys") => list_of::<u64>(alloc, words),
        Some(kind) if is_word(kind, b"change") => list_of_change(alloc, words),
        _ => Ok(None),
    }
}

/// Those of a program with its arguments.
fn list_of_command(alloc: Global, words: &mut Words) -> Result<Option<Counted>, Memory> {
    if take_literal(b"exec", words) {
        let _ = words.next();
        list_of::<Text>(alloc, words)
    } else {
        Ok(None)
    }
}

/// Those of an act. What is found may be of the acts behind it.
fn list_of_act(alloc: Global, words: &mut Words) -> Result<Option<Counted>, Memory> {
    match words.next() {
        Some(kind) if is_word(kind, b"create") => list_of_command(alloc, words),
        Some(kind) if is_word(kind, b"getcreate") => {
            let _ = words.next();
            list_of_command(alloc, words)
        }
        Some(kind) if is_word(kind, b"change") => list_of_change(alloc, words),
        _ => Ok(None),
    }
}

/// Why this act, which is the first one without a form, has none.
fn why_no_act<'a>(alloc: Global, number: u64, words: &mut Words<'a>) -> Result<Reason<'a>, Memory> {
    match list_of_act(alloc, &mut words.fork())? {
        Some(Counted { said, found }) if found < said => Ok(Reason::Length { said, found }),
        _ => match words.next() {
            Some(word) => Ok(Reason::NoAct {
                number,
                word: Front(word),
            }),
            None => Ok(Reason::NoForm),
        },
    }
}

/// Why these acts have no form.
fn why_no_acts<'a>(alloc: Global, words: &mut Words<'a>) -> Result<Reason<'a>, Memory> {
    for number in 1..u64::MAX {
        let mut ahead = words.fork();
        match ScriptAct::read(alloc, &mut ahead)? {
            Some(act) => drop(act),
            None => return why_no_act(alloc, number, words),
        }
        *words = ahead;
    }
    Ok(Reason::NoForm)
}

/// Why a turn has no form whose list has the length that it says.
fn why_no_turn<'a>(alloc: Global, words: &mut Words) -> Result<Reason<'a>, Memory> {
    match Turn::read(alloc, words)? {
        Some(turn) if words.is_done() => match turn.kind {
            TurnKind::Keys(_) => Ok(Reason::Keys),
            TurnKind::Last => Ok(Reason::LastTurn),
            _ => Ok(Reason::NoForm),
        },
        _ => Ok(Reason::NoForm),
    }
}

/// Why a line that ignores a pattern has no form.
fn why_no_pattern<'a>(alloc: Global, words: &mut Words) -> Result<Reason<'a>, Memory> {
    match Text::read(alloc, words)? {
        Some(_) if words.is_done() => Ok(Reason::Pattern),
        _ => Ok(Reason::NoForm),
    }
}

/// The lengths of the list that ends this line, in the forms that end with one and have no other.
fn list_in(alloc: Global, line: &[u8]) -> Result<Option<Counted>, Memory> {
    let mut words = Words::new(line);
    match words.next() {
        Some(first) if is_word(first, b"hook") => list_of::<Text>(alloc, &mut words),
        Some(first) if is_word(first, b"send") => list_of_event(alloc, &mut words),
        Some(first) if is_word(first, b"turn") => list_of_turn(alloc, &mut words),
        _ => Ok(None),
    }
}

/// Why this line has no form.
pub(crate) fn why_unformed<'a>(alloc: Global, line: &'a [u8]) -> Result<Reason<'a>, Memory> {
    match list_in(alloc, line)? {
        Some(Counted { said, found }) if said != found => {
            return Ok(Reason::Length { said, found });
        }
        _ => {}
    }
    let mut words = Words::new(line);
    match words.next() {
        Some(first) if is_word(first, b"action") => why_no_acts(alloc, &mut words),
        Some(first) if is_word(first, b"turn") => why_no_turn(alloc, &mut words),
        Some(first) if is_word(first, b"ignore") => why_no_pattern(alloc, &mut words),
        _ => Ok(Reason::NoForm),
    }
}
