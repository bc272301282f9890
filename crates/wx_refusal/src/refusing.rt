// Why a line is bad behind those before it.
use crate::reasons::{Front, Reason, Refusal};
use crate::unformed::why_unformed;
use std::alloc::Global;
use wx_bytes::LIMIT;
use wx_script::{Line, Script, line_in, read_script};
use wx_text::Memory;
use wx_words::cut;

/// A line without its line feed, what stands before it, and whether it has its line feed.
#[derive(Clone, Copy)]
struct Place<'a> {
    before: &'a [u8],
    line: &'a [u8],
    is_ended: bool,
}

/// The line of this number, counted from 1. The last part where there are fewer.
fn line_at(bytes: &[u8], number: u64) -> Place<'_> {
    let mut rest = bytes;
    for _ in 1..number {
        if let Some((_, after)) = cut(rest, 10) {
            rest = after;
        }
    }
    let before = &bytes[..bytes.len().saturating_sub(rest.len())];
    match cut(rest, 10) {
        Some((line, _)) => Place {
            before,
            line,
            is_ended: true,
        },
        None => Place {
            before,
            line: rest,
            is_ended: false,
        },
    }
}

/// Why a setting can't stand behind the lines of this script: it is late, or else this.
fn why_no_setting<'a>(script: &Script, otherwise: Reason<'a>) -> Reason<'a> {
    if script.sends.is_empty() && script.turns.is_empty() {
        otherwise
    } else {
        Reason::LateSet
    }
}

/// Why nothing can be sent behind the lines of this script.
fn why_no_send<'a>(script: &Script) -> Reason<'a> {
    if script.turns.is_empty() {
        Reason::Full(script.size)
    } else {
        Reason::LateSend
    }
}

/// Why a line that says this can't stand behind the lines of this script.
fn why_misplaced<'a>(script: &Script, said: &Line) -> Reason<'a> {
    match said {
        Line::Size(_) | Line::ErrorSize(_) => why_no_setting(script, Reason::Size),
        Line::Folder(_) => why_no_setting(script, Reason::Folder),
        Line::Throttle(_)
        | Line::Keyboard(_)
        | Line::Follow(_)
        | Line::JobSignals(_)
        | Line::Watcher(_)
        | Line::Path(_) => Reason::LateSet,
        Line::Send(_, _) => why_no_send(script),
        Line::Turn(_) => Reason::Moment(script.last),
        Line::Edit(_) => Reason::Path,
        _ => Reason::Unknown,
    }
}

/// Why a line that says this is bad behind these bytes.
fn why_after<'a>(alloc: Global, before: &[u8], said: &Line) -> Result<Reason<'a>, Memory> {
    match read_script(alloc, before)? {
        Ok(script) => Ok(why_misplaced(&script, said)),
        Err(_) => Ok(Reason::Unknown),
    }
}

/// Why the line at this place is bad.
fn why_bad<'a>(alloc: Global, place: Place<'a>) -> Result<Reason<'a>, Memory> {
    if !place.is_ended {
        return Ok(Reason::Unended);
    }
    match line_in(alloc, place.line)? {
        Some(said) => {
            let why = why_after(alloc, place.before, &said);
            drop(said);
            why
        }
        None => why_unformed(alloc, place.line),
    }
}

/// Why these bytes are no script. `None` where they are one.
///
/// It takes time in proportion to the bytes. `Memory` comes where there was none.
pub fn refusal(alloc: Global, bytes: &[u8]) -> Result<Option<Refusal<'_>>, Memory> {
    if LIMIT < bytes.len() {
        return Ok(Some(Refusal::TooLong));
    }
    let number = match read_script(alloc, bytes)? {
        Ok(_) => return Ok(None),
        Err(bad) => bad.0,
    };
    let place = line_at(bytes, number);
    Ok(Some(Refusal::BadLine {
        number,
        line: Front(place.line),
        reason: why_bad(alloc, place)?,
    }))
}
