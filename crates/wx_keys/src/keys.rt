// Keys as events.
ghost use Rattle.std.specs.Prelude.{◌≡◌, IfOk};
ghost use Rattle.std.specs.List.{list_any};
ghost use Rattle.wx_keys.specs.Keys.{pressed, is_eof, read_keys, byte_key, ends_input, fits_read, key_event, key_events};

use crate::signal::event_of;
use std::alloc::Global;
use wx_events::{Event, KeyCode, Keyboard, Modifiers, Source, Tag};
use wx_text::{List, Memory};

/// This key, with Ctrl or without.
fn pressed(key: KeyCode, ctrl: bool) -> Keyboard
    ensures { result ≡ pressed key ctrl }
{
    Keyboard::Key {
        key,
        modifiers: Modifiers { ctrl },
    }
}

/// What a byte that was read from the keyboard says: 3 and 4 are the end of the input, 13 is Enter, 27 is Escape, all
/// others from 1 to 26 are a letter with Ctrl, and 32 to 126 are the character itself. Other bytes say nothing.
pub fn byte_to_keyboard(b: u8) -> Option<Keyboard>
    ensures { result ≡ byte_key b }
{
    match b {
        3 | 4 => Some(Keyboard::Eof),
        13 => Some(pressed(KeyCode::Enter, false)),
        1..=26 => Some(pressed(KeyCode::Char((b + 96) as char), true)),
        27 => Some(pressed(KeyCode::Escape, false)),
        32..=126 => Some(pressed(KeyCode::Char(b as char), false)),
        _ => None,
    }
}

/// The event of a key. It fails only for want of memory.
fn key_event(alloc: Global, key: Keyboard) -> Result<Event, Memory>
    ensures { IfOk result (λ event. event ≡ key_event key) }
{
    event_of(alloc, Tag::Source(Source::Keyboard), Tag::Keyboard(key))
}

/// The events of a read from the keyboard, one for the key of each byte, in order, up to the first end of the input and
/// with it. A read without bytes is the end of the input. It fails only for want of memory.
pub fn key_events(alloc: Global, bytes: &[u8]) -> Result<List<Event>, Memory>
    ensures { IfOk result (λ events. events ≡ key_events bytes.now) }
{
    let mut events = List::new(alloc);
    if bytes.is_empty() {
        events.push(key_event(alloc, Keyboard::Eof)?)?;
    }
    for byte in bytes {
        let Some(key) = byte_to_keyboard(*byte) else {
            continue;
        };
        events.push(key_event(alloc, key)?)?;
        if let Keyboard::Eof = key {
            break;
        }
    }
    Ok(events)
}

/// Whether a read from the keyboard holds the end of the input: it has no bytes, or byte 3 or 4 is among them. So it is just
/// where the end is among its keys.
pub fn ends_input(bytes: &[u8]) -> bool
    ensures ends { result ≡ ends_input bytes.now }
    ensures keys { result ≡ list_any is_eof (read_keys bytes.now) }
{
    if bytes.is_empty() {
        return true;
    }
    for byte in bytes {
        if let 3 | 4 = *byte {
            return true;
        }
    }
    false
}

/// Whether so many bytes can be one read from the keyboard, which takes at most 10.
pub fn fits_read(bytes: &[u8]) -> bool
    ensures { result ≡ fits_read bytes.now }
{
    bytes.len() <= 10
}
