// What the keys of a batch say.
ghost use Rattle.std.specs.Prelude.{◌≡◌};
ghost use Rattle.std.specs.List.{list_any, list_all};
ghost use Rattle.wx_live_action.specs.LiveActs.{is_q, is_end, has};

use wx_events::{Event, KeyCode, Keyboard, Tag};

/// Whether a tag is the key q, without Ctrl.
fn is_q(tag: &Tag) -> bool
    ensures { result ≡ is_q tag.now }
{
    match tag {
        Tag::Keyboard(
            Keyboard::Key {
                key: KeyCode::Char('q'),
                modifiers,
            },
        ) => !modifiers.ctrl,
        _ => false,
    }
}

/// Whether a tag is the end of the keyboard's input.
fn is_end(tag: &Tag) -> bool
    ensures { result ≡ is_end tag.now }
{
    matches!(tag, Tag::Keyboard(Keyboard::Eof))
}

/// Whether the key q, without Ctrl, is among the tags of an event.
fn has_q(event: &Event) -> bool
    ensures { result ≡ has is_q event.now }
{
    event.tags.as_slice().iter().any(|tag| is_q(tag))
}

/// Whether the end of the keyboard's input is among the tags of an event.
fn has_end(event: &Event) -> bool
    ensures { result ≡ has is_end event.now }
{
    event.tags.as_slice().iter().any(|tag| is_end(tag))
}

/// Whether the key q, without Ctrl, is among these events.
pub(crate) fn any_q(events: &[Event]) -> bool
    ensures { result ≡ list_any (has is_q) events.now }
{
    events.iter().any(|event| has_q(event))
}

/// Whether each of these events is the end of the keyboard's input.
pub(crate) fn all_end(events: &[Event]) -> bool
    ensures { result ≡ list_all (has is_end) events.now }
{
    events.iter().all(|event| has_end(event))
}
