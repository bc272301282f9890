// Tests of an engine that begins with its default settings, and of one whose queue is full.
use crate::trial::{engine_with, text_of};
use std::alloc::Global;
use std::test::Fail;
use wx_engine::{SendRefused, Watchexec};
use wx_events::{Event, Priority, Tag};
use wx_follow::ScriptHooks;
use wx_follow_trial::{hooks_of, root};
use wx_text::{List, Text};

/// An urgent event arrives behind another one, and is handed first and at once.
const HURRIES: &[u8] = b"turn 0 arrive low 0\nturn 3 arrive urgent 0\nturn 4 work\n";

/// The text of a run of the script `HURRIES` with the default settings and action handler 7, and with hooks that follow the script.
fn text_of_hurries(alloc: Global) -> Result<Text, Fail> {
    let mut hooks = hooks_of(alloc, HURRIES)?;
    let text = text_of_defaults(alloc, &mut hooks);
    drop(hooks);
    text
}

/// The same with these hooks.
fn text_of_defaults(alloc: Global, hooks: &mut ScriptHooks) -> Result<Text, Fail> {
    let engine = Watchexec::new(alloc, 7, root(alloc)?)?;
    text_of(alloc, engine, HURRIES, hooks)
}

#[test]
fn an_engine_begins_with_the_default_settings(rt: HostRuntime) -> Result<(), Fail> {
    let text = text_of_hurries(rt.alloc())?;
    let settings =
        b"begin throttle 50000000 size 4096 errors 64 keyboard off follow on jobsignals off watcher native cwd / paths 0\n";
    assert!(rt; text.as_slice().starts_with(settings.as_slice()));
    let end = b"hand 7 1 1\nturn 4 last\nend ok lost 0\n";
    assert!(rt; text.as_slice().ends_with(end.as_slice()));
    Ok(())
}

/// Whether the event is handed back that is sent to an engine with a full queue, with its tag and its priority.
fn is_handed_back(engine: &mut Watchexec, tagged: Event) -> bool {
    match engine.send_event(tagged, Priority::High) {
        Err(SendRefused::Full(event, priority)) => {
            event.tags.as_slice() == [Tag::Unknown].as_slice() && priority == Priority::High
        }
        _ => false,
    }
}

#[test]
fn a_full_queue_hands_the_event_back(rt: HostRuntime) -> Result<(), Fail> {
    let alloc = rt.alloc();
    let tags = List::from_vec(vec![in alloc; Tag::Unknown]?);
    let untagged = Event {
        tags: List::new(alloc),
    };
    let mut engine = engine_with(alloc, 0, 1)?;
    let sent = engine.send_event(untagged, Priority::Low).is_ok();
    let back = is_handed_back(&mut engine, Event { tags });
    drop(engine);
    assert!(rt; sent && back);
    Ok(())
}
