// What the tests share: runs with plain hooks, and the calls on them.
use std::alloc::Global;
use std::process::Abort;
use std::str;
use std::test::Fail;
use wx_config::{Config, WatchedPath};
use wx_engine::{ScriptWorld, Watchexec};
use wx_follow_trial::{root, world_of};
use wx_hooks::Hooks;
use wx_journal::Journal;
use wx_patterns::Patterns;
use wx_plain::{Chooses, PlainHooks};
use wx_print::print_journal;
use wx_text::{List, Memory, Text};
use wx_words::TextPath;

/// What the lines of the calls on hooks begin with.
const CALLS: [&str; 9] = [
    "filter ",
    "dir ",
    "show ",
    "hand ",
    "run ",
    "begun ",
    "poll ",
    "hook ",
    "joberror ",
];

/// A run: what it shows, the lines that its world follows, and the lines of the calls on its hooks.
pub(crate) type Run = (&'static str, &'static str, &'static str);

/// The folder `/w`, with all below it.
fn paths(alloc: Global) -> Result<List<WatchedPath>, Memory> {
    let mut paths = List::new(alloc);
    paths.push(WatchedPath::from(Text::from_slice(alloc, b"/w")?))?;
    Ok(paths)
}

/// An engine that hears keys and watches `/w`, with a throttle of ten nanoseconds and the last revision of settings.
fn engine(alloc: Global) -> Result<Watchexec, Memory> {
    let paths = paths(alloc)?;
    let folder = root(alloc)?;
    let mut config = Config::new(alloc)?;
    config.pathset.replace(paths);
    config.throttle.replace(10);
    config.keyboard_events.replace(true);
    config.change_signal = u64::MAX;
    Watchexec::with_config(alloc, config, folder)
}

/// Patterns below `/w`, by which `out` and each name that ends with `.tmp` are ignored.
fn patterns(alloc: Global) -> Result<Patterns, Memory> {
    let base = TextPath::new(Text::from_slice(alloc, b"/w")?);
    let mut lines = List::new(alloc);
    lines.push(Text::from_slice(alloc, b"/out")?)?;
    lines.push(Text::from_slice(alloc, b"*.tmp")?)?;
    let mut patterns = Patterns::new(alloc, base)?;
    let added = patterns.add_all(lines.as_slice());
    drop(lines);
    match added {
        Ok(()) => Ok(patterns),
        Err(want) => {
            drop(patterns);
            Err(want)
        }
    }
}

/// The text of a run in this world.
fn text_in<H: Hooks>(
    alloc: Global,
    world: &mut ScriptWorld,
    hooks: &mut H,
) -> Result<Text, Memory> {
    let engine = engine(alloc)?;
    match Journal::new(alloc) {
        Ok(mut journal) => {
            let answer = engine.main(alloc, world, hooks, &mut journal);
            let text = print_journal(alloc, &journal, &answer);
            drop(answer);
            drop(journal);
            text
        }
        Err(want) => {
            drop(engine);
            Err(want)
        }
    }
}

/// The lines of the calls on hooks in this text.
fn calls_in(alloc: Global, text: &str) -> Result<Text, Memory> {
    let mut calls = Text::new(alloc);
    for line in text.lines() {
        if CALLS.iter().any(|call| line.starts_with(call)) {
            calls.append(line.as_bytes())?;
            calls.push(10)?;
        }
    }
    Ok(calls)
}

/// The lines of the calls on hooks in a run that follows these lines, with acts that this chooses, and whether one was refused.
fn calls_of<A: Chooses + Drop>(
    alloc: Global,
    lines: &str,
    chooser: A,
) -> Result<(Text, bool), Fail> {
    let mut hooks = PlainHooks::new(chooser, patterns(alloc)?);
    let mut world = world_of(alloc, lines.as_bytes())?;
    let text = text_in(alloc, &mut world, &mut hooks);
    drop(world);
    let short = hooks.short();
    drop(hooks);
    let text = text?;
    let calls = calls_in(alloc, str::from_utf8(text.as_slice()).unwrap_or(""))?;
    Ok((calls, short))
}

/// Holds a run with acts that this chooses to what it is to be, of which an act is refused or none is.
pub(crate) fn expect_run<A: Chooses + Drop>(
    rt: &impl Abort,
    alloc: Global,
    run: &Run,
    chooser: A,
    refused: bool,
) -> Result<(), Fail> {
    let (what, lines, wanted) = *run;
    let (calls, short) = calls_of(alloc, lines, chooser)?;
    let so = calls.as_slice() == wanted.as_bytes() && short == refused;
    assert!(rt; so, "{what}");
    Ok(())
}
