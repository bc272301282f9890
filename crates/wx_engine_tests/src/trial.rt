// What the tests share: engines and their runs.
ghost use Rattle.wx_machine.specs.Start.{IsSize};

use std::alloc::Global;
use std::test::Fail;
use wx_config::Config;
use wx_engine::Watchexec;
use wx_follow_trial::{root, world_of};
use wx_hooks::{Hooks, World};
use wx_journal::Journal;
use wx_print::print_journal;
use wx_text::{Memory, Text};
use wx_words::cut;

/// What an engine begins with: the throttle, the revision of its settings, and the numbers of its filter and its handlers.
#[derive(Clone, Copy)]
pub(crate) struct Setup {
    pub(crate) throttle: u64,
    pub(crate) revision: u64,
    pub(crate) filterer: u32,
    pub(crate) error_handler: u32,
    pub(crate) action_handler: u32,
}

/// An engine with this setup.
fn engine_by(alloc: Global, setup: Setup) -> Result<Watchexec, Memory> {
    let folder = root(alloc)?;
    let mut config = Config::new(alloc)?;
    config.throttle.replace(setup.throttle);
    config.change_signal = setup.revision;
    config.filterer = setup.filterer;
    config.error_handler = setup.error_handler;
    config.action_handler = setup.action_handler;
    Watchexec::with_config(alloc, config, folder)
}

/// An engine with this throttle and a queue of this size.
pub(crate) fn engine_with(alloc: Global, throttle: u64, size: u32) -> Result<Watchexec, Memory>
    requires { IsSize size }
{
    let folder = root(alloc)?;
    let mut config = Config::new(alloc)?;
    config.throttle.replace(throttle);
    config.event_channel_size = size;
    Watchexec::with_config(alloc, config, folder)
}

/// The text of a run of this engine in this world.
pub(crate) fn text_in<W: World, H: Hooks>(
    alloc: Global,
    engine: Watchexec,
    world: &mut W,
    hooks: &mut H,
) -> Result<Text, Memory> {
    match Journal::new(alloc) {
        Ok(mut journal) => {
            let answer = engine.main(alloc, world, hooks, &mut journal);
            let text = print_journal(alloc, &journal, &answer);
            drop(answer);
            drop(journal);
            text
        }
        Err(want) => {
            drop(engine);
            Err(want)
        }
    }
}

/// The text of a run of an engine with this setup, in a world that follows the script of these lines.
pub(crate) fn text_by<H: Hooks>(
    alloc: Global,
    setup: Setup,
    lines: &[u8],
    hooks: &mut H,
) -> Result<Text, Fail> {
    let engine = engine_by(alloc, setup)?;
    text_of(alloc, engine, lines, hooks)
}

/// The text of a run of this engine, in a world that follows the script of these lines.
pub(crate) fn text_of<H: Hooks>(
    alloc: Global,
    engine: Watchexec,
    lines: &[u8],
    hooks: &mut H,
) -> Result<Text, Fail> {
    match world_of(alloc, lines) {
        Ok(mut world) => {
            let text = text_in(alloc, engine, &mut world, hooks);
            drop(world);
            Ok(text?)
        }
        Err(fail) => {
            drop(engine);
            Err(fail)
        }
    }
}

/// What is behind the first line of a text.
pub(crate) fn behind_first(text: &Text) -> Option<&[u8]> {
    cut(text.as_slice(), 10).map(|parts| parts.1)
}
