// A filter of one's own.
ghost use Rattle.std.specs.Prelude.{◌≡◌, false, Ok as Well};

use crate::runs::{folder, journal_of};
use std::alloc::Global;
use std::test::Fail;
use watchexec::error::RuntimeError;
use watchexec::filter::Filterer;
use watchexec::{Config, WatchedPath, Watchexec};
use watchexec_events::{Event, Priority};
use wx_engine::BoxedHooks;
use wx_keys::Tagged;
use wx_text::{List, Memory, Text};
use wx_words::TextPath;

/// Has no directory `target` watched, and lets an event pass that names no path that ends with `.o`. About an event it promises
/// nothing; a directory passes, or doesn't.
#[derive(Drop)]
struct Sources;

impl Filterer for Sources {
    ghost excludes = { λ _ _ answer. answer ≡ Well false };

    ghost judges = { λ _ _ _ _. Unit {0} };

    fn check_dir(&self, path: &TextPath) -> Result<bool, RuntimeError> {
        Ok(!path.text().as_slice().ends_with(b"/target"))
    }

    fn check_event(&self, event: &Event, _priority: Priority) -> Result<bool, RuntimeError> {
        Ok(!event.paths().any(|(path, _)| is_object(path)))
    }
}

/// Whether the path is that of an object file.
fn is_object(path: &TextPath) -> bool {
    path.text().as_slice().ends_with(b".o")
}

/// The path `/w`, with all below it.
fn paths(alloc: Global) -> Result<List<WatchedPath>, Memory> {
    let path = TextPath::new(Text::from_slice(alloc, b"/w")?);
    let mut paths = List::new(alloc);
    paths.push(WatchedPath::recursive(path))?;
    Ok(paths)
}

/// An engine that watches this. Its filter has the number 0.
fn engine(alloc: Global) -> Result<Watchexec, Fail> {
    let mut config = Config::new(alloc)?;
    config.pathset(paths(alloc)?)?;
    Ok(Watchexec::with_config(alloc, config, folder(alloc)?)?)
}

/// Hooks that hold the filter under the number 0.
fn hooks(alloc: Global) -> Result<BoxedHooks, Memory> {
    let mut filters: List<Box<dyn Filterer + Drop>> = List::new(alloc);
    filters.push(Box::new(alloc, Sources)?)?;
    let (actions, errors, functions) = (List::new(alloc), List::new(alloc), List::new(alloc));
    let (hooks, faults) = (List::new(alloc), List::new(alloc));
    Ok(BoxedHooks::new(alloc, filters, actions, errors, functions, hooks, faults))
}

/// The journal of a run that follows these lines.
pub(crate) fn run(alloc: Global, lines: &[u8]) -> Result<Text, Fail> {
    let mut hooks = hooks(alloc)?;
    journal_of(alloc, engine(alloc)?, &mut hooks, lines)
}
