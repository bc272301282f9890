// What the run starts from.
ghost use Rattle.std.specs.Prelude.{◌≡◌, true, IfOk};
ghost use Rattle.wx_machine.specs.Start.{is_absolute};
ghost use Rattle.wx_live_run.specs.LiveRuns.{live_config, live_start};

use std::alloc::Global;
use wx_config::Config;
use wx_engine::Watchexec;
use wx_events::{Event, Priority};
use wx_text::{Copies, List, Memory};
use wx_watch::WatchedPath;
use wx_words::TextPath;

/// The settings: the folder is watched with all below it, links aren't followed, and keys are heard.
fn config_of(alloc: Global, folder: &TextPath) -> Result<Config, Memory>
    ensures { IfOk result (λ config. config ≡ live_config config.fs_ready folder.now) }
{
    let mut paths = List::new(alloc);
    paths.push(WatchedPath::recursive(folder.copy(alloc)?))?;
    let mut config = Config::new(alloc)?;
    config.pathset.replace(paths);
    config.follow_symlinks.replace(false);
    config.keyboard_events.replace(true);
    Ok(config)
}

/// The engine over this folder, to which one urgent event without tags was sent.
pub(crate) fn engine_of(alloc: Global, folder: &TextPath) -> Result<Watchexec, Memory>
    requires { is_absolute folder.now ≡ true }
    ensures { IfOk result (λ engine. engine ≡ live_start engine.config.fs_ready folder.now) }
{
    let config = config_of(alloc, folder)?;
    let mut engine = Watchexec::with_config(alloc, config, folder.copy(alloc)?)?;
    let event = Event {
        tags: List::new(alloc),
    };
    match engine.send_event(event, Priority::Urgent) {
        Ok(()) => Ok(engine),
        Err(_) => Err(Memory),
    }
}
