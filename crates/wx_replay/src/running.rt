// The run of a script.
ghost use Rattle.std.specs.Prelude.{◌≡◌, false, IfOk};
ghost use Rattle.wx_script.specs.Follows.{IsScript, config_of, start_of};
ghost use Rattle.wx_replay.specs.Runs.{IsRunOf};

use std::alloc::Global;
use wx_config::Config;
use wx_engine::Watchexec;
use wx_error::CriticalError;
use wx_follow::{ScriptHooks, ScriptWorld};
use wx_journal::Journal;
use wx_script::Script;
use wx_text::{Copies, Memory};

/// What a run left: its journal, and what it answered.
#[derive(Drop)]
pub struct Ran {
    pub journal: Journal,
    pub answer: Result<(), CriticalError>,
}

/// The settings that a script states.
fn config_of(alloc: Global, script: &Script) -> Result<Config, Memory>
    ensures { IfOk result (λ config. config ≡ config_of config.fs_ready script.now) }
{
    let paths = script.paths.copy(alloc)?;
    let mut config = Config::new(alloc)?;
    config.throttle.replace(script.throttle);
    config.event_channel_size = script.size;
    config.error_channel_size = script.error_size;
    config.keyboard_events.replace(script.keyboard);
    config.follow_symlinks.replace(script.follow);
    config.signal_job_control = script.job_signals;
    config.file_watcher.replace(script.watcher);
    config.pathset.replace(paths);
    Ok(config)
}

/// The engine that a script states, to which all its events were sent.
fn engine_of(alloc: Global, script: &Script) -> Result<Watchexec, Memory>
    requires { IsScript script.now }
    ensures { IfOk result (λ engine. engine ≡ start_of engine.config.fs_ready script.now) }
{
    let folder = script.folder_or_top(alloc)?;
    let config = config_of(alloc, script)?;
    let mut engine = Watchexec::with_config(alloc, config, folder)?;
    for (event, priority) in script.sends.as_slice() {
        // a script sends no more events than the queue holds
        if engine.send_event(event.copy(alloc)?, *priority).is_err() {
            return Err(Memory);
        }
    }
    Ok(engine)
}

/// What a run left, where neither its world nor its hooks were short.
fn unless_short(short_world: bool, short_hooks: bool, ran: Ran) -> Result<Ran, Memory>
    ensures { IfOk result (λ r. (short_world ≡ false) × (short_hooks ≡ false) × (r ≡ ran)) }
{
    if short_world {
        return Err(Memory);
    }
    if short_hooks {
        return Err(Memory);
    }
    Ok(ran)
}

/// Runs a script, and lets it go before its first turn. It fails only for want of memory of the world and the hooks that follow it: what
/// the run answered is told.
pub fn run_script(alloc: Global, script: Script) -> Result<Ran, Memory>
    requires { IsScript script }
    ensures { IfOk result (λ ran. IsRunOf script ran.journal.past ran.answer) }
{
    let mut journal = Journal::new(alloc)?;
    let engine = engine_of(alloc, &script)?;
    let mut hooks = ScriptHooks::new(alloc, &script)?;
    let mut world = ScriptWorld::new(alloc, &script)?;
    drop(script);
    let answer = engine.main(alloc, &mut world, &mut hooks, &mut journal);
    let short_world = world.short();
    let short_hooks = hooks.short();
    drop(hooks);
    drop(world);
    unless_short(short_world, short_hooks, Ran { journal, answer })
}
