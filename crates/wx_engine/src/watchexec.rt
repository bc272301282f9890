// The engine.
ghost use Rattle.std.specs.Prelude.{◌≡◌, ◌∷◌, ◌++◌, [], ◌+◌, true, false, length, List, OnOk, OnErr, IfOk, IfErr, Err};
ghost use Rattle.wx_config.specs.Changes.{changed};
ghost use Rattle.wx_config.specs.Defaults.{default_config};
ghost use Rattle.wx_config.specs.declared.change.Change.TheVariants.{OnAction};
ghost use Rattle.wx_machine.specs.Start.{Start, IsSize, IsStart, is_absolute};
ghost use Rattle.wx_engine.specs.Sent.{Refuses};

use std::alloc::Global;
use std::marker::Model;
use wx_config::Config;
use wx_events::{Event, Priority};
use wx_text::{List, Memory};
use wx_words::TextPath;

/// Why an event was not sent.
#[derive(Drop, Debug)]
pub enum SendRefused {
    /// The queue has as many events as its size. The event is handed back.
    Full(Event, Priority),
    /// There was no memory. The event is dropped.
    Memory,
}

/// An engine that has not run yet: its settings, its folder, and the events that were sent to it. Contracts see it as
/// that, which is what a run starts from.
#[derive(Drop, Debug)]
pub struct Watchexec {
    pub(crate) config: Config,
    pub(crate) folder: TextPath,
    pub(crate) sent: List<(Event, Priority)>,
}

impl Model for Watchexec {
    ghost use Rattle.wx_machine.specs.Start.{Start, IsStart};

    ghost Value = { Start };

    ghost view = { λ e. record { config = e.config; folder = e.folder; events = e.sent } };

    ghost invariant = { λ e. IsStart (record { config = e.config; folder = e.folder; events = e.sent }) };
}

impl Watchexec {
    /// An engine with the default settings, whose action handler has this number, and an absolute folder. It fails only
    /// for want of memory.
    pub fn new(alloc: Global, action: u32, folder: TextPath) -> Result<Watchexec, Memory>
        requires { is_absolute folder ≡ true }
        ensures start { IfOk result (λ engine. engine ≡ record { config = changed (OnAction action) (default_config engine.config.fs_ready); folder = folder; events = [] }) }
        ensures ready { IfOk result (λ engine. engine.config.fs_ready.seen ≡ false) }
    {
        let mut config = Config::new(alloc)?;
        config.on_action(action).unwrap();
        Watchexec::with_config(alloc, config, folder)
    }

    /// An engine with these settings, whose sizes are from 1 to 65,536, and an absolute folder. It fails only for want of
    /// memory.
    pub fn with_config(alloc: Global, config: Config, folder: TextPath) -> Result<Watchexec, Memory>
        requires event_size { IsSize config.event_channel_size }
        requires error_size { IsSize config.error_channel_size }
        requires folder { is_absolute folder ≡ true }
        ensures { IfOk result (λ engine. engine ≡ record { config = config; folder = folder; events = [] }) }
    {
        Ok(Watchexec {
            config,
            folder,
            sent: List::new(alloc),
        })
    }

    /// Sends an event before the run. Where the queue has as many events as its size the answer is `Full` with the event;
    /// else it fails only for want of memory. A refused event leaves the engine as it was.
    pub fn send_event(&mut self, event: Event, priority: Priority) -> Result<(), SendRefused>
        ensures ok { OnOk result (self.new ≡ record self.old { events = self.old.events ++ (event, priority) ∷ [] }) }
        ensures refused { IfErr result (λ error. Refuses self.old event priority error) }
        ensures unchanged { OnErr result (self.new ≡ self.old) }
        ensures when_full { length self.old.events ≡ self.old.config.event_channel_size → result ≡ Err (SendRefused.Full event priority) }
    {
        if self.sent.len() as u64 >= self.config.event_channel_size as u64 {
            return Err(SendRefused::Full(event, priority));
        }
        match self.sent.push((event, priority)) {
            Ok(()) => Ok(()),
            Err(_) => Err(SendRefused::Memory),
        }
    }
}
