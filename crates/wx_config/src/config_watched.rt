// Watching for changes of settings.
ghost use Rattle.std.specs.Prelude.{◌≡◌, is_some, Some, None};
ghost use Rattle.wx_config.specs.Revisions.{news};

use crate::config::Config;
use std::marker::Model;

/// One who watches the settings for changes, which contracts see as the revision that was told last, where one was.
#[derive(Drop, Debug)]
pub struct ConfigWatched {
    told: Option<u64>,
}

impl Model for ConfigWatched {
    ghost use Rattle.std.specs.Prelude.{ℕ, Option};

    ghost Value = { Option ℕ };

    ghost view = { λ w. w.told };
}

impl ConfigWatched {
    /// One to whom no revision was told yet.
    pub(crate) fn new() -> ConfigWatched
        ensures { result ≡ None }
    {
        ConfigWatched { told: None }
    }

    /// The revision of these settings, where none was told before or another one was told last. Else None.
    pub fn next(&mut self, config: &Config) -> Option<u64>
        ensures answer { result ≡ news self.old config.now.change_signal }
        ensures told { self.new ≡ Some config.now.change_signal }
    {
        if !self.pending(config) {
            return None;
        }
        self.told = Some(config.change_signal);
        Some(config.change_signal)
    }

    /// Whether `next` would answer a revision.
    pub fn pending(&self, config: &Config) -> bool
        ensures { result ≡ is_some (news self.now config.now.change_signal) }
    {
        match self.told {
            None => true,
            Some(told) => told != config.change_signal,
        }
    }
}
