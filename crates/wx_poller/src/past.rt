// What was brought.
ghost use Rattle.std.specs.Prelude.{◌≡◌, List, [], ◌∷◌, Result};
ghost use Rattle.wx_notify.specs.declared.notify.Notify.{Notify as ANotify};
ghost use Rattle.wx_watch.specs.declared.notify_fault.NotifyFault.{NotifyFault as AFault};

use std::marker::Model;
use wx_notify::Notify;
use wx_watch::NotifyFault;

/// What was brought so far, the newest first. It takes no bytes: only contracts see it.
#[derive(Drop)]
pub struct Past {
    pub ghost brought: { List (Result ANotify AFault) },
}

impl Model for Past {
    ghost use Rattle.std.specs.Borrow.{ftrue};

    ghost also_owns = { λ _. ftrue };
}

impl Past {
    /// Nothing was brought yet.
    pub fn new() -> Past
        ensures { result.brought ≡ [] }
    {
        Past {}
    }

    /// This was brought too.
    pub fn with(_before: &Past, _item: &Result<Notify, NotifyFault>) -> Past
        ensures { result.brought ≡ _item.now ∷ _before.now.brought }
    {
        Past {}
    }
}
