// What was drawn.
ghost use Rattle.std.specs.Prelude.{◌≡◌};
ghost use Rattle.wx_live.specs.Drawn.{Drawn};
ghost use Rattle.wx_mem_live.specs.Drawing.{drawn_after, nothing};

use crate::call::Call;
use std::marker::Model;

/// What was drawn so far. It takes no bytes: only contracts see it.
#[derive(Drop)]
pub struct Drew {
    pub ghost drawn: { Drawn },
}

impl Model for Drew {
    ghost use Rattle.std.specs.Borrow.{ftrue};

    ghost also_owns = { λ _. ftrue };
}

impl Drew {
    /// Nothing was drawn yet.
    pub fn new() -> Drew
        ensures { result.drawn ≡ nothing }
    {
        Drew {}
    }

    /// This was drawn too.
    pub fn with(_before: &Drew, _call: &Call) -> Drew
        ensures { result.drawn ≡ drawn_after _call.now _before.now.drawn }
    {
        Drew {}
    }
}
