// What chooses acts.
ghost use Rattle.std.specs.Prelude.{◌≡◌, ◌∷◌, false, List, OnOk};
ghost use Rattle.wx_journal.specs.declared.entry.Entry.{Entry as AnEntry};
ghost use Rattle.wx_journal.specs.declared.entry.Entry.TheVariants.{Hand};
ghost use Rattle.wx_journal.specs.Names.{NamesItsOwn};
ghost use Rattle.wx_journal.specs.Told.{is_hand};
ghost use Rattle.wx_hooks.specs.Handled.{IsNewHandler};
ghost use Rattle.wx_plain.specs.Chosen.{Chosen};

use wx_control::Refused;
use wx_hooks::{ActionHandler, ChangeRefused, CreateRefused, GetRefused};
use wx_text::Memory;

/// An act was refused.
#[derive(Clone, Copy, Debug, PartialEq, Eq)]
pub struct ActRefused;

impl From<Memory> for ActRefused {
    fn from(_want: Memory) -> ActRefused {
        ActRefused
    }
}

impl From<CreateRefused> for ActRefused {
    fn from(_refused: CreateRefused) -> ActRefused {
        ActRefused
    }
}

impl From<GetRefused> for ActRefused {
    fn from(_refused: GetRefused) -> ActRefused {
        ActRefused
    }
}

impl From<ChangeRefused> for ActRefused {
    fn from(_refused: ChangeRefused) -> ActRefused {
        ActRefused
    }
}

impl From<Refused> for ActRefused {
    fn from(_refused: Refused) -> ActRefused {
        ActRefused
    }
}

/// What chooses the acts of each batch.
pub trait Chooses {
    /// The type of the plan.
    ghost Plan: { Type 0 };

    /// What no call changes.
    ghost plan: { Self → Plan };

    /// Whether a batch that is handed so may come after these entries.
    ghost rule: { Plan → List AnEntry → AnEntry → Type 0 };

    /// Whether the batches in this journal left just this object. One that doesn't say so stands for each.
    ghost stands: { Self → List AnEntry → Type 0 } = { λ _ _. Unit {0} };

    /// Asks for the acts of a batch that is handed to the action handler of this number. It doesn't call `ActionHandler::hand`. It
    /// fails only where an act was refused.
    fn choose(&mut self, n: u32, handler: &mut ActionHandler<'_>) -> Result<(), ActRefused>
        requires fresh { IsNewHandler handler.old }
        ensures same { handler.new ≡ record handler.old { acts = handler.new.acts } }
        ensures plan { plan self.new ≡ plan self.old }
        ensures chosen { OnOk result (Chosen plan rule stands self.old handler.old.past (Hand n handler.new.names handler.new.acts) self.new) };

    /// What hands no batch leaves what it stands for.
    ghost stands_other: { (x : Self) (p : List AnEntry) (e : AnEntry) → NamesItsOwn p → is_hand e ≡ false → stands x p → stands x (e ∷ p) };
}
