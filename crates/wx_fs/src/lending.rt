// A recursor lends its backend.
ghost use Rattle.std.specs.Prelude.{◌≡◌, IfNone, IfSome, None, Some};
ghost use Rattle.wx_holding.specs.Holding.{state_of};
ghost use Rattle.wx_recursor.specs.Rebuilds.{installed, lent};
ghost use Rattle.wx_recursor.specs.declared.answers.BackendPlace.TheVariants.{Lent};

use crate::recursor::Recursor;
use wx_recursor::BackendPlace;
use wx_scan::Backend;

impl<B: Backend + Drop> Recursor<B> {
    /// Takes the backend out, so that it can be restored later. All else stays as it is. None exactly where none is installed:
    /// then nothing changes. A spent recursor lends it too. It takes no memory.
    pub fn lend(&mut self) -> Option<B>
        ensures lends { result ≡ self.old.back }
        ensures out { self.new.back ≡ None }
        ensures state { IfSome result (λ _. state_of self.new.held ≡ lent (state_of self.old.held)) }
        ensures unchanged { IfNone result (self.new ≡ self.old) }
        ensures others { (self.new.kind ≡ self.old.kind) × (self.new.follow ≡ self.old.follow) × (self.new.cwd ≡ self.old.cwd) × (self.new.spent ≡ self.old.spent) × (self.new.at_rest ≡ self.old.at_rest) }
    {
        if self.back.is_none() {
            return None;
        }
        self.held.backend = BackendPlace::Lent;
        self.back.take()
    }

    /// Puts the backend back that was lent. All else stays as it is. Nothing is asked of what it watches, since no rule looks at
    /// that: that it watches just what is registered is asked by `step` alone, where nothing fails (`BackendStands`). It takes no
    /// memory.
    pub fn restore(&mut self, back: B)
        requires out { self.old.back ≡ None }
        requires lent { (state_of self.old.held).backend ≡ Lent }
        ensures backend { self.new.back ≡ Some back }
        ensures state { state_of self.new.held ≡ installed (state_of self.old.held) }
        ensures others { (self.new.kind ≡ self.old.kind) × (self.new.follow ≡ self.old.follow) × (self.new.cwd ≡ self.old.cwd) × (self.new.spent ≡ self.old.spent) × (self.new.at_rest ≡ self.old.at_rest) }
    {
        self.held.backend = BackendPlace::Installed;
        self.back = Some(back);
    }
}
