// The live outside, on which a world with handles stands.
ghost use Rattle.std.specs.Prelude.{◌≡◌, ◌≤◌, true, List, ℕ, Some, IfOk};
ghost use Rattle.wx_paths.specs.Paths.{is_absolute};
ghost use Rattle.wx_live.specs.Drawn.{Drawn, IsFirst, with_answer, with_moment};
ghost use Rattle.wx_live.specs.Lives.{Notes, OnlyDraws};

use wx_job::Host;
use wx_journal::Entry;
use wx_scan::Scanner;
use wx_text::Memory;
use wx_words::TextPath;

/// A live outside: children, looks at files, moments, and ends of children. What it drew may be part of its plan, since no call on a
/// child and no look changes that.
pub trait Live: Host + Scanner {
    /// What was drawn so far.
    ghost drawn: { Self → Drawn };

    /// The moment. Moments never go back.
    fn now(&mut self) -> u64
        ensures later { (Self.seen self.old).progress.moment ≤ result }
        ensures drawn { drawn self.new ≡ with_moment result (drawn self.old) }
        ensures rest { OnlyDraws result (Self.seen self.old) (Self.seen self.new) };

    /// The first of the ends of children that are left, which it takes away.
    fn ended(&mut self) -> Option<u64>
        ensures first { IsFirst result (drawn self.old).left }
        ensures drawn { drawn self.new ≡ with_answer result (drawn self.old) }
        ensures rest { OnlyDraws (Self.seen self.old).progress.moment (Self.seen self.old) (Self.seen self.new) };

    /// Waits a little.
    fn rest(&mut self)
        ensures drawn { drawn self.new ≡ drawn self.old }
        ensures rest { OnlyDraws (Self.seen self.old).progress.moment (Self.seen self.old) (Self.seen self.new) };

    /// Its folder, which is an absolute path. It fails only for want of memory.
    fn folder(&mut self) -> Result<TextPath, Memory>
        ensures absolute { IfOk result (λ path. is_absolute path ≡ true) }
        ensures told { (path : List ℕ) → (drawn self.old).folder ≡ Some path → IfOk result (λ found. found ≡ path) }
        ensures drawn { drawn self.new ≡ drawn self.old }
        ensures rest { OnlyDraws (Self.seen self.old).progress.moment (Self.seen self.old) (Self.seen self.new) };

    /// Is told this entry.
    fn note(&mut self, entry: Entry)
        requires { 1 ≤ (Self.seen self.old).spare }
        ensures { Notes entry (Self.seen self.old) (Self.seen self.new) };

    /// What no look changes is all but what was seen of files.
    ghost only_looks: { (x y : Self) → Self.Looks.rest y ≡ Self.Looks.rest x → Self.Outside.seen y ≡ record (Self.Outside.seen x) { looked = Self.Looks.looked y } };

    /// Where its plan is the same, nothing was drawn.
    ghost plan_tells: { (x y : Self) → (Self.Outside.seen y).plan ≡ (Self.Outside.seen x).plan → drawn y ≡ drawn x };
}
