// What watches for changes of files.
ghost use Rattle.std.specs.Prelude.{◌≡◌, ◌∷◌, true, List};
ghost use Rattle.wx_scan.specs.Backings.{AllSpellPaths, Backing, Brings, BringsNoChange, Changes, GivesUp, IsExact, WatchesAt, failed_by, is_memory, is_registered, is_unwatch_fault, is_watch_fault, register, unregister};
ghost use Rattle.wx_scan.specs.Looked.{OnlyLooks};
ghost use Rattle.wx_scan.specs.Told.{SpellsPath};
ghost use Rattle.wx_tree.specs.Paths.{Path};
ghost use Rattle.wx_tree.specs.Trees.{Tree};

use crate::scanner::Scanner;
use wx_notify::Notify;
use wx_watch::NotifyFault;
use wx_words::TextPath;

/// Watches paths for changes. It may look at files by a scanner. A fault comes only where the count of faults rose, but that
/// nothing is there to be watched, and that what isn't watched can't be given up.
pub trait Backend {
    /// What is watched, and what was brought.
    ghost backing: { Self → Backing };

    /// Whether it has seen the tree as it is. A type that isn't exact needs none.
    ghost fits: { Self → Tree → Type 0 } = { λ _ _. ⊥ };

    /// Watches a path too.
    fn watch<S: Scanner>(&mut self, scan: &mut S, path: &TextPath) -> Result<(), NotifyFault>
        ensures looked { OnlyLooks (S.looked scan.old) (S.looked scan.new) }
        ensures rest { S.rest scan.new ≡ S.rest scan.old }
        ensures place { S.place scan.new ≡ S.place scan.old }
        ensures changes { Changes (register path.now) is_watch_fault result (backing self.old) (backing self.new) }
        ensures exact { (t : Tree) (p : Path) → IsExact (backing self.old) (S.looked scan.old) (S.looked scan.new) t → SpellsPath t p path.now → WatchesAt t p result }
        ensures fits { (t : Tree) → IsExact (backing self.old) (S.looked scan.old) (S.looked scan.new) t → AllSpellPaths t (path.now ∷ (backing self.old).registrations) → (failed_by is_memory result ≡ true → ⊥) → fits self.old t → fits self.new t };

    /// Watches a path no more.
    fn unwatch<S: Scanner>(&mut self, scan: &mut S, path: &TextPath) -> Result<(), NotifyFault>
        ensures looked { OnlyLooks (S.looked scan.old) (S.looked scan.new) }
        ensures rest { S.rest scan.new ≡ S.rest scan.old }
        ensures place { S.place scan.new ≡ S.place scan.old }
        ensures changes { Changes (unregister path.now) (is_unwatch_fault (is_registered path.now (backing self.old).registrations)) result (backing self.old) (backing self.new) }
        ensures exact { (t : Tree) → IsExact (backing self.old) (S.looked scan.old) (S.looked scan.new) t → is_registered path.now (backing self.old).registrations ≡ true → GivesUp result }
        ensures fits { (t : Tree) → IsExact (backing self.old) (S.looked scan.old) (S.looked scan.new) t → AllSpellPaths t (path.now ∷ (backing self.old).registrations) → (failed_by is_memory result ≡ true → ⊥) → fits self.old t → fits self.new t };

    /// What happened next, where something did.
    fn next<S: Scanner>(&mut self, scan: &mut S) -> Option<Result<Notify, NotifyFault>>
        ensures looked { OnlyLooks (S.looked scan.old) (S.looked scan.new) }
        ensures rest { S.rest scan.new ≡ S.rest scan.old }
        ensures place { S.place scan.new ≡ S.place scan.old }
        ensures brings { Brings result (backing self.old) (backing self.new) }
        ensures fits { (t : Tree) → IsExact (backing self.old) (S.looked scan.old) (S.looked scan.new) t → AllSpellPaths t (backing self.old).registrations → fits self.old t → fits self.new t × BringsNoChange result };
}
