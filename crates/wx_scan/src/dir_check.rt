// What judges directories.
ghost use Rattle.std.specs.Prelude.{◌≡◌, ℕ, Bool, true, List, []};
ghost use Rattle.wx_tree.specs.Paths.{Path};
ghost use Rattle.wx_tree.specs.Places.{place as place_of};
ghost use Rattle.wx_scan.specs.Checks.{IsAnswerOf, is_below_any};

use wx_error::RuntimeError;
use wx_words::TextPath;

/// Says which directories are to be watched.
pub trait DirCheck {
    /// Below which paths it may be asked.
    ghost under: { Self → List Path };

    /// The names of the borrows that it holds, by which what was lent is known again.
    ghost place: { Self → List ℕ } = { λ _. [] };

    /// The type of what its caller knows it by.
    ghost Base: { Type 0 };

    /// What its caller knows of it, which every call keeps.
    ghost kept: { Base → Self → Type 0 };

    /// Whether all that it answered so far are the answers of this test.
    ghost agrees: { (Path → Bool) → Self → Type 0 };

    /// Whether a directory is to be watched.
    fn check_dir(&mut self, path: &TextPath) -> Result<bool, RuntimeError>
        requires { is_below_any (under self.old) (place_of path.now) ≡ true }
        ensures under { under self.new ≡ under self.old }
        ensures place { place self.new ≡ place self.old }
        ensures kept { (b : Base) → kept b self.old → kept b self.new }
        ensures agrees { (ok : Path → Bool) → agrees ok self.new → agrees ok self.old × IsAnswerOf ok path.now result };
}
