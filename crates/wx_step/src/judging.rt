// What a look at a candidate finds, and what judges it.
ghost use Rattle.wx_holding.specs.Calm.{IsReadable, IsStill};
ghost use Rattle.wx_error.specs.declared.runtime.RuntimeError.TheVariants.{Memory as WantOfMemory};
ghost use Rattle.wx_recursor.specs.Seen.{try_found};
ghost use Rattle.wx_recursor.specs.declared.answers.Found.TheVariants.{Refused};
ghost use Rattle.wx_step.specs.Calmly.{judged_found};
ghost use Rattle.wx_tree.specs.Trees.{Tree};
ghost use Rattle.std.specs.Prelude.{◌≡◌, Bool, false, true, IfOk, OnOk};
ghost use Rattle.wx_holding.specs.Holding.{state_of};
ghost use Rattle.wx_scan.specs.Looked.{OnlyLooks, Rose};
ghost use Rattle.wx_step.specs.Asking.{FirstAsksBelow};
ghost use Rattle.wx_tree.specs.Lists.{In};
ghost use Rattle.wx_tree.specs.Paths.{Path, holds};

use std::alloc::Global;
use wx_error::RuntimeError;
use wx_holding::{Held, look};
use wx_recursor::{Found, Identity, Item, Look, Work};
use wx_recursor_lists::has_path;
use wx_scan::{DirCheck, Scanner};
use wx_text::{Copies, Memory};
use wx_tree::{Place, Root};

/// What is found where what judges directories fails. Want of memory is not found, but answered.
fn refused(error: RuntimeError) -> Result<Found, Memory>
    ensures found { IfOk result (λ found. found ≡ Refused error) }
    ensures want { error ≡ WantOfMemory → IfOk result (λ _. ⊥) }
{
    if matches!(&error, RuntimeError::Memory) {
        return Err(Memory);
    }
    Ok(Found::Refused(error))
}

/// Asks about each path below the root down to this one, the topmost first. It fails only for want of memory.
pub fn check_dirs<D: DirCheck>(
    alloc: Global,
    root: &Root,
    path: &Place,
    identity: Identity,
    dirs: &mut D,
) -> Result<Found, Memory>
    requires holds { holds root.now.path path.now ≡ true }
    requires under { In root.now.path (D.under dirs.now) }
    ensures under { D.under dirs.new ≡ D.under dirs.old }
    ensures place { D.place dirs.new ≡ D.place dirs.old }
    ensures kept { (b : D.Base) → D.kept b dirs.old → D.kept b dirs.new }
    ensures agrees { (ok : Path → Bool) → D.agrees ok dirs.new → D.agrees ok dirs.old }
    ensures judged { (ok : Path → Bool) → D.agrees ok dirs.new → IfOk result (λ found. found ≡ judged_found ok root.now path.now identity) }
{
    let mut level = path.depth().saturating_sub(root.path.depth());
    while level > 0 {
        level -= 1;
        let below = path.up(alloc, level)?;
        let spelled = below.path(alloc)?;
        match dirs.check_dir(&spelled) {
            Ok(true) => {}
            Ok(false) => return Ok(Found::Rejected),
            Err(error) => return refused(error),
        }
    }
    Ok(Found::Here(identity))
}

/// Looks at a candidate. Where it is a directory, what judges directories is asked. It fails only for want of memory.
pub fn look_at_candidate<S: Scanner, D: DirCheck>(
    alloc: Global,
    root: &Root,
    path: &Place,
    follow: bool,
    scan: &mut S,
    dirs: &mut D,
) -> Result<Found, Memory>
    requires holds { holds root.now.path path.now ≡ true }
    requires under { In root.now.path (D.under dirs.now) }
    ensures looked { OnlyLooks (S.looked scan.old) (S.looked scan.new) }
    ensures raised { OnOk result (Rose (S.looked scan.old).looks (S.looked scan.new).looks) }
    ensures rest { S.rest scan.new ≡ S.rest scan.old }
    ensures place { S.place scan.new ≡ S.place scan.old }
    ensures under { D.under dirs.new ≡ D.under dirs.old }
    ensures dirs_place { D.place dirs.new ≡ D.place dirs.old }
    ensures kept { (b : D.Base) → D.kept b dirs.old → D.kept b dirs.new }
    ensures agrees { (ok : Path → Bool) → D.agrees ok dirs.new → D.agrees ok dirs.old }
    ensures told { (t : Tree) (ok : Path → Bool) → follow ≡ false → IsStill t (S.looked scan.old) (S.looked scan.new) → IsReadable t path.now → D.agrees ok dirs.new → IfOk result (λ found. found ≡ try_found t ok root.now path.now) }
{
    match look(alloc, path, follow, scan)? {
        Look::Directory(canonical) => {
            check_dirs(alloc, root, path, Identity::Canonical(canonical), dirs)
        }
        Look::Linked | Look::Other => Ok(Found::Rejected),
        Look::Absent => Ok(Found::Missing),
        Look::Broken(code) => Ok(Found::Fault(path.copy(alloc)?, code)),
    }
}

/// Whether the first of the queue isn't a candidate, or lies at or below its root, which is one of these.
pub fn asks_below(under: &[Place], held: &Held) -> bool
    ensures { result ≡ true → FirstAsksBelow under.now (state_of held.now).queue }
{
    match held.queue.front() {
        Some(Work::Plain(Item::Candidate(root, path))) => {
            root.path.holds(path) && has_path(&root.path, under)
        }
        Some(Work::Plain(Item::Guard(_))) => true,
        Some(Work::Plain(Item::Visit(_))) => true,
        Some(Work::Plain(Item::Scan(_, _))) => true,
        Some(Work::Probe(_, _)) => true,
        None => true,
    }
}
