// What comes of a path that changed in some way.
ghost use Rattle.std.specs.Prelude.{◌≡◌, ◌++◌, ◌&&◌, ◌||◌, IfOk, OnOk};
ghost use Rattle.wx_holding.specs.Holding.{state_of};
ghost use Rattle.wx_recursor.specs.Owners.{has_root};
ghost use Rattle.wx_recursor.specs.Steps.{candidates_of, owns_parent, probed, retry_all, seekers};

use std::alloc::Global;
use std::collections::VecDeque;
use wx_holding::Held;
use wx_recursor::{Found, Identity, Item, Owner, ScanFault, Work};
use wx_recursor_lists::has_root;
use wx_text::{Copies, Memory};
use wx_tree::{Place, Root};

/// Whether the root owns the parent of the path.
fn owns_parent(root: &Root, path: &Place, owners: &[Owner]) -> bool
    ensures { result ≡ owns_parent root.now path.now owners.now }
{
    let mut rest = owners;
    while let [first, after @ ..] = rest {
        if root.is_same(&first.root) && first.path.has_entry(path) {
            return true;
        }
        rest = after;
    }
    false
}

/// Whether the root is recursive, and owns the parent of the path, or owned the path itself.
fn seeks(root: &Root, path: &Place, owned: &[Root], owners: &[Owner]) -> bool
    ensures { result ≡ (root.now.recursive && (owns_parent root.now path.now owners.now || has_root root.now owned.now)) }
{
    root.recursive && (owns_parent(root, path, owners) || has_root(root, owned))
}

/// The roots that seek the path. It fails only for want of memory.
fn seekers(
    alloc: Global,
    path: &Place,
    owned: &[Root],
    roots: &[Root],
    owners: &[Owner],
) -> Result<Vec<Root>, Memory>
    ensures { IfOk result (λ found. found.items ≡ seekers path.now owned.now roots.now owners.now) }
{
    let mut found = Vec::new(alloc);
    let mut rest = roots;
    while let [root, after @ ..] = rest {
        if seeks(root, path, owned, owners) {
            found.push(root.copy(alloc)?)?;
        }
        rest = after;
    }
    Ok(found)
}

/// Makes the path a candidate of each root. It fails only for want of memory.
fn queue_candidates(
    alloc: Global,
    path: &Place,
    roots: &[Root],
    queue: &mut VecDeque<Work>,
) -> Result<(), Memory>
    ensures { OnOk result (queue.new.items ≡ queue.old.items ++ candidates_of path.now roots.now) }
{
    let mut rest = roots;
    while let [root, after @ ..] = rest {
        queue.push_back(Work::Plain(Item::Candidate(root.copy(alloc)?, path.copy(alloc)?)))?;
        rest = after;
    }
    Ok(())
}

/// Keeps the path for one retry of each root. It fails only for want of memory.
fn retry_all(alloc: Global, path: &Place, roots: &[Root], held: &mut Held) -> Result<(), Memory>
    ensures { OnOk result (state_of held.new ≡ retry_all path.now roots.now (state_of held.old)) }
{
    let mut rest = roots;
    while let [root, after @ ..] = rest {
        held.keep_retry(alloc, root, path)?;
        rest = after;
    }
    Ok(())
}

/// Does what a look at a path that changed in some way asks for: a directory becomes a candidate of its seekers, and a fault is
/// shown. It fails only for want of memory.
pub fn probe(
    alloc: Global,
    path: &Place,
    owned: &[Root],
    found: Found,
    held: &mut Held,
) -> Result<(), Memory>
    ensures { OnOk result (state_of held.new ≡ probed path.now owned.now found (state_of held.old)) }
{
    match found {
        Found::Here(Identity::Canonical(_)) => {
            let seekers = seekers(
                alloc,
                path,
                owned,
                held.roots.as_slice(),
                held.owners.as_slice(),
            )?;
            queue_candidates(alloc, path, seekers.as_slice(), &mut held.queue)
        }
        Found::Fault(at, code) => {
            let seekers = seekers(
                alloc,
                path,
                owned,
                held.roots.as_slice(),
                held.owners.as_slice(),
            )?;
            held.show_scan(at, ScanFault::Io(code))?;
            retry_all(alloc, path, seekers.as_slice(), held)
        }
        Found::Here(Identity::Lexical(_)) => Ok(()),
        Found::Missing => Ok(()),
        Found::Barred => Ok(()),
        Found::Rejected => Ok(()),
        Found::Refused(_) => Ok(()),
        Found::Entries(_) => Ok(()),
    }
}
