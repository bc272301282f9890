// What is registered, and which paths a registration is about.
ghost use Rattle.std.specs.Prelude.{◌≡◌, ℕ, List, ◌&&◌, not, is_some, IfOk};
ghost use Rattle.wx_tree.specs.Paths.{same_part};
ghost use Rattle.wx_scan.specs.Backings.{is_registered, unregister};
ghost use Rattle.wx_poller.specs.Covering.{covers, is_covered, is_lone};
ghost use Rattle.wx_poller.specs.Listings.{seen_at};

use crate::changes::has_type;
use crate::listing::{Listing, seen_at};
use std::alloc::Global;
use wx_events::FileType;
use wx_text::{Copies, Memory};
use wx_tree::Place;
use wx_words::TextPath;

/// Whether the path is registered.
pub fn is_registered(path: &TextPath, registered: &[TextPath]) -> bool
    ensures { result ≡ is_registered path.now registered.now }
{
    let mut rest = registered;
    while let [first, after @ ..] = rest {
        if first == path {
            return true;
        }
        rest = after;
    }
    false
}

/// Takes a path away.
pub fn unregister(path: &TextPath, registered: &mut Vec<TextPath>)
    ensures { registered.new.items ≡ unregister path.now registered.old.items }
{
    registered.retain(|q| q != path);
}

/// Whether a registered path covers this one. It fails only for want of memory.
fn covers(
    alloc: Global,
    listing: &Listing,
    registered: &TextPath,
    path: &TextPath,
) -> Result<bool, Memory>
    ensures { IfOk result (λ b. b ≡ covers listing.now.entries registered.now path.now) }
{
    if registered == path {
        return Ok(true);
    }
    if !has_type(FileType::Dir, seen_at(registered, listing)) {
        return Ok(false);
    }
    Ok(Place::new(alloc, registered)?.has_entry(&Place::new(alloc, path)?))
}

/// Whether a registered path covers this one, and isn't the excepted one. It fails only for want of memory.
fn covers_beside(
    alloc: Global,
    listing: &Listing,
    registered: &TextPath,
    excepted: &TextPath,
    path: &TextPath,
) -> Result<bool, Memory>
    ensures { IfOk result (λ b. b ≡ (not (same_part registered.now excepted.now) && covers listing.now.entries registered.now path.now)) }
{
    if registered == excepted {
        return Ok(false);
    }
    covers(alloc, listing, registered, path)
}

/// Whether a registered path other than the excepted one covers this one. It fails only for want of memory.
#[tactic(auto, using(crate::proofs::Coverings::covered_first))]
fn is_covered(
    alloc: Global,
    listing: &Listing,
    registered: &[TextPath],
    excepted: &TextPath,
    path: &TextPath,
) -> Result<bool, Memory>
    ensures { IfOk result (λ b. b ≡ is_covered listing.now.entries (unregister excepted.now registered.now) path.now) }
{
    let mut rest = registered;
    while let [first, after @ ..] = rest {
        if covers_beside(alloc, listing, first, excepted, path)? {
            return Ok(true);
        }
        rest = after;
    }
    Ok(false)
}

/// Whether this registered path covers the other path, and no other one does. It fails only for want of memory.
fn is_lone(
    alloc: Global,
    listing: &Listing,
    registered: &[TextPath],
    one: &TextPath,
    path: &TextPath,
) -> Result<bool, Memory>
    ensures { IfOk result (λ b. b ≡ is_lone listing.now.entries one.now (unregister one.now registered.now) path.now) }
{
    if !covers(alloc, listing, one, path)? {
        return Ok(false);
    }
    Ok(!is_covered(alloc, listing, registered, one, path)?)
}

/// The paths of the listing that this registered path covers, and no other one does. It fails only for want of memory.
pub fn lone_paths(
    alloc: Global,
    listing: &Listing,
    registered: &[TextPath],
    one: &TextPath,
) -> Result<Vec<TextPath>, Memory>
    ensures { IfOk result (λ paths. (p : List ℕ) → is_registered p paths.items ≡ (is_lone listing.now.entries one.now (unregister one.now registered.now) p && is_some (seen_at listing.now.entries p))) }
{
    let mut paths = Vec::new(alloc);
    for (path, _) in listing.iter() {
        if is_lone(alloc, listing, registered, one, path)? {
            paths.push(path.copy(alloc)?)?;
        }
    }
    Ok(paths)
}
