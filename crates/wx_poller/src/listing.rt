// Listings: what was seen, by path.
ghost use Rattle.std.specs.Prelude.{◌≡◌, ℕ, List, [], if◌then◌else◌, Some, None, OnOk, OnErr};
ghost use Rattle.std.specs.Option.{option_or};
ghost use Rattle.wx_scan.specs.Backings.{is_registered};
ghost use Rattle.wx_tree.specs.Paths.{same_part};
ghost use Rattle.wx_poller.specs.Listings.{IsMap, seen_at};

use crate::seen::Seen;
use std::alloc::Global;
use std::collections::BTreeMap;
use wx_text::{Copies, Memory};
use wx_words::TextPath;

/// What was seen, by rising path.
pub type Listing = BTreeMap<TextPath, Seen>;

/// What the listing has at a path.
#[tactic(auto, using(crate::proofs::Sights::found_at))]
pub fn seen_at(path: &TextPath, listing: &Listing) -> Option<Seen>
    ensures { result ≡ seen_at listing.now.entries path.now }
{
    match listing.get(path) {
        Some(seen) => Some(*seen),
        None => None,
    }
}

/// Puts what was seen at a path. It fails only for want of memory, and changes nothing then.
#[tactic(auto, using(crate::proofs::Sights::put_at))]
pub fn put(alloc: Global, path: &TextPath, seen: Seen, listing: &mut Listing) -> Result<(), Memory>
    ensures ok { OnOk result ((p : List ℕ) → seen_at listing.new.entries p ≡ if same_part path.now p then Some seen else seen_at listing.old.entries p) }
    ensures err { OnErr result (listing.new.entries ≡ listing.old.entries) }
{
    listing.insert(path.copy(alloc)?, seen)?;
    Ok(())
}

/// Takes a path away.
#[tactic(auto, using(crate::proofs::Sights::taken_at))]
fn take(path: &TextPath, listing: &mut Listing)
    ensures { (p : List ℕ) → seen_at listing.new.entries p ≡ if same_part path.now p then None else seen_at listing.old.entries p }
{
    listing.remove(path);
}

/// Takes these paths away.
#[tactic(auto, using(crate::proofs::Sights::taken_more))]
pub fn take_away(paths: &[TextPath], listing: &mut Listing)
    ensures { (p : List ℕ) → seen_at listing.new.entries p ≡ if is_registered p paths.now then None else seen_at listing.old.entries p }
{
    let mut rest = paths;
    while let [first, after @ ..] = rest {
        take(first, listing);
        rest = after;
    }
}

/// Adds the paths that are new. It fails only for want of memory, and leaves the listing as it was then.
pub fn put_new(alloc: Global, fresh: &Listing, listing: &mut Listing) -> Result<(), Memory>
    ensures ok { OnOk result ((p : List ℕ) → seen_at listing.new.entries p ≡ option_or (seen_at listing.old.entries p) (seen_at fresh.now.entries p)) }
    ensures err { OnErr result ((p : List ℕ) → seen_at listing.new.entries p ≡ seen_at listing.old.entries p) }
{
    let mut added = Vec::new(alloc);
    let done = put_all(alloc, fresh, &mut added, listing);
    if let Err(Memory) = done {
        take_away(added.as_slice(), listing);
    }
    done
}

/// Adds the paths that are new, and keeps which these are.
fn put_all(
    alloc: Global,
    fresh: &Listing,
    added: &mut Vec<TextPath>,
    listing: &mut Listing,
) -> Result<(), Memory>
    ensures ok { OnOk result ((p : List ℕ) → seen_at listing.new.entries p ≡ option_or (seen_at listing.old.entries p) (seen_at fresh.now.entries p)) }
    ensures back { (p : List ℕ) → (if is_registered p added.new.items then None else seen_at listing.new.entries p) ≡ (if is_registered p added.old.items then None else seen_at listing.old.entries p) }
{
    for (path, seen) in fresh.iter() {
        put_one(alloc, path, *seen, added, listing)?;
    }
    Ok(())
}

/// Adds a path where it is new.
fn put_one(
    alloc: Global,
    path: &TextPath,
    seen: Seen,
    added: &mut Vec<TextPath>,
    listing: &mut Listing,
) -> Result<(), Memory>
    ensures ok { OnOk result ((p : List ℕ) → seen_at listing.new.entries p ≡ option_or (seen_at listing.old.entries p) (if same_part path.now p then Some seen else None)) }
    ensures back { (p : List ℕ) → (if is_registered p added.new.items then None else seen_at listing.new.entries p) ≡ (if is_registered p added.old.items then None else seen_at listing.old.entries p) }
{
    match seen_at(path, listing) {
        Some(_) => Ok(()),
        None => {
            added.push(path.copy(alloc)?)?;
            put(alloc, path, seen, listing)
        }
    }
}
