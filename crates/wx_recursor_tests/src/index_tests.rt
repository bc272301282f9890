// The lists with an index, against plain ones, which are gone along: both answer the same after each operation of each sequence.
//
// A sequence is a line, and each word an operation: a letter, and behind it what it is done with, a digit or a letter each. `Named`
// tells what these name.
use crate::passes;
use crate::sequences::SEQUENCES;
use std::alloc::Global;
use std::process::Abort;
use wx_fs_trial::{place, root};
use wx_index::{KnownList, OwnerList, serves};
use wx_recursor::{Identity, Known, Owner};
use wx_recursor_lists as plain;
use wx_text::{Copies, Memory};
use wx_tree::{Place, Root};

const PATHS: [&str; 7] = ["/", "/a", "/a/b", "/a/b/c", "/a/c", "/ab", "/b"];

/// What operations are done with, and what is asked about: paths, `0` to `6`, the identities of these, `0` to `6` canonical ones and
/// `7` to `=` others, and roots, `0` to `3`.
struct Named {
    paths: Vec<Place>,
    identities: Vec<Identity>,
    roots: Vec<Root>,
}

// Its parts are dropped by one call: docs/DESIGN.md, "What proofs cost".
impl Drop for Named {
    fn drop(self) {
        let Named {
            paths: _,
            identities: _,
            roots: _,
        } = self;
    }
}

/// The place in a list that a digit or letter names.
fn at(name: &u8) -> usize {
    usize::from(name.saturating_sub(b'0'))
}

impl Named {
    fn new(alloc: Global) -> Result<Named, Memory> {
        let mut paths = Vec::new(alloc);
        let mut identities = Vec::new(alloc);
        let mut roots = Vec::new(alloc);
        for path in PATHS {
            paths.push(place(alloc, path)?)?;
            identities.push(Identity::Canonical(place(alloc, path)?))?;
        }
        for path in PATHS {
            identities.push(Identity::Lexical(place(alloc, path)?))?;
        }
        for path in ["/", "/a"] {
            roots.push(root(alloc, "r", path)?)?;
            roots.push(root(alloc, "n", path)?)?;
        }
        Ok(Named {
            paths,
            identities,
            roots,
        })
    }

    fn path(&self, name: &u8) -> Option<&Place> {
        self.paths.as_slice().get(at(name))
    }

    fn identity(&self, name: &u8) -> Option<&Identity> {
        self.identities.as_slice().get(at(name))
    }

    fn root(&self, name: &u8) -> Option<&Root> {
        self.roots.as_slice().get(at(name))
    }
}

fn same_known(list: &KnownList, items: &[Known]) -> bool {
    if list.len() != items.len() || list.is_empty() != items.is_empty() {
        return false;
    }
    for (one, other) in list.as_slice().iter().zip(items.iter()) {
        if !one.path.is_same(&other.path) || !one.identity.is_same(&other.identity) {
            return false;
        }
    }
    true
}

fn same_owners(list: &OwnerList, items: &[Owner]) -> bool {
    if list.len() != items.len() || list.is_empty() != items.is_empty() {
        return false;
    }
    for (one, other) in list.as_slice().iter().zip(items.iter()) {
        if !one.path.is_same(&other.path) || !one.root.is_same(&other.root) {
            return false;
        }
        if one.seen != other.seen {
            return false;
        }
    }
    true
}

/// The lists with an index, and the plain ones.
struct Both {
    alloc: Global,
    known: KnownList,
    owners: OwnerList,
    plain_known: Vec<Known>,
    plain_owners: Vec<Owner>,
}

// Its parts are dropped by one call: docs/DESIGN.md, "What proofs cost".
impl Drop for Both {
    fn drop(self) {
        let Both {
            alloc: _,
            known: _,
            owners: _,
            plain_known: _,
            plain_owners: _,
        } = self;
    }
}

impl Both {
    fn new(alloc: Global) -> Both {
        Both {
            alloc,
            known: KnownList::new(alloc),
            owners: OwnerList::new(alloc),
            plain_known: Vec::new(alloc),
            plain_owners: Vec::new(alloc),
        }
    }

    /// The path is known under the identity.
    fn know(&mut self, path: &Place, identity: &Identity) -> Result<bool, Memory> {
        self.known.know(self.alloc, path, identity)?;
        passes::know(self.alloc, path, identity, &mut self.plain_known)?;
        Ok(true)
    }

    /// What is known is put behind the rest, whether it is there or not.
    fn push(&mut self, path: &Place, identity: &Identity) -> Result<bool, Memory> {
        let path = path.copy(self.alloc)?;
        let identity = identity.copy(self.alloc)?;
        let known = Known { path, identity };
        self.plain_known.push(known.copy(self.alloc)?)?;
        self.known.push(known)?;
        Ok(true)
    }

    fn own(&mut self, root: &Root, path: &Place) -> Result<bool, Memory> {
        self.owners.own(self.alloc, root, path)?;
        passes::own(self.alloc, root, path, &mut self.plain_owners)?;
        Ok(true)
    }

    /// The root owns the path no more, or nothing at and below it.
    fn disown(&mut self, operation: &u8, root: &Root, path: &Place) -> bool {
        if *operation == b'd' {
            self.owners.disown(root, path);
            plain::disown(root, path, &mut self.plain_owners);
        } else {
            self.owners.disown_below(root, path);
            plain::disown_below(root, path, &mut self.plain_owners);
        }
        true
    }

    /// Nothing is owned at and below the path any more.
    fn disown_all(&mut self, path: &Place) -> bool {
        self.owners.disown_all(path);
        self.plain_owners.retain(|o| !path.holds(&o.path));
        true
    }

    /// Nothing is known under the identity any more.
    fn without(&mut self, identity: &Identity) -> bool {
        self.known.without(identity);
        plain::without(identity, &mut self.plain_known);
        true
    }

    /// What is left by a sweep, by owners or by what is known. No where the letter names none of these.
    fn trim(&mut self, operation: &u8) -> bool {
        match operation {
            b'u' => {
                self.owners.set_unseen();
                plain::set_unseen(&mut self.plain_owners);
            }
            b's' => {
                self.owners.sweep();
                plain::sweep(&mut self.plain_owners);
            }
            b'h' => {
                self.known.keep_owned(&self.owners);
                passes::keep_owned(self.plain_owners.as_slice(), &mut self.plain_known);
            }
            b'n' => {
                let known = self.plain_known.as_slice();
                self.owners.keep_known(&self.known);
                self.plain_owners
                    .retain(|o| passes::is_known(&o.path, known));
            }
            _ => return false,
        }
        true
    }

    /// An operation with one thing. No where the words name none.
    fn drops(&mut self, named: &Named, operation: &u8, of: &u8) -> bool {
        match (operation, named.path(of), named.identity(of)) {
            (b'a', Some(path), _) => self.disown_all(path),
            (b'w', _, Some(identity)) => self.without(identity),
            _ => false,
        }
    }

    /// An operation with a path and an identity. No where the words name none.
    fn grows(&mut self, named: &Named, operation: &u8, of: &u8, to: &u8) -> Result<bool, Memory> {
        match (operation, named.path(of), named.identity(to)) {
            (b'k', Some(path), Some(identity)) => self.know(path, identity),
            (b'p', Some(path), Some(identity)) => self.push(path, identity),
            _ => Ok(false),
        }
    }

    /// An operation with a root and a path, or a path and an identity. No where the words name none.
    fn changes(&mut self, named: &Named, operation: &u8, of: &u8, to: &u8) -> Result<bool, Memory> {
        match (operation, named.root(of), named.path(to)) {
            (b'o', Some(root), Some(path)) => self.own(root, path),
            (b'd' | b'b', Some(root), Some(path)) => Ok(self.disown(operation, root, path)),
            _ => self.grows(named, operation, of, to),
        }
    }

    /// Does an operation. No where the word names none.
    fn does(&mut self, named: &Named, word: &str) -> Result<bool, Memory> {
        match word.as_bytes() {
            [operation] => Ok(self.trim(operation)),
            [operation, of] => Ok(self.drops(named, operation, of)),
            [operation, of, to] => self.changes(named, operation, of, to),
            _ => Ok(false),
        }
    }

    /// Whether both hold the same.
    fn hold_same(&self) -> bool {
        same_known(&self.known, self.plain_known.as_slice())
            && same_owners(&self.owners, self.plain_owners.as_slice())
    }

    /// Whether both answer the same about a path.
    fn path_agrees(&self, path: &Place) -> bool {
        let known = self.plain_known.as_slice();
        let owners = self.plain_owners.as_slice();
        self.known.has_path(path) == passes::is_known(path, known)
            && self.owners.has_owner(path) == plain::has_owner(path, owners)
    }

    /// Whether both answer the same about an identity.
    fn identity_agrees(&self, identity: &Identity) -> bool {
        let known = self.plain_known.as_slice();
        let is_there = plain::has_identity(identity, known);
        self.known.has_identity(identity) == is_there
            && serves(&self.known, &[], identity) == is_there
    }

    /// Whether both answer the same about a path and an identity.
    fn pair_agrees(&self, path: &Place, identity: &Identity) -> bool {
        let known = self.plain_known.as_slice();
        self.known.is_other(path, identity) == plain::is_other(path, identity, known)
            && self.known.has_known(path, identity) == plain::has_known(path, identity, known)
            && self.known.is_identity_of(path, identity)
                == plain::is_identity_of(path, identity, known)
    }

    /// Whether both answer the same about a root with a path.
    fn seen_agrees(&self, root: &Root, path: &Place) -> bool {
        let owners = self.plain_owners.as_slice();
        self.owners.has_seen(root, path) == plain::has_seen(root, path, owners)
    }

    /// Whether both answer the same about a root with an identity.
    fn met_agrees(&self, root: &Root, identity: &Identity) -> bool {
        let known = self.plain_known.as_slice();
        let owners = self.plain_owners.as_slice();
        self.known.has_met(root, identity, &self.owners)
            == plain::has_met(root, identity, known, owners)
    }

    /// Whether both answer the same about the path, the identity and the root that are next at this number.
    fn agree(&self, named: &Named, number: usize) -> bool {
        let path = named.paths.as_slice().get(number % 7);
        let identity = named.identities.as_slice().get(number / 7 % 14);
        let root = named.roots.as_slice().get(number / 98 % 4);
        match (path, identity, root) {
            (Some(path), Some(identity), Some(root)) => {
                self.path_agrees(path)
                    && self.identity_agrees(identity)
                    && self.pair_agrees(path, identity)
                    && self.seen_agrees(root, path)
                    && self.met_agrees(root, identity)
            }
            _ => false,
        }
    }

    /// Whether both answer the same about each path, by itself and with each identity and each root.
    fn paths_agree(&self, named: &Named) -> bool {
        named.paths.iter().all(|path| {
            self.path_agrees(path)
                && named.roots.iter().all(|root| self.seen_agrees(root, path))
                && named
                    .identities
                    .iter()
                    .all(|identity| self.pair_agrees(path, identity))
        })
    }

    /// Whether both answer the same about each identity, by itself and with each root.
    fn identities_agree(&self, named: &Named) -> bool {
        named.identities.iter().all(|identity| {
            self.identity_agrees(identity)
                && named
                    .roots
                    .iter()
                    .all(|root| self.met_agrees(root, identity))
        })
    }
}

/// Does each operation of a sequence, and says whether both hold the same behind each, and answer the same about what comes behind
/// this number, and about all at the end.
fn is_followed(
    both: &mut Both,
    named: &Named,
    number: usize,
    sequence: &str,
) -> Result<bool, Memory> {
    let mut asked = number;
    for word in sequence.split(" ") {
        if !both.does(named, word)? || !both.hold_same() || !both.agree(named, asked) {
            return Ok(false);
        }
        asked = asked.saturating_add(1);
    }
    Ok(both.paths_agree(named) && both.identities_agree(named))
}

/// The sequence holds for new lists.
fn follows(rt: &impl Abort, alloc: Global, named: &Named, number: usize, sequence: &str) {
    let mut both = Both::new(alloc);
    let followed = is_followed(&mut both, named, number, sequence);
    assert!(rt; followed == Ok(true), "at {sequence}");
    drop(both);
}

#[test]
fn sequences_of_operations(rt: HostRuntime) {
    let named = Named::new(rt.alloc()).expect(&rt, "names");
    let mut number: usize = 0;
    for sequence in SEQUENCES.lines() {
        follows(&rt, rt.alloc(), &named, number, sequence);
        number = number.saturating_add(40);
    }
    drop(named);
}
