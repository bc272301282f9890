// Paths under their identities.
ghost use Rattle.std.specs.Prelude.{◌≡◌};
ghost use Rattle.wx_recursor.specs.Identities.{is_of_directory, same_identity};

use std::alloc::Global;
use wx_text::{Copies, Memory};
use wx_tree::Place;

/// As what a path is known.
#[derive(Drop)]
pub enum Identity {
    /// A directory, by its canonical path.
    Canonical(Place),
    /// Anything else, by the path itself.
    Lexical(Place),
}

/// A path under its identity: one that is owned, or that of a registration, by which it is watched.
#[derive(Drop)]
pub struct Known {
    pub path: Place,
    pub identity: Identity,
}

impl Identity {
    /// Whether both are the same.
    pub fn is_same(&self, other: &Identity) -> bool
        ensures { result ≡ same_identity self.now other.now }
    {
        match self {
            Identity::Canonical(path) => match other {
                Identity::Canonical(other) => path.is_same(other),
                Identity::Lexical(_) => false,
            },
            Identity::Lexical(path) => match other {
                Identity::Canonical(_) => false,
                Identity::Lexical(other) => path.is_same(other),
            },
        }
    }

    /// Whether it is that of a directory.
    pub fn is_of_directory(&self) -> bool
        ensures { result ≡ is_of_directory self.now }
    {
        match self {
            Identity::Canonical(_) => true,
            Identity::Lexical(_) => false,
        }
    }
}

impl Copies for Identity {
    fn copy(&self, alloc: Global) -> Result<Identity, Memory> {
        match self {
            Identity::Canonical(path) => Ok(Identity::Canonical(path.copy(alloc)?)),
            Identity::Lexical(path) => Ok(Identity::Lexical(path.copy(alloc)?)),
        }
    }
}

impl Copies for Known {
    fn copy(&self, alloc: Global) -> Result<Known, Memory> {
        Ok(Known {
            path: self.path.copy(alloc)?,
            identity: self.identity.copy(alloc)?,
        })
    }
}
