// What is to be watched.
ghost use Rattle.std.specs.Prelude.{◌≡◌};
ghost use Rattle.wx_tree.specs.Roots.{same_root};

use crate::place::Place;
use std::alloc::Global;
use wx_text::{Copies, Memory};

/// A path that is to be watched, and whether all below it is too.
#[derive(Drop)]
pub struct Root {
    pub path: Place,
    pub recursive: bool,
}

impl Root {
    /// Whether both are the same.
    pub fn is_same(&self, other: &Root) -> bool
        ensures { result ≡ same_root self.now other.now }
    {
        self.path.is_same(&other.path) && self.recursive == other.recursive
    }
}

impl Copies for Root {
    fn copy(&self, alloc: Global) -> Result<Root, Memory> {
        Ok(Root {
            path: self.path.copy(alloc)?,
            recursive: self.recursive,
        })
    }
}
