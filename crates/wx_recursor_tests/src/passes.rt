// Plain passes over lists, which the lists with an index are held to.
use std::alloc::Global;
use wx_recursor::{Identity, Known, Owner};
use wx_text::{Copies, Memory};
use wx_tree::{Place, Root};

/// Whether the path is known.
pub fn is_known(path: &Place, known: &[Known]) -> bool {
    known.iter().any(|k| k.path.is_same(path))
}

/// The path is known under this identity from now on.
pub fn know(
    alloc: Global,
    path: &Place,
    identity: &Identity,
    known: &mut Vec<Known>,
) -> Result<(), Memory> {
    let has = known
        .as_slice()
        .iter()
        .any(|k| k.path.is_same(path) && k.identity.is_same(identity));
    if !has {
        known.push(Known {
            path: path.copy(alloc)?,
            identity: identity.copy(alloc)?,
        })?;
    }
    Ok(())
}

/// The root owns the path, and has seen it.
pub fn own(
    alloc: Global,
    root: &Root,
    path: &Place,
    owners: &mut Vec<Owner>,
) -> Result<(), Memory> {
    for i in 0..owners.len() {
        if owners[i].root.is_same(root) && owners[i].path.is_same(path) {
            owners[i].seen = true;
            return Ok(());
        }
    }
    owners.push(Owner {
        root: root.copy(alloc)?,
        path: path.copy(alloc)?,
        seen: true,
    })?;
    Ok(())
}

/// What is known of paths that have an owner stays.
pub fn keep_owned(owners: &[Owner], known: &mut Vec<Known>) {
    known.retain(|k| owners.iter().any(|o| o.path.is_same(&k.path)));
}
