// The tree of a world that follows a script, and how it is changed.
ghost use Rattle.std.specs.Prelude.{◌≡◌, ◌∷◌, ◌++◌, [], true, false, not, get_or, map, IfOk, OnOk};
ghost use Rattle.std.specs.List.{list_all};
ghost use Rattle.wx_script.specs.Follows.{edits_of};
ghost use Rattle.wx_script.specs.Turns.{any_fails};
ghost use Rattle.wx_mem_tree.specs.Entries.{none_fails, tree_of};
ghost use Rattle.wx_follow.specs.Edits.{MadeNext, edit, edited, failing_look, is_new_stamp, tree_after};

use crate::replies::line;
use std::alloc::Global;
use wx_mem_tree::MemTree;
use wx_script::{FailingCall, Script, TreeEdit};
use wx_text::{Copies, List, Memory};

/// The changes of the tree that a script makes before each turn, and behind the last of them those that are made before the first
/// turn that it doesn't have. It fails only for want of memory.
pub(crate) fn edits_of(alloc: Global, script: &Script) -> Result<List<List<TreeEdit>>, Memory>
    ensures { IfOk result (λ edits. edits ≡ edits_of script.now) }
{
    let mut edits = script.edits.copy(alloc)?;
    let pending = script.pending.copy(alloc)?;
    edits.push(pending)?;
    Ok(edits)
}

/// The tree in which nothing stands, of which these looks fail. It fails only for want of memory.
pub(crate) fn tree_with(alloc: Global, failing: &[FailingCall]) -> Result<MemTree, Memory>
    ensures fresh { IfOk result (λ tree. (tree.entries.items ≡ []) × (tree.looks ≡ 0) × (tree.faults ≡ 0)) }
    ensures failing { IfOk result (λ tree. tree.failing ≡ map failing_look failing.now) }
    ensures fails { IfOk result (λ tree. not (none_fails tree.failing) ≡ any_fails failing.now) }
{
    let mut tree = MemTree::new(alloc)?;
    for look in failing {
        tree.fail(look.call, look.code)?;
    }
    Ok(tree)
}

/// The tree with the changes of the first of these lines, which are made ahead. It fails only for want of memory.
pub(crate) fn tree_ahead(alloc: Global, edits: &List<List<TreeEdit>>) -> Result<MemTree, Memory>
    ensures { IfOk result (λ tree. tree.entries.items ≡ tree_after edits.now 1) }
{
    let mut tree = MemTree::new(alloc)?;
    if edit_next(alloc, edits, 0, &mut tree) {
        return Err(Memory);
    }
    Ok(tree)
}

/// Makes the changes of the next of these lines, of which the first is made ahead, and answers whether there was no memory for
/// them.
pub(crate) fn change_next(
    alloc: Global,
    edits: &List<List<TreeEdit>>,
    used: usize,
    ahead: &mut MemTree,
    tree: &mut MemTree,
) -> bool
    ensures made { MadeNext edits.now used result ahead.old.entries.items tree.old.entries.items tree.new.entries.items }
    ensures failing { tree.new.failing ≡ tree.old.failing }
    ensures counts { (tree.new.looks ≡ tree.old.looks) × (tree.new.faults ≡ tree.old.faults) }
{
    if used == 0 {
        tree.swap(ahead);
        return false;
    }
    edit_next(alloc, edits, used, tree)
}

/// Makes the changes of the next of these lines, and answers whether there was no memory for them.
fn edit_next(alloc: Global, edits: &List<List<TreeEdit>>, used: usize, tree: &mut MemTree) -> bool
    ensures edited { result ≡ false → tree.new.entries.items ≡ edited (get_or edits.now used []) tree.old.entries.items }
    ensures still { list_all (is_new_stamp (tree_of tree.old.entries.items)) (get_or edits.now used []) ≡ true → tree_of tree.new.entries.items ≡ tree_of tree.old.entries.items }
    ensures failing { tree.new.failing ≡ tree.old.failing }
    ensures counts { (tree.new.looks ≡ tree.old.looks) × (tree.new.faults ≡ tree.old.faults) }
{
    let none = List::new(alloc);
    let due = line(edits, used, &none).as_slice();
    let made = edit_all(alloc, due, tree);
    drop(none);
    made.is_err()
}

/// Makes these changes, one by one. It fails only for want of memory, and leaves out the others then.
fn edit_all(alloc: Global, edits: &[TreeEdit], tree: &mut MemTree) -> Result<(), Memory>
    ensures edited { OnOk result (tree.new.entries.items ≡ edited edits.now tree.old.entries.items) }
    ensures still { list_all (is_new_stamp (tree_of tree.old.entries.items)) edits.now ≡ true → tree_of tree.new.entries.items ≡ tree_of tree.old.entries.items }
    ensures failing { tree.new.failing ≡ tree.old.failing }
    ensures counts { (tree.new.looks ≡ tree.old.looks) × (tree.new.faults ≡ tree.old.faults) }
{
    for change in edits {
        edit_one(alloc, change, tree)?;
    }
    Ok(())
}

/// Makes a change. It fails only for want of memory.
fn edit_one(alloc: Global, change: &TreeEdit, tree: &mut MemTree) -> Result<(), Memory>
    ensures edited { OnOk result (tree.new.entries.items ≡ edit change.now tree.old.entries.items) }
    ensures still { is_new_stamp (tree_of tree.old.entries.items) change.now ≡ true → tree_of tree.new.entries.items ≡ tree_of tree.old.entries.items }
    ensures failing { tree.new.failing ≡ tree.old.failing }
    ensures counts { (tree.new.looks ≡ tree.old.looks) × (tree.new.faults ≡ tree.old.faults) }
{
    match change.copy(alloc)? {
        TreeEdit::Node(path, node) => tree.node(path, node),
        TreeEdit::Gone(path) => tree.gone(&path),
    }
}
