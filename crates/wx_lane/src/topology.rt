// What a notification says of the tree.
ghost use Rattle.std.specs.Prelude.{◌≡◌, ◌++◌, IfOk, OnOk};
ghost use Rattle.wx_lane.specs.Messages.{by_kind, by_name, each, message, renamed, topology_messages};

use std::alloc::Global;
use wx_events::{FileEventKind, ModifyKind, RenameMode};
use wx_notify::{Notify, NotifyPath};
use wx_text::{Copies, List, Memory};
use wx_words::TextPath;

/// What happened to the tree.
#[derive(Debug, PartialEq, Eq)]
pub enum Topology {
    /// Something came to be at this path.
    Create(TextPath),
    /// What stood at this path went.
    Remove(TextPath),
    /// What stood at one path stands at another.
    Rename { from: TextPath, to: TextPath },
    /// It isn't known what happened at this path.
    Ambiguous(TextPath),
    /// Something was missed, so that all is to be looked at again.
    Rescan,
}

// Its parts are dropped by one call: docs/DESIGN.md, "What proofs cost".
impl Drop for Topology {
    fn drop(self) {
        match self {
            Topology::Create(_) => {}
            Topology::Remove(_) => {}
            Topology::Rename { from: _, to: _ } => {}
            Topology::Ambiguous(_) => {}
            Topology::Rescan => {}
        }
    }
}

/// What is said of each of some paths.
#[derive(Clone, Copy)]
enum Said {
    Create,
    Remove,
    Ambiguous,
}

/// What is said of this path.
fn message(said: Said, path: TextPath) -> Topology
    ensures { result ≡ message said path }
{
    match said {
        Said::Create => Topology::Create(path),
        Said::Remove => Topology::Remove(path),
        Said::Ambiguous => Topology::Ambiguous(path),
    }
}

/// Appends what is said of each of these paths. It fails only for want of memory.
fn put_each(
    alloc: Global,
    said: Said,
    paths: &[NotifyPath],
    out: &mut List<Topology>,
) -> Result<(), Memory>
    ensures { OnOk result (out.new ≡ out.old ++ each (message said) paths.now) }
{
    let mut rest = paths;
    while let [first, after @ ..] = rest {
        let path = first.path.copy(alloc)?;
        out.push(message(said, path))?;
        rest = after;
    }
    Ok(())
}

/// Appends what an event with both names says: the first path was renamed to the second. It fails only for want of memory.
fn put_renamed(alloc: Global, paths: &[NotifyPath], out: &mut List<Topology>) -> Result<(), Memory>
    ensures { OnOk result (out.new ≡ out.old ++ renamed paths.now) }
{
    let [first, second, others @ ..] = paths else {
        return put_each(alloc, Said::Ambiguous, paths, out);
    };
    let from = first.path.copy(alloc)?;
    let to = second.path.copy(alloc)?;
    out.push(Topology::Rename { from, to })?;
    put_each(alloc, Said::Ambiguous, others, out)
}

/// Appends what a change of a name says. It fails only for want of memory.
fn put_named(
    alloc: Global,
    mode: RenameMode,
    paths: &[NotifyPath],
    out: &mut List<Topology>,
) -> Result<(), Memory>
    ensures { OnOk result (out.new ≡ out.old ++ by_name mode paths.now) }
{
    match mode {
        RenameMode::From => put_each(alloc, Said::Remove, paths, out),
        RenameMode::Both => put_renamed(alloc, paths, out),
        RenameMode::Any | RenameMode::To | RenameMode::Other => {
            put_each(alloc, Said::Ambiguous, paths, out)
        }
    }
}

/// Appends what an event of this kind says. It fails only for want of memory.
fn put_by_kind(
    alloc: Global,
    kind: FileEventKind,
    paths: &[NotifyPath],
    out: &mut List<Topology>,
) -> Result<(), Memory>
    ensures { OnOk result (out.new ≡ out.old ++ by_kind kind paths.now) }
{
    match kind {
        FileEventKind::Create(_) => put_each(alloc, Said::Create, paths, out),
        FileEventKind::Remove(_) => put_each(alloc, Said::Remove, paths, out),
        FileEventKind::Modify(ModifyKind::Name(mode)) => put_named(alloc, mode, paths, out),
        FileEventKind::Any | FileEventKind::Other => put_each(alloc, Said::Ambiguous, paths, out),
        FileEventKind::Access(_) => Ok(()),
        FileEventKind::Modify(ModifyKind::Any) => Ok(()),
        FileEventKind::Modify(ModifyKind::Data(_)) => Ok(()),
        FileEventKind::Modify(ModifyKind::Metadata(_)) => Ok(()),
        FileEventKind::Modify(ModifyKind::Other) => Ok(()),
    }
}

/// What this notification says of the tree, in order: that something was missed first, and then what happened at its paths. It
/// fails only for want of memory.
pub fn topology_messages(alloc: Global, n: &Notify) -> Result<List<Topology>, Memory>
    ensures { IfOk result (λ messages. messages ≡ topology_messages n.now) }
{
    let mut messages = List::new(alloc);
    if n.rescan {
        messages.push(Topology::Rescan)?;
    }
    put_by_kind(alloc, n.kind, n.paths.as_slice(), &mut messages)?;
    Ok(messages)
}
