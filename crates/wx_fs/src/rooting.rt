// Where paths lead from the folder, and which roots a reconcile keeps.
ghost use Rattle.std.specs.Prelude.{◌≡◌, IfOk, OnOk};
ghost use Rattle.wx_fs.specs.Kept.{keep_root, kept_root, kept_roots};
ghost use Rattle.wx_lane.specs.Public.{absolute, named};

use std::alloc::Global;
use wx_paths::normalize;
use wx_recursor_lists::has_root;
use wx_text::{Copies, Memory, Text};
use wx_tree::{Place, Root};
use wx_watch::WatchedPath;
use wx_words::TextPath;

/// The path as it is seen from this folder. It fails only for want of memory.
fn absolute(alloc: Global, folder: &TextPath, path: &TextPath) -> Result<TextPath, Memory>
    ensures { IfOk result (λ made. made ≡ absolute folder.now path.now) }
{
    if matches!(path.text().as_slice(), [b'/', ..]) {
        return path.copy(alloc);
    }
    let mut text = Text::from_slice(alloc, folder.text().as_slice())?;
    text.append(b"/")?;
    text.append(path.text().as_slice())?;
    Ok(TextPath::new(text))
}

/// Where the path leads from this folder. It fails only for want of memory.
pub fn named(alloc: Global, folder: &TextPath, path: &TextPath) -> Result<Place, Memory>
    ensures { IfOk result (λ place. place ≡ named folder.now path.now) }
{
    let made = absolute(alloc, folder, path)?;
    let normal = normalize(alloc, &made)?;
    Place::new(alloc, &normal)
}

/// What is to be watched for this path. It fails only for want of memory.
fn kept_root(alloc: Global, folder: &TextPath, watched: &WatchedPath) -> Result<Root, Memory>
    ensures { IfOk result (λ root. root ≡ kept_root folder.now watched.now) }
{
    Ok(Root {
        path: named(alloc, folder, &watched.path)?,
        recursive: watched.recursive,
    })
}

/// The root is kept, where it isn't yet. It fails only for want of memory.
fn keep_root(root: Root, roots: &mut Vec<Root>) -> Result<(), Memory>
    ensures { OnOk result (roots.new.items ≡ keep_root root roots.old.items) }
{
    if !has_root(&root, roots.as_slice()) {
        roots.push(root)?;
    }
    Ok(())
}

/// The roots of these paths, each once. It fails only for want of memory.
pub fn kept_roots(
    alloc: Global,
    folder: &TextPath,
    watched: &[WatchedPath],
) -> Result<Vec<Root>, Memory>
    ensures { IfOk result (λ roots. roots.items ≡ kept_roots folder.now watched.now) }
{
    let mut roots = Vec::new(alloc);
    let mut rest = watched;
    while let [first, after @ ..] = rest {
        let root = kept_root(alloc, folder, first)?;
        keep_root(root, &mut roots)?;
        rest = after;
    }
    Ok(roots)
}
