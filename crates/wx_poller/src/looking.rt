// Looks at a path.
ghost use Rattle.std.specs.Prelude.{◌≡◌, true, option_map};
ghost use Rattle.wx_scan.specs.Looked.{OnlyLooks, Rose};
ghost use Rattle.wx_scan.specs.Told.{SpellsPath, is_fault, is_file_node};
ghost use Rattle.wx_tree.specs.Paths.{Path};
ghost use Rattle.wx_tree.specs.Trees.{Tree, node_at};
ghost use Rattle.wx_poller.specs.Fitting.{Answers, IsKnown, IsTold, type_of};

use crate::seen::Seen;
use wx_events::FileType;
use wx_scan::{EntryKind, ScanError, Scanner};
use wx_words::TextPath;

/// What is seen at a path, where something is there. What is neither a directory nor a link counts as a file.
pub fn look<S: Scanner>(
    path: &TextPath,
    follow: bool,
    scan: &mut S,
) -> Result<Option<Seen>, ScanError>
    ensures looked { OnlyLooks (S.looked scan.old) (S.looked scan.new) }
    ensures rest { S.rest scan.new ≡ S.rest scan.old }
    ensures place { S.place scan.new ≡ S.place scan.old }
    ensures known { IsKnown result }
    ensures failed { is_fault result ≡ true → Rose (S.looked scan.old).faults (S.looked scan.new).faults }
    ensures told { (t : Tree) (p : Path) → IsTold t follow (S.looked scan.old) (S.looked scan.new) → SpellsPath t p path.now → Answers (λ found. option_map (λ s. s.file_type) found ≡ type_of (node_at t p)) result }
{
    match scan.classify(path, follow) {
        Ok(EntryKind::Directory(_)) => Ok(Some(Seen {
            file_type: FileType::Dir,
            stamp: 0,
        })),
        Ok(EntryKind::NonFollowedSymlink) => Ok(Some(Seen {
            file_type: FileType::Symlink,
            stamp: 0,
        })),
        Ok(EntryKind::Other) => look_at_file(path, follow, scan),
        Err(ScanError::NotFound) => Ok(None),
        Err(ScanError::Io(code)) => Err(ScanError::Io(code)),
        Err(ScanError::Memory) => Err(ScanError::Memory),
    }
}

/// What is seen of a file. It may be gone meanwhile.
fn look_at_file<S: Scanner>(
    path: &TextPath,
    _follow: bool,
    scan: &mut S,
) -> Result<Option<Seen>, ScanError>
    ensures looked { OnlyLooks (S.looked scan.old) (S.looked scan.new) }
    ensures rest { S.rest scan.new ≡ S.rest scan.old }
    ensures place { S.place scan.new ≡ S.place scan.old }
    ensures known { IsKnown result }
    ensures failed { is_fault result ≡ true → Rose (S.looked scan.old).faults (S.looked scan.new).faults }
    ensures told { (t : Tree) (p : Path) → IsTold t _follow (S.looked scan.old) (S.looked scan.new) → SpellsPath t p path.now → is_file_node (node_at t p) ≡ true → Answers (λ found. option_map (λ s. s.file_type) found ≡ type_of (node_at t p)) result }
{
    match scan.stamp(path) {
        Ok(stamp) => Ok(Some(Seen {
            file_type: FileType::File,
            stamp,
        })),
        Err(ScanError::NotFound) => Ok(None),
        Err(ScanError::Io(code)) => Err(ScanError::Io(code)),
        Err(ScanError::Memory) => Err(ScanError::Memory),
    }
}
