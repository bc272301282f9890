// Groups of changes.
ghost use Rattle.std.specs.Prelude.{◌≡◌};
ghost use Rattle.wx_summary.specs.Groups.{group_of, group_name, is_same, is_of, is_in};

use wx_events::{AccessKind, AccessMode, Event, FileEventKind, ModifyKind, Tag};

/// What happened to a path, as far as a summary tells it.
#[derive(Clone, Copy, Debug, PartialEq, Eq)]
pub enum Group {
    Created,
    MetaChanged,
    OtherwiseChanged,
    Removed,
    Renamed,
    Written,
}

impl Group {
    /// The group of what happened to a file.
    fn of(kind: FileEventKind) -> Group
        ensures { result ≡ group_of kind }
    {
        match kind {
            FileEventKind::Access(AccessKind::Close(AccessMode::Write)) => Group::Written,
            FileEventKind::Create(_) => Group::Created,
            FileEventKind::Modify(ModifyKind::Data(_)) => Group::Written,
            FileEventKind::Modify(ModifyKind::Metadata(_)) => Group::MetaChanged,
            FileEventKind::Modify(ModifyKind::Name(_)) => Group::Renamed,
            FileEventKind::Remove(_) => Group::Removed,
            _ => Group::OtherwiseChanged,
        }
    }

    /// The name of this group in a summary.
    pub fn name(self) -> &'static str
        ensures { result.now ≡ group_name self }
    {
        match self {
            Group::Created => "CREATED",
            Group::MetaChanged => "META_CHANGED",
            Group::OtherwiseChanged => "OTHERWISE_CHANGED",
            Group::Removed => "REMOVED",
            Group::Renamed => "RENAMED",
            Group::Written => "WRITTEN",
        }
    }
}

/// Whether both are the same.
fn is_same(group: Group, other: Group) -> bool
    ensures { result ≡ is_same group other }
{
    group == other
}

/// Whether a tag is a kind of this group.
fn is_of(group: Group, tag: &Tag) -> bool
    ensures { result ≡ is_of group tag.now }
{
    match tag {
        Tag::FileEventKind(kind) => is_same(Group::of(*kind), group),
        _ => false,
    }
}

/// Whether a kind of this event is of this group.
pub fn is_in(group: Group, event: &Event) -> bool
    ensures { result ≡ is_in group event.now }
{
    for tag in event.tags.as_slice() {
        if is_of(group, tag) {
            return true;
        }
    }
    false
}
