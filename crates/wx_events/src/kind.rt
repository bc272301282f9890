// What happened to a file.
ghost use Rattle.std.specs.Prelude.{◌≡◌, ◌∷◌, codes};
ghost use Rattle.wx_words.specs.Dotted.{dotted};
ghost use Rattle.wx_events.specs.Kinds.{mode_parts, access_parts, created_parts, data_parts, metadata_parts, name_parts, modify_parts, removed_parts, kind_parts};

use std::alloc::Global;
use std::fmt;
use wx_text::{Memory, Text};
use wx_words::{Dotted, Spelled, Words, put_word, read_dotted, read_rows};

/// What happened to a file or a folder.
#[derive(Clone, Copy, Debug, PartialEq, Eq)]
pub enum FileEventKind {
    /// It isn't known what.
    Any,
    /// It was looked at.
    Access(AccessKind),
    Create(CreateKind),
    Modify(ModifyKind),
    Remove(RemoveKind),
    /// Something else.
    Other,
}

/// How a file was looked at.
#[derive(Clone, Copy, Debug, PartialEq, Eq)]
pub enum AccessKind {
    Any,
    Read,
    Open(AccessMode),
    Close(AccessMode),
    Other,
}

/// For what a file was opened.
#[derive(Clone, Copy, Debug, PartialEq, Eq)]
pub enum AccessMode {
    Any,
    Execute,
    Read,
    Write,
    Other,
}

/// What was created.
#[derive(Clone, Copy, Debug, PartialEq, Eq)]
pub enum CreateKind {
    Any,
    File,
    Folder,
    Other,
}

/// What was modified.
#[derive(Clone, Copy, Debug, PartialEq, Eq)]
pub enum ModifyKind {
    Any,
    Data(DataChange),
    Metadata(MetadataKind),
    Name(RenameMode),
    Other,
}

/// How the data of a file changed.
#[derive(Clone, Copy, Debug, PartialEq, Eq)]
pub enum DataChange {
    Any,
    Size,
    Content,
    Other,
}

/// What changed of a file besides its data and its name.
#[derive(Clone, Copy, Debug, PartialEq, Eq)]
pub enum MetadataKind {
    Any,
    AccessTime,
    WriteTime,
    Permissions,
    Ownership,
    Extended,
    Other,
}

/// Which names of a renamed file are told.
#[derive(Clone, Copy, Debug, PartialEq, Eq)]
pub enum RenameMode {
    Any,
    To,
    From,
    Both,
    Other,
}

/// What was removed.
#[derive(Clone, Copy, Debug, PartialEq, Eq)]
pub enum RemoveKind {
    Any,
    File,
    Folder,
    Other,
}

impl FileEventKind {
    /// The word of this kind.
    fn word(self) -> &'static str
        ensures { result.now ≡ dotted (kind_parts.words self) }
    {
        match self {
            FileEventKind::Any => "any",
            FileEventKind::Access(kind) => kind.word(),
            FileEventKind::Create(kind) => kind.word(),
            FileEventKind::Modify(kind) => kind.word(),
            FileEventKind::Remove(kind) => kind.word(),
            FileEventKind::Other => "other",
        }
    }
}

impl AccessKind {
    /// The word of such an event.
    fn word(self) -> &'static str
        ensures { result.now ≡ dotted (codes "access" ∷ access_parts.words self) }
    {
        match self {
            AccessKind::Any => "access.any",
            AccessKind::Read => "access.read",
            AccessKind::Open(AccessMode::Any) => "access.open.any",
            AccessKind::Open(AccessMode::Execute) => "access.open.execute",
            AccessKind::Open(AccessMode::Read) => "access.open.read",
            AccessKind::Open(AccessMode::Write) => "access.open.write",
            AccessKind::Open(AccessMode::Other) => "access.open.other",
            AccessKind::Close(AccessMode::Any) => "access.close.any",
            AccessKind::Close(AccessMode::Execute) => "access.close.execute",
            AccessKind::Close(AccessMode::Read) => "access.close.read",
            AccessKind::Close(AccessMode::Write) => "access.close.write",
            AccessKind::Close(AccessMode::Other) => "access.close.other",
            AccessKind::Other => "access.other",
        }
    }
}

impl CreateKind {
    /// The word of such an event.
    fn word(self) -> &'static str
        ensures { result.now ≡ dotted (codes "create" ∷ created_parts.words self) }
    {
        match self {
            CreateKind::Any => "create.any",
            CreateKind::File => "create.file",
            CreateKind::Folder => "create.folder",
            CreateKind::Other => "create.other",
        }
    }
}

impl ModifyKind {
    /// The word of such an event.
    fn word(self) -> &'static str
        ensures { result.now ≡ dotted (codes "modify" ∷ modify_parts.words self) }
    {
        match self {
            ModifyKind::Any => "modify.any",
            ModifyKind::Data(DataChange::Any) => "modify.data.any",
            ModifyKind::Data(DataChange::Size) => "modify.data.size",
            ModifyKind::Data(DataChange::Content) => "modify.data.content",
            ModifyKind::Data(DataChange::Other) => "modify.data.other",
            ModifyKind::Metadata(MetadataKind::Any) => "modify.meta.any",
            ModifyKind::Metadata(MetadataKind::AccessTime) => "modify.meta.atime",
            ModifyKind::Metadata(MetadataKind::WriteTime) => "modify.meta.mtime",
            ModifyKind::Metadata(MetadataKind::Permissions) => "modify.meta.perm",
            ModifyKind::Metadata(MetadataKind::Ownership) => "modify.meta.owner",
            ModifyKind::Metadata(MetadataKind::Extended) => "modify.meta.extended",
            ModifyKind::Metadata(MetadataKind::Other) => "modify.meta.other",
            ModifyKind::Name(RenameMode::Any) => "modify.name.any",
            ModifyKind::Name(RenameMode::To) => "modify.name.to",
            ModifyKind::Name(RenameMode::From) => "modify.name.from",
            ModifyKind::Name(RenameMode::Both) => "modify.name.both",
            ModifyKind::Name(RenameMode::Other) => "modify.name.other",
            ModifyKind::Other => "modify.other",
        }
    }
}

impl RemoveKind {
    /// The word of such an event.
    fn word(self) -> &'static str
        ensures { result.now ≡ dotted (codes "remove" ∷ removed_parts.words self) }
    {
        match self {
            RemoveKind::Any => "remove.any",
            RemoveKind::File => "remove.file",
            RemoveKind::Folder => "remove.folder",
            RemoveKind::Other => "remove.other",
        }
    }
}

impl fmt::Display for FileEventKind {
    fn fmt<W: fmt::Write>(&self, f: &mut fmt::Formatter<W>) -> fmt::Result {
        f.write_str(self.word())
    }
}

impl Dotted for AccessMode {
    ghost read_parts = { mode_parts.read };

    fn read_parts(alloc: Global, parts: &mut Words) -> Result<Option<AccessMode>, Memory> {
        read_rows!(alloc, parts;
            b"any" => AccessMode::Any,
            b"execute" => AccessMode::Execute,
            b"read" => AccessMode::Read,
            b"write" => AccessMode::Write,
            b"other" => AccessMode::Other,
        )
    }
}

impl Dotted for AccessKind {
    ghost read_parts = { access_parts.read };

    fn read_parts(alloc: Global, parts: &mut Words) -> Result<Option<AccessKind>, Memory> {
        read_rows!(alloc, parts;
            b"any" => AccessKind::Any,
            b"read" => AccessKind::Read,
            b"open" (mode = AccessMode::read_parts) => AccessKind::Open(mode),
            b"close" (mode = AccessMode::read_parts) => AccessKind::Close(mode),
            b"other" => AccessKind::Other,
        )
    }
}

impl Dotted for CreateKind {
    ghost read_parts = { created_parts.read };

    fn read_parts(alloc: Global, parts: &mut Words) -> Result<Option<CreateKind>, Memory> {
        read_rows!(alloc, parts;
            b"any" => CreateKind::Any,
            b"file" => CreateKind::File,
            b"folder" => CreateKind::Folder,
            b"other" => CreateKind::Other,
        )
    }
}

impl Dotted for DataChange {
    ghost read_parts = { data_parts.read };

    fn read_parts(alloc: Global, parts: &mut Words) -> Result<Option<DataChange>, Memory> {
        read_rows!(alloc, parts;
            b"any" => DataChange::Any,
            b"size" => DataChange::Size,
            b"content" => DataChange::Content,
            b"other" => DataChange::Other,
        )
    }
}

impl Dotted for MetadataKind {
    ghost read_parts = { metadata_parts.read };

    fn read_parts(alloc: Global, parts: &mut Words) -> Result<Option<MetadataKind>, Memory> {
        read_rows!(alloc, parts;
            b"any" => MetadataKind::Any,
            b"atime" => MetadataKind::AccessTime,
            b"mtime" => MetadataKind::WriteTime,
            b"perm" => MetadataKind::Permissions,
            b"owner" => MetadataKind::Ownership,
            b"extended" => MetadataKind::Extended,
            b"other" => MetadataKind::Other,
        )
    }
}

impl Dotted for RenameMode {
    ghost read_parts = { name_parts.read };

    fn read_parts(alloc: Global, parts: &mut Words) -> Result<Option<RenameMode>, Memory> {
        read_rows!(alloc, parts;
            b"any" => RenameMode::Any,
            b"to" => RenameMode::To,
            b"from" => RenameMode::From,
            b"both" => RenameMode::Both,
            b"other" => RenameMode::Other,
        )
    }
}

impl Dotted for ModifyKind {
    ghost read_parts = { modify_parts.read };

    fn read_parts(alloc: Global, parts: &mut Words) -> Result<Option<ModifyKind>, Memory> {
        read_rows!(alloc, parts;
            b"any" => ModifyKind::Any,
            b"data" (change = DataChange::read_parts) => ModifyKind::Data(change),
            b"meta" (kind = MetadataKind::read_parts) => ModifyKind::Metadata(kind),
            b"name" (mode = RenameMode::read_parts) => ModifyKind::Name(mode),
            b"other" => ModifyKind::Other,
        )
    }
}

impl Dotted for RemoveKind {
    ghost read_parts = { removed_parts.read };

    fn read_parts(alloc: Global, parts: &mut Words) -> Result<Option<RemoveKind>, Memory> {
        read_rows!(alloc, parts;
            b"any" => RemoveKind::Any,
            b"file" => RemoveKind::File,
            b"folder" => RemoveKind::Folder,
            b"other" => RemoveKind::Other,
        )
    }
}

impl Dotted for FileEventKind {
    ghost read_parts = { kind_parts.read };

    fn read_parts(alloc: Global, parts: &mut Words) -> Result<Option<FileEventKind>, Memory> {
        read_rows!(alloc, parts;
            b"any" => FileEventKind::Any,
            b"access" (kind = AccessKind::read_parts) => FileEventKind::Access(kind),
            b"create" (kind = CreateKind::read_parts) => FileEventKind::Create(kind),
            b"modify" (kind = ModifyKind::read_parts) => FileEventKind::Modify(kind),
            b"remove" (kind = RemoveKind::read_parts) => FileEventKind::Remove(kind),
            b"other" => FileEventKind::Other,
        )
    }
}

#[tactic(auto, unfolding(crate::specs::Kinds::kind))]
impl Spelled for FileEventKind {
    ghost use Rattle.wx_events.specs.Kinds.{kind};

    ghost spelling = { kind };

    fn put_after(&self, out: &mut Text) -> Result<(), Memory> {
        put_word(self.word().as_bytes(), out)
    }

    fn read(alloc: Global, line: &mut Words) -> Result<Option<FileEventKind>, Memory> {
        read_dotted(alloc, line)
    }
}
