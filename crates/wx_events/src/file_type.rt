// What a path leads to.
ghost use Rattle.std.specs.Prelude.{◌≡◌};
ghost use Rattle.wx_events.specs.FileTypes.{file_type_word};

use std::alloc::Global;
use std::fmt;
use wx_text::{Memory, Text};
use wx_words::{Spelled, Words, put_word, read_rows};

/// What a path leads to.
#[derive(Clone, Copy, Debug, PartialEq, Eq)]
pub enum FileType {
    File,
    Dir,
    Symlink,
    Other,
}

impl FileType {
    /// The word of this type.
    fn word(self) -> &'static str
        ensures { result.now ≡ file_type_word self }
    {
        match self {
            FileType::File => "file",
            FileType::Dir => "dir",
            FileType::Symlink => "symlink",
            FileType::Other => "other",
        }
    }
}

impl fmt::Display for FileType {
    fn fmt<W: fmt::Write>(&self, f: &mut fmt::Formatter<W>) -> fmt::Result {
        f.write_str(self.word())
    }
}

#[tactic(auto, unfolding(crate::specs::FileTypes::file_type))]
impl Spelled for FileType {
    ghost use Rattle.wx_events.specs.FileTypes.{file_type};

    ghost spelling = { file_type };

    fn put_after(&self, out: &mut Text) -> Result<(), Memory> {
        put_word(self.word().as_bytes(), out)
    }

    fn read(alloc: Global, line: &mut Words) -> Result<Option<FileType>, Memory> {
        read_rows!(alloc, line;
            b"file" => FileType::File,
            b"dir" => FileType::Dir,
            b"symlink" => FileType::Symlink,
            b"other" => FileType::Other,
        )
    }
}
