// What is said of children.
ghost use Rattle.std.specs.Prelude.{◌≡◌};

use std::alloc::Global;
use wx_text::{Memory, Text};
use wx_words::{Dotted, Spelled, Words, read_dotted, read_rows};

/// What spawns a child.
#[derive(Clone, Copy, Debug, PartialEq, Eq)]
pub enum SpawnTag {
    /// What spawns where no function was set.
    Default,
    /// The spawn function of this number.
    Command(u32),
    /// The child function of this number.
    Child(u32),
}

/// A call on a child failed: the code of the fault.
#[derive(Clone, Copy, Debug, PartialEq, Eq)]
pub struct HostFault(pub u32);

impl Dotted for SpawnTag {
    ghost use Rattle.wx_journal.specs.Tags.{tag_parts};

    ghost read_parts = { tag_parts.read };

    fn read_parts(alloc: Global, parts: &mut Words) -> Result<Option<SpawnTag>, Memory> {
        read_rows!(alloc, parts;
            b"default" => SpawnTag::Default,
            b"command" (n) => SpawnTag::Command(n),
            b"child" (n) => SpawnTag::Child(n),
        )
    }
}

#[tactic(auto, unfolding(crate::specs::Tags::tag, wx_words::specs::Line::behind))]
impl Spelled for SpawnTag {
    ghost use Rattle.wx_journal.specs.Tags.{tag};

    ghost spelling = { tag };

    fn put_after(&self, out: &mut Text) -> Result<(), Memory> {
        match self {
            SpawnTag::Default => out.append(b" default"),
            SpawnTag::Command(n) => {
                out.append(b" command.")?;
                out.append_number(*n as u64)
            }
            SpawnTag::Child(n) => {
                out.append(b" child.")?;
                out.append_number(*n as u64)
            }
        }
    }

    fn read(alloc: Global, line: &mut Words) -> Result<Option<SpawnTag>, Memory> {
        read_dotted(alloc, line)
    }
}
