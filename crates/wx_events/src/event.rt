// Events.
ghost use Rattle.std.specs.Prelude.{◌≡◌, ◌==◌, length, IfOk};
ghost use Rattle.wx_words.specs.Line.{Reads};
ghost use Rattle.wx_events.specs.Events.{typed_path};

use crate::file_type::FileType;
use crate::keyboard::Keyboard;
use crate::kind::FileEventKind;
use crate::or_none::{OrNone, read_or_none};
use crate::process::{ProcessEnd, Signal};
use crate::showing::show;
use crate::source::Source;
use std::alloc::Global;
use std::fmt;
use wx_text::{Copies, List, Memory, Text};
use wx_words::{Escaped, Spelled, TextPath, Words, put_row, put_word, read_rows};

/// What an event says of itself.
#[derive(Drop, Debug, PartialEq, Eq)]
pub enum Tag {
    /// It is about this path. What the path leads to may not be known.
    Path {
        path: TextPath,
        file_type: Option<FileType>,
    },
    /// This happened to a file.
    FileEventKind(FileEventKind),
    /// It came from here.
    Source(Source),
    /// This was read from the keyboard.
    Keyboard(Keyboard),
    /// It came from the process of this id.
    Process(u32),
    /// A signal came.
    Signal(Signal),
    /// A process ended. How may not be known.
    ProcessCompletion(Option<ProcessEnd>),
    /// Something of which nothing is known.
    Unknown,
}

/// Something that happened.
#[derive(Drop, Debug, PartialEq, Eq)]
pub struct Event {
    pub tags: List<Tag>,
}

impl Event {
    /// Whether there is no tag.
    pub fn is_empty(&self) -> bool
        ensures { result ≡ (length self.now.tags == 0) }
    {
        self.tags.is_empty()
    }
}

impl Copies for Tag {
    fn copy(&self, alloc: Global) -> Result<Tag, Memory> {
        Ok(match self {
            Tag::Path { path, file_type } => Tag::Path {
                path: path.copy(alloc)?,
                file_type: *file_type,
            },
            Tag::FileEventKind(kind) => Tag::FileEventKind(*kind),
            Tag::Source(source) => Tag::Source(*source),
            Tag::Keyboard(keyboard) => Tag::Keyboard(*keyboard),
            Tag::Process(id) => Tag::Process(*id),
            Tag::Signal(signal) => Tag::Signal(*signal),
            Tag::ProcessCompletion(end) => Tag::ProcessCompletion(*end),
            Tag::Unknown => Tag::Unknown,
        })
    }
}

impl Copies for Event {
    fn copy(&self, alloc: Global) -> Result<Event, Memory> {
        Ok(Event {
            tags: self.tags.copy(alloc)?,
        })
    }
}

impl fmt::Display for Tag {
    fn fmt<W: fmt::Write>(&self, f: &mut fmt::Formatter<W>) -> fmt::Result {
        match self {
            Tag::Path { path, file_type } => {
                show(f, "path ", &Escaped(path.text()))?;
                show(f, " ", &OrNone(file_type))
            }
            Tag::FileEventKind(kind) => show(f, "kind ", kind),
            Tag::Source(source) => show(f, "source ", source),
            Tag::Keyboard(keyboard) => show(f, "key ", keyboard),
            Tag::Process(id) => show(f, "process ", id),
            Tag::Signal(signal) => show(f, "signal ", signal),
            Tag::ProcessCompletion(end) => show(f, "end ", &OrNone(end)),
            Tag::Unknown => f.write_str("unknown"),
        }
    }
}

impl fmt::Display for Event {
    fn fmt<W: fmt::Write>(&self, f: &mut fmt::Formatter<W>) -> fmt::Result {
        write!(f, "{}", self.tags.len())?;
        for tag in self.tags.as_slice() {
            write!(f, " {tag}")?;
        }
        Ok(())
    }
}

/// Takes the path at the front and what it leads to, or loses the place.
#[tactic(auto, unfolding(wx_words::specs::Parts::both))]
fn read_typed_path(
    alloc: Global,
    line: &mut Words,
) -> Result<Option<(TextPath, Option<FileType>)>, Memory>
    ensures { IfOk result (λ x. Reads line.new x (typed_path.read line.old)) }
{
    let Some(path) = TextPath::read(alloc, line)? else {
        return Ok(None);
    };
    let Some(file_type) = read_or_none(alloc, line)? else {
        return Ok(None);
    };
    Ok(Some((path, file_type)))
}

#[tactic(auto, using(wx_words::specs::LineLaws::behinds), unfolding(crate::specs::Events::tag, wx_words::specs::Parts::both))]
impl Spelled for Tag {
    ghost use Rattle.wx_events.specs.Events.{tag};

    ghost spelling = { tag };

    fn put_after(&self, out: &mut Text) -> Result<(), Memory> {
        match self {
            Tag::Path { path, file_type } => put_row(b"path", &(path, OrNone(file_type)), out),
            Tag::FileEventKind(kind) => put_row(b"kind", &kind, out),
            Tag::Source(source) => put_row(b"source", &source, out),
            Tag::Keyboard(keyboard) => put_row(b"key", &keyboard, out),
            Tag::Process(id) => put_row(b"process", &id, out),
            Tag::Signal(signal) => put_row(b"signal", &signal, out),
            Tag::ProcessCompletion(end) => put_row(b"end", &OrNone(end), out),
            Tag::Unknown => put_word(b"unknown", out),
        }
    }

    fn read(alloc: Global, line: &mut Words) -> Result<Option<Tag>, Memory> {
        read_rows!(alloc, line;
            b"path" (path, file_type = read_typed_path) => Tag::Path { path, file_type },
            b"kind" (kind) => Tag::FileEventKind(kind),
            b"source" (source) => Tag::Source(source),
            b"key" (keyboard) => Tag::Keyboard(keyboard),
            b"process" (id) => Tag::Process(id),
            b"signal" (signal) => Tag::Signal(signal),
            b"end" (end = read_or_none) => Tag::ProcessCompletion(end),
            b"unknown" => Tag::Unknown,
        )
    }
}

#[tactic(auto, unfolding(crate::specs::Events::event))]
impl Spelled for Event {
    ghost use Rattle.wx_events.specs.Events.{event};

    ghost spelling = { event };

    fn put_after(&self, out: &mut Text) -> Result<(), Memory> {
        self.tags.put_after(out)
    }

    fn read(alloc: Global, line: &mut Words) -> Result<Option<Event>, Memory> {
        Ok(List::read(alloc, line)?.map(|tags| Event { tags }))
    }
}
