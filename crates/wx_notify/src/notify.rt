// What a backend that watches files brings.
ghost use Rattle.std.specs.Prelude.{◌≡◌, Some, None, IfOk, OnOk};
ghost use Rattle.wx_words.specs.Line.{behind, Reads};
ghost use Rattle.wx_notify.specs.Processes.{process};
ghost use Rattle.wx_notify.specs.Notifies.{known_type, rescan};

use std::alloc::Global;
use wx_events::{FileEventKind, FileType};
use wx_text::{Copies, List, Memory, Text};
use wx_words::{Spelled, TextPath, Words, put_word, read_rows, take_literal};

/// A path to which something happened. What it leads to may not be known.
#[derive(Drop, Debug, PartialEq, Eq)]
pub struct NotifyPath {
    pub path: TextPath,
    pub file_type: Option<FileType>,
}

/// Something that happened to files, as a backend brings it.
#[derive(Drop, Debug, PartialEq, Eq)]
pub struct Notify {
    pub kind: FileEventKind,
    pub paths: List<NotifyPath>,
    /// Whether something was missed, so that all is to be looked at again.
    pub rescan: bool,
    /// The process that did it, where this is known.
    pub process: Option<u32>,
}

impl Copies for NotifyPath {
    fn copy(&self, alloc: Global) -> Result<NotifyPath, Memory> {
        Ok(NotifyPath {
            path: self.path.copy(alloc)?,
            file_type: self.file_type,
        })
    }
}

impl Copies for Notify {
    fn copy(&self, alloc: Global) -> Result<Notify, Memory> {
        Ok(Notify {
            kind: self.kind,
            paths: self.paths.copy(alloc)?,
            rescan: self.rescan,
            process: self.process,
        })
    }
}

/// Appends the word of what a path leads to, with a space before it.
fn put_type(file_type: Option<FileType>, out: &mut Text) -> Result<(), Memory>
    ensures text { OnOk result (out.new ≡ behind out.old (known_type.words file_type)) }
    ensures fits { OnOk result (known_type.fits file_type) }
{
    match file_type {
        Some(known) => known.put_after(out),
        None => put_word(b"none", out),
    }
}

/// Takes what a path leads to, or loses the place.
fn read_type(alloc: Global, line: &mut Words) -> Result<Option<Option<FileType>>, Memory>
    ensures { IfOk result (λ x. Reads line.new x (known_type.read line.old)) }
{
    let mut ahead = line.fork();
    if take_literal(b"none", &mut ahead) {
        *line = ahead;
        return Ok(Some(None));
    }
    match FileType::read(alloc, line)? {
        Some(known) => Ok(Some(Some(known))),
        None => Ok(None),
    }
}

/// Appends whether all is to be looked at again, with a space before it.
fn put_rescan(again: bool, out: &mut Text) -> Result<(), Memory>
    ensures { OnOk result (out.new ≡ behind out.old (rescan.words again)) }
{
    if again {
        put_word(b"rescan", out)
    } else {
        put_word(b"-", out)
    }
}

/// Takes whether all is to be looked at again, or loses the place.
fn read_rescan(alloc: Global, line: &mut Words) -> Result<Option<bool>, Memory>
    ensures { IfOk result (λ x. Reads line.new x (rescan.read line.old)) }
{
    read_rows!(alloc, line;
        b"rescan" => true,
        b"-" => false,
    )
}

/// Appends the id of a process, with a space before it.
fn put_process(id: Option<u32>, out: &mut Text) -> Result<(), Memory>
    ensures text { OnOk result (out.new ≡ behind out.old (process.words id)) }
    ensures fits { OnOk result (process.fits id) }
{
    match id {
        Some(id) => id.put_after(out),
        None => put_word(b"-", out),
    }
}

/// Takes the id of a process, or loses the place.
fn read_process(alloc: Global, line: &mut Words) -> Result<Option<Option<u32>>, Memory>
    ensures { IfOk result (λ x. Reads line.new x (process.read line.old)) }
{
    let Some(id) = Option::<u64>::read(alloc, line)? else {
        return Ok(None);
    };
    match id {
        None => Ok(Some(None)),
        Some(id) if id < 1 << 32 => Ok(Some(Some(id as u32))),
        Some(_) => Ok(None),
    }
}

#[tactic(auto, using(wx_words::specs::LineLaws::behinds), unfolding(crate::specs::Notifies::notify_path, wx_words::specs::Parts::both))]
impl Spelled for NotifyPath {
    ghost use Rattle.wx_notify.specs.Notifies.{notify_path};

    ghost spelling = { notify_path };

    fn put_after(&self, out: &mut Text) -> Result<(), Memory> {
        self.path.put_after(out)?;
        put_type(self.file_type, out)?;
        Ok(())
    }

    fn read(alloc: Global, line: &mut Words) -> Result<Option<NotifyPath>, Memory> {
        let Some(path) = TextPath::read(alloc, line)? else {
            return Ok(None);
        };
        let Some(file_type) = read_type(alloc, line)? else {
            return Ok(None);
        };
        Ok(Some(NotifyPath { path, file_type }))
    }
}

#[tactic(auto, using(wx_words::specs::LineLaws::behinds), unfolding(crate::specs::Notifies::notify, wx_words::specs::Parts::both))]
impl Spelled for Notify {
    ghost use Rattle.wx_notify.specs.Notifies.{notify};

    ghost spelling = { notify };

    fn put_after(&self, out: &mut Text) -> Result<(), Memory> {
        self.kind.put_after(out)?;
        self.paths.put_after(out)?;
        put_rescan(self.rescan, out)?;
        put_process(self.process, out)?;
        Ok(())
    }

    fn read(alloc: Global, line: &mut Words) -> Result<Option<Notify>, Memory> {
        let Some((kind, paths)) = Spelled::read(alloc, line)? else {
            return Ok(None);
        };
        let Some(rescan) = read_rescan(alloc, line)? else {
            return Ok(None);
        };
        let Some(process) = read_process(alloc, line)? else {
            return Ok(None);
        };
        Ok(Some(Notify {
            kind,
            paths,
            rescan,
            process,
        }))
    }
}
