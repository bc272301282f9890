// The event that a notification becomes.
ghost use Rattle.std.specs.Prelude.{◌≡◌, ◌++◌, IfOk, OnOk};
ghost use Rattle.wx_lane.specs.FileEvents.{event_of, path_tags, process_tags};

use std::alloc::Global;
use wx_events::{Event, Source, Tag};
use wx_notify::{Notify, NotifyPath};
use wx_paths::normalize;
use wx_text::{List, Memory};

/// A tag for each of these paths joins these tags, in order. It fails only for want of memory.
fn put_paths(alloc: Global, paths: &[NotifyPath], tags: &mut List<Tag>) -> Result<(), Memory>
    ensures { OnOk result (tags.new ≡ tags.old ++ path_tags paths.now) }
{
    let mut rest = paths;
    while let [first, after @ ..] = rest {
        let path = normalize(alloc, &first.path)?;
        tags.push(Tag::Path {
            path,
            file_type: first.file_type,
        })?;
        rest = after;
    }
    Ok(())
}

/// A tag for the process joins these tags, where it is known. It fails only for want of memory.
fn put_process(process: Option<u32>, tags: &mut List<Tag>) -> Result<(), Memory>
    ensures { OnOk result (tags.new ≡ tags.old ++ process_tags process) }
{
    match process {
        None => Ok(()),
        Some(id) => tags.push(Tag::Process(id)),
    }
}

/// The event that this notification becomes: it comes from files, and has what happened, then its paths without `.` and `..`, each
/// with what it leads to where that is known, then the process where it is known. It fails only for want of memory.
pub fn file_event(alloc: Global, n: &Notify) -> Result<Event, Memory>
    ensures { IfOk result (λ event. event ≡ event_of n.now) }
{
    let mut tags = List::new(alloc);
    tags.push(Tag::Source(Source::Filesystem))?;
    tags.push(Tag::FileEventKind(n.kind))?;
    put_paths(alloc, n.paths.as_slice(), &mut tags)?;
    put_process(n.process, &mut tags)?;
    Ok(Event { tags })
}
