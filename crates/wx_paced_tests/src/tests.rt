// A poller at its own pace, over a tree in memory. What is expected is worked out by hand: behind a listing of n paths it waits for
// 50 ms and n times 20 µs.
use std::alloc::Global;
use std::test::Fail;
use wx_events::{CreateKind, DataChange, FileEventKind, ModifyKind, RemoveKind};
use wx_mem_tree::{MemTree, Node};
use wx_notify::Notify;
use wx_paced::PacedPoller;
use wx_scan::Backend;
use wx_text::{Memory, Text};
use wx_watch::{NotifyFault, NotifyFaultKind};
use wx_words::TextPath;

/// What is brought next.
#[derive(Clone, Copy)]
enum Brings {
    Nothing,
    /// A new file at this path.
    New(&'static str),
    /// A file at this path that was written.
    Written(&'static str),
    /// That the file at this path is gone.
    Gone(&'static str),
    /// A fault with this code.
    Fault(u32),
}

/// One step of a run.
#[derive(Clone, Copy)]
enum Step {
    /// A file with this stamp stands at a path now.
    File(&'static str, u64),
    /// Nothing stands at a path any more.
    NoFile(&'static str),
    /// A path is watched.
    Watch(&'static str),
    /// A path is watched no more.
    Unwatch(&'static str),
    /// The look of this number is to fail with this code.
    FailingLook(u64, u32),
    /// At this microsecond this is brought.
    At(u64, Brings),
    /// So many calls have failed.
    Failed(u64),
}

/// Runs over a tree that has the directory `/w` alone, and what they show.
const RUNS: &[(&str, &[Step])] = &[
    (
        "it lists at once, and then 50,060 µs later",
        &[
            Step::File("/w/a", 1),
            Step::File("/w/b", 1),
            Step::Watch("/w"),
            Step::At(7, Brings::Nothing),
            Step::File("/w/a", 2),
            Step::At(8, Brings::Nothing),
            Step::At(50_066, Brings::Nothing),
            Step::At(50_067, Brings::Written("/w/a")),
            Step::File("/w/b", 2),
            Step::At(50_068, Brings::Nothing),
            Step::At(100_126, Brings::Nothing),
            Step::At(100_127, Brings::Written("/w/b")),
        ],
    ),
    (
        "what pends comes at once",
        &[
            Step::File("/w/a", 1),
            Step::Watch("/w"),
            Step::At(0, Brings::Nothing),
            Step::NoFile("/w/a"),
            Step::File("/w/b", 1),
            Step::File("/w/c", 1),
            Step::At(50_040, Brings::Gone("/w/a")),
            Step::File("/w/b", 2),
            Step::At(50_040, Brings::New("/w/b")),
            Step::At(50_041, Brings::New("/w/c")),
            Step::At(50_042, Brings::Nothing),
            Step::At(100_099, Brings::Nothing),
            Step::At(100_100, Brings::Written("/w/b")),
        ],
    ),
    (
        "the pause goes by the last listing",
        &[
            Step::Watch("/w"),
            Step::At(0, Brings::Nothing),
            Step::File("/w/a", 1),
            Step::File("/w/b", 1),
            Step::File("/w/c", 1),
            Step::At(50_019, Brings::Nothing),
            Step::At(50_020, Brings::New("/w/a")),
            Step::At(50_020, Brings::New("/w/b")),
            Step::At(50_020, Brings::New("/w/c")),
            Step::NoFile("/w/a"),
            Step::At(100_099, Brings::Nothing),
            Step::At(100_100, Brings::Gone("/w/a")),
            Step::NoFile("/w/b"),
            Step::At(150_159, Brings::Nothing),
            Step::At(150_160, Brings::Gone("/w/b")),
        ],
    ),
    (
        "a fault comes once for each listing",
        &[
            Step::File("/w/a", 1),
            Step::Watch("/w"),
            // the watch made four looks: at /w, at its entries, and two at /w/a
            Step::FailingLook(4, 5),
            Step::FailingLook(5, 6),
            Step::At(0, Brings::Fault(5)),
            Step::File("/w/a", 2),
            Step::At(50_039, Brings::Nothing),
            Step::At(50_040, Brings::Fault(6)),
            Step::At(100_079, Brings::Nothing),
            Step::Failed(2),
            Step::At(100_080, Brings::Written("/w/a")),
            Step::Failed(2),
        ],
    ),
    (
        "what isn't watched isn't listed",
        &[
            Step::File("/w/a", 1),
            Step::Watch("/w"),
            Step::At(0, Brings::Nothing),
            Step::Unwatch("/w"),
            Step::File("/w/a", 2),
            Step::At(50_040, Brings::Nothing),
            Step::At(100_039, Brings::Nothing),
            Step::Watch("/w/a"),
            Step::File("/w/a", 3),
            Step::At(100_040, Brings::Written("/w/a")),
        ],
    ),
];

fn path_of(alloc: Global, name: &str) -> Result<TextPath, Memory> {
    Ok(TextPath::new(Text::from_slice(alloc, name.as_bytes())?))
}

/// The kind and the path of an event.
fn event_of(brings: Brings) -> Option<(FileEventKind, &'static str)> {
    match brings {
        Brings::New(path) => Some((FileEventKind::Create(CreateKind::File), path)),
        Brings::Written(path) => Some((
            FileEventKind::Modify(ModifyKind::Data(DataChange::Any)),
            path,
        )),
        Brings::Gone(path) => Some((FileEventKind::Remove(RemoveKind::File), path)),
        Brings::Nothing | Brings::Fault(_) => None,
    }
}

/// Whether this is an event of this kind about this path alone.
fn is_about(found: &Notify, kind: FileEventKind, path: &str) -> bool {
    match found.paths.as_slice() {
        [one] => found.kind == kind && one.path.text().as_slice() == path.as_bytes(),
        _ => false,
    }
}

/// Whether just this was brought.
fn is_brought(found: Option<Result<Notify, NotifyFault>>, brings: Brings) -> bool {
    match found {
        None => matches!(brings, Brings::Nothing),
        Some(Ok(event)) => match event_of(brings) {
            Some((kind, path)) => is_about(&event, kind, path),
            None => false,
        },
        Some(Err(fault)) => match brings {
            Brings::Fault(code) =>
                matches!(fault.kind, NotifyFaultKind::Io(found) if found == code),
            _ => false,
        },
    }
}

/// Whether a step goes as it should.
fn is_done(
    alloc: Global,
    tree: &mut MemTree,
    poller: &mut PacedPoller,
    step: Step,
) -> Result<bool, Memory> {
    match step {
        Step::File(path, stamp) => {
            tree.node(path_of(alloc, path)?, Node::File(stamp))?;
            Ok(true)
        }
        Step::NoFile(path) => {
            tree.gone(&path_of(alloc, path)?)?;
            Ok(true)
        }
        Step::Watch(path) => Ok(poller.watch(tree, &path_of(alloc, path)?).is_ok()),
        Step::Unwatch(path) => Ok(poller.unwatch(tree, &path_of(alloc, path)?).is_ok()),
        Step::FailingLook(look, code) => {
            tree.fail(look, code)?;
            Ok(true)
        }
        Step::At(micros, brings) => {
            poller.set_moment(micros.saturating_mul(1_000));
            Ok(is_brought(poller.next(tree), brings))
        }
        Step::Failed(count) => Ok(poller.faults() == count),
    }
}

/// The number of the first step that doesn't go as it should, where there is one.
fn first_wrong(alloc: Global, steps: &[Step]) -> Result<Option<usize>, Memory> {
    let mut tree = MemTree::new(alloc)?;
    tree.node(path_of(alloc, "/w")?, Node::Dir)?;
    let mut poller = PacedPoller::new(alloc, false)?;
    for (number, step) in steps.iter().enumerate() {
        if !is_done(alloc, &mut tree, &mut poller, *step)? {
            return Ok(Some(number));
        }
    }
    Ok(None)
}

#[test]
fn it_lists_at_its_own_pace(rt: HostRuntime) -> Result<(), Fail> {
    for (name, steps) in RUNS.iter() {
        let wrong = first_wrong(rt.alloc(), steps)?;
        assert!(rt; wrong.is_none(), "{name}: at step {wrong:?}");
    }
    Ok(())
}
