// The default settings, filters, and the words of what is watched and of errors: the expected values are worked out by
// hand.
//
// Cases stand in tables that are texts, a case a line. Where a line has a value, ` = ` and the beginning of the value's
// fields follow.
use crate::command_tests::{hash_of, text};
use crate::expecting::{expect_none, expect_yes};
use std::alloc::Global;
use std::fmt;
use std::process::Abort;
use wx_config::{Changeable, ChangeableFilterer, ChangeableFn, Config, Filterer};
use wx_error::{CriticalError, RuntimeError};
use wx_events::{Event, Priority};
use wx_text::{Copies, List, Memory, Text};
use wx_watch::{EntryKind, FsWatcherError, NotifyFault, ScanFault, WatchedPath, Watcher};
use wx_words::{Spelled, TextPath};
use wx_words_trial::{
    begins, first_accepted, first_misread, first_wrong_value, is_shown, is_written, read_line,
};

/// Whether this value is written and shown by this line.
fn is_written_and_shown<T: Spelled + fmt::Display>(
    alloc: Global,
    value: &T,
    line: &str,
) -> Result<bool, Memory> {
    Ok(is_written(alloc, value, line.as_bytes())? && is_shown(alloc, value, line)?)
}

/// The same of a value that is handed in: this function drops it, since to drop a long enum by name is slow to prove.
fn is_made<T: Spelled + fmt::Display>(alloc: Global, value: T, line: &str) -> Result<bool, Memory> {
    is_written_and_shown(alloc, &value, line)
}

/// Whether the copy of this value is written and shown by this line.
fn is_copied<T: Spelled + Copies + fmt::Display>(
    alloc: Global,
    value: &T,
    line: &str,
) -> Result<bool, Memory> {
    is_made(alloc, value.copy(alloc)?, line)
}

/// Whether this value has such fields, and is written and shown by this line, as is its copy.
fn is_told<T: Spelled + Copies + fmt::Display + fmt::Debug>(
    alloc: Global,
    value: &T,
    line: &str,
    fields: &str,
) -> Result<bool, Memory> {
    Ok(
        begins(alloc, value, fields)?
            && is_written_and_shown(alloc, value, line)?
            && is_copied(alloc, value, line)?,
    )
}

const DEFAULTS: &str = "Config { change_signal: 0, action_handler: 0, error_handler: 0, \
    pathset: Changeable { value: List { items: [] } }, file_watcher: Changeable { value: Native }, \
    follow_symlinks: Changeable { value: true }, signal_job_control: false, \
    keyboard_events: Changeable { value: false }, throttle: Changeable { value: 50000000 }, \
    filterer: 0, error_channel_size: 64, event_channel_size: 4096, fs_ready: Flag {";

#[test]
fn the_default_settings(rt: HostRuntime) {
    let config = Config::new(rt.alloc()).expect(&rt, "settings");
    expect_yes(&rt, begins(rt.alloc(), &config, DEFAULTS), DEFAULTS);
    drop(config);
}

const WATCHERS: &str = "\
native = Native
poll 5 = Poll(5)
";

/// The watched path whose words are this line.
fn watched_path(rt: &impl Abort, alloc: Global, line: &[u8]) -> WatchedPath {
    let found = read_line(alloc, line).expect(rt, "a line");
    found.expect(rt, "a path")
}

/// Whether a copy of this path is written by this line.
fn is_written_by_a_copy(alloc: Global, path: &WatchedPath, line: &[u8]) -> Result<bool, Memory> {
    let copy = path.copy(alloc)?;
    is_written(alloc, &copy, line)
}

#[test]
fn what_is_watched(rt: HostRuntime) {
    let alloc = rt.alloc();
    let tree = watched_path(&rt, alloc, b"r /a%20b");
    assert!(rt; tree.recursive);
    let copied = is_written_by_a_copy(alloc, &tree, b"r /a%20b");
    expect_yes(&rt, copied, "a tree");
    let folder = WatchedPath::non_recursive(tree.path);
    expect_yes(&rt, is_written(alloc, &folder, b"n /a%20b"), "a folder");
    drop(folder);
}

const FAULTS_OF_BACKENDS: &str = "\
generic a%20b 2 /a /b%25 = NotifyFault { kind: Generic(
io 28 0 = NotifyFault { kind: Io(28),
nopath 1 /a = NotifyFault { kind: PathNotFound,
nowatch 1 /a = NotifyFault { kind: WatchNotFound,
badconfig 0 = NotifyFault { kind: InvalidConfig,
maxwatches 0 = NotifyFault { kind: MaxFilesWatch,
memory 0 = NotifyFault { kind: Memory,
";

// The first line is empty, here and in the other tables that begin so.
const NO_FAULTS_OF_BACKENDS: &str = "
generic a
generic 0
io 4294967296 0
nopath
nopath 2 /a
nopaths 0
maxwatches 1
";

const FAULTS_OF_SCANS: &str = "\
notfound = NotFound
io 5 = Io(5)
changed dir /a link = Changed { identity: Directory(
changed lexical % other = Changed { identity: Lexical(
changed dir /a dir /b = Changed { identity: Directory(
";

const ENTRIES: &str = "\
dir /b = Directory(
link = NonFollowedSymlink
other = Other
";

const NO_FAULTS_OF_SCANS: &str = "\
notfounb
io
io -5
changed /a other
changed dir /a
changed dir other
changed link dir /a
";

const FILE_ERRORS: &str = "\
create generic x 0 = Create(
toomanywatches maxwatches 1 /a = TooManyWatches(
toomanyhandles io 24 0 = TooManyHandles(
event badconfig 0 = Event(
pathadd /a%20b nopath 1 /a%20b = PathAdd {
pathscan /a changed lexical /a dir /a = PathScan {
pathremove /a nowatch 0 = PathRemove {
";

const NO_FILE_ERRORS: &str = "\
create
creates memory 0
toomanywatches 0
event notfound
pathadd nopath 0
pathscan /a nopath 0
pathremove /a memory 0 0
";

const RUNTIME_ERRORS: &str = "\
exit = Exit
external a%20b = External(
io turn 5 = IoError {
fswatcher native create io 2 0 = FsWatcher { kind: Native,
keyboard stdinshutdown = KeyboardWatcher { err: StdinShutdown }
internal % = InternalSupervisor(
send fs normal 0 = EventChannelSend {
trysend fs full low 1 process 1 = EventChannelTrySend {
trysend fs closed urgent 2 unknown end none = EventChannelTrySend {
handler x bad%0A = Handler {
lockheld x = HandlerLockHeld(
process 4294967295 = Process(4294967295)
deadonarrival = ProcessDeadOnArrival
unsupported custom.-3 = UnsupportedSignal(Custom(-3))
nocommands = NoCommands
emptycommand = CommandShellEmptyCommand
emptyshell = CommandShellEmptyShell
filterer glob bad%20rule = Filterer {
memory = Memory
";

const NO_RUNTIME_ERRORS: &str = "
Exit
exit 0
external
external a b
io turn
io turn -1
fswatcher create io 2 0
fswatcher poll create io 2 0
keyboard stdinshutdowm
send fs 0
send fs normal
send fs normal 1
trysend fs fully low 0
trysend full low 0
handler x
process 07
unsupported custom
emptyshells
filterer glob
filterer glob bad rule
";

const NO_CRITICAL_ERRORS: &str = "
elevated exit
elevated exit some
elevated exit nona
elevated none
elevated exit none none
io 5
send 0
init create memory 0
memories
";

/// Whether an error about this, of the code 5, is written and shown by this line.
fn is_about(alloc: Global, about: &[u8], line: &str) -> Result<bool, Memory> {
    let about = Text::from_slice(alloc, about)?;
    is_made(alloc, CriticalError::IoError { about, err: 5 }, line)
}

const CRITICAL_ERRORS: &str = "\
exit = Exit
external a%25 = External(
elevated filterer f x none = Elevated {
elevated exit some run%20it%20again = Elevated { err: Exit, help: Some(
io turn 5 = IoError {
send high 2 source os signal quit = EventChannelSend {
init poll 5 toomanywatches maxwatches 0 = FsWatcherInit { kind: Poll(5),
memory = Memory
";

#[test]
fn faults_and_errors_and_their_words(rt: HostRuntime) {
    let alloc = rt.alloc();
    expect_none(
        &rt,
        first_wrong_value(alloc, FAULTS_OF_BACKENDS, " = ", is_told::<NotifyFault>),
    );
    expect_none(
        &rt,
        first_wrong_value(alloc, FAULTS_OF_SCANS, " = ", is_told::<ScanFault>),
    );
    expect_none(
        &rt,
        first_wrong_value(alloc, ENTRIES, " = ", is_told::<EntryKind>),
    );
    expect_none(
        &rt,
        first_wrong_value(alloc, FILE_ERRORS, " = ", is_told::<FsWatcherError>),
    );
    expect_none(
        &rt,
        first_wrong_value(alloc, RUNTIME_ERRORS, " = ", is_told::<RuntimeError>),
    );
    expect_none(
        &rt,
        first_wrong_value(alloc, CRITICAL_ERRORS, " = ", is_told::<CriticalError>),
    );
}

#[test]
fn lines_that_are_no_values(rt: HostRuntime) {
    let alloc = rt.alloc();
    expect_none(&rt, first_accepted::<Watcher>(alloc, "poll"));
    expect_none(
        &rt,
        first_accepted::<NotifyFault>(alloc, NO_FAULTS_OF_BACKENDS),
    );
    expect_none(&rt, first_accepted::<ScanFault>(alloc, NO_FAULTS_OF_SCANS));
    expect_none(&rt, first_accepted::<FsWatcherError>(alloc, NO_FILE_ERRORS));
    expect_none(
        &rt,
        first_accepted::<RuntimeError>(alloc, NO_RUNTIME_ERRORS),
    );
    expect_none(
        &rt,
        first_accepted::<CriticalError>(alloc, NO_CRITICAL_ERRORS),
    );
}

#[test]
fn errors_that_are_made(rt: HostRuntime) {
    let alloc = rt.alloc();
    let memory = RuntimeError::from(Memory);
    expect_yes(&rt, is_made(alloc, memory, "memory"), "one of a run");
    let memory = CriticalError::from(Memory);
    expect_yes(&rt, is_made(alloc, memory, "memory"), "one at its end");
    let about = is_about(alloc, b"\xff\n", "io %FF%0A 5");
    expect_yes(&rt, about, "one about bytes");
}

/// A filter that lets urgent events pass, and any folder but one.
#[derive(Drop)]
struct Urgent {
    but: TextPath,
}

impl Filterer for Urgent {
    ghost excludes = { λ _ _ _. Unit {0} };

    ghost judges = { λ _ _ _ _. Unit {0} };

    fn check_dir(&self, path: &TextPath) -> Result<bool, RuntimeError> {
        if *path == self.but {
            Ok(false)
        } else {
            Ok(true)
        }
    }

    fn check_event(&self, _event: &Event, priority: Priority) -> Result<bool, RuntimeError> {
        Ok(priority.is_urgent())
    }
}

/// Whether this filter lets an event without tags pass.
fn passes<F: Filterer>(alloc: Global, filter: &F, priority: Priority) -> Option<bool> {
    let event = Event {
        tags: List::new(alloc),
    };
    filter.check_event(&event, priority).ok()
}

/// Whether this filter lets this folder be watched.
fn enters<F: Filterer>(alloc: Global, filter: &F, path: &[u8]) -> Result<Option<bool>, Memory> {
    let path = TextPath::new(Text::from_slice(alloc, path)?);
    Ok(filter.check_dir(&path).ok())
}

/// Holds what this filter answers of an event of this priority to be so.
fn expect_passes<F: Filterer>(
    rt: &impl Abort,
    alloc: Global,
    filter: &F,
    priority: Priority,
    so: bool,
) {
    assert!(rt; passes(alloc, filter, priority) == Some(so));
}

/// Holds what this filter answers of this folder to be so.
fn expect_enters<F: Filterer>(rt: &impl Abort, alloc: Global, filter: &F, path: &[u8], so: bool) {
    assert!(rt; enters(alloc, filter, path) == Ok(Some(so)));
}

#[test]
fn filters_pass_on(rt: HostRuntime) {
    let alloc = rt.alloc();
    expect_passes(&rt, alloc, &(), Priority::Low, true);
    expect_enters(&rt, alloc, &(), b"/a", true);
    let but = TextPath::new(text(&rt, alloc, b"/a"));
    let made = Box::new(alloc, Urgent { but }).expect(&rt, "a filter");
    let boxed: Box<dyn Filterer + Drop> = made;
    expect_passes(&rt, alloc, &boxed, Priority::Urgent, true);
    expect_passes(&rt, alloc, &boxed, Priority::High, false);
    expect_enters(&rt, alloc, &boxed, b"/a", false);
    expect_enters(&rt, alloc, &boxed, b"/b", true);
}

/// This path, watched so.
fn watched(rt: &impl Abort, alloc: Global, path: &[u8], recursive: bool) -> WatchedPath {
    let path = TextPath::new(text(rt, alloc, path));
    WatchedPath { path, recursive }
}

#[test]
fn watched_paths_compare_by_path_and_then_depth(rt: HostRuntime) {
    let alloc = rt.alloc();
    let folder = watched(&rt, alloc, b"/a", false);
    let tree = watched(&rt, alloc, b"/a", true);
    let below = watched(&rt, alloc, b"/a/b", false);
    assert!(rt; folder < tree && tree < below && folder < below);
    assert!(rt; folder != tree && tree != below);
    assert!(rt; hash_of(&folder) != hash_of(&tree));
    drop(below);
    drop(folder);
    let copy = tree.copy(alloc).expect(&rt, "a copy");
    assert!(rt; copy == tree && hash_of(&copy) == hash_of(&tree));
    drop(copy);
    drop(tree);
}

#[test]
fn paths_are_watched_with_all_below_them(rt: HostRuntime) {
    let alloc = rt.alloc();
    let tree = watched(&rt, alloc, b"/a", true);
    let of_text = WatchedPath::from(text(&rt, alloc, b"/a"));
    let of_path = WatchedPath::from(TextPath::new(text(&rt, alloc, b"/a")));
    assert!(rt; of_text == tree && of_path == tree);
    drop(of_text);
    drop(tree);
    assert!(rt; of_path.as_ref().text().as_slice() == b"/a".as_slice());
    let path = TextPath::from(of_path);
    assert!(rt; path.text().as_slice() == b"/a".as_slice());
    drop(path);
}

#[test]
fn what_can_be_replaced_and_its_default(rt: HostRuntime) {
    expect_none(&rt, first_misread::<Watcher>(rt.alloc(), WATCHERS));
    let watcher: Changeable<Watcher> = Changeable::default();
    assert!(rt; *watcher.get() == Watcher::Native);
    let mut throttle: Changeable<u64> = Changeable::default();
    assert!(rt; *throttle.get() == 0);
    throttle.replace(7);
    assert!(rt; *throttle.get() == 7);
    let mut function = ChangeableFn::new(1);
    function.replace(2);
    let filter = ChangeableFilterer::default();
    assert!(rt; *function.get() == 2 && *filter.get() == 0);
}
