// Setters and changes of the settings, and who watches them: the expected values are worked out by hand.
//
// Cases stand in tables that are texts, a case a line. Where a line has a value, ` = ` and what is expected follow.
use crate::expecting::{expect_none, expect_yes};
use std::alloc::Global;
use std::process::Abort;
use wx_config::{Change, Config, ConfigWatched, Id, RevisionSpent, WatchedPath, Watcher};
use wx_text::{Copies, List, Memory, Text};
use wx_words::TextPath;
use wx_words_trial::{
    begins, first_accepted, first_wrong_pair, first_wrong_value, is_written, read_line,
};

/// Whether this change has such fields, and is written by this line, as is its copy.
fn is_change(alloc: Global, change: &Change, line: &str, fields: &str) -> Result<bool, Memory> {
    let copy = change.copy(alloc)?;
    let line = line.as_bytes();
    Ok(
        begins(alloc, change, fields)?
            && is_written(alloc, change, line)?
            && is_written(alloc, &copy, line)?,
    )
}

const CHANGES: &str = "\
signal = Signal
paths 0 = Pathset(List { items: [] })
paths 2 r /a n /b%20c = Pathset(List { items: [WatchedPath { path:
watcher native = FileWatcher(Native)
watcher poll 5 = FileWatcher(Poll(5))
follow off = FollowSymlinks(false)
keyboard on = KeyboardEvents(true)
throttle 18446744073709551615 = Throttle(18446744073709551615)
filterer 4294967295 = Filterer(4294967295)
onerror 0 = OnError(0)
onaction 7 = OnAction(7)
";

// The first line is empty.
const NO_CHANGES: &str = "
signals
signal 1
paths
paths 1
paths 1 /a
paths 2 r /a
paths 1 r /a n /b
watcher
watcher poll
follow
follow true
keyboard ON
throttle -1
throttle 18446744073709551616
filterer 4294967296
onerror 01
onaction
onaction 1 2
";

#[test]
fn changes_as_words(rt: HostRuntime) {
    expect_none(
        &rt,
        first_wrong_value(rt.alloc(), CHANGES, " = ", is_change),
    );
    expect_none(&rt, first_accepted::<Change>(rt.alloc(), NO_CHANGES));
}

/// Whether the settings that a change can set are these: the revision, the numbers of the action handler, the error handler
/// and the filter, how files are watched, whether links are followed and keys heard, the throttle, and how many paths are
/// watched.
fn are_set(alloc: Global, config: &Config, expected: &str) -> Result<bool, Memory> {
    let revision = config.change_signal;
    let action = config.action_handler;
    let error = config.error_handler;
    let filter = config.filterer;
    let watcher = config.file_watcher.get();
    let follow = config.follow_symlinks.get();
    let keyboard = config.keyboard_events.get();
    let throttle = config.throttle.get();
    let paths = config.pathset.get().len();
    let shown = format!(in alloc;
        "{revision} {action} {error} {filter} {watcher:?} {follow} {keyboard} {throttle} {paths}"
    )?;
    Ok(shown.as_str() == expected)
}

/// The default settings.
fn defaults(rt: &impl Abort, alloc: Global) -> Config {
    Config::new(alloc).expect(rt, "settings")
}

/// A list of one path.
fn one_path(alloc: Global) -> Result<List<WatchedPath>, Memory> {
    let path = TextPath::new(Text::from_slice(alloc, b"/a")?);
    let mut paths = List::new(alloc);
    paths.push(WatchedPath::non_recursive(path))?;
    Ok(paths)
}

/// Calls this setter.
fn set(
    alloc: Global,
    config: &mut Config,
    setter: &str,
) -> Result<Result<(), RevisionSpent>, Memory> {
    Ok(match setter {
        "signal_change" => config.signal_change(),
        "pathset" => config.pathset(one_path(alloc)?),
        "file_watcher" => config.file_watcher(Watcher::Poll(5)),
        "follow_symlinks" => config.follow_symlinks(false),
        "keyboard_events" => config.keyboard_events(true),
        "throttle" => config.throttle(7),
        "filterer" => config.filterer(2),
        "on_error" => config.on_error(3),
        _ => config.on_action(4),
    })
}

// Setters one after another, and what is set behind each.
const SETTERS: &str = "\
signal_change = 1 0 0 0 Native true false 50000000 0
pathset = 2 0 0 0 Native true false 50000000 1
file_watcher = 3 0 0 0 Poll(5) true false 50000000 1
follow_symlinks = 4 0 0 0 Poll(5) false false 50000000 1
keyboard_events = 5 0 0 0 Poll(5) false true 50000000 1
throttle = 6 0 0 0 Poll(5) false true 7 1
filterer = 7 0 0 2 Poll(5) false true 7 1
on_error = 8 0 3 2 Poll(5) false true 7 1
on_action = 9 4 3 2 Poll(5) false true 7 1
";

/// Whether this setter sets what stands behind it in this case.
fn is_set(alloc: Global, config: &mut Config, case: &str) -> Result<bool, Memory> {
    match case.split_once(" = ") {
        Some((setter, expected)) => {
            Ok(set(alloc, config, setter)? == Ok(()) && are_set(alloc, config, expected)?)
        }
        None => Ok(false),
    }
}

#[test]
fn each_setter_sets_one_value(rt: HostRuntime) {
    let mut config = defaults(&rt, rt.alloc());
    for case in SETTERS.lines() {
        expect_yes(&rt, is_set(rt.alloc(), &mut config, case), case);
    }
    let paths = is_written(rt.alloc(), config.pathset.get(), b"1 n /a");
    drop(config);
    expect_yes(&rt, paths, "the path");
}

/// Whether the change of this line is applied with this answer, and makes these settings of the default ones, whose revision
/// is made this one before.
fn is_applied(
    alloc: Global,
    revision: u64,
    line: &str,
    answer: Result<(), RevisionSpent>,
    expected: &str,
) -> Result<bool, Memory> {
    let Some(change) = read_line::<Change>(alloc, line.as_bytes())? else {
        return Ok(false);
    };
    match Config::new(alloc) {
        Ok(mut config) => {
            config.change_signal = revision;
            let done = config.apply(change);
            let is_set = are_set(alloc, &config, expected);
            drop(config);
            Ok(done == answer && is_set?)
        }
        Err(want) => {
            drop(change);
            Err(want)
        }
    }
}

const APPLIED: &str = "\
signal = 1 0 0 0 Native true false 50000000 0
paths 2 r /a n /b = 1 0 0 0 Native true false 50000000 2
watcher poll 9 = 1 0 0 0 Poll(9) true false 50000000 0
follow off = 1 0 0 0 Native false false 50000000 0
keyboard on = 1 0 0 0 Native true true 50000000 0
throttle 0 = 1 0 0 0 Native true false 0 0
filterer 5 = 1 0 0 5 Native true false 50000000 0
onerror 6 = 1 0 6 0 Native true false 50000000 0
onaction 7 = 1 7 0 0 Native true false 50000000 0
";

#[test]
fn a_change_does_what_its_setter_does(rt: HostRuntime) {
    expect_none(
        &rt,
        first_wrong_pair(rt.alloc(), APPLIED, " = ", |alloc, line, expected| {
            is_applied(alloc, 0, line, Ok(()), expected)
        }),
    );
}

const SPENT: &str = "18446744073709551615 0 0 0 Native true false 50000000 0";

#[test]
fn each_change_is_refused_at_the_last_revision(rt: HostRuntime) {
    expect_none(
        &rt,
        first_wrong_pair(rt.alloc(), APPLIED, " = ", |alloc, line, _| {
            is_applied(alloc, u64::MAX, line, Err(RevisionSpent), SPENT)
        }),
    );
    let before = is_applied(rt.alloc(), u64::MAX - 1, "signal", Ok(()), SPENT);
    expect_yes(&rt, before, "the revision before the last");
}

/// Whether the setter of this case is refused, and sets nothing.
fn is_spent(alloc: Global, config: &mut Config, case: &str) -> Result<bool, Memory> {
    match case.split_once(" = ") {
        Some((setter, _)) => {
            Ok(set(alloc, config, setter)? == Err(RevisionSpent) && are_set(alloc, config, SPENT)?)
        }
        None => Ok(false),
    }
}

#[test]
fn each_setter_is_refused_at_the_last_revision(rt: HostRuntime) {
    let mut config = defaults(&rt, rt.alloc());
    config.change_signal = u64::MAX;
    for case in SETTERS.lines() {
        expect_yes(&rt, is_spent(rt.alloc(), &mut config, case), case);
    }
    drop(config);
}

/// Holds who watches to be told this revision of these settings, or nothing, and nothing the second time.
fn expect_told(rt: &impl Abort, watch: &mut ConfigWatched, config: &Config, told: Option<u64>) {
    assert!(rt; watch.pending(config) == told.is_some());
    assert!(rt; watch.next(config) == told);
    assert!(rt; !watch.pending(config) && watch.next(config).is_none());
}

#[test]
fn who_watches_is_told_each_change_once(rt: HostRuntime) {
    let mut config = defaults(&rt, rt.alloc());
    let mut early = config.watch();
    expect_told(&rt, &mut early, &config, Some(0));
    expect_told(&rt, &mut early, &config, None);
    assert!(rt; config.throttle(5).is_ok() && config.on_error(1).is_ok());
    let mut late = config.watch();
    expect_told(&rt, &mut early, &config, Some(2));
    expect_told(&rt, &mut late, &config, Some(2));
    config.change_signal = 1;
    expect_told(&rt, &mut early, &config, Some(1));
    drop(config);
}

#[test]
fn a_copy_of_the_flag_of_readiness_sees_it_raised(rt: HostRuntime) {
    let config = defaults(&rt, rt.alloc());
    let mut ready = config.fs_ready(rt.alloc()).expect(&rt, "a flag");
    assert!(rt; !ready.raised() && !ready.look() && !config.fs_ready.raised());
    config.fs_ready.raise();
    assert!(rt; ready.raised() && ready.look());
    drop(ready);
    drop(config);
}

#[test]
fn the_name_of_a_job_is_offered_again(rt: HostRuntime) {
    assert!(rt; wx_control::Id(3) == Id(3));
}
