// Changes of settings near the last revision, which no script reaches: the expected texts are worked out by hand.
use crate::own_hooks_tests::{Does, Own, Run, expect_runs};
use crate::trial::text_of;
use std::alloc::Global;
use std::test::Fail;
use wx_config::Config;
use wx_control::Flag;
use wx_engine::Watchexec;
use wx_follow_trial::root;
use wx_hooks::ChangeRefused;
use wx_text::Memory;

const SPENT: Result<(), ChangeRefused> = Err(ChangeRefused::RevisionSpent);

/// One batch, and a turn that changes behind it.
const BATCH: &[u8] =
    b"turn 0 arrive urgent 0\nturn 0 work\nturn 1 change onaction 7\nturn 2 arrive normal 1 unknown\nturn 2 work\n";

const ALL: &[u8] =
    b"turn 0 arrive urgent 0\noffer 0 - queued urgent 0\nturn 0 work\ntake 0\nhand 0 1 0 change filterer 1 change filterer 2 change filterer 3\nchanged 18446744073709551613\nchanged 18446744073709551614\nchanged 18446744073709551615\nturn 1 change onaction 7\nword ignored\nturn 2 arrive normal 1 unknown\noffer 1 - queued normal 1 unknown\nturn 2 work\ntake 1\nfilter 3 1 pass\nturn 2 last\nend ok lost 1 1\n";

const TWO: &[u8] =
    b"turn 0 arrive urgent 0\noffer 0 - queued urgent 0\nturn 0 work\ntake 0\nhand 0 1 0 change filterer 1 change filterer 2\nchanged 18446744073709551614\nchanged 18446744073709551615\nturn 1 change onaction 7\nword ignored\nturn 2 arrive normal 1 unknown\noffer 1 - queued normal 1 unknown\nturn 2 work\ntake 1\nfilter 2 1 pass\nturn 2 last\nend ok lost 1 1\n";

const NONE: &[u8] =
    b"turn 0 arrive urgent 0\noffer 0 - queued urgent 0\nturn 0 work\ntake 0\nhand 0 1 0\nturn 1 change onaction 7\nword ignored\nturn 2 arrive normal 1 unknown\noffer 1 - queued normal 1 unknown\nturn 2 work\ntake 1\nfilter 0 1 pass\nturn 2 last\nend ok lost 1 1\n";

/// From which revision on, and how the three changes are answered.
const LAST: [Run; 3] = [
    (
        "three revisions are left",
        18_446_744_073_709_551_612,
        Does::Changes([Ok(()), Ok(()), Ok(())]),
        BATCH,
        ALL,
    ),
    (
        "two revisions are left",
        18_446_744_073_709_551_613,
        Does::Changes([Ok(()), Ok(()), SPENT]),
        BATCH,
        TWO,
    ),
    (
        "no revision is left",
        u64::MAX,
        Does::Changes([SPENT, SPENT, SPENT]),
        BATCH,
        NONE,
    ),
];

#[test]
fn the_last_revision_is_refused(rt: HostRuntime) -> Result<(), Fail> {
    expect_runs(&rt, rt.alloc(), &LAST)
}

/// An engine that doesn't follow links, and a copy of the flag of its settings.
fn engine_and_flag(alloc: Global) -> Result<(Watchexec, Flag), Memory> {
    let folder = root(alloc)?;
    let mut config = Config::new(alloc)?;
    config.follow_symlinks.replace(false);
    let ready = config.fs_ready(alloc)?;
    let engine = Watchexec::with_config(alloc, config, folder)?;
    Ok((engine, ready))
}

/// Whether the flag of the settings is raised before a run of these lines, and whether it is behind it.
fn raised_by(alloc: Global, lines: &[u8]) -> Result<(bool, bool), Fail> {
    let (engine, mut ready) = engine_and_flag(alloc)?;
    let before = ready.look();
    let mut hooks = Own::new(alloc, Does::Judges);
    let text = text_of(alloc, engine, lines, &mut hooks)?;
    drop(text);
    Ok((before, ready.look()))
}

/// A path is to be watched from the first turn on.
const WATCHED: &[u8] =
    b"node dir /\nnode dir /w\nturn 0 change paths 1 r /w\nturn 1 file\nturn 1 file\nturn 1 file\nturn 1 file\nturn 1 file\nturn 1 file\nturn 1 file\nturn 1 file\nturn 1 file\nturn 1 file\nturn 1 file\nturn 1 file\nturn 1 file\nturn 1 file\nturn 1 file\nturn 1 file\nturn 1 file\nturn 1 file\nturn 1 file\nturn 1 file\nturn 1 file\nturn 1 file\nturn 1 file\nturn 1 file\nturn 1 file\nturn 1 file\nturn 1 file\nturn 1 file\nturn 1 file\nturn 1 file\n";

/// The same, but that the turns end before all is watched.
const BEGUN: &[u8] =
    b"node dir /\nnode dir /w\nturn 0 change paths 1 r /w\nturn 1 file\nturn 1 file\n";

#[test]
fn the_flag_is_raised_once_all_is_watched(rt: HostRuntime) -> Result<(), Fail> {
    assert!(rt; raised_by(rt.alloc(), WATCHED)? == (false, true));
    assert!(rt; raised_by(rt.alloc(), BEGUN)? == (false, false));
    Ok(())
}
