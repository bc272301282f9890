// Runs of the programs: what comes of them is worked out by hand.
use crate::runs::Page;
use crate::{env, filters, prints, restarts, supervises};
use std::test::Fail;
use wx_text::Text;
use wx_words::cut;

/// Whether these are the lines of the journal behind the first, which tells the settings.
fn has_lines(journal: &Text, lines: &[u8]) -> bool {
    cut(journal.as_slice(), 10).map(|parts| parts.1) == Some(lines)
}

/// Two changes in a batch, of which one is of two paths, and one in another.
const CHANGES: &[u8] = b"turn 0 arrive normal 2 kind modify.data.any path /w/a file\n\
    turn 0 work\n\
    turn 1 arrive normal 3 kind create.file path /w/b file path /w/c file\n\
    turn 1 work\n\
    turn 50000000 work\n\
    turn 60000000 arrive urgent 2 kind remove.file path /w/a none\n\
    turn 60000000 work\n";

const PRINTED: &[u8] = b"/w/a\n/w/b\n/w/c\n/w/a\n";

const CHANGED: &[u8] = b"turn 0 arrive normal 2 kind modify.data.any path /w/a file\n\
    offer 0 - queued normal 2 kind modify.data.any path /w/a file\n\
    turn 0 work\ntake 0\nfilter 0 0 pass\n\
    turn 1 arrive normal 3 kind create.file path /w/b file path /w/c file\n\
    offer 1 - queued normal 3 kind create.file path /w/b file path /w/c file\n\
    turn 1 work\ntake 1\nfilter 0 1 pass\n\
    turn 50000000 work\nhand 0 2 0 1\n\
    turn 60000000 arrive urgent 2 kind remove.file path /w/a none\n\
    offer 2 - queued urgent 2 kind remove.file path /w/a none\n\
    turn 60000000 work\ntake 2\nhand 0 1 2\n\
    turn 60000000 last\nend ok lost 0\n";

#[test]
fn a_handler_prints_what_changed(rt: HostRuntime) -> Result<(), Fail> {
    let page = Page::new(rt.alloc())?;
    let journal = prints::run(rt.alloc(), page.share()?, CHANGES)?;
    assert!(rt; has_lines(&journal, CHANGED));
    assert!(rt; page.read()?.as_slice() == PRINTED);
    Ok(())
}

/// A change, one more while the program runs, an interrupt, and the turns of the job between them.
const BATCHES: &[u8] = b"turn 0 arrive urgent 0\nturn 0 work\n\
    turn 1 job 0\nturn 2 job 0\n\
    turn 3 arrive urgent 0\nturn 3 work\n\
    turn 4 job 0\nturn 5 ended 0\nturn 6 job 0\n\
    turn 7 signal interrupt\nturn 7 work\n\
    turn 8 job 0\nturn 9 ended 1\nturn 10 job 0\nturn 11 job 0\n";

const RESTARTED: &[u8] = b"turn 0 arrive urgent 0\noffer 0 - queued urgent 0\n\
    turn 0 work\ntake 0\n\
    hand 0 1 0 create 0 exec ---- 2 make all ask 0 restartsignal terminate 5000000000\n\
    made 0\nasked 0 0 normal gracefulstop terminate 5000000000\nasked 1 0 normal start\n\
    turn 1 job 0\npick 0 0\nraise 0\n\
    turn 2 job 0\npick 0 1\nspawn 0 0 default ---- 2 make all ok\nraise 1\n\
    turn 3 arrive urgent 0\noffer 1 - queued urgent 0\n\
    turn 3 work\ntake 1\n\
    hand 0 1 1 ask 0 restartsignal terminate 5000000000\n\
    asked 2 0 normal gracefulstop terminate 5000000000\nasked 3 0 normal start\n\
    turn 4 job 0\npick 0 2\nsignal 0 15 ok\n\
    turn 5 ended 0\nwait 0 success\nraise 2\n\
    turn 6 job 0\npick 0 3\nspawn 1 0 default ---- 2 make all ok\nraise 3\n\
    turn 7 signal interrupt\noffer 2 - queued urgent 2 source keyboard signal interrupt\n\
    turn 7 work\ntake 2\nhand 0 1 2 quitgracefully terminate 5000000000\n\
    asked 4 0 normal gracefulstop terminate 5000000000\n\
    asked 5 0 normal stop\nasked 6 0 normal delete\n\
    turn 8 job 0\npick 0 4\nsignal 1 15 ok\n\
    turn 9 ended 1\nwait 1 success\nraise 4\n\
    turn 10 job 0\npick 0 5\nraise 5\n\
    turn 11 job 0\npick 0 6\nraise 6\ngone 0\n\
    end ok lost 0\n";

#[test]
fn a_handler_restarts_a_program(rt: HostRuntime) -> Result<(), Fail> {
    let journal = restarts::run(rt.alloc(), BATCHES)?;
    assert!(rt; has_lines(&journal, RESTARTED));
    Ok(())
}

/// A directory with two others, of which one is named `target`. It is watched until there is nothing left to do. Then two files
/// change.
const TREE: &[u8] = b"node dir /\nnode dir /w\nnode dir /w/src\nnode dir /w/target\n\
    turn 0 file\nturn 1 file\nturn 2 file\nturn 3 file\nturn 4 file\nturn 5 file\nturn 6 file\nturn 7 file\n\
    turn 8 arrive normal 1 path /w/src/a.rt file\nturn 8 work\n\
    turn 9 arrive normal 1 path /w/src/a.o file\nturn 9 work\n\
    turn 50000008 work\n";

/// The root, its listing, what that has, the listing of one, and the sweep each take a step.
const FILTERED: &[u8] = b"turn 0 file\napplied 1\nmake 0 native on ok\n\
    turn 1 file\nword stepped\nturn 2 file\nword stepped\n\
    turn 3 file\ndir 0 /w/src pass\nword stepped\n\
    turn 4 file\ndir 0 /w/target reject\nword stepped\n\
    turn 5 file\nword stepped\nturn 6 file\nword stepped\nturn 7 file\nready 1\n\
    turn 8 arrive normal 1 path /w/src/a.rt file\n\
    offer 0 - queued normal 1 path /w/src/a.rt file\n\
    turn 8 work\ntake 0\nfilter 0 0 pass\n\
    turn 9 arrive normal 1 path /w/src/a.o file\n\
    offer 1 - queued normal 1 path /w/src/a.o file\n\
    turn 9 work\ntake 1\nfilter 0 1 reject\n\
    turn 50000008 work\nhand 0 1 0\n\
    turn 50000008 last\nend ok lost 0\n";

#[test]
fn a_filter_of_ones_own(rt: HostRuntime) -> Result<(), Fail> {
    let journal = filters::run(rt.alloc(), TREE)?;
    assert!(rt; has_lines(&journal, FILTERED));
    Ok(())
}

/// A change, and the turns of the job.
const STARTS: &[u8] = b"turn 0 arrive urgent 0\nturn 0 work\nturn 1 job 0\nturn 2 job 0\n";

const STARTED: &[u8] = b"turn 0 arrive urgent 0\noffer 0 - queued urgent 0\n\
    turn 0 work\ntake 0\n\
    hand 0 1 0 create 0 exec ---- 1 serve ask 0 sethook 0 ask 0 start\n\
    made 0\nasked 0 0 normal sethook 0\nasked 1 0 normal start\n\
    turn 1 job 0\npick 0 0\nraise 0\n\
    turn 2 job 0\npick 0 1\nhook 0 0 ---- 3 env PORT=8000 serve\n\
    spawn 0 0 default ---- 3 env PORT=8000 serve ok\nraise 1\n\
    turn 2 last\ndrop 0\ngone 0\nend ok lost 0\n";

#[test]
fn a_hook_sets_a_variable(rt: HostRuntime) -> Result<(), Fail> {
    let journal = env::run(rt.alloc(), STARTS)?;
    assert!(rt; has_lines(&journal, STARTED));
    Ok(())
}

/// The stop has a grace of two nanoseconds, which is over before the program ends.
const SUPERVISED: &[u8] = b"made 0\nasked 0 0 normal start\n\
    turn 1 job 0\npick 0 0\nspawn 0 0 default ---- 1 serve ok\nraise 0\n\
    asked 1 0 normal signal user1\n\
    turn 2 job 0\npick 0 1\nsignal 0 10 ok\nraise 1\n\
    asked 2 0 normal gracefulstop terminate 2\n\
    turn 3 job 0\npick 0 2\nsignal 0 15 ok\n\
    turn 4 job 0\nword idle\n\
    turn 5 job 0\ngrace 0\nkill 0 ok\nwait 0 success\nraise 2\n\
    asked 3 0 urgent stop\nasked 4 0 urgent delete\n\
    turn 6 job 0\npick 0 3\nraise 3\n\
    turn 7 job 0\npick 0 4\nraise 4\ngone 0\n";

#[test]
fn a_job_is_supervised(rt: HostRuntime) -> Result<(), Fail> {
    let journal = supervises::run(&rt)?;
    assert!(rt; journal.as_slice() == SUPERVISED);
    Ok(())
}
