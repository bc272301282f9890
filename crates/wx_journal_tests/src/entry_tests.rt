// Entries: their lines, the values that are read from them, and what is no entry.
use crate::expecting::{expect_no, expect_yes};
use std::alloc::Global;
use std::process::Abort;
use wx_journal::Entry;
use wx_text::{Memory, Text};
use wx_words::Words;
use wx_words_trial::has_fields;

/// The entry whose words are this whole line.
pub(crate) fn read_entry(alloc: Global, line: &str) -> Result<Option<Entry>, Memory> {
    let mut words = Words::new(line.as_bytes());
    let found = Entry::take(alloc, &mut words)?;
    if words.is_done() { Ok(found) } else { Ok(None) }
}

/// Whether this is the line of an entry.
fn is_written(alloc: Global, entry: &Entry, line: &str) -> Result<bool, Memory> {
    let mut text = Text::new(alloc);
    entry.put(&mut text)?;
    Ok(text.as_slice() == line.as_bytes())
}

/// Whether this whole line is an entry, and is written so again.
fn is_entry(alloc: Global, line: &str) -> Result<bool, Memory> {
    match read_entry(alloc, line)? {
        Some(entry) => is_written(alloc, &entry, line),
        None => Ok(false),
    }
}

/// Whether this whole line is the entry with these fields.
fn is_value(alloc: Global, line: &str, fields: &str) -> Result<bool, Memory> {
    match read_entry(alloc, line)? {
        Some(entry) => has_fields(alloc, &entry, fields),
        None => Ok(false),
    }
}

/// Holds each line of this table to be the entry with the fields that stand behind it, and to be written so again.
fn expect_values(rt: &impl Abort, alloc: Global, table: &str) {
    for case in table.lines() {
        let (line, fields) = case.split_once(" = ").expect(rt, "a line and fields");
        expect_yes(rt, is_value(alloc, line, fields), case);
        expect_yes(rt, is_entry(alloc, line), case);
    }
}

// Each line stands with the value that it is read as, in which texts stand as their bytes.
// Entries of a run, of its turns and of events.
const OF_RUNS: &str = "\
begin throttle 50000000 size 4096 errors 64 keyboard off follow on jobsignals off watcher poll 5 cwd / paths 2 r /a n /b%20c = Begin(Beginning { throttle: 50000000, size: 4096, errors: 64, keyboard: false, follow: true, jobsignals: false, watcher: Poll(5), cwd: TextPath { text: Text { bytes: [47] } }, paths: List { items: [WatchedPath { path: TextPath { text: Text { bytes: [47, 97] } }, recursive: true }, WatchedPath { path: TextPath { text: Text { bytes: [47, 98, 32, 99] } }, recursive: false }] } })
turnfault 5 = TurnFault(5)
word idle = Word(Idle)
word ignored = Word(Ignored)
word quitting = Word(Quitting)
word later = Word(Later)
word quiet = Word(Quiet)
word stepped = Word(Stepped)
take 1 = Take(1)
sent 0 urgent 0 = Sent { name: 0, event: Event { tags: List { items: [] } }, priority: Urgent }
offer 1 - full low 0 = Offer { name: 1, item: None, result: Full, event: Event { tags: List { items: [] } }, priority: Low }
offer 2 - closed high 0 = Offer { name: 2, item: None, result: Closed, event: Event { tags: List { items: [] } }, priority: High }
offer 1 - queued normal 0 = Offer { name: 1, item: None, result: Queued, event: Event { tags: List { items: [] } }, priority: Normal }
offer 1 0 queued normal 0 = Offer { name: 1, item: Some(0), result: Queued, event: Event { tags: List { items: [] } }, priority: Normal }
offer 1 3 queued normal 0 = Offer { name: 1, item: Some(3), result: Queued, event: Event { tags: List { items: [] } }, priority: Normal }
filter 1 3 pass = Filter { n: 1, name: 3, answer: Ok(true) }
filter 1 3 reject = Filter { n: 1, name: 3, answer: Ok(false) }
filter 1 3 fail exit = Filter { n: 1, name: 3, answer: Err(Exit) }
filter 1 3 fail filterer glob bad%20rule = Filter { n: 1, name: 3, answer: Err(Filterer { kind: Text { bytes: [103, 108, 111, 98] }, err: Text { bytes: [98, 97, 100, 32, 114, 117, 108, 101] } }) }
hand 0 1 0 = Hand { n: 0, names: List { items: [0] }, acts: List { items: [] } }
hand 0 2 0 1 quit = Hand { n: 0, names: List { items: [0, 1] }, acts: List { items: [Quit] } }
hand 0 1 0 create 0 exec ---- 2 1 a ask 0 start quit = Hand { n: 0, names: List { items: [0] }, acts: List { items: [Create(Id(0), Command { program: Exec { prog: Text { bytes: [49] }, args: List { items: [Text { bytes: [97] }] } }, options: SpawnOptions { grouped: false, session: false, reset_sigmask: false, grant_foreground: false } }), Ask(Id(0), One(Start)), Quit] } }
turn 7 arrive low 0 = Turn(Turn { at: 7, kind: Arrive(Event { tags: List { items: [] } }, Low) })
turn 7 signal interrupt = Turn(Turn { at: 7, kind: Signal(Interrupt) })
turn 7 keys 3 3 0 255 = Turn(Turn { at: 7, kind: Keys(List { items: [3, 0, 255] }) })
turn 7 work = Turn(Turn { at: 7, kind: Work })
turn 7 job 3 = Turn(Turn { at: 7, kind: Job(Id(3)) })
turn 7 ended 2 = Turn(Turn { at: 7, kind: Ended(2) })
turn 7 ask 3 start = Turn(Turn { at: 7, kind: Ask(Id(3), One(Start)) })
turn 7 change throttle 5 = Turn(Turn { at: 7, kind: Change(Throttle(5)) })
turn 7 listen = Turn(Turn { at: 7, kind: Listen })
turn 7 file = Turn(Turn { at: 7, kind: File })
turn 7 last = Turn(Turn { at: 7, kind: Last })";

// Entries of jobs and their children.
const OF_JOBS: &str = "\
made 3 = Made(Id(3))
asked 4 3 high stop = Asked { ticket: 4, job: Id(3), level: High, control: Stop }
pick 3 4 = Pick { job: Id(3), ticket: 4 }
raise 4 = Raise(4)
gone 3 = Gone(Id(3))
spawn 2 3 default g--- 2 sh a%20b ok = Spawn { child: 2, job: Id(3), tag: Default, what: Spawnable { words: List { items: [Text { bytes: [115, 104] }, Text { bytes: [97, 32, 98] }] }, options: SpawnOptions { grouped: true, session: false, reset_sigmask: false, grant_foreground: false } }, answer: Ok(()) }
spawn 2 3 default g--- 2 sh a%20b fault 9 = Spawn { child: 2, job: Id(3), tag: Default, what: Spawnable { words: List { items: [Text { bytes: [115, 104] }, Text { bytes: [97, 32, 98] }] }, options: SpawnOptions { grouped: true, session: false, reset_sigmask: false, grant_foreground: false } }, answer: Err(HostFault(9)) }
drop 2 = Dropped(2)
hook 3 2 ---- 2 sh a%20b = Hook { job: Id(3), n: 2, answer: Ok(Spawnable { words: List { items: [Text { bytes: [115, 104] }, Text { bytes: [97, 32, 98] }] }, options: SpawnOptions { grouped: false, session: false, reset_sigmask: false, grant_foreground: false } }) }
hook 3 2 memory = Hook { job: Id(3), n: 2, answer: Err(Memory) }
run 3 7 = Run { job: Id(3), n: 7 }
begun 3 7 = Begun { job: Id(3), n: 7 }
poll 3 7 ready = Poll { job: Id(3), n: 7, ready: true }
poll 3 7 later = Poll { job: Id(3), n: 7, ready: false }
joberror 3 7 4294967295 = JobError { job: Id(3), n: 7, code: 4294967295 }
kill 2 ok = Kill { child: 2, answer: Ok(()) }
kill 2 fault 3 = Kill { child: 2, answer: Err(HostFault(3)) }
signal 2 15 ok = Signal { child: 2, number: 15, answer: Ok(()) }
signal 2 -3 fault 3 = Signal { child: 2, number: -3, answer: Err(HostFault(3)) }
grace 7 = GraceOver(Id(7))
wait 2 success = Wait { child: 2, answer: Ok(Success) }
wait 2 error.7 = Wait { child: 2, answer: Ok(ExitError(7)) }
wait 2 signal.terminate = Wait { child: 2, answer: Ok(ExitSignal(Terminate)) }
wait 2 fault 4294967295 = Wait { child: 2, answer: Err(HostFault(4294967295)) }";

// Entries about what is watched.
const OF_FILES: &str = "\
dir 3 /w%20a pass = Dir { n: 3, path: TextPath { text: Text { bytes: [47, 119, 32, 97] } }, answer: Ok(true) }
dir 3 /w%20a reject = Dir { n: 3, path: TextPath { text: Text { bytes: [47, 119, 32, 97] } }, answer: Ok(false) }
dir 3 /w%20a fail exit = Dir { n: 3, path: TextPath { text: Text { bytes: [47, 119, 32, 97] } }, answer: Err(Exit) }
dir 3 /w%20a fail filterer glob bad%20rule = Dir { n: 3, path: TextPath { text: Text { bytes: [47, 119, 32, 97] } }, answer: Err(Filterer { kind: Text { bytes: [103, 108, 111, 98] }, err: Text { bytes: [98, 97, 100, 32, 114, 117, 108, 101] } }) }
make 0 native off ok = Make { back: 0, watcher: Native, follow: false, answer: Ok(()) }
make 2 poll 5 on ok = Make { back: 2, watcher: Poll(5), follow: true, answer: Ok(()) }
make 2 poll 5 on fail generic no%20luck 1 /w = Make { back: 2, watcher: Poll(5), follow: true, answer: Err(NotifyFault { kind: Generic(Text { bytes: [110, 111, 32, 108, 117, 99, 107] }), paths: List { items: [TextPath { text: Text { bytes: [47, 119] } }] } }) }
make 2 poll 5 on fail io 28 1 /w = Make { back: 2, watcher: Poll(5), follow: true, answer: Err(NotifyFault { kind: Io(28), paths: List { items: [TextPath { text: Text { bytes: [47, 119] } }] } }) }
make 2 poll 5 on fail nopath 1 /w = Make { back: 2, watcher: Poll(5), follow: true, answer: Err(NotifyFault { kind: PathNotFound, paths: List { items: [TextPath { text: Text { bytes: [47, 119] } }] } }) }
make 2 poll 5 on fail nowatch 1 /w = Make { back: 2, watcher: Poll(5), follow: true, answer: Err(NotifyFault { kind: WatchNotFound, paths: List { items: [TextPath { text: Text { bytes: [47, 119] } }] } }) }
make 2 poll 5 on fail badconfig 1 /w = Make { back: 2, watcher: Poll(5), follow: true, answer: Err(NotifyFault { kind: InvalidConfig, paths: List { items: [TextPath { text: Text { bytes: [47, 119] } }] } }) }
make 2 poll 5 on fail maxwatches 1 /w = Make { back: 2, watcher: Poll(5), follow: true, answer: Err(NotifyFault { kind: MaxFilesWatch, paths: List { items: [TextPath { text: Text { bytes: [47, 119] } }] } }) }
make 2 poll 5 on fail memory 1 /w = Make { back: 2, watcher: Poll(5), follow: true, answer: Err(NotifyFault { kind: Memory, paths: List { items: [TextPath { text: Text { bytes: [47, 119] } }] } }) }
applied 0 = Applied(0)
applied 18446744073709551615 = Applied(18446744073709551615)
brought 3 2 ok modify.data.any 1 /w/a file - - = Brought { item: 3, back: 2, answer: Ok(Notify { kind: Modify(Data(Any)), paths: List { items: [NotifyPath { path: TextPath { text: Text { bytes: [47, 119, 47, 97] } }, file_type: Some(File) }] }, rescan: false, process: None }) }
brought 3 2 fail io 28 0 = Brought { item: 3, back: 2, answer: Err(NotifyFault { kind: Io(28), paths: List { items: [] } }) }
brought 3 2 fail memory 0 = Brought { item: 3, back: 2, answer: Err(NotifyFault { kind: Memory, paths: List { items: [] } }) }
heard 3 = Heard(3)
letgo 3 full = LetGo { item: 3, cause: Full }
letgo 3 obsolete = LetGo { item: 3, cause: Obsolete }
letgo 3 uncovered = LetGo { item: 3, cause: Uncovered }
ready 18446744073709551615 = Ready(18446744073709551615)";

#[test]
fn entries_of_runs(rt: HostRuntime) {
    expect_values(&rt, rt.alloc(), OF_RUNS);
}

#[test]
fn entries_of_jobs(rt: HostRuntime) {
    expect_values(&rt, rt.alloc(), OF_JOBS);
}

#[test]
fn entries_of_what_is_watched(rt: HostRuntime) {
    expect_values(&rt, rt.alloc(), OF_FILES);
}

const ENTRIES: &str = "\
begin throttle 0 size 1 errors 2 keyboard on follow off jobsignals on watcher native cwd /a paths 0
turn 7 change paths 2 r /a n /b%20c
offer 2 7 queued high 0
offer 3 0 full normal 3 source filesystem kind modify.data.any path /w/a file
offer 4 18446744073709551615 closed normal 0
show 2 memory elevate
hand 0 1 0 change signal change throttle 5 quit
changed 18446744073709551615
dir 0 /w pass
dir 4294967295 /w/a%20b reject
dir 1 % fail memory
dir 1 /w fail filterer glob bad%20rule
make 0 native on ok
make 18446744073709551615 poll 0 off ok
make 1 native off fail generic no%20luck 0
make 1 poll 5 on fail io 28 1 /w
make 1 native on fail nopath 1 /w/a%20b
make 1 native on fail nowatch 2 /w /v
make 1 native on fail badconfig 0
make 1 poll 18446744073709551615 off fail maxwatches 0
make 1 native on fail memory 0
heard 0
heard 18446744073709551615
brought 0 0 ok modify.data.any 1 /w/a file - -
brought 1 0 ok any 0 rescan 4294967295
brought 18446744073709551615 18446744073709551615 ok modify.name.both 2 /w/a%20b none /v dir - 7
brought 2 1 fail generic no%20luck 1 /w
brought 2 1 fail io 28 0
brought 2 1 fail nopath 1 /w/a%20b
brought 2 1 fail nowatch 0
brought 2 1 fail badconfig 0
brought 2 1 fail maxwatches 2 /w /v
brought 2 1 fail memory 0
letgo 0 full
letgo 1 obsolete
letgo 18446744073709551615 uncovered
ready 0";

#[test]
fn entries_are_read_again(rt: HostRuntime) {
    for line in ENTRIES.lines() {
        expect_yes(&rt, is_entry(rt.alloc(), line), line);
    }
}

// The first line is empty.
const NO_ENTRIES: &str = "
begin
begin throttle 0 size 1 errors 2 keyboard on follow off jobsignals on watcher native cwd /a
begin size 1 throttle 0 errors 2 keyboard on follow off jobsignals on watcher native cwd /a paths 0
sent 0 0 urgent
turn work
turn file
turn 7 files
turn listen
turn 7 listens
turn 7 change
turnfault 4294967296
offer 1 full low 0
offer 1 -1 full low 0
offer - 1 full low 0
offer 1 18446744073709551616 full low 0
word done
word step
word Stepped
take -1
filter 1 3
show 2 memory
hand
hand 0
hand 0 2 0 quit
made x
asked 4 3 stop high
changed
changed 18446744073709551616
pick 3
grace
spawn 2 3 default g--- 2 sh a%20b
signal 2 -3
kill 2 success
wait 2 ok
drop
raise 18446744073709551616
gone 4294967296
run 3
begun 7
poll 3 7
hook 3 2
joberror 3 7
dir
dir 0
dir 0 /w
dir /w 0 pass
dir 4294967296 /w pass
dir 0 /w ok
dir 0 /w fail
dir 0 /w/a b pass
make
make 0
make 0 native ok
make 0 native on
make 0 on native ok
make 0 native yes ok
make 0 poll on ok
make native on ok
make -1 native on ok
make 18446744073709551616 native on ok
make 0 native on pass
make 0 native on fault 3
make 0 native on fail
make 0 native on fail maxwatches
make 0 native on fail io 1 /w
make 0 native on fail nopath 2 /w
applied
applied -1
applied 18446744073709551616
heard
heard -
heard 18446744073709551616
brought
brought 0
brought 0 0
brought 0 ok any 0 - -
brought 0 0 any 0 - -
brought 0 0 ok
brought 0 0 ok any 0 -
brought 0 0 ok any 1 /w - -
brought 0 0 ok io 28 0
brought 0 0 ok any 0 - 4294967296
brought 0 0 fail
brought 0 0 fail any 0 - -
brought 0 0 fault 3
brought 0 0 pass
brought - 0 fail memory 0
brought 18446744073709551616 0 fail memory 0
brought 0 18446744073709551616 fail memory 0
letgo
letgo 0
letgo full 0
letgo 0 queued
letgo 0 Full
letgo -1 full
letgo 18446744073709551616 full
ready
ready -1
ready 18446744073709551616
end ok lost 0
Made 3";

/// Whether no entry stands at the front of this line, and the line is left as it was.
fn is_left(alloc: Global, line: &str) -> Result<bool, Memory> {
    let mut words = Words::new(line.as_bytes());
    let none = Entry::take(alloc, &mut words)?.is_none();
    Ok(none && words.next() == Words::new(line.as_bytes()).next())
}

#[test]
fn what_is_no_entry_is_left(rt: HostRuntime) {
    for line in NO_ENTRIES.lines() {
        expect_yes(&rt, is_left(rt.alloc(), line), line);
    }
}

/// Whether the entry at the front of these words, which is taken, has this line.
fn is_next(alloc: Global, words: &mut Words, line: &str) -> Result<bool, Memory> {
    match Entry::take(alloc, words)? {
        Some(entry) => is_written(alloc, &entry, line),
        None => Ok(false),
    }
}

#[test]
fn what_stands_behind_an_entry_is_left(rt: HostRuntime) {
    let mut words = Words::new(b"hand 0 1 0 ask 0 start quit made 3 hand 0 0 x");
    for line in &["hand 0 1 0 ask 0 start quit", "made 3", "hand 0 0"] {
        expect_yes(&rt, is_next(rt.alloc(), &mut words, line), line);
    }
    expect_no(&rt, is_next(rt.alloc(), &mut words, "x"), "x");
    assert!(rt; words.next() == Some(b"x".as_slice()));
}
