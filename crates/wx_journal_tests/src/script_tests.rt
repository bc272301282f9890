// Tests of reading scripts: what each has is counted by hand.
use std::alloc::Global;
use std::process::Abort;
use wx_error::RuntimeError;
use wx_script::{Script, read_script};
use wx_text::{List, Text};

/// What the script of these bytes is, if it is one.
fn script_in(alloc: Global, bytes: &[u8]) -> Option<Script> {
    read_script(alloc, bytes).ok()?.ok()
}

/// The number of the bad line of these bytes.
fn bad_line(alloc: Global, bytes: &[u8]) -> Option<u64> {
    let bad = read_script(alloc, bytes).ok()?.err()?;
    Some(bad.0)
}

/// How many sends, turns and actions the script has, and its throttle, its size and the moment of its last turn.
fn turn_counts(script: &Script) -> [u64; 6] {
    [
        script.sends.len() as u64,
        script.turns.len() as u64,
        script.actions.len() as u64,
        script.throttle,
        script.size as u64,
        script.last,
    ]
}

/// Ends the test where this isn't so of the script of these bytes.
fn expect_so(rt: &impl Abort, so: bool, bytes: &[u8]) {
    assert!(rt; so, "at {bytes:?}");
}

/// Of what in a script something is counted.
#[derive(Clone, Copy)]
enum Counted {
    Turns,
    Jobs,
    Filters,
    Dirs,
    Files,
    Errors,
    Hooks,
}

/// What is counted of this in a script, and zeros behind it.
fn counts(script: &Script, of: Counted) -> [u64; 6] {
    match of {
        Counted::Turns => turn_counts(script),
        Counted::Jobs => job_counts(script),
        Counted::Filters => filter_counts(script),
        Counted::Dirs => dir_counts(script),
        Counted::Files => file_counts(script),
        Counted::Errors => error_counts(script),
        Counted::Hooks => hook_counts(script),
    }
}

/// Whether this is counted of the script of these bytes, if it is one. A script is long to drop: it is done here alone.
fn is_counted(alloc: Global, bytes: &[u8], of: Counted, want: &[u64]) -> bool {
    match script_in(alloc, bytes) {
        Some(script) => counts(&script, of).starts_with(want),
        None => false,
    }
}

/// Holds what is counted of this in each of these scripts to what stands beside it.
fn each_script(rt: &impl Abort, alloc: Global, of: Counted, table: &[(&[u8], &[u64])]) {
    for (bytes, want) in table {
        expect_so(rt, is_counted(alloc, bytes, of, want), bytes);
    }
}

/// How many items the first of these lists has, 0 where there is none.
fn first_len<T>(lists: &[List<T>]) -> u64 {
    match lists.first() {
        Some(list) => list.len() as u64,
        None => 0,
    }
}

/// The first line of each of these scripts is bad.
fn each_is_bad(rt: &impl Abort, alloc: Global, table: &[&[u8]]) {
    for bytes in table {
        expect_so(rt, bad_line(alloc, bytes) == Some(1), bytes);
    }
}

const SCRIPTS: [(&[u8], &[u64]); 5] = [
    (b"", &[0, 0, 0, 50_000_000, 4096, 0]),
    (
        b"# a script\nset size 64\n\nset size 2\nset throttle 7\nsend urgent 0\nsend low 0\naction quit quit\nturn 0 arrive normal 0\nturnfault 5\naction\nturn 10000000 work\nturn 10000000 arrive high 0\n",
        &[2, 4, 2, 7, 2, 10_000_000],
    ),
    (b"set size 65536\n", &[0, 0, 0, 50_000_000, 65_536, 0]),
    (
        b"set throttle 18446744073709551615\nturn 18446744073709551615 work\n",
        &[0, 1, 0, u64::MAX, 4096, u64::MAX],
    ),
    (
        b"action\nset size 1\nturnfault 4294967295\n",
        &[0, 1, 1, 50_000_000, 1, 0],
    ),
];

#[test]
fn reads_scripts(rt: HostRuntime) {
    each_script(&rt, rt.alloc(), Counted::Turns, &SCRIPTS);
}

/// How many acts the first action of the script has, and how many answers to spawns, signals, kills and waits the script has.
fn job_counts(script: &Script) -> [u64; 6] {
    [
        first_len(script.actions.as_slice()),
        script.answers.spawns.len() as u64,
        script.answers.signals.len() as u64,
        script.answers.kills.len() as u64,
        script.answers.waits.len() as u64,
        0,
    ]
}

const JOBS: [(&[u8], &[u64]); 10] = [
    (
        b"action getcreate 0 exec ---- 1 a create exec ---- 1 b getcreate 4294967295 exec g-r- 2 a %20 quit\n",
        &[4, 0, 0, 0, 0],
    ),
    (
        b"action create exec ---- 1 a ask 0 start quit\n",
        &[3, 0, 0, 0, 0],
    ),
    (
        b"action ask 4294967295 stop create exec g-r- 2 a %20 create exec ---- 1 b\n",
        &[3, 0, 0, 0, 0],
    ),
    (
        b"action ask 0 gracefulstop custom.-3 0 ask 0 tryrestart ask 0 trygracefulrestart quit 18446744073709551615 ask 0 continue ask 0 signal hangup ask 0 delete ask 0 nextending\n",
        &[7, 0, 0, 0, 0],
    ),
    (
        b"action ask 0 restart ask 0 restartsignal user1 5 ask 0 stopdelete ask 0 deletenow ask 0 towait\n",
        &[5, 0, 0, 0, 0],
    ),
    (
        b"spawn ok\nspawn fault 5\nkill ok\nspawn ok\n",
        &[0, 3, 0, 1, 0],
    ),
    (
        b"signal fault 4294967295\nkill ok\nsignal ok\nturn 0 ask 0 signal suspend\nsignal fault 0\n",
        &[0, 0, 3, 1, 0],
    ),
    (
        b"kill fault 4294967295\nwait success\nwait error.7\nwait fault 2\nwait signal.custom.64\n",
        &[0, 0, 0, 1, 4],
    ),
    (
        b"turn 0 job 0\nspawn ok\nturn 0 ended 18446744073709551615\nturn 1 ask 3 stop\nwait continued\n",
        &[0, 1, 0, 0, 1],
    ),
    (
        b"spawn ok\nset size 2\nkill ok\nsend low 0\nsignal ok\nwait success\nturn 0 work\n",
        &[0, 1, 1, 1, 1],
    ),
];

#[test]
fn reads_lines_about_jobs(rt: HostRuntime) {
    each_script(&rt, rt.alloc(), Counted::Jobs, &JOBS);
}

/// How many sends, turns and answers of the filter the script has.
fn filter_counts(script: &Script) -> [u64; 6] {
    let (sends, turns) = (script.sends.len(), script.turns.len());
    let filters = script.filters.len();
    [sends as u64, turns as u64, filters as u64, 0, 0, 0]
}

const FILTERS: [(&[u8], &[u64]); 4] = [
    (b"filter pass\nfilter reject\n", &[0, 0, 2]),
    (
        b"filter fail exit\nfilter fail filterer glob bad%20rule\nfilter fail memory\n",
        &[0, 0, 3],
    ),
    (
        b"send normal 2 process 7 signal quit\nfilter pass\nturn 0 arrive low 1 path /a%20b dir\n",
        &[1, 1, 1],
    ),
    (
        b"turn 0 arrive urgent 3 kind create.file source os key ctrl.char.a\nfilter pass\n",
        &[0, 1, 1],
    ),
];

#[test]
fn reads_lines_about_filters(rt: HostRuntime) {
    each_script(&rt, rt.alloc(), Counted::Filters, &FILTERS);
}

/// How many of these answers stand before the first that is no.
fn before_first_no(answers: &[Result<bool, RuntimeError>]) -> u64 {
    let mut before = 0u64;
    for answer in answers {
        if matches!(answer, Ok(false)) {
            return before;
        }
        before = before.saturating_add(1);
    }
    before
}

/// How many answers of the filter about events and about directories the script has, how many of the latter stand before the first
/// that excludes one, and how many patterns.
fn dir_counts(script: &Script) -> [u64; 6] {
    let (filters, dirs) = (script.filters.len(), script.dirs.len());
    let before = before_first_no(script.dirs.as_slice());
    [
        filters as u64,
        dirs as u64,
        before,
        script.ignores.len() as u64,
        0,
        0,
    ]
}

const DIRS: [(&[u8], &[u64]); 6] = [
    (b"", &[0, 0, 0]),
    (b"dir pass\n", &[0, 1, 1]),
    (b"dir reject\ndir pass\n", &[0, 2, 0]),
    (
        b"dir fail exit\nfilter reject\ndir pass\nfilter pass\ndir reject\n",
        &[2, 3, 2],
    ),
    (
        b"dir fail filterer glob bad%20rule\ndir fail memory\n",
        &[0, 2, 2],
    ),
    (
        b"dir pass\nset size 2\nsend low 0\ndir reject\nturn 0 work\ndir pass\nturnfault 5\ndir reject\n",
        &[0, 4, 1],
    ),
];

#[test]
fn reads_lines_about_directories(rt: HostRuntime) {
    each_script(&rt, rt.alloc(), Counted::Dirs, &DIRS);
}

const IGNORES: [(&[u8], &[u64]); 4] = [
    (b"ignore a\n", &[0, 0, 0, 1]),
    (b"ignore !/a%20b/**/c/\n", &[0, 0, 0, 1]),
    (b"ignore ...\nignore !!\nignore */?\n", &[0, 0, 0, 3]),
    (
        b"ignore a\nset size 2\ndir pass\nsend low 0\nignore a\nturn 0 work\nignore b\n",
        &[0, 1, 1, 3],
    ),
];

#[test]
fn reads_lines_about_what_is_ignored(rt: HostRuntime) {
    each_script(&rt, rt.alloc(), Counted::Dirs, &IGNORES);
}

const NO_IGNORES: [&[u8]; 16] = [
    b"ignore\n",
    b"ignore \n",
    b"ignore a",
    b"ignore a b\n",
    b"ignore a \n",
    b"ignore /\n",
    b"ignore //\n",
    b"ignore !\n",
    b"ignore !/\n",
    b"ignore .\n",
    b"ignore ..\n",
    b"ignore a//b\n",
    b"ignore //a\n",
    b"ignore a/../b\n",
    b"ignore a/./b\n",
    b"ignores a\n",
];

#[test]
fn refuses_lines_about_what_is_ignored(rt: HostRuntime) {
    each_is_bad(&rt, rt.alloc(), &NO_IGNORES);
}

const NO_DIRS: [&[u8]; 19] = [
    b"dir\n",
    b"dir \n",
    b"dir pass",
    b"dir passes\n",
    b"dir Pass\n",
    b"dir pass \n",
    b"dir pass 0\n",
    b"dir pass reject\n",
    b"dir ok\n",
    b"dir ready\n",
    b"dir reject /w\n",
    b"dir /w reject\n",
    b"dir 0 /w pass\n",
    b"dir fail\n",
    b"dir fail none\n",
    b"dir fail exit 0\n",
    b"dir fail filterer glob\n",
    b"dirs pass\n",
    b"set dir pass\n",
];

#[test]
fn refuses_lines_about_directories(rt: HostRuntime) {
    each_is_bad(&rt, rt.alloc(), &NO_DIRS);
}

/// What the script has of files: for how many turns it has changes of the tree, how many changes before the first of these, how many
/// behind the last, and how many answers of the maker, looks that fail and calls on backends that fail.
fn file_counts(script: &Script) -> [u64; 6] {
    [
        script.edits.len() as u64,
        first_len(script.edits.as_slice()),
        script.pending.len() as u64,
        script.answers.makes.len() as u64,
        script.failing_looks.len() as u64,
        script.failing_watches.len() as u64,
    ]
}

const FILES: [(&[u8], &[u64]); 8] = [
    (b"", &[0, 0, 0, 0, 0, 0]),
    (b"node dir /\nnode dir /w\n", &[0, 0, 2, 0, 0, 0]),
    (
        b"node dir /\nnode dir /w\nturn 0 file\ngone /w\n",
        &[1, 2, 1, 0, 0, 0],
    ),
    (
        b"turn 0 work\nnode file /f 18446744073709551615\nturnfault 5\nnode link /l ../x\nnode link /m %\nturn 0 file\n",
        &[3, 0, 0, 0, 0, 0],
    ),
    (
        b"node dir /a%20b\nset size 2\nsend low 0\nnode file /a%20b/.x 0\nturn 0 file\n",
        &[1, 2, 0, 0, 0, 0],
    ),
    (
        b"make ok\nturn 0 file\nmake fail nopath 0\nmake fail io 28 1 /w\nmake fail memory 0\n",
        &[1, 0, 0, 4, 0, 0],
    ),
    (
        b"fail scan 0 4294967295\nturn 0 file\nfail scan 18446744073709551615 0\nfail watch 3 5\n",
        &[1, 0, 0, 0, 2, 1],
    ),
    (
        b"fail watch 3 5\nfail watch 3 6\nset follow off\nmake fail generic a%20b 2 / /w\n",
        &[0, 0, 0, 1, 0, 2],
    ),
];

#[test]
fn reads_lines_about_files(rt: HostRuntime) {
    each_script(&rt, rt.alloc(), Counted::Files, &FILES);
}

const NO_FILES: [&[u8]; 45] = [
    b"node\n",
    b"node /w\n",
    b"node dir\n",
    b"node dir %\n",
    b"node dir w\n",
    b"node dir ./w\n",
    b"node dir /w/\n",
    b"node dir //w\n",
    b"node dir /./w\n",
    b"node dir /w/..\n",
    b"node dir /w/../v\n",
    b"node dir /..\n",
    b"node dir /w 0\n",
    b"node other /w\n",
    b"node file /f\n",
    b"node file 1 /f\n",
    b"node file /f -1\n",
    b"node file /f 01\n",
    b"node file /f 18446744073709551616\n",
    b"node file f 1\n",
    b"node link /l\n",
    b"node link l /w\n",
    b"node link /l /w 0\n",
    b"gone\n",
    b"gone w\n",
    b"gone %\n",
    b"gone /w/.\n",
    b"gone /w /v\n",
    b"gone dir /w\n",
    b"make\n",
    b"make pass\n",
    b"make ok 0\n",
    b"make fail\n",
    b"make fail nopath\n",
    b"make fail exit\n",
    b"fail\n",
    b"fail scan\n",
    b"fail scan 0\n",
    b"fail scan 0 4294967296\n",
    b"fail scan -1 5\n",
    b"fail scan 0 5 6\n",
    b"fail watch 0\n",
    b"fail watch 18446744073709551616 5\n",
    b"fail next 0 5\n",
    b"turn 0 file 0\n",
];

#[test]
fn refuses_lines_about_files(rt: HostRuntime) {
    each_is_bad(&rt, rt.alloc(), &NO_FILES);
}

/// How many answers of the filter and wishes of the error handler the script has, and the size of the channel of errors.
fn error_counts(script: &Script) -> [u64; 6] {
    let (filters, errors) = (script.filters.len(), script.errors.len());
    let size = script.error_size;
    [filters as u64, errors as u64, size as u64, 0, 0, 0]
}

const ERRORS: [(&[u8], &[u64]); 5] = [
    (b"", &[0, 0, 64]),
    (b"error none\nset errors 1\n", &[0, 1, 1]),
    (
        b"set errors 9\nset size 3\nset errors 65536\nsend low 0\nerror elevate\n",
        &[0, 1, 65_536],
    ),
    (
        b"error critical exit\nerror critical memory\nturn 0 work\nerror critical send low 1 process 4\n",
        &[0, 3, 64],
    ),
    (
        b"filter fail nocommands\nerror critical elevated trysend a full low 0 some b\nerror critical init native event nopath 0\n",
        &[1, 2, 64],
    ),
];

#[test]
fn reads_lines_about_errors(rt: HostRuntime) {
    each_script(&rt, rt.alloc(), Counted::Errors, &ERRORS);
}

/// How many bytes the first of these words has, 0 where there is none.
fn first_size(words: &[Text]) -> u64 {
    match words.first() {
        Some(word) => word.len() as u64,
        None => 0,
    }
}

/// How many calls of hooks the script has words for, and how many words and bytes of them the first has.
fn hook_counts(script: &Script) -> [u64; 6] {
    let hooks = script.hooks.as_slice();
    let size = match hooks.first() {
        Some(words) => first_size(words.as_slice()),
        None => 0,
    };
    [hooks.len() as u64, first_len(hooks), size, 0, 0, 0]
}

const HOOKS: [(&[u8], &[u64]); 5] = [
    (b"", &[0, 0, 0]),
    (b"hook 0\nhook 1 -v\n", &[2, 0, 0]),
    (b"hook 2 a%20b %\n", &[1, 2, 3]),
    (
        b"send low 0\nhook 1 %\nturn 0 work\nhook 0\naction ask 0 sethook 4294967295 ask 0 unsethook\nhook 0\n",
        &[3, 1, 0],
    ),
    (
        b"turn 0 ask 0 setspawn 0\nturn 0 ask 0 setchild 7\nturn 0 ask 0 clearspawn\nhook 3 x y z\n",
        &[1, 3, 1],
    ),
];

#[test]
fn reads_lines_about_hooks(rt: HostRuntime) {
    each_script(&rt, rt.alloc(), Counted::Hooks, &HOOKS);
}

const NO_HOOKS: [&[u8]; 16] = [
    b"hook\n",
    b"hook -v\n",
    b"hook 1\n",
    b"hook 1 -v -x\n",
    b"hook 2 -v\n",
    b"hook 01 -v\n",
    b"hook 0 \n",
    b"action ask 0 sethook\n",
    b"action ask 0 sethook 4294967296\n",
    b"action ask 0 unsethook 2\n",
    b"action ask 0 setspawn x\n",
    b"action ask 0 clearspawn 0\n",
    b"turn 0 ask 0 setchild\n",
    b"action create shell ---- sh 0 some -c a 0\n",
    b"action create shell ---- sh quoted 0 -c a 0\n",
    b"action create shell ---- sh quoted 0 some -c a\n",
];

#[test]
fn refuses_lines_about_hooks(rt: HostRuntime) {
    each_is_bad(&rt, rt.alloc(), &NO_HOOKS);
}

/// What the polls of the script of these bytes answer, if it is one.
fn has_polls(alloc: Global, bytes: &[u8], want: &[bool]) -> bool {
    match script_in(alloc, bytes) {
        Some(script) => script.polls.as_slice() == want,
        None => false,
    }
}

const FUNCTIONS: [(&[u8], &[bool]); 5] = [
    (b"", &[]),
    (b"poll ready\n", &[true]),
    (b"poll later\nset size 2\npoll ready\n", &[false, true]),
    (
        b"send low 0\npoll later\nturn 0 work\npoll later\naction ask 0 run 0 ask 0 runasync 4294967295\npoll ready\n",
        &[false, false, true],
    ),
    (
        b"turn 0 ask 0 seterror 4294967295\nturn 0 ask 0 unseterror\nturn 0 ask 0 runasync 7\npoll ready\n",
        &[true],
    ),
];

#[test]
fn reads_lines_about_functions(rt: HostRuntime) {
    for (bytes, want) in &FUNCTIONS {
        expect_so(&rt, has_polls(rt.alloc(), bytes, want), bytes);
    }
}

const NO_FUNCTIONS: [&[u8]; 18] = [
    b"poll\n",
    b"poll \n",
    b"poll ok\n",
    b"poll on\n",
    b"poll Ready\n",
    b"poll 1\n",
    b"poll ready \n",
    b"poll ready 0\n",
    b"poll later ready\n",
    b"polls ready\n",
    b"action ask 0 run\n",
    b"action ask 0 run 01\n",
    b"action ask 0 runasync\n",
    b"action ask 0 runasync 4294967296\n",
    b"action ask 0 seterror\n",
    b"action ask 0 seterror x\n",
    b"action ask 0 unseterror 5\n",
    b"turn 0 ask 0 run 1 2\n",
];

#[test]
fn refuses_lines_about_functions(rt: HostRuntime) {
    each_is_bad(&rt, rt.alloc(), &NO_FUNCTIONS);
}

const NO_JOBS: [&[u8]; 30] = [
    b"action create\n",
    b"action getcreate\n",
    b"action getcreate 0\n",
    b"action getcreate exec ---- 1 a\n",
    b"action getcreate 4294967296 exec ---- 1 a\n",
    b"action getcreate 00 exec ---- 1 a\n",
    b"action getcreate 0 exec ---- 1 a b\n",
    b"action create 0 exec ---- 1 a\n",
    b"action create exec ---- 0\n",
    b"action create exec ---- 1 a b\n",
    b"action create exec ---- 2 a\n",
    b"action ask 0\n",
    b"action ask start\n",
    b"action ask 4294967296 start\n",
    b"action ask 0 start 0\n",
    b"action quit \n",
    b"spawn\n",
    b"spawn success\n",
    b"spawn fault\n",
    b"spawn fault 4294967296\n",
    b"spawn ok ok\n",
    b"kill error.7\n",
    b"wait ok\n",
    b"wait error.0\n",
    b"wait fault x\n",
    b"turn 0 job\n",
    b"turn 0 job 4294967296\n",
    b"turn 0 ended x\n",
    b"turn 0 ask 0\n",
    b"turn 0 ask 0 go\n",
];

#[test]
fn refuses_lines_about_jobs(rt: HostRuntime) {
    each_is_bad(&rt, rt.alloc(), &NO_JOBS);
}

const NO_SIGNALS: [&[u8]; 26] = [
    b"signal\n",
    b"signal maybe\n",
    b"signal success\n",
    b"signal terminate\n",
    b"signal ok ok\n",
    b"signal fault\n",
    b"signal fault 4294967296\n",
    b"signal fault -1\n",
    b"turn 0 signal ok\n",
    b"turn 0 ask 0 gracefulstop\n",
    b"turn 0 ask 0 gracefulstop terminate\n",
    b"turn 0 ask 0 gracefulstop 10 terminate\n",
    b"turn 0 ask 0 gracefulstop terminate 010\n",
    b"turn 0 ask 0 gracefulstop terminate 18446744073709551616\n",
    b"turn 0 ask 0 gracefulstop term 10\n",
    b"turn 0 ask 0 trygracefulrestart 10\n",
    b"turn 0 ask 0 tryrestart terminate 10\n",
    b"turn 0 ask 0 continue terminate 10\n",
    b"turn 0 ask 0 signal 15\n",
    b"turn 0 ask 0 signal custom\n",
    b"action ask 0 restart 5\n",
    b"action ask 0 restartsignal terminate\n",
    b"action ask 0 delete 0\n",
    b"action ask 0 delete now\n",
    b"action ask 0 deletenow stop\n",
    b"action ask 0 towait 5\n",
];

#[test]
fn refuses_lines_about_signals_and_graces(rt: HostRuntime) {
    each_is_bad(&rt, rt.alloc(), &NO_SIGNALS);
}

const BAD: [(&[u8], u64); 16] = [
    (b"turn 0 work", 1),
    (b"# c", 1),
    (b"turn 0 work\n# c", 2),
    (b"send low 0\n\nset size 1\n", 3),
    (b"send low 0\nset throttle 1\nset\n", 2),
    (b"set size 1\nsend low 0\nsend low 0\n", 3),
    (b"turn 0 work\nset throttle 1\n", 2),
    (b"turnfault 5\nset size 1\n", 2),
    (b"send low 0\nset errors 1\n", 2),
    (b"turn 0 work\nset errors 1\n", 2),
    (b"turnfault 5\nset errors 1\n", 2),
    (b"set errors 1\nset errors 65537\nset errors 2\n", 2),
    (b"turnfault 5\nsend low 0\n", 2),
    (b"turn 0 work\nsend low 0\n", 2),
    (b"turn 5 work\nturnfault 1\nturn 4 work\n", 3),
    (b"\n\n\nx\nturn 5 work\n", 4),
];

#[test]
fn counts_lines_to_the_first_bad_one(rt: HostRuntime) {
    for (bytes, want) in &BAD {
        expect_so(&rt, bad_line(rt.alloc(), bytes) == Some(*want), bytes);
    }
}

const NO_LINES: [&[u8]; 49] = [
    b"set size 0\n",
    b"set size 65537\n",
    b"set size 4294967296\n",
    b"set size\n",
    b"set errors 0\n",
    b"set errors 65537\n",
    b"set errors 4294967296\n",
    b"set errors\n",
    b"set errors 1 1\n",
    b"set other 1\n",
    b"turn 5  work\n",
    b"turn 05 work\n",
    b"turn 18446744073709551616 work\n",
    b"turn 0 last\n",
    b"turn 0 keys 11 1 2 3 4 5 6 7 8 9 10 11\n",
    b"turn 0 keys 2 1\n",
    b"turn 0 keys 1 256\n",
    b"turn 0 signal\n",
    b"turn 0 signal stop\n",
    b"turn 0\n",
    b" turn 0 work\n",
    b"turn 0 work \n",
    b"turn 0 work\r\n",
    b"turn 0 arrive normal\n",
    b"turn 0 arrive normal 1\n",
    b"turn 0 arrive normal 0 unknown\n",
    b"send normal 1 process\n",
    b"send normal 2 unknown\n",
    b"filter\n",
    b"filter passes\n",
    b"filter pass 0\n",
    b"filter fail\n",
    b"filter fail filterer glob\n",
    b"error\n",
    b"error pass\n",
    b"error elevate 0\n",
    b"error critical\n",
    b"error critical external\n",
    b"error critical elevated exit\n",
    b"error critical deadonarrival\n",
    b"send normal\n",
    b"send middle 0\n",
    b"send normal 00\n",
    b"action stop\n",
    b"action \n",
    b"action quit stop\n",
    b"turnfault 4294967296\n",
    b"turnfault\n",
    b" \n",
];

#[test]
fn refuses_lines(rt: HostRuntime) {
    each_is_bad(&rt, rt.alloc(), &NO_LINES);
}
