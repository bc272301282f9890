// What is told of refused scripts. Each line is worked out by what FORMATS tells of scripts.
use std::alloc::Global;
use std::process::Abort;
use wx_refusal::refusal;

/// What is told of this script, empty where it is one.
fn told_of(rt: &impl Abort, alloc: Global, script: &[u8]) -> String {
    match refusal(alloc, script).expect(rt, "memory for a script") {
        Some(why) => format!(in alloc; "{why}").expect(rt, "memory for a line"),
        None => String::new(alloc),
    }
}

/// Holds this to be told of the first bad line of each script.
fn expect_lines(rt: &impl Abort, alloc: Global, table: &[(&[u8], &str)]) {
    for (script, line) in table {
        let told = told_of(rt, alloc, script);
        assert!(rt; told.as_str() == *line, "of {script:?}: {told}");
    }
}

// Lines that have no form, or no line feed.
const UNFORMED: [(&[u8], &str); 21] = [
    (
        b"turn 0 work\nturn 0 lst\n",
        "line 2 `turn 0 lst`: no line has this form",
    ),
    (
        b"# c\n\nturns 0 work\n",
        "line 3 `turns 0 work`: no line has this form",
    ),
    (b"set size\n", "line 1 `set size`: no line has this form"),
    (b"poll\n", "line 1 `poll`: no line has this form"),
    (
        b"turnfault 4294967296\n",
        "line 1 `turnfault 4294967296`: no line has this form",
    ),
    // a space too many, and bytes that aren't seen
    (
        b"turn 0 work \n",
        "line 1 `turn 0 work `: no line has this form",
    ),
    (
        b"turn 0  work\n",
        "line 1 `turn 0  work`: no line has this form",
    ),
    (
        b"poll ready\r\npoll ready\r\n",
        "line 1 `poll ready\\x0D`: no line has this form",
    ),
    (
        b" \x00\x1f\x7f~\xff`%20\n",
        "line 1 ` \\x00\\x1F\\x7F~\\xFF`%20`: no line has this form",
    ),
    // the first 40 bytes of a line, and of a longer one
    (
        b"filter 890123456789012345678901234567890\n",
        "line 1 `filter 890123456789012345678901234567890`: no line has this form",
    ),
    (
        b"filter 890123456789012345678901234567890x\n",
        "line 1 `filter 890123456789012345678901234567890..`: no line has this form",
    ),
    // a script gives no last turn
    (
        b"turn 0 last\n",
        "line 1 `turn 0 last`: a script gives no last turn",
    ),
    (
        b"turn 0 last 1\n",
        "line 1 `turn 0 last 1`: no line has this form",
    ),
    // what is no pattern, and more than one
    (
        b"ignore a//b\n",
        "line 1 `ignore a//b`: the pattern has no part, or a part of it is empty, . or ..",
    ),
    (
        b"ignore a b\n",
        "line 1 `ignore a b`: no line has this form",
    ),
    // no line feed, whatever the line says
    (
        b"turn 0 work",
        "line 1 `turn 0 work`: it has no line feed at its end",
    ),
    (
        b"turn 0 work\n# c",
        "line 2 `# c`: it has no line feed at its end",
    ),
    (
        b"turn 3 work\n\nturn 2 work",
        "line 3 `turn 2 work`: it has no line feed at its end",
    ),
    // the first bad line alone is told
    (b"poll\npoll\nx", "line 1 `poll`: no line has this form"),
    (
        b"turn x work\n",
        "line 1 `turn x work`: no line has this form",
    ),
    (b" # c\n", "line 1 ` # c`: no line has this form"),
];

// Lines with a count that doesn't fit.
const LENGTHS: [(&[u8], &str); 16] = [
    (
        b"hook 2 -v\n",
        "line 1 `hook 2 -v`: the length of its list is 1, not 2",
    ),
    (
        b"hook 0 a b\n",
        "line 1 `hook 0 a b`: the length of its list is 2, not 0",
    ),
    (
        b"hook 1\n",
        "line 1 `hook 1`: the length of its list is 0, not 1",
    ),
    (
        b"send low 2 process 1\n",
        "line 1 `send low 2 process 1`: the length of its list is 1, not 2",
    ),
    (
        b"send low 1 process 1 end none\n",
        "line 1 `send low 1 process 1 end none`: the length of its list is 2, not 1",
    ),
    (
        b"turn 0 arrive low 1\n",
        "line 1 `turn 0 arrive low 1`: the length of its list is 0, not 1",
    ),
    (
        b"turn 0 keys 3 113 13\n",
        "line 1 `turn 0 keys 3 113 13`: the length of its list is 2, not 3",
    ),
    (
        b"turn 0 change paths 1 r /a n /b\n",
        "line 1 `turn 0 change paths 1 r /a n /b`: the length of its list is 2, not 1",
    ),
    (
        b"action quit create exec ---- 18446744073709551615 a\n",
        "line 1 `action quit create exec ---- 18446744073..`: the length of its list is 1, not 18446744073709551615",
    ),
    (
        b"action getcreate 0 exec ---- 3 a b\n",
        "line 1 `action getcreate 0 exec ---- 3 a b`: the length of its list is 2, not 3",
    ),
    (
        b"action change paths 2 r /a\n",
        "line 1 `action change paths 2 r /a`: the length of its list is 1, not 2",
    ),
    // what stands in the list is no such value, or the count is no number
    (
        b"send low 2 process\n",
        "line 1 `send low 2 process`: no line has this form",
    ),
    (b"hook x a\n", "line 1 `hook x a`: no line has this form"),
    // the count fits, and the bytes are too many, or one of them is none
    (
        b"turn 0 keys 11 1 2 3 4 5 6 7 8 9 0 1\n",
        "line 1 `turn 0 keys 11 1 2 3 4 5 6 7 8 9 0 1`: a turn brings at most 10 bytes of the keyboard",
    ),
    (
        b"turn 0 keys 1 256\n",
        "line 1 `turn 0 keys 1 256`: no line has this form",
    ),
    (
        b"turn 0 arrive lw 0\n",
        "line 1 `turn 0 arrive lw 0`: no line has this form",
    ),
];

// Acts that have no form.
const ACTS: [(&[u8], &str); 7] = [
    (
        b"action create exec ---- 1 make all\n",
        "line 1 `action create exec ---- 1 make all`: its act 2, `all`, has no form",
    ),
    (
        b"action create exec ---- 1 make quit ask 0 strat\n",
        "line 1 `action create exec ---- 1 make quit ask ..`: its act 3, `ask`, has no form",
    ),
    (
        b"action create exec --x- 1 make\n",
        "line 1 `action create exec --x- 1 make`: its act 1, `create`, has no form",
    ),
    (
        b"action create shell ---- sh quoted 0 none 0\n",
        "line 1 `action create shell ---- sh quoted 0 non..`: its act 1, `create`, has no form",
    ),
    (
        b"action quitgracefully terminate\n",
        "line 1 `action quitgracefully terminate`: its act 1, `quitgracefully`, has no form",
    ),
    (
        b"action quit \n",
        "line 1 `action quit `: its act 2, ``, has no form",
    ),
    (
        b"action quit\t456789012345678901234567890123456789ab\n",
        "line 1 `action quit\\x094567890123456789012345678901..`: its act 1, `quit\\x0945678901234567890123456789012345678..`, has no form",
    ),
];
// Lines that break a rule of order.
const DISORDERED: [(&[u8], &str); 21] = [
    (
        b"turn 0 work\nset throttle 1\n",
        "line 2 `set throttle 1`: out of order: set lines stand before send, turn and turnfault lines",
    ),
    (
        b"send low 0\nset keyboard on\n",
        "line 2 `set keyboard on`: out of order: set lines stand before send, turn and turnfault lines",
    ),
    (
        b"turnfault 1\nset follow on\n",
        "line 2 `set follow on`: out of order: set lines stand before send, turn and turnfault lines",
    ),
    (
        b"send low 0\nset jobsignals on\n",
        "line 2 `set jobsignals on`: out of order: set lines stand before send, turn and turnfault lines",
    ),
    (
        b"send low 0\nset watcher native\n",
        "line 2 `set watcher native`: out of order: set lines stand before send, turn and turnfault lines",
    ),
    (
        b"send low 0\nset path r /a\n",
        "line 2 `set path r /a`: out of order: set lines stand before send, turn and turnfault lines",
    ),
    (
        b"send low 0\nset size 0\n",
        "line 2 `set size 0`: out of order: set lines stand before send, turn and turnfault lines",
    ),
    (
        b"send low 0\nset errors 1\n",
        "line 2 `set errors 1`: out of order: set lines stand before send, turn and turnfault lines",
    ),
    (
        b"send low 0\nset cwd /a\n",
        "line 2 `set cwd /a`: out of order: set lines stand before send, turn and turnfault lines",
    ),
    (
        b"turn 0 work\nsend low 0\n",
        "line 2 `send low 0`: out of order: send lines stand before turn and turnfault lines",
    ),
    (
        b"turnfault 5\n# c\nsend low 0\n",
        "line 3 `send low 0`: out of order: send lines stand before turn and turnfault lines",
    ),
    (
        b"turn 7 work\nturnfault 1\nturn 6 file\n",
        "line 3 `turn 6 file`: its moment is less than 7, that of the turn before it",
    ),
    (
        b"turn 18446744073709551615 work\nturn 0 work\n",
        "line 2 `turn 0 work`: its moment is less than 18446744073709551615, that of the turn before it",
    ),
    (
        b"set size 1\nsend low 0\nsend low 0\n",
        "line 3 `send low 0`: there are more send lines than the size, which is 1",
    ),
    (
        b"set size 0\n",
        "line 1 `set size 0`: a size is from 1 to 65536",
    ),
    (
        b"set size 65537\n",
        "line 1 `set size 65537`: a size is from 1 to 65536",
    ),
    (
        b"set errors 65537\n",
        "line 1 `set errors 65537`: a size is from 1 to 65536",
    ),
    (
        b"set cwd a\n",
        "line 1 `set cwd a`: the folder isn't absolute",
    ),
    (
        b"node dir /a/../b\n",
        "line 1 `node dir /a/../b`: the path isn't absolute, or a part of it is empty, . or ..",
    ),
    (
        b"node file a 1\n",
        "line 1 `node file a 1`: the path isn't absolute, or a part of it is empty, . or ..",
    ),
    (
        b"gone /a/\n",
        "line 1 `gone /a/`: the path isn't absolute, or a part of it is empty, . or ..",
    ),
];

#[test]
fn lines_without_a_form(rt: HostRuntime) {
    expect_lines(&rt, rt.alloc(), &UNFORMED);
}

#[test]
fn counts_that_do_not_fit(rt: HostRuntime) {
    expect_lines(&rt, rt.alloc(), &LENGTHS);
}

#[test]
fn acts_without_a_form(rt: HostRuntime) {
    expect_lines(&rt, rt.alloc(), &ACTS);
}

#[test]
fn lines_out_of_order(rt: HostRuntime) {
    expect_lines(&rt, rt.alloc(), &DISORDERED);
}

#[test]
fn what_is_too_long(rt: HostRuntime) {
    let mut bytes = vec![in rt.alloc(); b'#'; 16_777_217].expect(&rt, "a long script");
    let told = told_of(&rt, rt.alloc(), bytes.as_slice());
    assert!(rt; told.as_str() == "it has more than 16777216 bytes");
    // one byte less is a comment, but for its line feed
    bytes.pop();
    let told = told_of(&rt, rt.alloc(), bytes.as_slice());
    let line =
        "line 1 `########################################..`: it has no line feed at its end";
    assert!(rt; told.as_str() == line);
}

#[test]
fn what_is_a_script(rt: HostRuntime) {
    let told = told_of(&rt, rt.alloc(), b"turn 0 work\n");
    assert!(rt; told.as_str() == "");
}

#[test]
fn one_line_whatever_bytes(rt: HostRuntime) {
    for byte in 0..=255u8 {
        let told = told_of(&rt, rt.alloc(), &[b'x', byte]);
        for seen in told.as_bytes() {
            assert!(rt; 32 <= *seen && *seen < 127, "of {byte}: {told}");
        }
    }
}
