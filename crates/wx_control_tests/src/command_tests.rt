// Commands by the rules of their words: the expected values are worked out by hand.
use crate::expecting::expect_none;
use std::alloc::Global;
use std::hash::{DefaultHasher, Hash, Hasher};
use std::process::Abort;
use wx_command::{Command, Program, Shell, SpawnOptions, Spawnable, is_execable};
use wx_text::{Copies, List, Memory, Text};
use wx_words::Spelled;
use wx_words_trial::{
    equals_its_copy, first_accepted, first_misread, first_wrong_line, first_wrong_value, is_read,
    is_shown, is_written, line_of, read_line,
};

/// These texts as a list.
fn texts_of(alloc: Global, texts: &[&[u8]]) -> Result<List<Text>, Memory> {
    let mut list = List::new(alloc);
    for text in texts {
        list.push(Text::from_slice(alloc, text)?)?;
    }
    Ok(list)
}

/// The text of these bytes.
pub fn text(rt: &impl Abort, alloc: Global, bytes: &[u8]) -> Text {
    Text::from_slice(alloc, bytes).expect(rt, "a text")
}

/// These texts as a list.
fn texts(rt: &impl Abort, alloc: Global, texts: &[&[u8]]) -> List<Text> {
    texts_of(alloc, texts).expect(rt, "texts")
}

/// The shell that is called so.
fn shell_of(
    rt: &impl Abort,
    alloc: Global,
    prog: &[u8],
    options: &[&[u8]],
    program_option: Option<Text>,
    quote: bool,
) -> Shell {
    Shell {
        prog: text(rt, alloc, prog),
        options: texts(rt, alloc, options),
        program_option,
        quote,
    }
}

/// The command that has this shell run this text with these arguments.
fn in_shell(
    rt: &impl Abort,
    alloc: Global,
    shell: Shell,
    command: &[u8],
    args: &[&[u8]],
    options: SpawnOptions,
) -> Command {
    let command = text(rt, alloc, command);
    let args = texts(rt, alloc, args);
    let program = Program::Shell {
        shell,
        command,
        args,
    };
    Command { program, options }
}

/// The shell that `new` makes of the name `sh`.
fn sh(rt: &impl Abort, alloc: Global) -> Shell {
    let name = text(rt, alloc, b"sh");
    Shell::new(alloc, &name).expect(rt, "a shell")
}

/// The command that these words spell.
fn command_in(rt: &impl Abort, alloc: Global, line: &[u8]) -> Command {
    let found = read_line(alloc, line).expect(rt, "a line");
    found.expect(rt, "a command")
}

/// Ends the test where the answer isn't yes, and says at which line.
fn expect_yes(rt: &impl Abort, answer: Result<bool, Memory>, line: &[u8]) {
    assert!(rt; answer == Ok(true), "at {line:?}");
}

/// The hash of this value.
pub fn hash_of<T: Hash>(value: &T) -> u64 {
    let mut state = DefaultHasher::new();
    value.hash(&mut state);
    state.finish()
}

/// Whether this value is written by this line, and is what the line is read as.
fn is_spelled<T: Spelled + PartialEq>(
    alloc: Global,
    value: &T,
    line: &[u8],
) -> Result<bool, Memory> {
    if !is_written(alloc, value, line)? {
        return Ok(false);
    }
    match read_line::<T>(alloc, line)? {
        Some(found) => Ok(found == *value),
        None => Ok(false),
    }
}

/// Holds this value to be spelled by this line. It is dropped by generic code, which is quicker to prove.
fn expect_spelled<T: Spelled + PartialEq>(rt: &impl Abort, alloc: Global, value: T, line: &[u8]) {
    expect_yes(rt, is_spelled(alloc, &value, line), line);
}

const OPTIONS: &str = "\
---- = SpawnOptions { grouped: false, session: false, reset_sigmask: false, grant_foreground: false }
g--- = SpawnOptions { grouped: true, session: false, reset_sigmask: false, grant_foreground: false }
-s-- = SpawnOptions { grouped: false, session: true, reset_sigmask: false, grant_foreground: false }
--r- = SpawnOptions { grouped: false, session: false, reset_sigmask: true, grant_foreground: false }
---f = SpawnOptions { grouped: false, session: false, reset_sigmask: false, grant_foreground: true }
gsrf = SpawnOptions { grouped: true, session: true, reset_sigmask: true, grant_foreground: true }
";

#[test]
fn options_are_four_letters(rt: HostRuntime) {
    expect_none(&rt, first_misread::<SpawnOptions>(rt.alloc(), OPTIONS));
    expect_spelled(&rt, rt.alloc(), SpawnOptions::default(), b"----");
}

/// Holds the command that runs this program with these arguments to be spelled by this line.
fn expect_exec(
    rt: &impl Abort,
    alloc: Global,
    prog: &[u8],
    args: &[&[u8]],
    options: SpawnOptions,
    line: &[u8],
) {
    let prog = text(rt, alloc, prog);
    let args = texts(rt, alloc, args);
    let program = Program::Exec { prog, args };
    expect_spelled(rt, alloc, Command { program, options }, line);
}

const NONE: SpawnOptions = SpawnOptions {
    grouped: false,
    session: false,
    reset_sigmask: false,
    grant_foreground: false,
};

const FIRST_AND_THIRD: SpawnOptions = SpawnOptions {
    grouped: true,
    session: false,
    reset_sigmask: true,
    grant_foreground: false,
};

const SECOND_AND_LAST: SpawnOptions = SpawnOptions {
    grouped: false,
    session: true,
    reset_sigmask: false,
    grant_foreground: true,
};

const ALL: SpawnOptions = SpawnOptions {
    grouped: true,
    session: true,
    reset_sigmask: true,
    grant_foreground: true,
};

// Programs, their arguments and options, and their lines.
const PROGRAMS: [(&[u8], &[&[u8]], SpawnOptions, &[u8]); 5] = [
    (b"a", &[], NONE, b"exec ---- 1 a"),
    (
        b"/bin/ls",
        &[b"-l", b"my file"],
        NONE,
        b"exec ---- 3 /bin/ls -l my%20file",
    ),
    (b"make", &[b""], FIRST_AND_THIRD, b"exec g-r- 2 make %"),
    (b"", &[], SECOND_AND_LAST, b"exec -s-f 1 %"),
    (b"50%", &[b"a\n"], ALL, b"exec gsrf 2 50%25 a%0A"),
];

#[test]
fn lines_of_programs(rt: HostRuntime) {
    for (prog, args, options, line) in &PROGRAMS {
        expect_exec(&rt, rt.alloc(), prog, args, *options, line);
    }
}

#[test]
fn a_long_line_of_a_shell(rt: HostRuntime) {
    let alloc = rt.alloc();
    let option = Some(text(&rt, alloc, b"/c"));
    let options = [b"-e".as_slice(), b"".as_slice(), b"50%".as_slice()];
    let shell = shell_of(&rt, alloc, b"/bin/my sh", &options, option, false);
    let args = [b"one".as_slice(), b"".as_slice(), b"\xFF".as_slice()];
    let command = in_shell(&rt, alloc, shell, b"echo \"a\nb\"", &args, ALL);
    let line = b"shell gsrf /bin/my%20sh raw 3 -e % 50%25 some /c echo%20\"a%0Ab\" 3 one % %FF";
    expect_spelled(&rt, alloc, command, line);
}

#[test]
fn short_lines_of_shells(rt: HostRuntime) {
    let alloc = rt.alloc();
    let bare = shell_of(&rt, alloc, b"", &[], None, true);
    let command = in_shell(&rt, alloc, bare, b"", &[], NONE);
    expect_spelled(&rt, alloc, command, b"shell ---- % quoted 0 none % 0");
    let command = in_shell(&rt, alloc, sh(&rt, alloc), b"db", &[], NONE);
    let line = b"shell ---- sh quoted 0 some -c db 0";
    expect_spelled(&rt, alloc, command, line);
}

/// Holds the shell that was made of the name `/bin/zsh` to have `-c` and no options.
fn expect_plain(rt: &impl Abort, alloc: Global, made: Result<Shell, Memory>, quote: bool) {
    let shell = made.expect(rt, "a shell");
    let option = Some(text(rt, alloc, b"-c"));
    let plain = shell_of(rt, alloc, b"/bin/zsh", &[], option, quote);
    assert!(rt; shell == plain, "at {quote}");
    drop(plain);
    drop(shell);
}

#[test]
fn shells_by_name(rt: HostRuntime) {
    let alloc = rt.alloc();
    let name = text(&rt, alloc, b"/bin/zsh");
    expect_plain(&rt, alloc, Shell::with_quoting(alloc, &name, true), true);
    expect_plain(&rt, alloc, Shell::with_quoting(alloc, &name, false), false);
    expect_plain(&rt, alloc, Shell::new(alloc, &name), true);
}

const BAD_COMMANDS: &str = "
exec
exec ----
exec ---- 0
exec ---- 1
exec ---- 2 a
exec ---- 1 a b
exec ---- 01 a
exec --- 1 a
exec ----- 1 a
exec s--- 1 a
exec G--- 1 a
Exec ---- 1 a
exec ----  1 a
exec ---- 1 %2
exec ---- 1 a\x20
exed ---- 1 a
";

const SHELLS: &str = "\
shell ---- sh quoted 1 -e some -c a 1 b
shell ---- sh quoted 1 -e none a 1 b
";

const BAD_SHELLS: &str = "\
shelf ---- sh quoted 1 -e some -c a 1 b
Shell ---- sh quoted 1 -e some -c a 1 b
shell g-g- sh quoted 1 -e some -c a 1 b
shell --- sh quoted 1 -e some -c a 1 b
shell ---- s%h quoted 1 -e some -c a 1 b
shell ---- sh quotes 1 -e some -c a 1 b
shell ---- sh Quoted 1 -e some -c a 1 b
shell ---- sh rav 1 -e some -c a 1 b
shell ---- sh quoted 0 -e some -c a 1 b
shell ---- sh quoted 2 -e some -c a 1 b
shell ---- sh quoted 1 %e some -c a 1 b
shell ---- sh quoted 1 -e sone -c a 1 b
shell ---- sh quoted 1 -e nome a 1 b
shell ---- sh quoted 1 -e none -c a 1 b
shell ---- sh quoted 1 -e some -c % 2 b
shell ---- sh quoted 1 -e some -c a 0 b
shell ---- sh quoted 1 -e some -c a 1 \x7F
shell ---- sh quoted 1 -e some -c a 1 b c
shell ---- sh quoted 1 -e some -c a 1
shell ---- sh quoted 1 -e some -c a
shell ----  sh quoted 1 -e some -c a 1 b
shell ---- sh 1 -e some -c a 1 b
";

#[test]
fn what_is_spawned_and_its_words(rt: HostRuntime) {
    let alloc = rt.alloc();
    let spawnable = Spawnable {
        words: texts(&rt, alloc, &[b"sh", b"-c", b"a b"]),
        options: FIRST_AND_THIRD,
    };
    let line = b"g-r- 3 sh -c a%20b";
    expect_yes(&rt, equals_its_copy(alloc, &spawnable), line);
    expect_spelled(&rt, alloc, spawnable, line);
}

/// The texts of what these words spell to be spawned.
fn spawned_words(rt: &impl Abort, alloc: Global, line: &[u8]) -> List<Text> {
    let found: Option<Spawnable> = read_line(alloc, line).expect(rt, "a line");
    found.expect(rt, "what is spawned").words
}

const BAD_SPAWNABLES: &str = "\
----
---- 2 a
--- 1 a
1 a
exec ---- 1 a
";

#[test]
fn what_is_spawned_by_its_words(rt: HostRuntime) {
    let none = spawned_words(&rt, rt.alloc(), b"---- 0");
    assert!(rt; none.is_empty());
    drop(none);
}

#[test]
fn lines_that_are_no_values(rt: HostRuntime) {
    let alloc = rt.alloc();
    expect_none(&rt, first_accepted::<Command>(alloc, BAD_COMMANDS));
    expect_none(
        &rt,
        first_wrong_line(alloc, SHELLS, |alloc, line| {
            is_read::<Command>(alloc, line.as_bytes())
        }),
    );
    expect_none(&rt, first_accepted::<Command>(alloc, BAD_SHELLS));
    expect_none(&rt, first_accepted::<Spawnable>(alloc, BAD_SPAWNABLES));
}

/// Whether this command spawns what this other line spells.
fn is_spawned(
    alloc: Global,
    command: &Command,
    _line: &str,
    spawned: &str,
) -> Result<bool, Memory> {
    let spawnable = command.to_spawnable(alloc)?;
    is_written(alloc, &spawnable, spawned.as_bytes())
}

// Commands, and what they spawn.
const SPAWNED: &str = "\
exec ---- 1 make%20all = ---- 1 make%20all
exec ---- 3 exec % a = ---- 3 exec % a
exec g--- 3 sh -c a%20b = g--- 3 sh -c a%20b
shell ---- sh quoted 0 some -c db 0 = ---- 3 sh -c exec%20db
shell ---- sh raw 0 some -c db 0 = ---- 3 sh -c exec%20db
shell ---- nu quoted 0 none ls 0 = ---- 2 nu exec%20ls
shell -s-f /bin/bash raw 2 -e -u some -lc make%20all 2 x y = -s-f 7 /bin/bash -e -u -lc exec%20make%20all x y
shell --r- sh quoted 0 some -c a|b 1 z = --r- 4 sh -c a|b z
shell ---- sh quoted 1 -x none a%0A 1 % = ---- 4 sh -x a%0A %
shell ---- sh quoted 0 some -c % 0 = ---- 3 sh -c %
shell ---- sh quoted 0 some -c %20a 0 = ---- 3 sh -c exec%20%20a
shell g--- sh quoted 0 some % exec%20a 0 = g--- 3 sh % exec%20a
";

#[test]
fn commands_and_what_they_spawn(rt: HostRuntime) {
    expect_none(
        &rt,
        first_wrong_value(rt.alloc(), SPAWNED, " = ", is_spawned),
    );
}

/// Holds `sh` to be spawned with `-c` and the second text to run the first.
fn expect_run_as(rt: &impl Abort, alloc: Global, command: &[u8], text: &[u8]) {
    let options = SpawnOptions::default();
    let in_sh = in_shell(rt, alloc, sh(rt, alloc), command, &[], options);
    let spawnable = in_sh.to_spawnable(alloc).expect(rt, "what is spawned");
    drop(in_sh);
    let words = texts(rt, alloc, &[b"sh", b"-c", text]);
    let want = Spawnable { words, options };
    assert!(rt; spawnable == want, "at {command:?}");
    drop(want);
    drop(spawnable);
}

// Texts, and what a shell is given to run in their place.
const RUN: [(&[u8], &[u8]); 10] = [
    (b"bun run src/test.ts", b"exec bun run src/test.ts"),
    (b"make build && make test", b"make build && make test"),
    (b"FOO=1 ./run.sh", b"FOO=1 ./run.sh"),
    (b"(cd /tmp)", b"(cd /tmp)"),
    (b"", b""),
    (b"cat file | grep foo", b"cat file | grep foo"),
    (b"time make", b"time make"),
    (b"cmd $(echo sub)", b"exec cmd $(echo sub)"),
    (b"cmd --flag=a > out.txt", b"exec cmd --flag=a > out.txt"),
    (b"source x", b"exec source x"),
];

#[test]
fn the_text_that_a_shell_runs(rt: HostRuntime) {
    for (command, text) in &RUN {
        expect_run_as(&rt, rt.alloc(), command, text);
    }
}

/// Holds whether this text is execable to be so.
fn expect_execable(rt: &impl Abort, alloc: Global, bytes: &[u8], so: bool) {
    let command = text(rt, alloc, bytes);
    assert!(rt; is_execable(&command) == so, "at {bytes:?}");
}

const EXECABLE: [&[u8]; 40] = [
    b"make",
    b"  make",
    b"\tmake -j4\r",
    b"\x0C \r\tmake",
    b"./run.sh --x",
    b"/usr/bin/env FOO=1 ./run",
    b"cmd a=b",
    b"cmd $(echo sub)",
    b"cmd --flag=a > out.txt",
    b"cat < in > out",
    b"source x",
    b". ./env",
    b"cd /tmp",
    b"echo '(a)'",
    b"\"my prog\" x",
    b"'time' make",
    b"\\time make",
    b"a time",
    b"echo while",
    b"[ -f x ]",
    b"{a,b} c",
    b"!x",
    b"[[x",
    b"tim make",
    b"timeout 5 make",
    b"Time make",
    b"iffy",
    b"format x",
    b"functional",
    b"executor",
    b"evaluate",
    b"cases",
    b"coprocess",
    b"selector",
    b"untilted",
    b"whiled",
    b"xtime make",
    b"\x0B",
    b"time\xC2\xA0make",
    b"$EDITOR x",
];

const NOT_EXECABLE: [&[u8]; 50] = [
    b"",
    b" ",
    b"\t\x0C\r ",
    b"\n",
    b"make\n",
    b"\nmake",
    b"a\nb",
    b"a;b",
    b"make;",
    b";",
    b"case x in a) ;; esac",
    b"a & b",
    b"sleep 1 &",
    b"&a",
    b"a && b",
    b"make build && make test",
    b"a || b",
    b"cat file | grep foo",
    b"a |& b",
    b"cmd 2>&1",
    b"echo 'a;b'",
    b"echo a\\;b",
    b"FOO=1 ./run.sh",
    b"FOO=",
    b"a+=b c",
    b"=x",
    b"  FOO=1 make",
    b"./a=b c",
    b"(cd /tmp)",
    b"( cd /tmp )",
    b"((x++))",
    b"\t(a)",
    b"! make",
    b"{ make",
    b"[[ -f x ]]",
    b"case x in",
    b"coproc cat",
    b"eval x",
    b"exec make",
    b"for x in a",
    b"function f",
    b"if true",
    b"select x in a",
    b"time make",
    b"  time\tmake",
    b"time\x0Cmake",
    b"time\rmake",
    b"until false",
    b"while true",
    b"while",
];

#[test]
fn texts_that_are_execable_and_that_are_not(rt: HostRuntime) {
    for text in &EXECABLE {
        expect_execable(&rt, rt.alloc(), text, true);
    }
    for text in &NOT_EXECABLE {
        expect_execable(&rt, rt.alloc(), text, false);
    }
}

/// Whether this command, and its program, are shown so.
fn is_command_shown(
    alloc: Global,
    command: &Command,
    _line: &str,
    shown: &str,
) -> Result<bool, Memory> {
    Ok(is_shown(alloc, &command.program, shown)? && is_shown(alloc, command, shown)?)
}

const SHOWN: &str = "\
exec g--- 1 a = a
exec ---- 3 /bin/ls -l my%20file = /bin/ls -l my file
exec ---- 3 % a % = \x20a\x20
exec ---- 2 caf%C3%A9 %E2%82%AC = caf\u{e9} \u{20ac}
exec ---- 2 a %FF%20 = a %FF%20
shell ---- sh quoted 1 -e some -c a%20%7C%20b 1 c = a | b
shell ---- sh quoted 0 none % 0 =\x20
shell ---- sh quoted 0 none %C3 0 = %C3
";

#[test]
fn commands_are_shown(rt: HostRuntime) {
    expect_none(
        &rt,
        first_wrong_value(rt.alloc(), SHOWN, " = ", is_command_shown),
    );
}

/// Whether a copy of this command has its hash.
fn is_hashed_as_its_copy(alloc: Global, command: &Command) -> Result<bool, Memory> {
    let copy = command.copy(alloc)?;
    Ok(hash_of(&copy) == hash_of(command))
}

/// Holds the command of the first line to equal its copy, and to have its hash, and not to be that of the second line.
fn expect_another(rt: &impl Abort, alloc: Global, line: &[u8], other: &[u8]) {
    let command = command_in(rt, alloc, line);
    let another = command_in(rt, alloc, other);
    expect_yes(rt, equals_its_copy(alloc, &command), line);
    expect_yes(rt, is_hashed_as_its_copy(alloc, &command), line);
    assert!(rt; command != another, "at {other:?}");
    drop(another);
    drop(command);
}

// Each differs in one part from the line of the test below.
const OTHER_SHELLS: &str = "\
exec ---- 2 sh b
shell g--- sh quoted 1 -e some -c a 1 b
shell ---- zsh quoted 1 -e some -c a 1 b
shell ---- sh raw 1 -e some -c a 1 b
shell ---- sh quoted 0 some -c a 1 b
shell ---- sh quoted 1 -e none a 1 b
shell ---- sh quoted 1 -e some -d a 1 b
shell ---- sh quoted 1 -e some -c b 1 b
shell ---- sh quoted 1 -e some -c a 0
";

const OTHER_COMMANDS: &str = "\
exec ---- 2 b b
exec ---- 2 a c
exec ---- 1 a
exec ---f 2 a b
exec -s-- 2 a b
";

#[test]
fn commands_are_equal_by_all_their_parts(rt: HostRuntime) {
    let line = b"shell ---- sh quoted 1 -e some -c a 1 b";
    for other in OTHER_SHELLS.lines() {
        expect_another(&rt, rt.alloc(), line, other.as_bytes());
        expect_another(&rt, rt.alloc(), other.as_bytes(), line);
    }
    let line = b"exec ---- 2 a b";
    for other in OTHER_COMMANDS.lines() {
        expect_another(&rt, rt.alloc(), line, other.as_bytes());
    }
}
