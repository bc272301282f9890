// What events are written with, by the rules of the words: the expected values are worked out by hand.
//
// Cases stand in tables that are texts, a case a line. Where a word has a value, ` = ` and the value's fields follow.
use crate::expecting::{expect_none, expect_yes};
use std::alloc::Global;
use std::fmt;
use std::process::Abort;
use wx_events::{
    Event, FileEventKind, FileType, Keyboard, Modifiers, Priority, ProcessEnd, Signal, Source, Tag,
};
use wx_text::{Copies, List, Memory};
use wx_words::Spelled;
use wx_words_trial::{
    equals_its_copy, first_accepted, first_wrong_value, has_fields, is_shown, is_written, read_line,
};

/// Whether this value has these fields, and is written and shown by this line.
fn is_named<T: Spelled + fmt::Display + fmt::Debug>(
    alloc: Global,
    value: &T,
    line: &str,
    fields: &str,
) -> Result<bool, Memory> {
    Ok(
        has_fields(alloc, value, fields)?
            && is_written(alloc, value, line.as_bytes())?
            && is_shown(alloc, value, line)?,
    )
}

/// The same, and whether the value equals its copy.
fn is_copied<T: Spelled + Copies + PartialEq + fmt::Display + fmt::Debug>(
    alloc: Global,
    value: &T,
    line: &str,
    fields: &str,
) -> Result<bool, Memory> {
    Ok(is_named(alloc, value, line, fields)? && equals_its_copy(alloc, value)?)
}

const PRIORITIES: &str = "\
low = Low
normal = Normal
high = High
urgent = Urgent
";

const TAGS: &str = "\
path /a%20b none = Path { path: TextPath { text: Text { bytes: [47, 97, 32, 98] } }, file_type: None }
kind remove.folder = FileEventKind(Remove(Folder))
source os = Source(Os)
key eof = Keyboard(Eof)
process 4294967295 = Process(4294967295)
signal custom.-3 = Signal(Custom(-3))
end none = ProcessCompletion(None)
end success = ProcessCompletion(Some(Success))
unknown = Unknown
";

const EVERY_TAG: &str =
    "8 path /a%20b file kind modify.data.content source filesystem key ctrl.char.a process 7 signal custom.-3 end error.-1 unknown";

/// The event whose words are this whole line.
fn event_of(rt: &impl Abort, alloc: Global, line: &str) -> Event {
    let found = read_line(alloc, line.as_bytes()).expect(rt, "a line");
    found.expect(rt, "an event")
}

/// An event is written and shown by this line, and equals its copy.
fn expect_event(rt: &impl Abort, alloc: Global, event: &Event, line: &str) {
    expect_yes(rt, is_written(alloc, event, line.as_bytes()), line);
    expect_yes(rt, is_shown(alloc, event, line), line);
    expect_yes(rt, equals_its_copy(alloc, event), line);
}

#[test]
fn an_event_of_every_tag(rt: HostRuntime) {
    let event = event_of(&rt, rt.alloc(), EVERY_TAG);
    assert!(rt; event.tags.len() == 8 && !event.is_empty());
    expect_event(&rt, rt.alloc(), &event, EVERY_TAG);
    drop(event);
}

#[test]
fn an_event_without_tags(rt: HostRuntime) {
    let alloc = rt.alloc();
    let none = Event {
        tags: List::new(alloc),
    };
    expect_event(&rt, alloc, &none, "0");
    let read = event_of(&rt, alloc, "0");
    assert!(rt; none.is_empty() && read == none);
    drop(read);
    drop(none);
}

const FILE_TYPES: &str = "\
file = File
dir = Dir
symlink = Symlink
other = Other
";

const SOURCES: &str = "\
filesystem = Filesystem
keyboard = Keyboard
mouse = Mouse
os = Os
time = Time
internal = Internal
";

const KINDS: &str = "\
any = Any
other = Other
access.any = Access(Any)
access.read = Access(Read)
access.other = Access(Other)
access.open.any = Access(Open(Any))
access.open.execute = Access(Open(Execute))
access.open.read = Access(Open(Read))
access.open.write = Access(Open(Write))
access.open.other = Access(Open(Other))
access.close.any = Access(Close(Any))
access.close.execute = Access(Close(Execute))
access.close.read = Access(Close(Read))
access.close.write = Access(Close(Write))
access.close.other = Access(Close(Other))
create.any = Create(Any)
create.file = Create(File)
create.folder = Create(Folder)
create.other = Create(Other)
remove.any = Remove(Any)
remove.file = Remove(File)
remove.folder = Remove(Folder)
remove.other = Remove(Other)
";

const MODIFICATIONS: &str = "\
modify.any = Modify(Any)
modify.other = Modify(Other)
modify.data.any = Modify(Data(Any))
modify.data.size = Modify(Data(Size))
modify.data.content = Modify(Data(Content))
modify.data.other = Modify(Data(Other))
modify.meta.any = Modify(Metadata(Any))
modify.meta.atime = Modify(Metadata(AccessTime))
modify.meta.mtime = Modify(Metadata(WriteTime))
modify.meta.perm = Modify(Metadata(Permissions))
modify.meta.owner = Modify(Metadata(Ownership))
modify.meta.extended = Modify(Metadata(Extended))
modify.meta.other = Modify(Metadata(Other))
modify.name.any = Modify(Name(Any))
modify.name.to = Modify(Name(To))
modify.name.from = Modify(Name(From))
modify.name.both = Modify(Name(Both))
modify.name.other = Modify(Name(Other))
";

const KEYS: &str = "\
eof = Eof
enter = Key { key: Enter, modifiers: Modifiers { ctrl: false } }
ctrl.enter = Key { key: Enter, modifiers: Modifiers { ctrl: true } }
escape = Key { key: Escape, modifiers: Modifiers { ctrl: false } }
ctrl.escape = Key { key: Escape, modifiers: Modifiers { ctrl: true } }
char.q = Key { key: Char('q'), modifiers: Modifiers { ctrl: false } }
ctrl.char.q = Key { key: Char('q'), modifiers: Modifiers { ctrl: true } }
ctrl.char.. = Key { key: Char('.'), modifiers: Modifiers { ctrl: true } }
char.%20 = Key { key: Char(' '), modifiers: Modifiers { ctrl: false } }
char.%25 = Key { key: Char('%'), modifiers: Modifiers { ctrl: false } }
char.%C3%A9 = Key { key: Char('\u{e9}'), modifiers: Modifiers { ctrl: false } }
char.%F4%8F%BF%BF = Key { key: Char('\\u{10ffff}'), modifiers: Modifiers { ctrl: false } }
";

const ESCAPES: &str = "\
char.%c3%a9 = Key { key: Char('\u{e9}'), modifiers: Modifiers { ctrl: false } }
ctrl.char.%2E = Key { key: Char('.'), modifiers: Modifiers { ctrl: true } }
";

/// Whether this key has these fields, and isn't written by this line.
fn is_not_written(alloc: Global, key: &Keyboard, line: &str, fields: &str) -> Result<bool, Memory> {
    Ok(has_fields(alloc, key, fields)? && !is_written(alloc, key, line.as_bytes())?)
}

#[test]
fn escapes_that_are_not_written(rt: HostRuntime) {
    expect_none(
        &rt,
        first_wrong_value(rt.alloc(), ESCAPES, " = ", is_not_written),
    );
}

// The first line is empty, here and in the other tables that begin so.
const BAD_TAGS: &str = "
Unknown
unknown unknown
path /a
path /a fila
path /a filee
path none
path %2 file
pathh /a file
kind
kind anx
source so
key eoff
process 4294967296
process -1
process 07
signal quitt
signal none
end
end nona
end none none
end error.0
";

const BAD_EVENTS: &str = "
1
1 Unknown
2 unknown
0 unknown
01 unknown
";

const BAD_KINDS: &str = "\
Any
any.
any.any
other.other
access
access.
access.write
access.read.any
access.open
access.open.
access.open.reed
access.close.any.any
create.dir
create..file
modify.data
modify.meta.ctime
modify.name.form
modify.metadata.any
remove.folders
";

const BAD_KEYS: &str = "
Eof
eof.
ctrl.eof
ctrl
ctrl.
ctrl.ctrl.enter
ctrlenter
%65nter
enter.
char
char.
char.%
char.ab
char.%4
char.%C3
char.%ED%A0%80
char.\u{e9}
";

const SIGNALS: &str = "\
hangup = Hangup
forcestop = ForceStop
interrupt = Interrupt
quit = Quit
terminate = Terminate
user1 = User1
user2 = User2
continue = Continue
suspend = TerminalSuspend
custom.0 = Custom(0)
custom.64 = Custom(64)
custom.-3 = Custom(-3)
custom.2147483647 = Custom(2147483647)
custom.-2147483648 = Custom(-2147483648)
";

const BAD_SIGNALS: &str = "
Hangup
hangup.
hangup.1
.hangup
custom
custom.
custom.-
custom.-0
custom.+1
custom.01
custom.1.1
custom.2147483648
custom.-2147483649
";

const NATIVES: &str = "\
hangup = Some(1)
interrupt = Some(2)
quit = Some(3)
forcestop = Some(9)
user1 = Some(10)
user2 = Some(12)
terminate = Some(15)
continue = Some(18)
suspend = Some(20)
custom.1 = Some(1)
custom.31 = Some(31)
custom.0 = None
custom.32 = None
custom.-1 = None
custom.2147483647 = None
custom.-2147483648 = None
";

/// Whether this signal has this number.
fn has_number(alloc: Global, signal: &Signal, _line: &str, number: &str) -> Result<bool, Memory> {
    has_fields(alloc, &signal.native(), number)
}

const ENDS: &str = "\
success = Success
error.1 = ExitError(1)
error.9223372036854775807 = ExitError(9223372036854775807)
error.-9223372036854775808 = ExitError(-9223372036854775808)
signal.terminate = ExitSignal(Terminate)
signal.suspend = ExitSignal(TerminalSuspend)
signal.custom.0 = ExitSignal(Custom(0))
signal.custom.-3 = ExitSignal(Custom(-3))
stop.19 = ExitStop(19)
stop.2147483647 = ExitStop(2147483647)
exception.-1 = Exception(-1)
exception.-2147483648 = Exception(-2147483648)
continued = Continued
";

const BAD_ENDS: &str = "\
Success
success.0
error
error.
error.0
error.-0
error.01
error.9223372036854775808
error.-9223372036854775809
signal
signal.
signal.custom
signal.custom.
signal.custom.-0
signal.signal.quit
stop.0
stop.2147483648
exception.
exception.0
continued.continued
";

#[test]
fn values_and_their_words(rt: HostRuntime) {
    let alloc = rt.alloc();
    expect_none(
        &rt,
        first_wrong_value(alloc, PRIORITIES, " = ", is_named::<Priority>),
    );
    expect_none(&rt, first_wrong_value(alloc, TAGS, " = ", is_named::<Tag>));
    expect_none(
        &rt,
        first_wrong_value(alloc, FILE_TYPES, " = ", is_named::<FileType>),
    );
    expect_none(
        &rt,
        first_wrong_value(alloc, SOURCES, " = ", is_named::<Source>),
    );
    expect_none(
        &rt,
        first_wrong_value(alloc, KINDS, " = ", is_named::<FileEventKind>),
    );
    expect_none(
        &rt,
        first_wrong_value(alloc, MODIFICATIONS, " = ", is_named::<FileEventKind>),
    );
    expect_none(
        &rt,
        first_wrong_value(alloc, KEYS, " = ", is_named::<Keyboard>),
    );
    expect_none(
        &rt,
        first_wrong_value(alloc, SIGNALS, " = ", is_copied::<Signal>),
    );
    expect_none(
        &rt,
        first_wrong_value(alloc, ENDS, " = ", is_copied::<ProcessEnd>),
    );
}

#[test]
fn lines_that_are_no_values(rt: HostRuntime) {
    let alloc = rt.alloc();
    expect_none(&rt, first_accepted::<Priority>(alloc, "Low"));
    expect_none(&rt, first_accepted::<Tag>(alloc, BAD_TAGS));
    expect_none(&rt, first_accepted::<Event>(alloc, BAD_EVENTS));
    expect_none(&rt, first_accepted::<FileEventKind>(alloc, BAD_KINDS));
    expect_none(&rt, first_accepted::<Keyboard>(alloc, BAD_KEYS));
    expect_none(&rt, first_accepted::<Signal>(alloc, BAD_SIGNALS));
    expect_none(&rt, first_accepted::<ProcessEnd>(alloc, BAD_ENDS));
}

#[test]
fn signals_have_their_numbers(rt: HostRuntime) {
    expect_none(
        &rt,
        first_wrong_value(rt.alloc(), NATIVES, " = ", has_number),
    );
}

#[test]
fn keys_are_without_modifiers_by_default(rt: HostRuntime) {
    assert!(rt; Modifiers::default() == Modifiers { ctrl: false });
}
