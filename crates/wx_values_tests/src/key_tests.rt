// Signals and keys as events, and what tags hold, by their rules: the expected values are worked out by hand.
use crate::expecting::{expect_none, expect_yes};
use std::alloc::Global;
use wx_events::{Event, KeyCode, Keyboard, Priority, Signal};
use wx_keys::{Tagged, byte_to_keyboard, ends_input, hears_signal, key_events, signal_event};
use wx_text::{List, Memory, Text};
use wx_words::{Spelled, number_of};
use wx_words_trial::{first_wrong_pair, first_wrong_value};

/// What each byte from 0 to 255 is as a key, sixteen in a row: the end of the input at 3 and 4, Enter at 13, Escape at 27,
/// `^` and a letter for this letter with Ctrl, and the character itself from 32, the space, to 126.
const KEYS: &str = "\
none ^a ^b eof eof ^e ^f ^g ^h ^i ^j ^k ^l enter ^n ^o
^p ^q ^r ^s ^t ^u ^v ^w ^x ^y ^z escape none none none none
space ! \" # $ % & ' ( ) * + , - . /
0 1 2 3 4 5 6 7 8 9 : ; < = > ?
@ A B C D E F G H I J K L M N O
P Q R S T U V W X Y Z [ \\ ] ^ _
` a b c d e f g h i j k l m n o
p q r s t u v w x y z { | } ~ none
none none none none none none none none none none none none none none none none
none none none none none none none none none none none none none none none none
none none none none none none none none none none none none none none none none
none none none none none none none none none none none none none none none none
none none none none none none none none none none none none none none none none
none none none none none none none none none none none none none none none none
none none none none none none none none none none none none none none none none
none none none none none none none none none none none none none none none none
";

/// Appends the character of a key.
fn put_char(c: char, out: &mut Text) -> Result<(), Memory> {
    let mut buffer = [0; 4];
    match c {
        ' ' => out.append(b"space"),
        _ => out.append(c.encode_utf8(&mut buffer).as_bytes()),
    }
}

/// Appends a key as the table of keys has it.
fn put_key(key: Option<Keyboard>, out: &mut Text) -> Result<(), Memory> {
    let Some(found) = key else {
        return out.append(b"none");
    };
    let Keyboard::Key { key, modifiers } = found else {
        return out.append(b"eof");
    };
    if modifiers.ctrl {
        out.push(b'^')?;
    }
    match key {
        KeyCode::Char(c) => put_char(c, out),
        KeyCode::Enter => out.append(b"enter"),
        KeyCode::Escape => out.append(b"escape"),
    }
}

/// The bytes of each row of the table, by the first of them.
const FIRSTS: [u8; 16] = [
    0, 16, 32, 48, 64, 80, 96, 112, 128, 144, 160, 176, 192, 208, 224, 240,
];

/// Whether the sixteen keys from this byte on are this row.
fn is_row(alloc: Global, first: u8, row: &str) -> Result<bool, Memory> {
    let mut text = Text::new(alloc);
    for offset in 0..16u8 {
        if offset > 0 {
            text.push(b' ')?;
        }
        put_key(byte_to_keyboard(first.wrapping_add(offset)), &mut text)?;
    }
    Ok(text.as_slice() == row.as_bytes())
}

#[test]
fn keys_of_all_bytes(rt: HostRuntime) {
    let mut rows = KEYS.lines();
    for first in FIRSTS {
        let row = rows.next().expect(&rt, "a row");
        expect_yes(&rt, is_row(rt.alloc(), first, row), row);
    }
    assert!(&rt; rows.next().is_none(), "sixteen rows");
}

/// The byte of this number.
fn byte_of(word: &str) -> Option<u8> {
    let number = number_of(word.as_bytes())?;
    u8::try_from(number).ok()
}

/// The bytes whose numbers are these words.
fn bytes_in(alloc: Global, text: &str) -> Result<Text, Memory> {
    let mut bytes = Text::new(alloc);
    for word in text.split(' ') {
        if let Some(byte) = byte_of(word) {
            bytes.push(byte)?;
        }
    }
    Ok(bytes)
}

/// Appends the words of this value, with one space between each two and a semicolon before the first where something
/// stands before it.
fn put_words<T: Spelled>(value: &T, out: &mut Text) -> Result<(), Memory> {
    if out.len() > 0 {
        out.append(b"; ")?;
    }
    value.put(out)
}

/// Whether a read of these bytes makes these events, and is said to hold the end of the input just where they end with it.
fn is_read(alloc: Global, text: &str, expected: &str) -> Result<bool, Memory> {
    let bytes = bytes_in(alloc, text)?;
    let ends = ends_input(bytes.as_slice());
    let events = key_events(alloc, bytes.as_slice())?;
    let mut line = Text::new(alloc);
    for event in events.as_slice() {
        put_words(event, &mut line)?;
    }
    Ok(line.as_slice() == expected.as_bytes() && ends == expected.ends_with("key eof"))
}

/// Each line: the bytes that were read, and the events, with a semicolon between each two.
const READS: &str = "\
|2 source keyboard key eof
113|2 source keyboard key char.q
1 3 13|2 source keyboard key ctrl.char.a; 2 source keyboard key eof
4|2 source keyboard key eof
3 4|2 source keyboard key eof
97 4 98|2 source keyboard key char.a; 2 source keyboard key eof
97 0 98|2 source keyboard key char.a; 2 source keyboard key char.b
0|
27 200 13 255|2 source keyboard key escape; 2 source keyboard key enter
97 97|2 source keyboard key char.a; 2 source keyboard key char.a
32 26|2 source keyboard key char.%20; 2 source keyboard key ctrl.char.z
";

#[test]
fn reads_as_events_and_their_end(rt: HostRuntime) {
    expect_none(&rt, first_wrong_pair(rt.alloc(), READS, "|", is_read));
}

/// Whether this signal is heard then.
fn is_heard(_alloc: Global, signal: &Signal, _line: &str, expected: &str) -> Result<bool, Memory> {
    let when = match (hears_signal(*signal, false), hears_signal(*signal, true)) {
        (true, true) => "always",
        (false, true) => "with job control",
        (false, false) => "never",
        (true, false) => "without job control",
    };
    Ok(when == expected)
}

/// Each line: a signal, and when it is heard.
const HEARD: &str = "\
hangup|always
forcestop|never
interrupt|always
quit|always
terminate|always
user1|always
user2|always
continue|with job control
suspend|with job control
custom.2|never
custom.18|never
custom.-7|never
";

/// Whether this signal has this event with its priority.
fn has_event(alloc: Global, signal: &Signal, _line: &str, expected: &str) -> Result<bool, Memory> {
    let (event, priority): (Event, Priority) = signal_event(alloc, *signal)?;
    let mut line = Text::new(alloc);
    event.put(&mut line)?;
    priority.put_after(&mut line)?;
    Ok(line.as_slice() == expected.as_bytes())
}

/// Each line: a signal, and its event with its priority behind it.
const SIGNALS: &str = "\
interrupt|2 source keyboard signal interrupt urgent
terminate|2 source os signal terminate urgent
hangup|2 source os signal hangup high
forcestop|2 source os signal forcestop high
quit|2 source os signal quit high
user1|2 source os signal user1 high
user2|2 source os signal user2 high
continue|2 source os signal continue high
suspend|2 source os signal suspend high
custom.2|2 source os signal custom.2 high
custom.-7|2 source os signal custom.-7 high
";

#[test]
fn signals_that_are_heard_and_their_events(rt: HostRuntime) {
    expect_none(&rt, first_wrong_value(rt.alloc(), HEARD, "|", is_heard));
    expect_none(&rt, first_wrong_value(rt.alloc(), SIGNALS, "|", has_event));
}

/// Appends the words of this value behind what stands there, or `none`.
fn put_or_none<T: Spelled>(value: &Option<T>, out: &mut Text) -> Result<(), Memory> {
    match value {
        Some(found) => found.put_after(out),
        None => out.append(b" none"),
    }
}

/// The signals that the tags hold, with a semicolon between each two. The iterator ends, and stays at its end.
fn signals_of<T: Tagged>(alloc: Global, tagged: &T) -> Result<Option<Text>, Memory> {
    let mut words = Text::new(alloc);
    let mut signals = tagged.signals();
    for _ in 0..LIMIT {
        match signals.next() {
            Some(signal) => put_words(&signal, &mut words)?,
            None => break,
        }
    }
    Ok(signals.next().is_none().then_some(words))
}

/// The same of the paths, each with what it leads to.
fn paths_of<T: Tagged>(alloc: Global, tagged: &T) -> Result<Option<Text>, Memory> {
    let mut words = Text::new(alloc);
    let mut paths = tagged.paths();
    for _ in 0..LIMIT {
        match paths.next() {
            Some((path, file_type)) => {
                put_words(path, &mut words)?;
                put_or_none(&file_type, &mut words)?;
            }
            None => break,
        }
    }
    Ok(paths.next().is_none().then_some(words))
}

/// Appends a word, with a semicolon before it where something stands before it.
fn put_word(word: &[u8], out: &mut Text) -> Result<(), Memory> {
    if out.len() > 0 {
        out.append(b"; ")?;
    }
    out.append(word)
}

/// The same of the ends of processes, each behind `end`.
fn completions_of<T: Tagged>(alloc: Global, tagged: &T) -> Result<Option<Text>, Memory> {
    let mut words = Text::new(alloc);
    let mut completions = tagged.completions();
    for _ in 0..LIMIT {
        match completions.next() {
            Some(end) => {
                put_word(b"end", &mut words)?;
                put_or_none(&end, &mut words)?;
            }
            None => break,
        }
    }
    Ok(completions.next().is_none().then_some(words))
}

/// How many items each iterator may have here.
const LIMIT: u8 = 9;

/// Whether this text is this field.
fn is_field(text: Option<Text>, field: &str) -> bool {
    match text {
        Some(found) => found.as_slice() == field.as_bytes(),
        None => false,
    }
}

/// Whether the tags hold what these fields say: signals, paths, ends.
fn holds<T: Tagged>(alloc: Global, tagged: &T, _line: &str, fields: &str) -> Result<bool, Memory> {
    let Some((signals, rest)) = fields.split_once('|') else {
        return Ok(false);
    };
    let Some((paths, completions)) = rest.split_once('|') else {
        return Ok(false);
    };
    Ok(
        is_field(signals_of(alloc, tagged)?, signals)
            && is_field(paths_of(alloc, tagged)?, paths)
            && is_field(completions_of(alloc, tagged)?, completions),
    )
}

/// Each line: an event, its signals, its paths, its ends of processes.
const TAGGED: &str = "\
0|||
1 unknown|||
2 source os signal quit|quit||
3 signal quit signal user1 signal quit|quit; user1; quit||
2 path /a none path /b dir||/a none; /b dir|
5 path /a file signal hangup end success path /b none end none|hangup|/a file; /b none|end success; end none
4 end error.3 process 7 end signal.interrupt end none|||end error.3; end signal.interrupt; end none
3 source keyboard key eof kind create.file|||
";

/// Each line: events, and the same of all of them.
const BATCHES: &str = "\
0|||
1 0|||
3 0 1 unknown 0|||
3 2 signal quit path /a file 0 3 path /b none signal user2 end none|quit; user2|/a file; /b none|end none
2 1 end success 2 end success signal interrupt|interrupt||end success; end success
";

#[test]
fn what_events_and_batches_hold(rt: HostRuntime) {
    expect_none(
        &rt,
        first_wrong_value(rt.alloc(), TAGGED, "|", holds::<Event>),
    );
    expect_none(
        &rt,
        first_wrong_value(rt.alloc(), BATCHES, "|", holds::<List<Event>>),
    );
}
