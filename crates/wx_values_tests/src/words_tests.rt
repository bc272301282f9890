// Lines and values by the rules of the words: the expected values are worked out by hand.
use crate::expecting::{expect_next, expect_none};
use std::alloc::Global;
use std::fmt;
use std::num::{NonZeroI32, NonZeroI64};
use std::process::Abort;
use wx_text::{Copies, List, Memory, Text, copy_twice};
use wx_words::{Spelled, TextPath, Words, take_literal};
use wx_words_trial::{first_accepted, is_written, read_line};

/// Ends the test where the answer isn't yes, and says at which line.
fn expect_yes(rt: &impl Abort, answer: Result<bool, Memory>, line: &[u8]) {
    assert!(rt; answer == Ok(true), "at {line:?}");
}

/// Holds the words of this value to be this line.
fn expect_written<T: Spelled>(rt: &impl Abort, alloc: Global, value: T, line: &[u8]) {
    expect_yes(rt, is_written(alloc, &value, line), line);
}

/// Whether this line is read so, as a value or as none.
fn is_read_as<T: Spelled + PartialEq>(
    alloc: Global,
    line: &[u8],
    want: &Option<T>,
) -> Result<bool, Memory> {
    let found: Option<T> = read_line(alloc, line)?;
    Ok(found == *want)
}

/// Holds what this line is read as, a value or none, to be this.
fn expect_read<T: Spelled + PartialEq>(
    rt: &impl Abort,
    alloc: Global,
    line: &[u8],
    want: Option<T>,
) {
    expect_yes(rt, is_read_as(alloc, line, &want), line);
}

/// The text of these bytes.
fn text(rt: &impl Abort, alloc: Global, bytes: &[u8]) -> Text {
    Text::from_slice(alloc, bytes).expect(rt, "a text")
}

// Texts and their words.
const SPELLED: [(&[u8], &[u8]); 6] = [
    (b"", b"%"),
    (b"main.rs", b"main.rs"),
    (b"a b%", b"a%20b%25"),
    (b"%", b"%25"),
    (b"!~\x7f\x00", b"!~%7F%00"),
    (b"\xc3\xa9\n", b"%C3%A9%0A"),
];

/// Holds the word of the text of these bytes, and of the path, to be this one.
fn expect_word(rt: &impl Abort, alloc: Global, bytes: &[u8], word: &[u8]) {
    expect_written(rt, alloc, text(rt, alloc, bytes), word);
    expect_written(rt, alloc, TextPath::new(text(rt, alloc, bytes)), word);
}

// Words and their texts.
const READ: [(&[u8], &[u8]); 6] = [
    (b"%", b""),
    (b"a%20b%25", b"a b%"),
    (b"%c3%A9", b"\xc3\xa9"),
    (b"%7e%41", b"~A"),
    (b"%00", b"\x00"),
    (b"%25", b"%"),
];

/// Holds the text of this word, and the path, to have these bytes.
fn expect_bytes(rt: &impl Abort, alloc: Global, word: &[u8], bytes: &[u8]) {
    expect_read(rt, alloc, word, Some(text(rt, alloc, bytes)));
    let path = TextPath::new(text(rt, alloc, bytes));
    expect_read(rt, alloc, word, Some(path));
}

#[test]
fn texts_and_their_words(rt: HostRuntime) {
    for (bytes, word) in &SPELLED {
        expect_word(&rt, rt.alloc(), bytes, word);
    }
    for (word, bytes) in &READ {
        expect_bytes(&rt, rt.alloc(), word, bytes);
    }
}

/// Holds this value to be written by this line, and read from it.
fn expect_value<T: Spelled + PartialEq>(rt: &impl Abort, alloc: Global, value: T, line: &[u8]) {
    expect_yes(rt, is_written(alloc, &value, line), line);
    expect_read(rt, alloc, line, Some(value));
}

const UNSIGNED: [(&[u8], u64); 3] = [
    (b"0", 0),
    (b"7", 7),
    (b"18446744073709551615", 18_446_744_073_709_551_615),
];

const SIGNED: [(&[u8], i64); 6] = [
    (b"0", 0),
    (b"7", 7),
    (b"-1", -1),
    (b"-10", -10),
    (b"9223372036854775807", 9_223_372_036_854_775_807),
    (b"-9223372036854775808", -9_223_372_036_854_775_808),
];

#[test]
fn numbers_and_their_words(rt: HostRuntime) {
    let alloc = rt.alloc();
    for (word, n) in &UNSIGNED {
        expect_value(&rt, alloc, *n, word);
    }
    for (word, n) in &SIGNED {
        expect_value(&rt, alloc, *n, word);
    }
    expect_value(&rt, alloc, 0u32, b"0");
    expect_value(&rt, alloc, 4_294_967_295u32, b"4294967295");
    expect_value(&rt, alloc, 2_147_483_647i32, b"2147483647");
    expect_value(&rt, alloc, -2_147_483_648i32, b"-2147483648");
}

#[test]
fn numbers_other_than_zero_and_their_words(rt: HostRuntime) {
    let alloc = rt.alloc();
    let one = NonZeroI64::new(1).expect(&rt, "no zero");
    expect_value(&rt, alloc, one, b"1");
    let four = NonZeroI64::new(-4).expect(&rt, "no zero");
    expect_value(&rt, alloc, four, b"-4");
    let three = NonZeroI32::new(-3).expect(&rt, "no zero");
    expect_value(&rt, alloc, three, b"-3");
    let low = NonZeroI32::new(-2_147_483_648).expect(&rt, "no zero");
    expect_value(&rt, alloc, low, b"-2147483648");
}

#[test]
fn switches_and_what_may_be_absent(rt: HostRuntime) {
    let alloc = rt.alloc();
    expect_value(&rt, alloc, true, b"on");
    expect_value(&rt, alloc, false, b"off");
    expect_value(&rt, alloc, Some(12u64), b"12");
    expect_value::<Option<u64>>(&rt, alloc, None, b"-");
}

// The first line is empty, here and in the next two tables.
const NO_TEXTS: &str = "
a b
a%
%2
%2g
%%
a\tb
\x7f
";

const NO_UNSIGNED: &str = "
007
00
-1
+1
1a
18446744073709551616
";

const NO_SIGNED: &str = "
-
-0
--1
+1
-01
01
1-
9223372036854775808
-9223372036854775809
";

const NO_SMALL: &str = "\
2147483648
-2147483649
";

const NOT_OPTIONAL: &str = "\
--
012
";

const NO_LISTS: &str = "\
3 5 6
1 5 6
2 5  6
2 5 x
5 6
";

#[test]
fn lines_that_are_no_values(rt: HostRuntime) {
    let alloc = rt.alloc();
    expect_none(&rt, first_accepted::<Text>(alloc, NO_TEXTS));
    expect_none(&rt, first_accepted::<u64>(alloc, NO_UNSIGNED));
    expect_none(&rt, first_accepted::<i64>(alloc, NO_SIGNED));
    expect_none(&rt, first_accepted::<i32>(alloc, NO_SMALL));
    expect_none(&rt, first_accepted::<u32>(alloc, "4294967296"));
    expect_none(&rt, first_accepted::<NonZeroI64>(alloc, "0"));
    expect_none(&rt, first_accepted::<NonZeroI32>(alloc, "0"));
    expect_none(&rt, first_accepted::<Option<u64>>(alloc, NOT_OPTIONAL));
    expect_none(&rt, first_accepted::<List<u64>>(alloc, NO_LISTS));
    expect_none(&rt, first_accepted::<bool>(alloc, "On"));
}

/// Takes the next part, and holds it to be this one.
fn expect_part(rt: &impl Abort, parts: &mut Words, want: &[u8]) {
    assert!(rt; parts.next() == Some(want), "not {want:?}");
}

#[test]
fn parts_between_dots(rt: HostRuntime) {
    let mut parts = Words::dotted(b"a.b..c d");
    expect_part(&rt, &mut parts, b"a");
    expect_part(&rt, &mut parts, b"b");
    expect_part(&rt, &mut parts, b"");
    let mut ahead = parts.fork();
    expect_part(&rt, &mut ahead, b"c d");
    assert!(rt; ahead.is_done());
    expect_part(&rt, &mut parts, b"c d");
    assert!(rt; parts.is_done());
}

#[test]
fn a_list_and_its_items(rt: HostRuntime) {
    let items = vec![in rt.alloc(); 3u64, 1, 2].expect(&rt, "items");
    let list = List::from_vec(items);
    assert!(rt; list.as_slice() == [3, 1, 2].as_slice());
    let items = list.into_vec();
    assert!(rt; items.as_slice() == [3, 1, 2].as_slice());
}

/// The list of 5 and 6.
fn five_and_six(alloc: Global) -> Result<List<u64>, Memory> {
    let mut numbers = List::new(alloc);
    numbers.push(5)?;
    numbers.push(6)?;
    Ok(numbers)
}

/// Holds the list of this line to have these items.
fn expect_items(rt: &impl Abort, alloc: Global, line: &[u8], want: &[u64]) {
    let found: Option<List<u64>> = read_line(alloc, line).expect(rt, "a line");
    let list = found.expect(rt, "a list");
    assert!(rt; list.as_slice() == want && list.is_empty() == want.is_empty());
}

#[test]
fn lists_and_their_items(rt: HostRuntime) {
    let alloc = rt.alloc();
    let numbers = five_and_six(alloc).expect(&rt, "a list");
    expect_written(&rt, alloc, numbers, b"2 5 6");
    expect_items(&rt, alloc, b"2 5 6", &[5, 6]);
    expect_items(&rt, alloc, b"0", &[]);
}

/// How many texts the list at the front of these words has.
fn texts_in(rt: &impl Abort, alloc: Global, words: &mut Words) -> usize {
    let found: Option<List<Text>> = List::take(alloc, words).expect(rt, "a word");
    let texts = found.expect(rt, "texts");
    texts.len()
}

#[test]
fn takes_one_after_the_other(rt: HostRuntime) {
    let alloc = rt.alloc();
    let mut words = Words::new(b"at 9 on 1 x");
    assert!(rt; take_literal(b"at", &mut words));
    expect_next::<bool>(&rt, alloc, &mut words, None);
    expect_next(&rt, alloc, &mut words, Some(9u64));
    expect_next(&rt, alloc, &mut words, Some(true));
    assert!(rt; texts_in(&rt, alloc, &mut words) == 1);
    assert!(rt; words.is_done());
}

const COMPARED: [(&[u8], &[u8], bool); 5] = [
    (b"", b"", true),
    (b"/a", b"/a", true),
    (b"/a", b"/a/", false),
    (b"/a", b"/b", false),
    (b"", b"/", false),
];

/// Holds whether these two are equal to be so.
fn expect_same<T: PartialEq + fmt::Debug + Drop>(rt: &impl Abort, one: T, other: T, same: bool) {
    assert!(rt; (one == other) == same, "{one:?} and {other:?}");
}

/// Holds whether the texts of these bytes, and the paths, are equal to be so.
fn expect_compared(rt: &impl Abort, alloc: Global, one: &[u8], other: &[u8], same: bool) {
    expect_same(rt, text(rt, alloc, one), text(rt, alloc, other), same);
    let path = TextPath::new(text(rt, alloc, one));
    let another = TextPath::new(text(rt, alloc, other));
    expect_same(rt, path, another, same);
}

#[test]
fn texts_and_paths_are_compared_by_their_bytes(rt: HostRuntime) {
    for (one, other, same) in &COMPARED {
        expect_compared(&rt, rt.alloc(), one, other, *same);
    }
}

/// Holds two copies of this value to equal it.
fn expect_copies<T: Copies + PartialEq + Drop>(rt: &impl Abort, alloc: Global, value: T) {
    let (first, second) = copy_twice(alloc, &value).expect(rt, "copies");
    assert!(rt; first == value && second == value);
}

#[test]
fn copies_twice(rt: HostRuntime) {
    let alloc = rt.alloc();
    expect_copies::<Result<bool, Text>>(&rt, alloc, Ok(true));
    let words = text(&rt, alloc, b"a b");
    expect_copies::<Result<bool, Text>>(&rt, alloc, Err(words));
}
