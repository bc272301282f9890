// What ends a test.
use std::alloc::Global;
use std::process::Abort;
use wx_text::Memory;
use wx_words::{Spelled, Words};

/// Ends the test where the answer isn't yes, and says at which case.
pub(crate) fn expect_yes(rt: &impl Abort, answer: Result<bool, Memory>, case: &str) {
    assert!(rt; answer == Ok(true), "at {case}");
}

/// Ends the test where a case is wrong, and says which.
pub(crate) fn expect_none(rt: &impl Abort, wrong: Option<&str>) {
    assert!(rt; wrong.is_none(), "at {wrong:?}");
}

/// Takes the value at the front of these words, and holds it to be this one, or none.
pub(crate) fn expect_next<T: Spelled + PartialEq>(
    rt: &impl Abort,
    alloc: Global,
    words: &mut Words,
    want: Option<T>,
) {
    let found = T::take(alloc, words).expect(rt, "a word");
    assert!(rt; found == want);
}
