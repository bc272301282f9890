// What ends a test.
use std::process::Abort;
use wx_text::Memory;

/// Ends the test where the answer isn't yes, and says at which case.
pub(crate) fn expect_yes(rt: &impl Abort, answer: Result<bool, Memory>, case: &str) {
    assert!(rt; answer == Ok(true), "at {case}");
}
