// What is told of bytes that are no script.
use std::fmt;
use thiserror::Error;
use wx_bytes::LIMIT;

// How many bytes of a line are shown.
const SHOWN: usize = 40;

/// The bytes of a line or a word, of which the first 40 are shown, and two dots where there are more. A byte other than
/// those from the space to `~` is shown as `\x` and two hexadecimal digits.
#[derive(Clone, Copy, Debug)]
pub struct Front<'a>(pub &'a [u8]);

impl fmt::Display for Front<'_> {
    fn fmt<W: fmt::Write>(&self, f: &mut fmt::Formatter<W>) -> fmt::Result {
        for byte in &self.0[..self.0.len().min(SHOWN)] {
            if 32 <= *byte && *byte < 127 {
                f.write_char(*byte as char)?;
            } else {
                write!(f, "\\x{byte:02X}")?;
            }
        }
        if SHOWN < self.0.len() {
            f.write_str("..")?;
        }
        Ok(())
    }
}

/// Why a line can't stand where it stands.
#[derive(Clone, Copy, Debug, Error)]
pub enum Reason<'a> {
    #[error("it has no line feed at its end")]
    Unended,
    #[error("no line has this form")]
    NoForm,
    #[error("the length of its list is {found}, not {said}")]
    Length { said: u64, found: u64 },
    #[error("its act {number}, `{word}`, has no form")]
    NoAct { number: u64, word: Front<'a> },
    #[error("a turn brings at most 10 bytes of the keyboard")]
    Keys,
    #[error("the pattern has no part, or a part of it is empty, . or ..")]
    Pattern,
    #[error("a script gives no last turn")]
    LastTurn,
    #[error("out of order: set lines stand before send, turn and turnfault lines")]
    LateSet,
    #[error("out of order: send lines stand before turn and turnfault lines")]
    LateSend,
    #[error("its moment is less than {0}, that of the turn before it")]
    Moment(u64),
    #[error("there are more send lines than the size, which is {0}")]
    Full(u32),
    #[error("a size is from 1 to 65536")]
    Size,
    #[error("the folder isn't absolute")]
    Folder,
    #[error("the path isn't absolute, or a part of it is empty, . or ..")]
    Path,
    #[error("it can't stand here")]
    Unknown,
}

/// Why bytes are no script. It is shown in one line, without a line feed, of bytes from the space to `~` alone.
#[derive(Clone, Copy, Debug, Error)]
pub enum Refusal<'a> {
    #[error("it has more than {limit} bytes", limit = LIMIT)]
    TooLong,
    /// The first bad line: its number, counted from 1, its front, and why it is bad.
    #[error("line {number} `{line}`: {reason}")]
    BadLine {
        number: u64,
        line: Front<'a>,
        reason: Reason<'a>,
    },
}
