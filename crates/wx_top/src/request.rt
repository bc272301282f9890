// What the words of a call ask for.
ghost use Rattle.std.specs.Prelude.{ℕ, ◌≡◌, ◌≤◌, ◌<◌, ◌+◌, IfSome, length};
ghost use Rattle.wx_top.specs.Requests.{rows, found, asked, replay_of, flood_of, flood_within, live_of, live_from, live_counted, live_within, is_ignore, IsPlaced, IsWithin};

use wx_flood::MOST;
use wx_patterns::is_pattern;
use wx_text::Text;
use wx_words::number_of;

/// What the words of a call ask for.
#[derive(Clone, Copy, PartialEq, Eq)]
pub(crate) enum Request {
    /// A script is to be read and run, and the journal of its run is to be written.
    Replay,
    /// The script of so many steps that are drawn from this seed on is to be run, and the summary of its run is to be written.
    Flood {
        steps: u64,
        seed: u64,
    },
    /// A command is to be run at each change of the folder, for so many turns, and the journal of its run is to be written. So many words
    /// stand before those that say what is ignored, and so many before those of the command.
    Live {
        turns: u64,
        from: usize,
        before: usize,
    },
}

/// How many turns a command runs for, where no number is said.
const TURNS: u64 = 1_000_000;

/// How many it runs for at most.
const MOST_TURNS: u64 = 4_194_304;

/// How many patterns may be said to be ignored.
const MOST_PATTERNS: u64 = 64;

/// Behind `replay` stands no word.
fn replay_of(behind: &[Text]) -> Option<Request>
    ensures exact { result ≡ replay_of behind.now }
    ensures within { IfSome result IsWithin }
{
    if behind.is_empty() {
        return Some(Request::Replay);
    }
    None
}

/// A flood of so many steps from this seed on, where they are within the limit.
fn flood_within(steps: u64, seed: u64) -> Option<Request>
    ensures exact { result ≡ flood_within steps seed }
    ensures within { IfSome result IsWithin }
{
    if MOST < steps {
        return None;
    }
    Some(Request::Flood { steps, seed })
}

/// Behind `flood` stand the number of steps and the seed.
fn flood_of(behind: &[Text]) -> Option<Request>
    ensures exact { result ≡ flood_of behind.now }
    ensures within { IfSome result IsWithin }
{
    match behind {
        [steps, seed] => flood_within(number_of(steps.as_slice())?, number_of(seed.as_slice())?),
        _ => None,
    }
}

/// A command that runs for so many turns, where these are within the limit.
fn live_within(turns: u64, from: usize, before: usize) -> Option<Request>
    requires { from < before }
    ensures exact { result ≡ live_within turns from before }
    ensures within { IfSome result IsWithin }
    ensures placed { (count : ℕ) → before < count → IfSome result (IsPlaced count) }
{
    if MOST_TURNS < turns {
        return None;
    }
    Some(Request::Live {
        turns,
        from,
        before,
    })
}

/// Whether this word and the next one say what is ignored, where so many may still do.
fn is_ignore(room: u64, word: &[u8], next: &[u8]) -> bool
    ensures { result ≡ is_ignore room word.now next.now }
{
    word == b"--ignore".as_slice() && 0 < room && is_pattern(next)
}

/// Behind what is ignored stand two dashes, a program and its arguments. So many words stand before these.
fn live_from(words: &[Text], turns: u64, from: usize) -> Option<Request>
    requires few { from ≤ 3 }
    ensures exact { result ≡ live_from words.now turns from }
    ensures within { IfSome result IsWithin }
    ensures placed { (count : ℕ) → from + length words.now ≤ count → IfSome result (IsPlaced count) }
{
    let mut rest = words;
    let mut room = MOST_PATTERNS;
    let mut before = from + 1;
    while let Some((word, behind)) = rest.split_first() {
        let (next, after) = behind.split_first()?;
        if word.as_slice() == b"--".as_slice() {
            return live_within(turns, from, before);
        }
        if !is_ignore(room, word.as_slice(), next.as_slice()) {
            return None;
        }
        rest = after;
        room -= 1;
        before += 2;
    }
    None
}

/// Behind `--turns` stands their number.
fn live_counted(words: &[Text]) -> Option<Request>
    ensures exact { result ≡ live_counted words.now }
    ensures within { IfSome result IsWithin }
    ensures placed { IfSome result (IsPlaced (2 + length words.now)) }
{
    let (turns, behind) = words.split_first()?;
    live_from(behind, number_of(turns.as_slice())?, 3)
}

/// Behind `live` stand the number of turns, where one is said, what is ignored, and the command.
fn live_of(behind: &[Text]) -> Option<Request>
    ensures exact { result ≡ live_of behind.now }
    ensures within { IfSome result IsWithin }
    ensures placed { IfSome result (IsPlaced (1 + length behind.now)) }
{
    let (word, rest) = behind.split_first()?;
    if word.as_slice() == b"--turns".as_slice() {
        return live_counted(rest);
    }
    live_from(behind, TURNS, 1)
}

/// What the words behind this one ask for.
fn found(word: &[u8], behind: &[Text]) -> Option<Request>
    ensures exact { result ≡ found rows word.now behind.now }
    ensures within { IfSome result IsWithin }
    ensures placed { IfSome result (IsPlaced (1 + length behind.now)) }
{
    if word == b"replay".as_slice() {
        return replay_of(behind);
    }
    if word == b"flood".as_slice() {
        return flood_of(behind);
    }
    if word == b"live".as_slice() {
        return live_of(behind);
    }
    None
}

/// What these words ask for. `None` where they are none of the table.
pub(crate) fn asked(words: &[Text]) -> Option<Request>
    ensures exact { result ≡ asked words.now }
    ensures within { IfSome result IsWithin }
    ensures placed { IfSome result (IsPlaced (length words.now)) }
{
    let (word, behind) = words.split_first()?;
    found(word.as_slice(), behind)
}
