// What is wrong with words that ask for nothing.
ghost use Rattle.std.specs.Prelude.{◌≡◌, false, IfSome};
ghost use Rattle.wx_patterns.specs.Lines.{is_pattern};

use wx_patterns::is_pattern;
use wx_text::Text;

/// The first of these words behind an `--ignore` that is no pattern. `None` where each is one.
fn first_bad(words: &[Text]) -> Option<&Text>
    ensures { IfSome result (λ line. is_pattern line.now ≡ false) }
{
    let mut rest = words;
    while let [word, next, behind @ ..] = rest {
        if word.as_slice() != b"--ignore".as_slice() {
            return None;
        }
        if !is_pattern(next.as_slice()) {
            return Some(next);
        }
        rest = behind;
    }
    None
}

/// Without the number of turns, where one is said in front.
fn behind_turns(words: &[Text]) -> &[Text] {
    match words {
        [word, _, behind @ ..] if word.as_slice() == b"--turns".as_slice() => behind,
        _ => words,
    }
}

/// The first word of a live run that is to be a pattern and is none. `None` where each is one, and for other words.
pub fn bad_pattern(words: &[Text]) -> Option<&Text>
    ensures { IfSome result (λ line. is_pattern line.now ≡ false) }
{
    match words {
        [word, behind @ ..] if word.as_slice() == b"live".as_slice() => {
            first_bad(behind_turns(behind))
        }
        _ => None,
    }
}
