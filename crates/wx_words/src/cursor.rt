// The words of a line.
ghost use Rattle.std.specs.Prelude.{◌≡◌, ◌<◌, [], ◌∷◌, length, ◌==◌, MatchOption, IfSome};
ghost use Rattle.wx_words.specs.Line.{words_of, parts};
ghost use Rattle.wx_words.specs.Dotted.{parts_of};

use std::marker::Model;

/// A cursor over the words of a line, or over the parts of a word, which contracts see as those that are left.
#[derive(Drop, Debug)]
pub struct Words<'a> {
    left: &'a [u8],
    done: bool,
    separator: u8,
}

impl<'a> Model for Words<'a> {
    ghost use Rattle.std.specs.Prelude.{List, ℕ, [], if◌then◌else◌};
    ghost use Rattle.wx_words.specs.Line.{parts};

    ghost Value = { List (List ℕ) };

    ghost view = { λ w. if w.done then [] else parts w.separator w.left.now };
}

impl<'a> Words<'a> {
    /// A cursor at the first word of this line.
    pub fn new(line: &'a [u8]) -> Words<'a>
        ensures { result ≡ words_of line.now }
    {
        Words {
            left: line,
            done: false,
            separator: 32,
        }
    }

    /// A cursor at the first part of this word, whose parts stand between dots.
    pub fn dotted(word: &'a [u8]) -> Words<'a>
        ensures { result ≡ parts_of word.now }
    {
        Words {
            left: word,
            done: false,
            separator: 46,
        }
    }

    /// A second cursor at this place.
    pub fn fork(&self) -> Words<'a>
        ensures { result ≡ self.now }
    {
        Words {
            left: self.left,
            done: self.done,
            separator: self.separator,
        }
    }

    /// Takes the next word, however it reads.
    pub fn next(&mut self) -> Option<&'a [u8]>
        ensures { MatchOption result ((self.old ≡ []) × (self.new ≡ [])) (λ word. self.old ≡ word.now ∷ self.new) }
    {
        if self.done {
            return None;
        }
        let left = self.left;
        match cut(left, self.separator) {
            None => {
                self.done = true;
                Some(left)
            }
            Some((word, rest)) => {
                self.left = rest;
                Some(word)
            }
        }
    }

    /// Whether no word is left.
    #[tactic(auto, using(crate::specs::LineLaws::some_part))]
    pub fn is_done(&self) -> bool
        ensures { result ≡ (length self.now == 0) }
    {
        self.done
    }
}

/// What stands before the first byte of this value, and what stands after it.
pub fn cut(line: &[u8], byte: u8) -> Option<(&[u8], &[u8])>
    ensures shorter { IfSome result (λ p. length p.1.now < length line.now) }
    ensures parts { MatchOption result (parts byte line.now ≡ line.now ∷ []) (λ p. parts byte line.now ≡ p.0.now ∷ parts byte p.1.now) }
{
    for i in 0..line.len() {
        if line[i] == byte {
            return Some((&line[..i], &line[i + 1..]));
        }
    }
    None
}
