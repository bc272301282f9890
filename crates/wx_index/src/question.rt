// What is asked of the entries of a list, and the first that meets it.
ghost use Rattle.std.specs.Prelude.{◌≡◌, Bool, true, List, ℕ, map, slice_get};
ghost use Rattle.wx_index.specs.Chained.{AreFound, first_at, judged};

use crate::chains::Chains;
use wx_text::Text;

/// What is asked of entries that have keys.
pub(crate) trait Question<T> {
    ghost key: { T → List ℕ };

    ghost asks: { Self → T → Bool };

    /// Whether the entry meets it.
    fn is_met(&self, entry: &T) -> bool
        ensures { result ≡ asks self.now entry.now };
}

/// The place of the entry there, if it meets the question, else what was found before.
fn judged<T, Q: Question<T>>(entries: &[T], question: &Q, at: usize, found: usize) -> usize
    ensures { result ≡ judged (Q.asks question.now) (slice_get entries.now at) at found }
{
    match entries.get(at) {
        Some(entry) => { if question.is_met(entry) { at } else { found } }
        None => found,
    }
}

/// The place of the first entry that meets the question, and how many entries there are where none does. All that meet it have
/// this key.
pub(crate) fn first_met<T, Q: Question<T>>(
    chains: &Chains,
    key: &Text,
    entries: &[T],
    question: &Q,
) -> usize
    requires found { AreFound (map Q.key entries.now) chains.now }
    requires key { (x : T) → Q.asks question.now x ≡ true → Q.key x ≡ key.now }
    ensures { result ≡ first_at (Q.asks question.now) entries.now }
{
    let mut found = entries.len();
    let mut left = chains.end(key);
    while left > 0 {
        let at = left - 1;
        found = judged(entries, question, at, found);
        left = chains.end_before(at);
    }
    found
}
