// Rounds of turns.
use wx_journal::{Entry, TurnKind};

/// How many rests aren't taken where an event was brought: it is heard, stepped about, offered and taken in rounds of their own.
const ROUNDS: u8 = 4;

/// Whether anything was done in a round of turns: what watches files brought an event, a turn about files looked at the tree, keys were
/// read, or a child or a flag was acted on.
#[derive(Drop)]
pub struct Round {
    is_about_files: bool,
    left: u8,
}

impl Round {
    /// A round before which nothing was done.
    pub fn new() -> Round {
        Round {
            is_about_files: false,
            left: 0,
        }
    }

    /// Is told what happened.
    pub fn note(&mut self, entry: &Entry) {
        match entry {
            Entry::Turn(turn) => self.begin(&turn.kind),
            Entry::Brought { answer: Ok(_), .. } => self.left = ROUNDS,
            _ => {}
        }
    }

    /// Is told of a turn.
    fn begin(&mut self, kind: &TurnKind) {
        self.is_about_files = matches!(kind, TurnKind::File);
        if matches!(kind, TurnKind::Keys(_)) {
            self.act();
        }
    }

    /// Is told of a look at the tree.
    pub fn look(&mut self) {
        if self.is_about_files {
            self.act();
        }
    }

    /// Is told that something was done.
    pub fn act(&mut self) {
        self.left = self.left.max(1);
    }

    /// Begins the next round, and answers whether anything was done in the one before, or an event brought in the last four.
    pub fn next(&mut self) -> bool {
        let is_busy = self.left > 0;
        self.left = self.left.saturating_sub(1);
        is_busy
    }
}
