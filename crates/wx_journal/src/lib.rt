//! The journal of a run: its entries, their words, and the list of them.
#![tactic(auto)]

mod acts;
mod answers;
mod beginning;
mod bytes;
mod child;
mod entry;
mod journal;
mod kinds;
mod lines;
mod reading;
mod wish;
mod words;

pub use answers::{
    BackedRef, HookedRef, ReadyRef, VerdictRef, answers_are_read_again, read_backed, read_ready,
    read_verdict,
};
pub use beginning::Beginning;
pub use bytes::copy_bytes;
pub use child::{HostFault, SpawnTag};
pub use entry::{Act, Entry, LetGoCause, Named, Offered, Turn, TurnKind, Word};
pub use journal::{Entries, Journal};
pub use lines::{put_end, put_lines};
pub use wish::Wish;
