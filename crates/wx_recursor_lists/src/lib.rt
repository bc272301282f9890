//! What a recursor asks of the lists that it keeps, and what it makes of them: each as its definition in `wx_recursor`.
#![tactic(auto)]

mod identities;
mod owners;
mod queued;
mod registrations;

pub use identities::{
    changed, has_guard_identity, has_identity, has_known, has_known_guard, is_identity_of,
    is_of_handles, is_of_watches, is_other, is_other_guard, is_path_gone, is_still, without,
};
pub use owners::{
    disown, disown_below, has_met, has_owner, has_path, has_root, has_seen, set_unseen, sweep,
};
pub use queued::{
    has_guard_watch, has_retry, keep_guards, lift_above, lift_tombstone, queue_entries,
    queue_guards, queue_guards_at, queue_retries, queue_roots, release_guard,
};
pub use registrations::{has_new, put_deep};
