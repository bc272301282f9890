// What stays of owned paths and guards, where registrations go.
ghost use Rattle.std.specs.Prelude.{◌≡◌, ◌++◌, filter};
ghost use Rattle.wx_holding.specs.Holding.{state_of};
ghost use Rattle.wx_recursor.specs.Identities.{has_identity};
ghost use Rattle.wx_recursor.specs.Rebuilds.{upheld};

use wx_holding::Held;
use wx_index::{KnownList, is_backed};
use wx_recursor::GuardWatch;

fn keep_backed_guards(registrations: &KnownList, waiting: &KnownList, guards: &mut Vec<GuardWatch>)
    ensures { guards.new.items ≡ filter (λ g. has_identity g.identity (registrations.now ++ waiting.now)) guards.old.items }
{
    guards.retain(|g| is_backed(&g.identity, registrations, waiting));
}

/// An owned path or a guard stays only where its registration is there or waits.
pub fn uphold(held: &mut Held)
    ensures { state_of held.new ≡ upheld (state_of held.old) }
{
    held.known.keep_backed(&held.registrations, &held.waiting);
    held.owners.keep_known(&held.known);
    keep_backed_guards(&held.registrations, &held.waiting, &mut held.guards);
}
