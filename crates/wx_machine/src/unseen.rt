// Which events pass unseen.
ghost use Rattle.std.specs.Prelude.{◌≡◌};
ghost use Rattle.wx_machine.specs.Journal.{is_unseen};

use wx_events::{Event, Priority};

/// Whether an event passes without being shown to the filter: an urgent one does, and one without tags.
pub fn is_unseen(event: &Event, priority: Priority) -> bool
    ensures { result ≡ is_unseen event.now priority }
{
    priority.is_urgent() || event.is_empty()
}
