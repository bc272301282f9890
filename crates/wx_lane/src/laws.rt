// Laws of messages.
ghost use Rattle.std.specs.Prelude.{◌≡◌};
ghost use Rattle.wx_notify.specs.declared.notify.Notify.{Notify};
ghost use Rattle.wx_scan.specs.Backings.{tells_change};
ghost use Rattle.wx_lane.specs.Messages.{has_changes};

/// A notification says that the tree changed exactly where there is a message.
#[tactic(auto, using(crate::proofs::MessageLemmas::tells_where_messages))]
pub fn messages_tell_change()
    ensures { (n : Notify) → tells_change n ≡ has_changes n }
{}
