// How a call ends that writes a text.
ghost use Rattle.std.specs.Prelude.{◌≡◌, ◌⊎◌};
ghost use Rattle.wx_replay.specs.Writes.{IsWritten, IsJust, Writes};

use crate::status::Status;
use wx_bytes::{Sink, write_all};

/// Writes a text, and answers this status where all of it was written, and else `WriteFault`.
#[tactic(auto, using(crate::proofs::WriteLemmas::wrote_all, crate::proofs::WriteLemmas::wrote_part))]
pub fn write_out<K: Sink>(sink: &mut K, text: &[u8], status: Status) -> Status
    requires { IsWritten status }
    ensures written { Writes (IsJust text.now status) K.held K.faults sink.old sink.new result }
    ensures other { (result ≡ status) ⊎ (result ≡ Status.WriteFault) }
{
    match write_all(sink, text) {
        Ok(()) => status,
        Err(_) => Status::WriteFault,
    }
}
