// What the program does for its words.
ghost use Rattle.std.specs.Prelude.{◌≡◌, ◌↔◌, None, IfSome};
ghost use Rattle.wx_top.specs.Requests.{asked};
ghost use Rattle.wx_top.specs.Serves.{Serves};

use crate::commanding::command;
use crate::flooding::flood;
use crate::request::{Request, asked};
use std::alloc::Global;
use std::sync::Wait;
use std::thread::Threads;
use wx_bytes::{LIMIT, Sink, Source};
use wx_live::Live;
use wx_replay::{Status, replay};
use wx_text::Text;

/// Does what the words ask for: `replay` reads a script from the source to its end, runs it, and writes the journal of
/// the run to the sink; `flood N SEED` runs a script of N drawn steps, and writes the summary of the run to the sink;
/// `live -- PROG ARGS..` runs a command at each change of the folder of the live outside, with the source as its keyboard, and
/// writes the journal of the run to the sink. Before the dashes may stand `--turns N`, and then up to 64 times `--ignore PATTERN`:
/// the patterns say which paths below the folder are ignored.
///
/// `Usage` comes for all other words, and then nothing is read or written. `NoScript` comes where the bytes are no
/// script or more than `LIMIT`. `ReadFault` comes where a read failed, and `WriteFault` where a write did; the latter
/// leaves a front part of the text. `Memory` comes where there was none, and nothing was written. Of a flood nothing
/// comes but `Done`, `WriteFault` and `Memory`, and of a command also `Critical`.
pub fn wx_main<R: Threads + Wait + Copy + Send + Sync, S: Source + Send, K: Sink, L: Live>(
    rt: &R,
    alloc: Global,
    words: &[Text],
    source: &mut S,
    sink: &mut K,
    outside: &mut L,
) -> Status
    ensures usage { (result ≡ Status.Usage) ↔ (asked words.now ≡ None) }
    ensures untouched { result ≡ Status.Usage → (source.new ≡ source.old) × (sink.new ≡ sink.old) × (outside.new ≡ outside.old) }
    ensures served { IfSome (asked words.now) (λ request. Serves LIMIT S.left S.faults K.held K.faults L.seen L.drawn words.now source.old source.new sink.old sink.new outside.old outside.new result request) }
{
    match asked(words) {
        Some(Request::Replay) => replay(alloc, source, sink),
        Some(Request::Flood { steps, seed }) => flood(alloc, steps, seed, sink),
        Some(
            Request::Live {
                turns,
                from,
                before,
            },
        ) => {
            let (ignoring, commanded) = (&words[from..], &words[before..]);
            command(rt, alloc, turns, ignoring, commanded, source, sink, outside)
        }
        None => Status::Usage,
    }
}
