// Tests of what reads the keyboard.
ghost use Rattle.std.specs.Prelude.{◌≤◌};

use std::alloc::{Alloc, Global};
use std::process::Abort;
use std::sync::Wait;
use wx_bytes::MemSource;
use wx_handles::{Item, ThreadWorld};
use wx_mem_live::MemLive;
use wx_reader::read_keys;
use wx_text::{List, Memory, Text};

/// How many items a queue holds that is small, or not.
fn size_of(is_small: bool) -> u32
    ensures { (1 ≤ result) × (result ≤ 65536) }
{
    if is_small { 1 } else { 9 }
}

/// What is sent of a source into a queue that is small, or not: for each send its bytes and a stop; and how many reads failed.
fn sent_of<R: Wait + Copy>(
    rt: R,
    alloc: Global,
    mut source: MemSource,
    is_small: bool,
) -> Result<(Text, u64), Memory> {
    let size = size_of(is_small);
    let (world, mut pass) = ThreadWorld::new(rt, alloc, MemLive::new(alloc)?, 1, 1, size)?;
    let read = read_keys(rt, alloc, &mut source, &mut pass);
    let faults = source.faults();
    drop(source);
    let mut passes = List::new(alloc);
    passes.push(pass)?;
    let Ok(given) = world.finish(passes) else {
        return Err(Memory);
    };
    read?;
    let mut text = Text::new(alloc);
    for sent in given.left.as_slice() {
        if let Item::Keys(bytes) = &sent.item {
            text.append(bytes.as_slice())?;
            text.push(b'.')?;
        }
    }
    drop(given);
    Ok((text, faults))
}

/// A source, its reads that fail, whether the queue holds one item alone, what is sent, and how many reads fail.
type Row = (&'static [u8], &'static [u64], bool, &'static [u8], u64);

const ROWS: [Row; 8] = [
    // the end is an empty read
    (b"", &[], false, b".", 0),
    (b"abc", &[], false, b"abc..", 0),
    // ten bytes at a time
    (b"abcdefghijklm", &[], false, b"abcdefghij.klm..", 0),
    // up to a read with q, which is sent whole
    (
        b"abcdefghijkqmabcdefghij",
        &[],
        false,
        b"abcdefghij.kqmabcdefg.",
        0,
    ),
    // a capital Q is no q
    (b"Q", &[], false, b"Q..", 0),
    // what finds the queue full is dropped, a q and the end too
    (b"abcdefghijkqmabcdefghij", &[], true, b"abcdefghij.", 0),
    // a read that fails is the last
    (b"abcdefghijklm", &[2], false, b"abcdefghij.", 1),
    (b"abc", &[1], false, b"", 1),
];

#[test]
fn reads_are_sent_until_the_end_a_fault_or_a_q(rt: HostRuntime) {
    let alloc = rt.alloc();
    for (bytes, failing, is_small, text, faults) in &ROWS {
        let at = Vec::from_slice(alloc, failing).expect(&rt, "numbers");
        let source = MemSource::new(alloc, bytes)
            .expect(&rt, "a source")
            .failing(at);
        let sent = sent_of(rt, alloc, source, *is_small).expect(&rt, "memory");
        assert!(rt; sent.0.as_slice() == *text, "of {bytes:?}");
        assert_eq!(rt; sent.1, *faults);
        drop(sent);
    }
}
