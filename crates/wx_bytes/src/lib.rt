//! Sources and sinks of bytes, and reading and writing all.
#![tactic(auto)]

mod feeding;
mod mem_sink;
mod mem_source;
mod sink;
mod source;
mod standard;

pub use feeding::{LIMIT, Unread, read_all, write_all};
pub use mem_sink::MemSink;
pub use mem_source::{CODE, MemSource};
pub use sink::{Sink, WriteFault};
pub use source::{ReadFault, Source};
pub use standard::{StdSink, StdSource};
