//! Byte streams: sources and sinks, in memory or based on std's readers and writers.
#![tactic(auto)]

mod memory_streams;
mod page;
mod sink;
mod source;
mod standard_streams;

pub use memory_streams::{MemorySink, MemorySource};
pub use page::Page;
pub use sink::{Failed, GrowingSink, ReadFault, Sink, write_whole};
pub use source::{Source, read_to_limit};
pub use standard_streams::{OfRead, OfWrite};
