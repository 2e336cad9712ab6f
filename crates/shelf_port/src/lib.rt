//! The outside of the suite: files, an input and an output as traits, whole readings and writings
//! over them, and two makes of each, one in memory and one on the host.
//!
//! A shelf, a source or a sink may tell the bytes that it holds, as those in memory do, or tell
//! nothing, as those of the host do. Each counts its faults, and answers `Failed` only where such a
//! count rose. A sink counts each call that it refused, whatever the cause. So what is proved over the
//! traits speaks of bytes where they are told, and of causes everywhere.
#![tactic(auto)]

mod fault;
mod mem_shelf;
mod mem_streams;
mod plan;
mod ports;
mod real;
mod refusal_count;
mod whole;

pub use fault::{PutFault, ReadWhole, ShelfFault, SinkFault, SourceFault};
pub use mem_shelf::MemShelf;
pub use mem_streams::{MemSink, MemSource};
pub use ports::{Shelf, Sink, Source};
pub use real::{RealShelf, RealSink, RealSource};
pub use whole::{append_whole, put_whole, read_whole, write_whole};

#[cfg(test)]
mod tests;
