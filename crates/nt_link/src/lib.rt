//! The outside: where bytes come from and where they go. Each object counts its faults, and an
//! answer that says that the outside failed comes only where that count rose.
#![tactic(auto)]

mod file;
mod frame;
mod memory;
mod memory_stream;
mod sink;
mod source;
mod stream;
#[cfg(test)]
mod tests;

pub use file::{FileSink, FileSource, ReaderSource, WriterSink};
pub use frame::Frame;
pub use memory::{MemSink, MemSource};
pub use memory_stream::MemStream;
pub use sink::{Sink, Stopped, write_all};
pub use source::{Failed, Source};
pub use stream::Stream;
