//! Where files come from and where bytes go, with a count of each fault.
//!
//! A [`Shelf`] gives files by name, and a [`Sink`] takes bytes. Both say in their contracts what they hold,
//! where they tell it, and count their faults, so that code over any shelf and any sink can show that it
//! answers a fault only where one came. There are three of each: one in memory that fails where it is told
//! to, one in memory that never fails, and the real one over the files and streams of the system.
#![tactic(auto)]

mod calls;
mod fault;
mod file_shelf;
mod files;
mod mem_shelf;
mod mem_sink;
mod said;
mod shelf;
mod sink;
mod stream_sink;
mod sure_shelf;
mod sure_sink;
mod writer;

pub use fault::{ReadFault, SinkFault};
pub use file_shelf::FileShelf;
pub use mem_shelf::MemShelf;
pub use mem_sink::MemSink;
pub use shelf::Shelf;
pub use sink::{PIECE, Sink};
pub use stream_sink::StreamSink;
pub use sure_shelf::SureShelf;
pub use sure_sink::SureSink;
pub use writer::Writer;
