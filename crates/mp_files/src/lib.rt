//! The outside: where sources come from, where figures go, and where lines go.
//!
//! The interpreter knows the world by three traits, [`Files`], [`Shelf`] and [`Sink`]. Each has a count of
//! its faults that never falls, and a call fails only where that count rises, so that no fault is passed
//! over. An object may also tell what it holds; then its contracts say what each call does to that.
//!
//! There are objects in memory, which tell all and fail where they are told to; objects that drop what
//! they are given; and the objects over real files and any writer, which tell nothing.
#![tactic(auto)]

mod memory_files;
mod memory_shelf;
mod memory_sink;
mod null;
mod outside;
mod real;
mod room;
mod sure_files;

pub use memory_files::MemoryFiles;
pub use memory_shelf::MemoryShelf;
pub use memory_sink::{FailAt, MemorySink};
pub use null::{NullShelf, NullSink};
pub use outside::{
    Contents, Fetched, Files, Kept, MOST_FETCHED, Shelf, Sink, Sources, Stored, Written,
};
pub use real::{RealFiles, RealShelf, WriterSink};
pub use sure_files::SureFiles;
