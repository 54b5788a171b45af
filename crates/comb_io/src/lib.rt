//! Where bytes come from and go to: sources, sinks and shelves of files. Each counts its faults.
#![tactic(auto)]

mod calls;
mod folder;
mod memory;
mod shelves;
mod sinks;
mod sources;
mod standard;
mod sure;

pub use folder::DirShelf;
pub use memory::{MemSink, MemSource};
pub use shelves::MemShelf;
pub use sinks::{Sink, SinkFault, write_all};
pub use sources::{Failed, Shelf, Source};
pub use standard::{StdSink, StdSource};
pub use sure::{SureShelf, SureSink, SureSource};
