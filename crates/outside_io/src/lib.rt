//! What a program meets outside itself: files that it reads in pieces, a place that it writes to, a
//! meter of the time that work takes, and a gate that holds workers up.
//!
//! The layer stands on no other. It has a trait for each, and two loops: one reads a whole file,
//! one writes a whole text. The forms in memory expose their contents to contracts. The adapters of
//! the real files and of standard output expose none.
//!
//! The one fact for the layer above: a read that fails adds exactly the name that was asked to the
//! list of faults, and a write that fails raises the count of faults by one. Contracts say exactly
//! what was read and written if the contents are known.
#![tactic(auto)]

pub mod adapters;
mod faults;
pub mod gates;
pub mod memory;
pub mod meters;
pub mod reading;
pub mod writing;

pub use adapters::{DirFiles, StdSink, StdWriter, WriterSink};
pub use gates::{Gate, HoldGate, OpenGate};
pub use memory::{CountSink, MemFiles, MemSink, SureFiles};
pub use meters::{CostMeter, Meter, RealMeter};
pub use reading::{Files, MOST_BYTES, PieceRefusal, ReadRefusal, limits, read_whole};
pub use writing::{Failed, Sink, write_all};
