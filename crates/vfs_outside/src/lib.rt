//! What lies outside: where bytes come from, where they go, and the devices that are handed in.
//!
//! A contract sees the bytes that a source has left and those that a sink holds, the pages of a block
//! device and the input and output of a character device, where these tell them, and counts of calls
//! and of faults: a call fails only with a rise of its object's count.
//! The objects in memory tell all; those over real streams and files tell nothing.
//! It knows nothing of steps, shells and their texts, and doesn't look into what a volume keeps.
#![tactic(auto)]

mod any_block;
mod block;
mod chars;
mod copying;
mod devices;
mod failed;
mod failing_calls;
mod file_block;
mod gate;
mod mem_block;
mod mem_chars;
mod mem_sink;
mod mem_source;
mod parts;
mod places;
mod refused;
mod sink;
mod source;
mod std_sink;
mod std_source;
mod stopped;

pub use any_block::AnyBlock;
pub use block::Block;
pub use chars::Chars;
pub use devices::{DeviceSet, Devices};
pub use failed::Failed;
pub use file_block::FileBlock;
pub use gate::{Gate, OpenGate};
pub use mem_block::MemBlock;
pub use mem_chars::MemChars;
pub use mem_sink::MemSink;
pub use mem_source::MemSource;
pub use parts::{CharsPart, VolumePart};
pub use refused::{CharsRefused, DeviceWhy, VolumeRefused};
pub use sink::Sink;
pub use source::Source;
pub use std_sink::StdSink;
pub use std_source::StdSource;
pub use stopped::Stopped;
pub use vfs_base::{CellNode, CharsShape, Counts, Describe, PageCount, Record, VolumeShape};
