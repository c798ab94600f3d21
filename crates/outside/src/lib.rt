//! Input and output of a program: sources of files and sinks of bytes, real ones and ones in
//! memory, and the loops that read a whole file and write a whole text.
#![tactic(auto)]

mod answers;
mod consumer;
mod file_sources;
mod files;
mod laws;
mod memory_sinks;
mod memory_sources;
mod names;
mod reader;
mod stream_sinks;
mod traits;
mod writer;

pub use answers::{open_fault, read_once};
pub use consumer::Consumer;
pub use file_sources::FileSources;
pub use laws::{faults_and_prefixes, files_are_taken_in_order, memory_is_known, texts_in_turn};
pub use memory_sinks::{MemSink, SureSink};
pub use memory_sources::{MemSources, SureSources};
pub use reader::{MAX_FILE_BYTES, ReadFault, read_file};
pub use stream_sinks::{ErrSink, OutSink, StreamSink};
pub use traits::{Failed, OpenFault, PIECE_BYTES, Sink, Sources};
pub use writer::{write_parts, write_text};
