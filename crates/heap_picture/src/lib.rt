//! The picture of a heap: what the program `heap_view` does, as one function over its arguments,
//! file and output. It reads the text of a run with a map, and draws it as SVG.
#![tactic(auto)]

mod bars;
mod colours;
mod examples;
mod fault_lines;
mod forms;
mod laws;
mod parts;
mod pictures;
mod places;
mod process;
mod reader;
mod runs;
mod splitter;
mod svg;
mod text_files;
mod words;

pub use examples::{bars_by_example, colours_by_example, counts_by_example};
pub use forms::{KindCounts, Place};
pub use laws::{
    bars_are_apart, bars_are_short, bars_have_their_words, cells_have_their_words, lines_have_bars,
    numbers_are_read_as_printed, places_are_read_as_printed, places_lie_in_blocks,
    replies_are_read_as_printed, run_texts_are_read_as_printed, session_texts_are_read,
};
pub use process::program;
pub use reader::{Reader, Report, TextFault, read_run};
pub use runs::run;
pub use svg::draw;
pub use text_files::MAX_TEXT_BYTES;
