//! What the program `mm_drive` does, as one function over its arguments, files and output: it runs
//! traces of commands on a managed heap, and prints the replies, a report and a map.
#![tactic(auto)]

mod fault_lines;
mod laws;
mod process;
mod report;
mod report_laws;
mod runs;
mod session_runs;
mod status;
mod summary;
mod text_laws;
mod traces;
mod writing;

pub use laws::{
    printed_of_one, replies_of_two, report_and_map, summary_of_each, summary_of_ok, texts_of_a_heap,
};
pub use made_trace::made;
pub use mm_runtime::{Manager, Turn, managed_plans};
pub use process::program;
pub use report::session_text;
pub use report_laws::{
    live_lines_of_one, live_objects_are_ideal, maps_show_the_ideal_heap,
    whole_texts_are_of_sound_moments, worked_heap_alone, worked_live_names, worked_maps,
    worked_places,
};
pub use runs::run;
pub use status::Status;
pub use summary::summary_text;
pub use text_laws::{
    contents_are_known, exits_have_causes, fault_lines_are_written, files_are_asked_in_order,
    kinds_are_counted, live_objects, printed_of_one_file, replies_and_objects_are_counted,
    settings_of_jobs, text_of_each_kind, texts_are_of_sessions, texts_of_no_commands,
    traces_of_contents, worked_texts,
};
