//! Scenarios and transcripts as text.
//!
//! `read_scenario` reads exactly the texts in `Reads`, each of which is one scenario, and says of any
//! other at which line it fails. `print_transcript` appends exactly the text of a transcript.
#![tactic(auto)]

mod copies;
mod fault_text;
mod reading;
mod scenario;
mod threads;
mod world_reading;

pub use scenario::{Cause, Scenario, ScenarioError, Upstream, one_reading, read_scenario};
pub use transcript_printer::{
    Transcript, has_log_words, has_transcript_words, has_words, print_error, print_log,
    print_message, print_record, print_transcript,
};
pub use world_reading::counts::Count;
pub use world_reading::draft::{OpenZone, WorldDraft, WorldStage};
pub use world_reading::laws::{a_line_is_taken_where_it_can_stand, a_world_is_what_its_lines_say};
pub use world_reading::lines::{WorldForm, ZoneHead, is_world_line, world_line};
pub use world_reading::listed::{HostList, ZoneList};
