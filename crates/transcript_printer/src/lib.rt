//! Transcripts as text: what a run asked, what it was told, and what it replied.
//!
//! `print_transcript` appends exactly the text of a transcript. Each function that starts with `put`
//! appends its text, and where memory runs out maybe a part of it; what is public cuts the text back to
//! what it was.
#![tactic(auto)]

mod checks;
mod codes;
mod copies;
mod errors;
mod log;
mod records;
mod replies;
mod threads;
mod transcript;
mod words;

pub use checks::checking::check_text;
pub use errors::{has_words, print_error};
pub use log::{has_log_words, print_log};
pub use records::{print_message, print_record};
pub use replies::{has_transcript_words, print_transcript};
pub use transcript::Transcript;
