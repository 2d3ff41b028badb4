//! What each line of a scenario says: the options, the records, and every other kind of line.

pub mod lines;
pub mod option_form;
pub mod record_lines;
pub mod rules;
pub mod threads;
