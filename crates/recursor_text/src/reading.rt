//! How scenarios are read: what has come of the lines so far, how a line is refused that is not
//! taken, and the whole text.

pub mod draft;
pub mod option_lines;
pub mod refusal;
pub mod text;
pub mod whole;
