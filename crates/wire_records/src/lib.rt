//! Questions, records and their data in wire form (RFC 1035 section 4.1, RFC 3596 section 2.2, RFC 4034
//! section 3.1, RFC 6891 section 6.1.2): their reader, which is the grammar, and their writer.
#![tactic(auto)]

mod data;
mod edns;
mod numbers;
mod questions;
mod records;
mod rooms;
mod sections;
mod spelling;
mod threads;

pub use edns::{Edns, Extra};
pub use numbers::{read_four, read_two};
pub use questions::read_question;
pub use records::{read_extra, read_record};
pub use rooms::{data_length, opt_room, question_room, record_room};
pub use sections::{read_extras, read_questions, read_records};
pub use spelling::{write_four, write_opt, write_question, write_record, write_two};
