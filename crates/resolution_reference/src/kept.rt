//! What one entry of a log tells, asks and answers, and what the filter of answers and a zone leave of its
//! message: plain, slow programs, record by record, with no index and no cache.

pub mod entries;
pub mod kept;
pub mod threads;
