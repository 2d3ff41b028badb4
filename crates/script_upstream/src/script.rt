//! Scripts: line by line what is told of connections and questions; copies of them, and whether every
//! name in one is fully qualified. Beside them entries of a log that wait for memory (`Late`).

pub mod copies;
pub mod late;
pub mod qualified;
pub mod script;
pub mod threads;
