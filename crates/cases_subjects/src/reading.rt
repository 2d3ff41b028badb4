//! What cases are of where a text is read: networks, the text of a resolver, and scenarios with the
//! options that they set. Each subject is a function from the text that a case hands in to the text that
//! comes of it.

pub mod networks;
pub mod owned;
pub mod resolver;
pub mod scenario;
pub mod script;
