//! What reading and writing promise whatever was written.
ghost use Rattle.resolver_cache.specs.Laws.{ReadIsCurrent, WritesNoOther};

/// What is read was written for that question and no later than the moment of reading, if nothing
/// was, and has not expired then.
pub fn what_is_read_is_current()
    ensures { ReadIsCurrent }
{}

/// A write leaves no entry but those that were there and the new one, which expires no later than
/// its life after the moment of writing.
pub fn a_write_adds_one_response_alone()
    ensures { WritesNoOther }
{}
