//! What holds of each delay, however it came to be.
ghost use Rattle.server_core.specs.DelayLaws.{StaysWithinFiveSeconds, ReadingNeverRaises, FallsAsTimeGoes};

/// A delay is at most five seconds after each record and each failure.
pub fn a_delay_stays_within_five_seconds()
    ensures { StaysWithinFiveSeconds }
{}

/// A delay reads no higher than it was recorded.
pub fn reading_never_raises_a_delay()
    ensures { ReadingNeverRaises }
{}

/// A delay reads no higher at a later moment.
pub fn a_delay_falls_as_time_goes()
    ensures { FallsAsTimeGoes }
{}
