//! With which delay a server begins that was not met before: new servers take the first delays in turn.
ghost use Rattle.std.specs.Prelude.{◌≡◌, ◌+◌, length};
ghost use Rattle.server_core.specs.Servers.{IsFirstDelay};
ghost use Rattle.walk_lookup.specs.Delays.{turn_at, delay_at};

/// The delay of a new server, in microseconds, and the place of the one after it.
#[derive(Clone, Copy, Debug, PartialEq, Eq)]
pub struct FirstDelay {
    pub micros: u8,
    pub next: usize,
}

/// The delay whose turn it is; after the last one comes the first.
pub fn first_delay(delays: &[u8], turn: usize) -> FirstDelay
    ensures first { IsFirstDelay result.micros }
    ensures delay { result.micros ≡ delay_at delays.now (turn_at (length delays.now) turn) }
    ensures turn { result.next ≡ turn_at (length delays.now) turn + 1 }
{
    let place = if turn < delays.len() { turn } else { 0 };
    let micros = match delays.get(place) {
        Some(delay) => (*delay).clamp(1, 31),
        None => 1,
    };
    FirstDelay {
        micros,
        next: place.saturating_add(1),
    }
}
