//! The delay of a server or a connection: a smoothed round trip time that decays with time.
//!
//! All in fixed point: a factor q of 128 bits stands for q / 2^60. Moments and times are in
//! microseconds.
ghost use Rattle.std.specs.Prelude.{◌≡◌, ◌+◌, ◌*◌, ◌/◌, ◌^◌, ◌<◌, ◌≤◌, None};
ghost use Rattle.server_core.specs.Delays.{squared, decay, averaged, recorded, failed, read_fixed};

use std::marker::Model;

/// The factor that leaves a delay as it is, 2^60.
const ONE: u128 = 1 << 60;

/// From this quotient of a time by a weight on nothing is left of a delay, 2^20 in units of 2^-60.
const FADED: u128 = 1 << 80;

/// The greatest delay, five seconds.
const MOST: u32 = 5_000_000;

/// What a failure adds to a delay.
const FAILURE: u32 = 150_000;

/// The weight, in seconds, of the old delay when a new one is recorded.
const RECORD_WEIGHT: u32 = 3;

/// The weight, in seconds, of a delay when it is read.
const READ_WEIGHT: u32 = 180;

/// A smoothed round trip time of at most five seconds, and the moment of its last record or failure.
/// Reading it does not change it.
#[derive(Clone, Copy, Debug, PartialEq, Eq)]
pub struct DecayingSrtt {
    micros: u32,
    since: Option<u64>,
}

impl Model for DecayingSrtt {
    ghost use Rattle.std.specs.Prelude.{◌≤◌};
    ghost use Rattle.server_core.specs.Delays.{Delay};

    ghost Value = { Delay };

    ghost view = { λ d. record { micros = d.micros; since = d.since } };

    ghost invariant = { λ d. d.micros ≤ 5000000 };

    ghost inverse = { λ d. record { micros = d.micros; since = d.since } };
}

/// A factor squared so many times.
fn squared(times: u32, factor: u128) -> u128
    requires { factor ≤ 2 ^ 60 }
    ensures equal { result ≡ squared times factor }
    ensures within { result ≤ 2 ^ 60 }
{
    let mut square = factor;
    for _done in 0..times {
        square = square * square / ONE;
    }
    square
}

/// The factor of a time by a weight in seconds.
fn decay(elapsed: u64, weight: u32) -> u128
    requires { 0 < weight }
    ensures equal { result ≡ decay elapsed weight }
    ensures within { result ≤ 2 ^ 60 }
{
    let time = u128::from(elapsed.max(1_000_000)) * ONE / (u128::from(weight) * 1_000_000);
    if time >= FADED {
        return 0;
    }
    squared(20, ONE - (time >> 20))
}

/// A round trip time and an old delay by its factor, rounded to the nearest.
fn averaged(factor: u128, rtt: u32, old: u32) -> u32
    requires factor { factor ≤ 2 ^ 60 }
    requires rtt { rtt ≤ 5000000 }
    requires old { old ≤ 5000000 }
    ensures equal { result ≡ averaged factor rtt old }
    ensures within { result ≤ 5000000 }
{
    let parts = (ONE - factor) * u128::from(rtt) + factor * u128::from(old);
    let rounded = (parts + ONE / 2) / ONE;
    rounded.min(u128::from(MOST)) as u32
}

impl DecayingSrtt {
    /// A delay to start from, until the first record or failure.
    pub fn new(initial: u32) -> Self
        requires { initial ≤ 5000000 }
        ensures { result ≡ record { micros = initial; since = None } }
    {
        DecayingSrtt {
            micros: initial,
            since: None,
        }
    }

    /// Takes a round trip time in: the first one in place of what the delay was, a later one by the
    /// time since the last record or failure.
    pub fn record(&mut self, rtt: u64, now: u64)
        ensures equal { self.new ≡ recorded self.old rtt now }
        ensures within { self.new.micros ≤ 5000000 }
    {
        let rtt = rtt.min(u64::from(MOST)) as u32;
        self.micros = match self.since {
            Some(since) => {
                let factor = decay(now.saturating_sub(since), RECORD_WEIGHT);
                averaged(factor, rtt, self.micros)
            }
            None => rtt,
        };
        self.since = Some(now);
    }

    /// Raises the delay for a failure. The first one takes the place of what the delay was.
    pub fn record_failure(&mut self, now: u64)
        ensures equal { self.new ≡ failed self.old now }
        ensures within { self.new.micros ≤ 5000000 }
    {
        self.micros = match self.since {
            Some(_) => (self.micros + FAILURE).min(MOST),
            None => FAILURE,
        };
        self.since = Some(now);
    }

    /// The delay as it has decayed up to a moment, in units of 2^-60 microseconds.
    pub fn current_fixed(&self, now: u64) -> u128
        ensures equal { result ≡ read_fixed self.now now }
        ensures within { result ≤ 5000000 * 2 ^ 60 }
    {
        let factor = match self.since {
            Some(since) => decay(now.saturating_sub(since), READ_WEIGHT),
            None => ONE,
        };
        u128::from(self.micros) * factor
    }

    /// The delay as it has decayed up to a moment, in whole microseconds.
    pub fn current(&self, now: u64) -> u64
        ensures equal { result ≡ read_fixed self.now now / 2 ^ 60 }
        ensures within { result ≤ 5000000 }
    {
        (self.current_fixed(now) / ONE) as u64
    }

    /// The delay as it was after the last record or failure.
    pub fn as_micros(&self) -> u32
        ensures equal { result ≡ self.now.micros }
        ensures within { result ≤ 5000000 }
    {
        self.micros
    }
}
