//! So many steps of a delay, which a number says.

use server_core::DecayingSrtt;

/// The number after a number, of a linear congruential generator.
fn following(number: u64) -> u64 {
    number
        .wrapping_mul(6_364_136_223_846_793_005)
        .wrapping_add(1_442_695_040_888_963_407)
}

/// A failure, a record at a moment before the last one, or a record.
fn step(delay: &mut DecayingSrtt, number: u64, now: u64) {
    let rtt = (number >> 20) % 5_250_000;
    match (number >> 50) % 4 {
        0 => delay.record_failure(now),
        1 => delay.record(rtt, now.saturating_sub(2_000_000)),
        _ => delay.record(rtt, now),
    }
}

/// The time before the record or failure of a step: in one of 50 steps it is very long.
fn pause(i: u32, number: u64) -> u64 {
    if i % 50 == 49 {
        number >> 20
    } else {
        number >> 40
    }
}

/// The time from there to the reading.
fn reading_pause(i: u32, number: u64) -> u64 {
    if i % 50 == 24 {
        number >> 14
    } else {
        number >> 36
    }
}

/// The delay after so many steps from a seed, and a checksum of all that was read.
pub fn delay_after(steps: u32, seed: u64) -> (u32, u64) {
    let mut delay = DecayingSrtt::new(10);
    let mut number = seed;
    let mut now: u64 = 0;
    let mut checksum: u64 = 0;
    for i in 0..steps {
        number = following(number);
        now = now.wrapping_add(pause(i, number));
        step(&mut delay, number, now);
        number = following(number);
        let read = delay.current_fixed(now.wrapping_add(reading_pause(i, number)));
        let low = (read % (1 << 64)) as u64;
        checksum = checksum.wrapping_mul(31).wrapping_add(low);
    }
    (delay.as_micros(), checksum)
}
