//! Numbers of two and of four bytes, the greatest byte first.
ghost use Rattle.wire_names.specs.Reading.{Gives};
ghost use Rattle.wire_records.specs.Numbers.{two_of, four_of};

use wire_names::{WireError, first_of};

/// The number of two bytes at the front, and what follows it.
pub fn read_two(bytes: &[u8]) -> Result<(u16, &[u8]), WireError>
    ensures { Gives (λ x. (x.0, x.1.now)) result (two_of bytes.now) }
{
    let Some((high, after)) = first_of(bytes) else {
        return Err(WireError::Short);
    };
    let Some((low, rest)) = first_of(after) else {
        return Err(WireError::Short);
    };
    Ok((256 * high as u16 + low as u16, rest))
}

/// The number of four bytes at the front, and what follows it.
pub fn read_four(bytes: &[u8]) -> Result<(u32, &[u8]), WireError>
    ensures { Gives (λ x. (x.0, x.1.now)) result (four_of bytes.now) }
{
    let (high, after) = read_two(bytes)?;
    let (low, rest) = read_two(after)?;
    Ok((65536 * high as u32 + low as u32, rest))
}
