//! A run of labels, up to the root or a pointer.
ghost use Rattle.std.specs.Prelude.{◌≡◌, ◌≤◌, [], ◌∷◌, Ok, MatchOption};
ghost use Rattle.wire_names.specs.declared.runs.RunEnd.TheVariants.{Pointer};
ghost use Rattle.wire_names.specs.Reading.{Gives, with_front, end_of, run_of};

use crate::errors::WireError;
use crate::labels::label_of;
use dns_core::Label;
use std::alloc::Global;

/// How a run of labels ends: at the root, or with a pointer to a place of the message.
#[derive(Clone, Copy, Debug)]
pub enum RunEnd {
    Root,
    Pointer(usize),
}

/// The first byte and the others, where there are any.
pub fn first_of(bytes: &[u8]) -> Option<(u8, &[u8])>
    ensures { MatchOption result (bytes.now ≡ []) (λ p. bytes.now ≡ p.0 ∷ p.1.now) }
{
    match bytes {
        [] => None,
        [first, rest @ ..] => Some((*first, rest)),
    }
}

/// Where a name leads that is only a pointer, and what follows it.
pub fn lone_pointer(bytes: &[u8]) -> Option<(usize, &[u8])>
    ensures { MatchOption result (Unit {0}) (λ p. run_of 0 bytes.now ≡ Ok ([], Pointer p.0, p.1.now)) }
{
    let (high, after) = first_of(bytes)?;
    if high < 192 {
        return None;
    }
    let (low, rest) = first_of(after)?;
    Some(((high as usize - 192) * 256 + low as usize, rest))
}

/// How a run ends whose next byte is no length of a label: with a pointer, or not as a run may.
fn end_of<'a>(first: u8, after: &'a [u8]) -> Result<(RunEnd, &'a [u8]), WireError>
    requires { 64 ≤ first }
    ensures { Gives (λ x. ([], x.0, x.1.now)) result (end_of first after.now) }
{
    if first < 192 {
        return Err(WireError::BadLabel);
    }
    let Some((second, rest)) = first_of(after) else {
        return Err(WireError::Short);
    };
    let to = (first as usize - 192) * 256 + second as usize;
    Ok((RunEnd::Pointer(to), rest))
}

/// Adds the labels at the front of the bytes; tells how they end, and what follows that.
pub fn run_of<'a>(
    alloc: Global,
    bytes: &'a [u8],
    labels: &mut Vec<Label>,
) -> Result<(RunEnd, &'a [u8]), WireError>
    ensures { Gives (λ x. (labels.new.items, x.0, x.1.now)) result (with_front labels.old.items (run_of 0 bytes.now)) }
{
    let mut rest = bytes;
    'labels: loop {
        let Some((first, after)) = first_of(rest) else {
            return Err(WireError::Short);
        };
        if first == 0 {
            return Ok((RunEnd::Root, after));
        }
        if first >= 64 {
            return end_of(first, after);
        }
        let (label, behind) = label_of(alloc, first as usize, after)?;
        labels.push(label)?;
        rest = behind;
    }
}
