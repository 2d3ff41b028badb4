//! A name of a message: runs of labels, each but the first led to by a pointer.
ghost use Rattle.std.specs.Prelude.{◌≡◌, ◌≤◌, [], ℕ, List, Ok, length, IfOk};
ghost use Rattle.dns_core.specs.Name.{DomainName};
ghost use Rattle.wire_names.specs.Kept.{IsRest, IsEndOf, AreKept};
ghost use Rattle.wire_names.specs.Names.{IsName};
ghost use Rattle.wire_names.specs.Reading.{Gives, joined, run_of, led_of, labels_of, name_of};
ghost use Rattle.wire_names.specs.declared.runs.RunEnd.TheVariants.{Pointer};

use crate::errors::WireError;
use crate::kept::KeptNames;
use crate::labels::is_long;
use crate::runs::{RunEnd, lone_pointer, run_of};
use dns_core::{Label, Name, TryClone};
use std::alloc::{AllocError, Global};

/// How many pointers a name goes through before the ends of chains are kept.
const MANY: u8 = 16;

/// The end of a place to which a pointer leads, when the name went through so many before.
fn end_of(
    alloc: Global,
    message: &[u8],
    place: usize,
    pointers: u8,
    kept: &mut KeptNames,
) -> Result<usize, AllocError>
    requires { AreKept message.now kept.old }
    ensures end { IfOk result (λ end. IsEndOf message.now place end) }
    ensures kept { AreKept message.now kept.new }
{
    if pointers == MANY {
        kept.keep_ends(alloc, message)?;
    }
    Ok(kept.end_of(place))
}

/// Adds the labels to which the end of a run leads. Each pointer leads before the place where the run
/// that it ends began, `before` at first.
fn follow(
    alloc: Global,
    message: &[u8],
    end: RunEnd,
    before: usize,
    labels: &mut Vec<Label>,
    kept: &mut KeptNames,
) -> Result<(), WireError>
    requires within { before ≤ length message.now }
    requires kept { AreKept message.now kept.old }
    ensures labels { Gives (λ _. labels.new.items) result (joined labels.old.items (led_of before message.now end)) }
    ensures kept { AreKept message.now kept.new }
{
    let mut end = end;
    let mut before = before;
    let mut pointers = 0_u8;
    'runs: loop {
        let to = match end {
            RunEnd::Root => return Ok(()),
            RunEnd::Pointer(to) => to,
        };
        if to >= before {
            return Err(WireError::BadPointer);
        }
        let to = end_of(alloc, message, to, pointers, kept)?;
        let (_, run) = message.split_at(to);
        let (next, _rest) = run_of(alloc, run, labels)?;
        end = next;
        before = to;
        pointers = pointers.saturating_add(1);
    }
}

#[tactic(auto, unfolding(crate::specs::Reading::labels_of))]
fn all_labels<'a>(
    alloc: Global,
    message: &[u8],
    bytes: &'a [u8],
    kept: &mut KeptNames,
) -> Result<(Vec<Label>, &'a [u8]), WireError>
    requires few { length bytes.now ≤ length message.now }
    requires kept { AreKept message.now kept.old }
    ensures labels { Gives (λ x. (x.0.items, x.1.now)) result (labels_of message.now bytes.now) }
    ensures kept { AreKept message.now kept.new }
{
    let mut labels = Vec::with_capacity(alloc, 4)?;
    let (end, rest) = run_of(alloc, bytes, &mut labels)?;
    follow(
        alloc,
        message,
        end,
        message.len() - bytes.len(),
        &mut labels,
        kept,
    )?;
    if is_long(&labels) {
        return Err(WireError::LongName);
    }
    Ok((labels, rest))
}

fn read_anew<'a>(
    alloc: Global,
    message: &[u8],
    bytes: &'a [u8],
    kept: &mut KeptNames,
) -> Result<(Name, &'a [u8]), WireError>
    requires few { length bytes.now ≤ length message.now }
    requires kept { AreKept message.now kept.old }
    ensures exact { Gives (λ x. (x.0, x.1.now)) result (name_of message.now bytes.now) }
    ensures kept { AreKept message.now kept.new }
{
    let (labels, rest) = all_labels(alloc, message, bytes, kept)?;
    let name = Name::from_labels(alloc, labels, true)?;
    Ok((name, rest))
}

/// A name that is only a pointer: a copy, if the name to which it leads was read before.
fn read_pointed<'a>(
    alloc: Global,
    message: &[u8],
    bytes: &'a [u8],
    to: usize,
    rest: &'a [u8],
    kept: &mut KeptNames,
) -> Result<(Name, &'a [u8]), WireError>
    requires few { length bytes.now ≤ length message.now }
    requires pointed { run_of 0 bytes.now ≡ Ok ([], Pointer to, rest.now) }
    requires kept { AreKept message.now kept.old }
    ensures exact { Gives (λ x. (x.0, x.1.now)) result (name_of message.now bytes.now) }
    ensures kept { AreKept message.now kept.new }
{
    if to < message.len() - bytes.len() {
        if let Some(name) = kept.at(to) {
            let copy = name.try_clone(alloc)?;
            return Ok((copy, rest));
        }
    }
    let (name, rest) = read_anew(alloc, message, bytes, kept)?;
    kept.keep(alloc, to, &name)?;
    Ok((name, rest))
}

fn read_and_keep<'a>(
    alloc: Global,
    message: &[u8],
    bytes: &'a [u8],
    kept: &mut KeptNames,
) -> Result<(Name, &'a [u8]), WireError>
    requires rest { IsRest message.now bytes.now }
    requires few { length bytes.now ≤ length message.now }
    requires kept { AreKept message.now kept.old }
    ensures exact { Gives (λ x. (x.0, x.1.now)) result (name_of message.now bytes.now) }
    ensures kept { AreKept message.now kept.new }
{
    if let Some((to, rest)) = lone_pointer(bytes) {
        return read_pointed(alloc, message, bytes, to, rest, kept);
    }
    let (name, rest) = read_anew(alloc, message, bytes, kept)?;
    kept.keep(alloc, message.len() - bytes.len(), &name)?;
    Ok((name, rest))
}

/// The name at the front of `bytes`, a rest of the message, and what follows it. `kept` has names of
/// this message.
pub fn read_name<'a>(
    alloc: Global,
    message: &[u8],
    bytes: &'a [u8],
    kept: &mut KeptNames,
) -> Result<(Name, &'a [u8]), WireError>
    requires rest { IsRest message.now bytes.now }
    requires kept { AreKept message.now kept.old }

    // What is read stands there.
    ensures found { IfOk result (λ x. IsName message.now bytes.now x.0 x.1.now) }

    // What stands there is read, unless memory runs out.
    ensures only { (name : DomainName) (rest : List ℕ) → IsName message.now bytes.now name rest → Gives {Y = DomainName × List ℕ} (λ x. (x.0, x.1.now)) result (Ok (name, rest)) }

    // Which fault it is.
    ensures exact { Gives (λ x. (x.0, x.1.now)) result (name_of message.now bytes.now) }
    ensures rest { IfOk result (λ x. IsRest message.now x.1.now) }
    ensures kept { AreKept message.now kept.new }
{
    read_and_keep(alloc, message, bytes, kept)
}
