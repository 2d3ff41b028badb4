//! Sources and sinks, whole and failing in mid-stream. Each is handed to generic functions as it was made,
//! or not made, which let go of it or hand it back: a body that keeps one in memory alive is dear to prove.

use dns_core::{
    Failed, Items, MemorySink, MemorySource, NoMemory, Numbers, Sink, Source, StdSink, StdSource,
    TryClone, write_all,
};
use std::alloc::Global;
use std::test::Fail;
use tests_samples::{is_wanted, shown};

/// That the call of this number fails; none has the number 0.
fn failing(alloc: Global, call: u64) -> Result<Numbers, NoMemory> {
    let mut numbers = Numbers::empty(alloc);
    numbers.push(call)?;
    Ok(numbers)
}

/// A source of these bytes whose call of this number fails.
fn source_of(alloc: Global, bytes: &[u8], call: u64) -> Result<MemorySource, NoMemory> {
    let bytes = Items::new(Vec::from_slice(alloc, bytes)?);
    Ok(MemorySource::new(alloc, bytes, failing(alloc, call)?))
}

/// A sink whose call of this number fails.
fn sink_of(alloc: Global, call: u64) -> Result<MemorySink, NoMemory> {
    Ok(MemorySink::new(alloc, failing(alloc, call)?))
}

/// A read of two bytes gives these, or fails.
fn gives<S: Source>(source: &mut S, wanted: Read<'_>) -> Result<(), Fail> {
    let mut piece = [0u8; 2];
    match source.read(&mut piece) {
        Ok(count) => is_wanted(Ok(piece.get(..count)), wanted),
        Err(failed) => is_wanted(Err(failed), wanted),
    }
}

/// The bytes that a read of two gives.
type Read<'a> = Result<Option<&'a [u8]>, Failed>;

/// Reads of two bytes give these, one after another.
fn reads<S: Source + Drop>(mut source: S, wanted: &[Read<'_>]) -> Result<S, Fail> {
    for piece in wanted {
        gives(&mut source, *piece)?;
    }
    Ok(source)
}

static FRONT: [Read<'_>; 1] = [Ok(Some(b"ab"))];

static REST: [Read<'_>; 3] = [Err(Failed), Ok(Some(b"c")), Ok(Some(b""))];

/// A source goes on after its front, and so does its copy.
fn goes_on<S: Source + TryClone>(alloc: Global, source: Result<S, NoMemory>) -> Result<(), Fail> {
    let source = reads(source?, &FRONT)?;
    let copy = source.try_clone(alloc)?;
    reads(source, &REST)?;
    reads(copy, &REST)?;
    Ok(())
}

#[test]
fn a_source_in_memory_fails_where_it_is_told_to(rt: HostRuntime) -> Result<(), Fail> {
    goes_on(rt.alloc(), source_of(rt.alloc(), b"abc", 2))
}

/// Bytes to be written, one after another, and how many are taken.
type Writes<'a> = &'a [(&'a [u8], Result<usize, Failed>)];

fn writes<K: Sink + Drop>(sink: Result<K, NoMemory>, wanted: Writes<'_>) -> Result<K, Fail> {
    let mut sink = sink?;
    for (bytes, count) in wanted {
        is_wanted(sink.write(*bytes), *count)?;
    }
    Ok(sink)
}

/// Keeps what it took.
trait Keeps: Drop {
    fn kept(&self) -> &[u8];
}

impl Keeps for MemorySink {
    fn kept(&self) -> &[u8] {
        self.written()
    }
}

/// It kept this.
fn has<K: Keeps>(sink: Result<K, Fail>, wanted: &str) -> Result<(), Fail> {
    let sink = sink?;
    is_wanted(shown(sink.kept()), wanted)
}

/// It kept this, and so did its copy.
fn has_again<K: Keeps + TryClone>(
    alloc: Global,
    sink: Result<K, Fail>,
    wanted: &str,
) -> Result<(), Fail> {
    let sink = sink?;
    let copy = sink.try_clone(alloc)?;
    has(Ok(sink), wanted)?;
    has(Ok(copy), wanted)
}

static SECOND_FAILS: [(&[u8], Result<usize, Failed>); 3] = [
    (b"ab", Ok(2)),
    (b"cd", Err(Failed)),
    (b"ef", Ok(2)),
];

#[test]
fn a_sink_in_memory_keeps_what_it_took(rt: HostRuntime) -> Result<(), Fail> {
    let sink = writes(sink_of(rt.alloc(), 2), &SECOND_FAILS);
    has_again(rt.alloc(), sink, "abef")
}

static ALL_READ: [Read<'_>; 3] = [Ok(Some(b"ab")), Ok(Some(b"c")), Ok(Some(b""))];

static ALL_WRITTEN: [(&[u8], Result<usize, Failed>); 1] = [(b"abc", Ok(3))];

#[test]
fn the_streams_of_the_system_pass_bytes_on(rt: HostRuntime) -> Result<(), Fail> {
    let source = reads(StdSource::new(b"abc".as_slice()), &ALL_READ)?;
    is_wanted(source.faults, 0)?;
    let sink = writes(Ok(StdSink::new(Vec::new(rt.alloc()))), &ALL_WRITTEN)?;
    is_wanted(sink.faults, 0)
}

/// Whole texts are written, or a write of them fails.
fn writes_whole<K: Sink + Drop>(
    sink: Result<K, NoMemory>,
    texts: &[(&[u8], Result<(), Failed>)],
) -> Result<K, Fail> {
    let mut sink = sink?;
    for (text, wanted) in texts {
        is_wanted(write_all(&mut sink, *text), *wanted)?;
    }
    Ok(sink)
}

static ONE_IS_LOST: [(&[u8], Result<(), Failed>); 3] = [
    (b"front", Ok(())),
    (b"lost", Err(Failed)),
    (b"end", Ok(())),
];

#[test]
fn a_write_that_fails_is_told(rt: HostRuntime) -> Result<(), Fail> {
    has(
        writes_whole(sink_of(rt.alloc(), 2), &ONE_IS_LOST),
        "frontend",
    )
}
