//! Texts of errors, records, messages and logs that no run comes to yet.

use crate::copy_samples::signature;
use crate::error_text_tests::unserved;
use dns_core::{
    IoKind, Log, LogEntry, Message, NameError, NetError, NoMemory, Protocol, Record, RecordType,
};
use recursor_types::{RecursorError, WalkCause};
use std::alloc::Global;
use std::test::Fail;
use tests_samples::{answer, ip, is_wanted, put, query, shown, v4};
use transcript_printer::{
    has_log_words, has_words, print_error, print_log, print_message, print_record,
};

/// What has a text.
trait Prints: Drop {
    fn print(&self, alloc: Global, out: &mut Vec<u8>) -> Result<(), NoMemory>;
}

impl Prints for RecursorError {
    fn print(&self, alloc: Global, out: &mut Vec<u8>) -> Result<(), NoMemory> {
        if !has_words(self) {
            return Ok(());
        }
        print_error(alloc, self, out)
    }
}

impl Prints for Record {
    fn print(&self, alloc: Global, out: &mut Vec<u8>) -> Result<(), NoMemory> {
        print_record(alloc, self, out)
    }
}

impl Prints for Message {
    fn print(&self, alloc: Global, out: &mut Vec<u8>) -> Result<(), NoMemory> {
        print_message(alloc, self, out)
    }
}

impl Prints for Log {
    fn print(&self, alloc: Global, out: &mut Vec<u8>) -> Result<(), NoMemory> {
        if !has_log_words(self) {
            return Ok(());
        }
        print_log(alloc, self, out)
    }
}

/// What is handed in, as it was made or not made, is printed as this text.
fn is_printed<T: Prints>(
    alloc: Global,
    made: Result<T, NameError>,
    wanted: &str,
) -> Result<(), Fail> {
    let value = made?;
    let mut out = Vec::new(alloc);
    value.print(alloc, &mut out)?;
    is_wanted(shown(&out), wanted)
}

#[test]
fn errors_are_printed(rt: HostRuntime) -> Result<(), Fail> {
    let alloc = rt.alloc();
    let many = RecursorError::MaxRecordLimitExceeded {
        count: 257,
        record_type: RecordType { code: 999 },
    };
    is_printed(alloc, Ok(many), "MaxRecordLimitExceeded 257 TYPE999\n")?;
    let deep = RecursorError::RecursionLimitExceeded { count: 24 };
    is_printed(alloc, Ok(deep), "RecursionLimitExceeded 24\n")?;
    let costly = RecursorError::QueryBudgetExceeded;
    is_printed(alloc, Ok(costly), "QueryBudgetExceeded\n")?;
    is_printed(alloc, Ok(RecursorError::NoMemory), "NoMemory\n")?;
    let wide = unserved(alloc, ".", WalkCause::ZoneEntries);
    is_printed(alloc, wide, "NoNameServer . ZoneEntries\n")
}

const REFUSALS: &str = "log 3
1 opened 11.0.0.3 quic 7 refused refused
2 asked 11.0.0.3 tcp a. A 8 refused busy
3 asked 11.0.0.3 tcp a. A 9 refused closed
";

/// A question is refused so at a moment.
fn asked(alloc: Global, moment: u64, refused: NetError) -> Result<LogEntry, NameError> {
    let query = query(alloc, "a.")?;
    Ok(LogEntry::Asked {
        ip: ip(3),
        protocol: Protocol::Tcp,
        query,
        moment,
        refused: Some(refused),
    })
}

fn put_refusals(alloc: Global, to: &mut Log) -> Result<(), NameError> {
    let opened = LogEntry::Opened {
        ip: ip(3),
        protocol: Protocol::Quic,
        moment: 7,
        refused: Some(NetError::Io(IoKind::Refused)),
    };
    put(to, Ok(opened))?;
    put(to, asked(alloc, 8, NetError::Busy))?;
    put(to, asked(alloc, 9, NetError::Io(IoKind::Closed)))
}

fn refusals(alloc: Global) -> Result<Log, NameError> {
    let mut log = Log::empty(alloc);
    put_refusals(alloc, &mut log)?;
    Ok(log)
}

#[test]
fn signatures_messages_and_refusals_are_printed(rt: HostRuntime) -> Result<(), Fail> {
    let alloc = rt.alloc();
    is_printed(alloc, signature(alloc), "a. 4294967295 CH RRSIG A 0fa0\n")?;
    let message = answer(alloc, "a.", 60, v4(2));
    is_printed(
        alloc,
        message,
        "message NOERROR aa 1 0 0\na. 60 IN A 11.0.0.2\n",
    )?;
    is_printed(alloc, refusals(alloc), REFUSALS)
}
