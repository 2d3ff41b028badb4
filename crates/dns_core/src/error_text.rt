//! The texts of the errors that a connection or an exchange ends in.

use crate::label::Label;
use crate::name::Name;
use crate::net_error::{DnsError, IoKind, NetError};
use std::error::Error;
use std::fmt;

impl fmt::Display for Name {
    fn fmt<W: fmt::Write>(&self, f: &mut fmt::Formatter<W>) -> fmt::Result {
        for (i, label) in self.labels().iter().enumerate() {
            if i > 0 {
                f.write_str(".")?;
            }
            write!(f, "{label}")?;
        }
        if self.is_fqdn() {
            f.write_str(".")?;
        }
        Ok(())
    }
}

impl fmt::Display for Label {
    fn fmt<W: fmt::Write>(&self, f: &mut fmt::Formatter<W>) -> fmt::Result {
        for letter in self.letters() {
            f.write_char(char::from(letter.byte()))?;
        }
        Ok(())
    }
}

impl fmt::Display for IoKind {
    ghost use Rattle.std.specs.Prelude.{Some};
    ghost use Rattle.dns_core.specs.ErrorTexts.{io_text};

    ghost output = { λ kind. Some (io_text kind) };

    fn fmt<W: fmt::Write>(&self, f: &mut fmt::Formatter<W>) -> fmt::Result {
        match self {
            IoKind::Closed => f.write_str("closed"),
            IoKind::Refused => f.write_str("refused"),
            IoKind::Other => f.write_str("io"),
        }
    }
}

impl fmt::Display for DnsError {
    ghost use Rattle.std.specs.Prelude.{Some};
    ghost use Rattle.dns_core.specs.ErrorTexts.{dns_error_text};

    ghost output = { λ e. Some (dns_error_text e) };

    fn fmt<W: fmt::Write>(&self, f: &mut fmt::Formatter<W>) -> fmt::Result {
        match self {
            DnsError::NoRecordsFound(_) => f.write_str("NoRecords"),
            DnsError::ResponseCode(code) => write!(f, "Code {code}"),
        }
    }
}

impl Error for DnsError {}

impl fmt::Display for NetError {
    ghost use Rattle.dns_core.specs.ErrorTexts.{net_error_text};

    ghost output = { net_error_text };

    fn fmt<W: fmt::Write>(&self, f: &mut fmt::Formatter<W>) -> fmt::Result {
        match self {
            NetError::Busy => f.write_str("Busy"),
            NetError::Io(kind) => write!(f, "Io {kind}"),
            NetError::Timeout => f.write_str("Timeout"),
            NetError::NoConnections => f.write_str("NoConnections"),
            NetError::Truncated => f.write_str("Truncated"),
            NetError::QueryCaseMismatch => f.write_str("QueryCaseMismatch"),
            NetError::ForeignClassRecord {
                record_name,
                record_class,
                record_type,
            } => write!(
                f,
                "ForeignClassRecord {record_name} {record_class} {record_type}"
            ),
            NetError::Dns(error) => write!(f, "{error}"),
            NetError::Msg(text) => f.write_str(text.items()),
            NetError::NoMemory => f.write_str("out of memory"),
        }
    }
}

impl Error for NetError {}
