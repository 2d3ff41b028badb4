//! The words of a line, taken one by one.
ghost use Rattle.std.specs.Prelude.{◌≡◌, ◌≤◌, ◌∷◌, [], Some, None, MatchOption, IfOk, if◌then◌else◌};
ghost use Rattle.text_lines.specs.Addresses.{ipv6_of, ip_of};
ghost use Rattle.text_lines.specs.Codes.{type_of, class_of, response_code_of};
ghost use Rattle.text_lines.specs.Fields.{GivesFields, Ends, Gives, field, literal};
ghost use Rattle.text_lines.specs.Hex.{bytes_of};
ghost use Rattle.text_lines.specs.Names.{relaxed_name, full_name};
ghost use Rattle.text_lines.specs.Networks.{nets_of};
ghost use Rattle.text_lines.specs.NumberLists.{ports_of, delays_of};
ghost use Rattle.text_lines.specs.Numbers.{number_within, ipv4_of};
ghost use Rattle.text_lines.specs.Pieces.{pieces};

use crate::addresses::{ip, ipv6};
use crate::codes::{dns_class, record_type, response_code};
use crate::hex::bytes;
use crate::networks::nets;
use crate::number_lists::{delays, ports};
use crate::numbers::{ipv4, number};
use crate::pieces::cut;
use dns_core::{
    Bytes, Delays, DnsClass, Name, NameError, NoMemory, Ports, RecordType, ResponseCode,
};
use resolver_settings::Nets;
use std::alloc::Global;
use std::marker::Model;
use std::net::{IpAddr, Ipv4Addr, Ipv6Addr};

/// Why a line was not taken.
#[derive(Clone, Copy, Debug, PartialEq, Eq)]
pub enum LineError {
    Refused,
    NoMemory,
}

impl From<NoMemory> for LineError {
    ghost use Rattle.std.specs.Prelude.{◌≡◌};
    ghost use Rattle.text_lines.specs.declared.words.LineError.TheVariants.{NoMemory as no_memory};

    ghost from_gives = { λ _ e. e ≡ no_memory };

    fn from(_e: NoMemory) -> LineError {
        LineError::NoMemory
    }
}

/// The words of a line that are left; clauses see their list.
#[derive(Drop)]
pub struct Words<'a> {
    rest: Option<&'a [u8]>,
}

impl<'a> Model for Words<'a> {
    ghost use Rattle.std.specs.Prelude.{List, ℕ, option_map};
    ghost use Rattle.text_lines.specs.Pieces.{pieces_after};

    ghost Value = { List (List ℕ) };

    ghost view = { λ w. pieces_after 32 (option_map (λ r. r.now) w.rest) };
}

/// Takes a word that fits.
pub fn pass(fits: bool) -> Result<(), LineError>
    ensures { Gives result (if fits then Some tt else None) }
{
    if fits {
        Ok(())
    } else {
        Err(LineError::Refused)
    }
}

fn relaxed_name(alloc: Global, word: &[u8]) -> Result<Name, LineError>
    ensures { Gives result (relaxed_name word.now) }
{
    match Name::parse_relaxed_bytes(alloc, word) {
        Ok(name) => Ok(name),
        Err(NameError::NoMemory) => Err(LineError::NoMemory),
        Err(_) => Err(LineError::Refused),
    }
}

fn full_name(alloc: Global, word: &[u8]) -> Result<Name, LineError>
    ensures { Gives result (full_name word.now) }
{
    let name = relaxed_name(alloc, word)?;
    if name.is_fqdn() {
        Ok(name)
    } else {
        Err(LineError::Refused)
    }
}

impl<'a> Words<'a> {
    /// All words of a line.
    pub fn new(line: &'a [u8]) -> Self
        ensures { result ≡ pieces 32 line.now }
    {
        Words { rest: Some(line) }
    }

    /// Takes the next word; without one nothing changes.
    pub fn next(&mut self) -> Option<&'a [u8]>
        ensures { MatchOption result ((self.old ≡ []) × (self.new ≡ [])) (λ w. self.old ≡ w.now ∷ self.new) }
    {
        let rest = self.rest?;
        let (word, after) = cut(rest, b' ');
        self.rest = after;
        Some(word)
    }

    /// No word is left.
    pub fn end(&self) -> Result<(), LineError>
        ensures { Ends result self.now }
    {
        match self.rest {
            None => Ok(()),
            Some(_) => Err(LineError::Refused),
        }
    }

    /// Takes this very word.
    pub fn literal(&mut self, text: &[u8]) -> Result<(), LineError>
        ensures { GivesFields result self.new (field (literal text.now) self.old) }
    {
        let Some(word) = self.next() else {
            return Err(LineError::Refused);
        };
        if word == text {
            Ok(())
        } else {
            Err(LineError::Refused)
        }
    }

    /// A number from `low` to `most`.
    pub fn number(&mut self, low: u64, most: u64) -> Result<u64, LineError>
        ensures read { GivesFields result self.new (field (number_within low most) self.old) }
        ensures within { IfOk result (λ n. n ≤ most) }
    {
        let Some(word) = self.next() else {
            return Err(LineError::Refused);
        };
        match number(word, most) {
            Some(n) if low <= n => Ok(n),
            _ => Err(LineError::Refused),
        }
    }

    /// An IPv4 address.
    pub fn ipv4(&mut self) -> Result<Ipv4Addr, LineError>
        ensures { GivesFields result self.new (field ipv4_of self.old) }
    {
        let Some(word) = self.next() else {
            return Err(LineError::Refused);
        };
        match ipv4(word) {
            Some(found) => Ok(found),
            None => Err(LineError::Refused),
        }
    }

    /// An IPv6 address.
    pub fn ipv6(&mut self, alloc: Global) -> Result<Ipv6Addr, LineError>
        ensures { GivesFields result self.new (field ipv6_of self.old) }
    {
        let Some(word) = self.next() else {
            return Err(LineError::Refused);
        };
        ipv6(alloc, word)
    }

    /// An address of either family.
    pub fn ip(&mut self, alloc: Global) -> Result<IpAddr, LineError>
        ensures { GivesFields result self.new (field ip_of self.old) }
    {
        let Some(word) = self.next() else {
            return Err(LineError::Refused);
        };
        ip(alloc, word)
    }

    /// Networks, each an address and a length.
    pub fn nets(&mut self, alloc: Global) -> Result<Nets, LineError>
        ensures { GivesFields result self.new (field nets_of self.old) }
    {
        let Some(word) = self.next() else {
            return Err(LineError::Refused);
        };
        nets(alloc, word)
    }

    /// Ports, which rise.
    pub fn ports(&mut self, alloc: Global) -> Result<Ports, LineError>
        ensures { GivesFields result self.new (field ports_of self.old) }
    {
        let Some(word) = self.next() else {
            return Err(LineError::Refused);
        };
        ports(alloc, word)
    }

    /// First delays, in microseconds.
    pub fn delays(&mut self, alloc: Global) -> Result<Delays, LineError>
        ensures { GivesFields result self.new (field delays_of self.old) }
    {
        let Some(word) = self.next() else {
            return Err(LineError::Refused);
        };
        delays(alloc, word)
    }

    /// A type, by its name or its number.
    pub fn record_type(&mut self) -> Result<RecordType, LineError>
        ensures { GivesFields result self.new (field type_of self.old) }
    {
        let Some(word) = self.next() else {
            return Err(LineError::Refused);
        };
        match record_type(word) {
            Some(found) => Ok(found),
            None => Err(LineError::Refused),
        }
    }

    /// A class, by its name or its number.
    pub fn dns_class(&mut self) -> Result<DnsClass, LineError>
        ensures { GivesFields result self.new (field class_of self.old) }
    {
        let Some(word) = self.next() else {
            return Err(LineError::Refused);
        };
        match dns_class(word) {
            Some(found) => Ok(found),
            None => Err(LineError::Refused),
        }
    }

    /// A response code, by its name or its number.
    pub fn response_code(&mut self) -> Result<ResponseCode, LineError>
        ensures { GivesFields result self.new (field response_code_of self.old) }
    {
        let Some(word) = self.next() else {
            return Err(LineError::Refused);
        };
        match response_code(word) {
            Some(found) => Ok(found),
            None => Err(LineError::Refused),
        }
    }

    /// Bytes, each as two digits in base 16.
    pub fn bytes(&mut self, alloc: Global) -> Result<Bytes, LineError>
        ensures { GivesFields result self.new (field bytes_of self.old) }
    {
        let Some(word) = self.next() else {
            return Err(LineError::Refused);
        };
        bytes(alloc, word)
    }

    /// A relaxed name.
    pub fn relaxed_name(&mut self, alloc: Global) -> Result<Name, LineError>
        ensures { GivesFields result self.new (field relaxed_name self.old) }
    {
        let Some(word) = self.next() else {
            return Err(LineError::Refused);
        };
        relaxed_name(alloc, word)
    }

    /// A name that is fully qualified.
    pub fn full_name(&mut self, alloc: Global) -> Result<Name, LineError>
        ensures { GivesFields result self.new (field full_name self.old) }
    {
        let Some(word) = self.next() else {
            return Err(LineError::Refused);
        };
        full_name(alloc, word)
    }
}
