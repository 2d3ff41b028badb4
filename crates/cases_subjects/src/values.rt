//! Addresses, names and bytes as text: numbers, so that a table that is wrong in reading and in printing
//! shows.

use dns_core::{Name, NoMemory};
use std::alloc::Global;
use std::fmt::Write;
use std::net::{IpAddr, Ipv4Addr, Ipv6Addr};

/// Writes four decimal numbers.
pub fn put_narrow(out: &mut String, ip: Ipv4Addr) -> Result<(), NoMemory> {
    let [a, b, c, d] = ip.octets();
    write!(out, " {a} {b} {c} {d}")?;
    Ok(())
}

/// Writes eight hexadecimal numbers.
pub fn put_wide(out: &mut String, ip: Ipv6Addr) -> Result<(), NoMemory> {
    for segment in ip.segments() {
        write!(out, " {segment:x}")?;
    }
    Ok(())
}

/// Writes the numbers of an address.
pub fn put_ip(out: &mut String, ip: IpAddr) -> Result<(), NoMemory> {
    match ip {
        IpAddr::V4(ip) => put_narrow(out, ip),
        IpAddr::V6(ip) => put_wide(out, ip),
    }
}

/// The text of a name.
pub fn name_text(alloc: Global, name: &Name) -> Result<Vec<u8>, NoMemory> {
    let mut text = Vec::new(alloc);
    name.write_text(alloc, &mut text)?;
    Ok(text)
}

/// Writes the text of a name.
pub fn put_name(alloc: Global, out: &mut String, name: &Name) -> Result<(), NoMemory> {
    let text = name_text(alloc, name)?;
    out.push_str(" ")?;
    match std::str::from_utf8(&text) {
        Ok(text) => out.push_str(text)?,
        Err(_) => out.push_str("(no text)")?,
    }
    Ok(())
}

/// Writes each byte as a decimal number.
pub fn put_bytes(out: &mut String, bytes: &[u8]) -> Result<(), NoMemory> {
    for byte in bytes {
        write!(out, " {byte}")?;
    }
    Ok(())
}
