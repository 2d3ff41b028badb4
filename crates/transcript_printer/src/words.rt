//! Numbers, bytes, addresses and names.
ghost use Rattle.std.specs.Prelude.{◌≡◌, ◌+◌, ◌++◌, ◌<◌, ◌∷◌, [], flat_map, decimal};
ghost use Rattle.std.specs.Char.{digit_char};
ghost use Rattle.std.specs.Net.Addr.{ipv4_octets, ipv6_segments};
ghost use Rattle.std.specs.Net.Text.{ipv4_text, hex_groups_text};
ghost use Rattle.dns_core.specs.NameText.{text_of};
ghost use Rattle.transcript_printer.specs.Appending.{Appends};
ghost use Rattle.text_lines.specs.Texts.{ip_text, hex_pair, hex_text};

use dns_core::{Name, NoMemory};
use std::alloc::Global;
use std::net::{IpAddr, Ipv4Addr, Ipv6Addr};

pub fn put_bytes(bytes: &[u8], out: &mut Vec<u8>) -> Result<(), NoMemory>
    ensures { Appends result out.old.items out.new.items bytes.now }
{
    out.extend_from_slice(bytes)?;
    Ok(())
}

fn put_digit(digit: u8, out: &mut Vec<u8>) -> Result<(), NoMemory>
    requires { digit < 10 }
    ensures { Appends result out.old.items out.new.items ((48 + digit) ∷ []) }
{
    out.push(b'0' + digit)?;
    Ok(())
}

#[tactic(auto, using(std::proofs::lemmas::Fmt::decimal_digit))]
pub fn put_number(n: u64, out: &mut Vec<u8>) -> Result<(), NoMemory>
    ensures { Appends result out.old.items out.new.items (decimal n) }
{
    if n < 10 {
        put_digit(n as u8, out)?;
        return Ok(());
    }
    put_number(n / 10, out)?;
    put_digit((n % 10) as u8, out)?;
    Ok(())
}

/// A number behind a space.
pub fn put_count(n: u64, out: &mut Vec<u8>) -> Result<(), NoMemory>
    ensures { Appends result out.old.items out.new.items (32 ∷ decimal n) }
{
    put_bytes(b" ", out)?;
    put_number(n, out)
}

fn hex_digit(value: u8) -> u8
    requires { value < 16 }
    ensures { result ≡ digit_char value }
{
    if value < 10 {
        b'0' + value
    } else {
        b'a' + (value - 10)
    }
}

#[tactic(auto, unfolding(text_lines::specs::Texts::hex_pair))]
fn put_hex_pair(b: u8, out: &mut Vec<u8>) -> Result<(), NoMemory>
    ensures { Appends result out.old.items out.new.items (hex_pair b) }
{
    out.push(hex_digit(b / 16))?;
    out.push(hex_digit(b % 16))?;
    Ok(())
}

fn put_hex_pairs(bytes: &[u8], out: &mut Vec<u8>) -> Result<(), NoMemory>
    ensures { Appends result out.old.items out.new.items (flat_map hex_pair bytes.now) }
{
    for b in bytes {
        put_hex_pair(*b, out)?;
    }
    Ok(())
}

pub fn put_hex(bytes: &[u8], out: &mut Vec<u8>) -> Result<(), NoMemory>
    ensures { Appends result out.old.items out.new.items (hex_text bytes.now) }
{
    if bytes.is_empty() {
        put_bytes(b"-", out)
    } else {
        put_hex_pairs(bytes, out)
    }
}

/// A number behind a dot.
fn put_octet(octet: u8, out: &mut Vec<u8>) -> Result<(), NoMemory>
    ensures { Appends result out.old.items out.new.items (46 ∷ decimal octet) }
{
    put_bytes(b".", out)?;
    put_number(octet as u64, out)
}

/// Two numbers, each behind a dot.
fn put_octets(first: u8, second: u8, out: &mut Vec<u8>) -> Result<(), NoMemory>
    ensures { Appends result out.old.items out.new.items ((46 ∷ decimal first) ++ (46 ∷ decimal second)) }
{
    put_octet(first, out)?;
    put_octet(second, out)
}

pub fn put_ipv4(ip: Ipv4Addr, out: &mut Vec<u8>) -> Result<(), NoMemory>
    ensures { Appends result out.old.items out.new.items (ipv4_text (ipv4_octets ip)) }
{
    let [a, b, c, d] = ip.octets();
    put_number(u64::from(a), out)?;
    put_octet(b, out)?;
    put_octets(c, d, out)?;
    Ok(())
}

pub fn put_ipv6(alloc: Global, ip: Ipv6Addr, out: &mut Vec<u8>) -> Result<(), NoMemory>
    ensures { Appends result out.old.items out.new.items (hex_groups_text (ipv6_segments ip)) }
{
    let groups = ip.hex_groups();
    let text = format!(in alloc; "{groups}")?;
    put_bytes(text.as_bytes(), out)
}

pub fn put_ip(alloc: Global, ip: IpAddr, out: &mut Vec<u8>) -> Result<(), NoMemory>
    ensures { Appends result out.old.items out.new.items (ip_text ip) }
{
    match ip {
        IpAddr::V4(ip) => put_ipv4(ip, out),
        IpAddr::V6(ip) => put_ipv6(alloc, ip, out),
    }
}

pub fn put_name(name: &Name, out: &mut Vec<u8>) -> Result<(), NoMemory>
    ensures { Appends result out.old.items out.new.items (text_of name.now) }
{
    name.write_text(*out.allocator(), out)?;
    Ok(())
}
