//! What the servers of a round record that had not answered yet when another one did.
ghost use Rattle.std.specs.Prelude.{◌≡◌, ℕ, ◌<◌, ◌≤◌, ◌==◌, length, slice_get, Some, take, if◌then◌else◌};
ghost use Rattle.std.specs.List.{list_any};
ghost use Rattle.pool_lookup.specs.Cancelling.{ends_by_message, address_of, is_at, is_apart, cancelled_once, cancelled_unless, others_of, cancelled_table};

use crate::lookup::Lookup;
use dns_core::{Message, NetError};
use server_core::ServerTable;
use std::net::IpAddr;

/// Whether an end of an attempt is a message that ends the lookup.
pub(crate) fn ends_by_message(udp_off: bool, end: &Result<Message, NetError>) -> bool
    ensures { result ≡ ends_by_message udp_off end.now }
{
    match end {
        Ok(message) => !message.truncation || udp_off,
        Err(_) => false,
    }
}

fn address_of(table: &ServerTable, number: u32) -> Option<IpAddr>
    ensures { result ≡ address_of table.now number }
{
    if table.is_live(number) {
        Some(table.get(number).ip())
    } else {
        None
    }
}

fn is_at(table: &ServerTable, ip: IpAddr, number: u32) -> bool
    ensures { result ≡ is_at ip (address_of table.now number) }
{
    match address_of(table, number) {
        Some(other) => other == ip,
        None => false,
    }
}

/// Whether one of these servers has an address.
fn has_address(table: &ServerTable, among: &[u32], ip: IpAddr) -> bool
    ensures { result ≡ list_any (λ n. is_at ip (address_of table.now n)) among.now }
{
    among.iter().any(|other| is_at(table, ip, *other))
}

/// Whether a server is there, and none with its address is among these.
fn is_apart(table: &ServerTable, among: &[u32], number: u32) -> bool
    ensures { result ≡ is_apart (address_of table.now) among.now number }
{
    match address_of(table, number) {
        Some(ip) => !has_address(table, among, ip),
        None => false,
    }
}

/// A server records that another one answered in so many microseconds, where it is apart from these.
fn record_loss(table: &mut ServerTable, among: &[u32], number: u32, winner: u64, now: u64)
    ensures { table.new ≡ cancelled_once among.now winner now table.old number }
{
    if is_apart(table, among, number) {
        table.get_mut(number).record_cancelled(winner, now);
    }
}

impl Lookup {
    /// How many attempts of the round have not ended, those that did not begin among them.
    fn count_others(&self) -> usize
        ensures { result ≡ length (others_of self.now) }
    {
        self.attempts.len() + self.ready.len()
    }

    /// The server of such an attempt, those in flight first.
    fn other_at(&self, place: usize) -> u32
        requires { place < length (others_of self.now) }
        ensures { slice_get (others_of self.now) place ≡ Some result }
    {
        let begun = self.attempts.len();
        if place < begun {
            self.attempts[place].candidate.server
        } else {
            self.ready[place - begun].server
        }
    }

    /// Whether a server is that of such an attempt before a place.
    fn stands_before(&self, place: usize, number: u32) -> bool
        requires { place ≤ length (others_of self.now) }
        ensures { result ≡ list_any (λ m. m == number) (take place (others_of self.now)) }
    {
        'earlier: for other in 0..place {
            if self.other_at(other) == number {
                return true;
            }
        }
        false
    }

    /// The server at a place records it, unless it stands at a place before.
    fn cancel_at(&self, table: &mut ServerTable, place: usize, winner: u64, now: u64)
        requires { place < length (others_of self.now) }
        ensures { (number : ℕ) → slice_get (others_of self.now) place ≡ Some number
            → table.new ≡ cancelled_unless (take place (others_of self.now)) self.now.ended winner now table.old number }
    {
        let number = self.other_at(place);
        if !self.stands_before(place, number) {
            record_loss(table, &self.ended, number, winner, now);
        }
    }

    /// Each server of the round that has not ended records once the time since the round began, where
    /// its address has had no end in the round.
    fn cancel_others(&self, table: &mut ServerTable, now: u64)
        ensures { table.new ≡ cancelled_table now self.now table.old }
    {
        let winner = now.saturating_sub(self.round_start);
        'others: for place in 0..self.count_others() {
            self.cancel_at(table, place, winner, now);
        }
    }

    /// So they do where a message ended the lookup.
    pub(crate) fn record_losers(&self, won: bool, table: &mut ServerTable, now: u64)
        ensures { table.new ≡ (if won then cancelled_table now self.now table.old else table.old) }
    {
        if won {
            self.cancel_others(table, now);
        }
    }
}
