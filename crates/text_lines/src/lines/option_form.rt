//! Option lines that are read, and the options that they say.
ghost use Rattle.std.specs.Prelude.{◌≡◌, IfOk};
ghost use Rattle.text_lines.specs.Fields.{Gives, GivesFields, field, in_table};
ghost use Rattle.text_lines.specs.OptionForm.{switches, limit_field, bounds_fields, response_cache_size_of, recursion_limit_of, ns_recursion_limit_of, allow_answers_of, deny_answers_of, allow_server_of, deny_server_of, avoid_local_udp_ports_of, positive_ttl_of, negative_ttl_of, case_randomization_of, edns_payload_len_of, first_delays_of, later_option_of, option_line_of};
ghost use Rattle.text_lines.specs.LineSpelling.{option_rank, last_rank, with_positive, with_negative, changed, options_with};

use crate::words::{LineError, Words};
use dns_core::{Delays, Items, NoMemory, Ports};
use recursor_types::RecursorOptions;
use resolver_settings::{Nets, TtlBounds, TtlConfig};
use std::alloc::Global;

/// The limit of zones where no line says otherwise.
const STANDARD_LIMIT: u8 = 24;

/// The least and the greatest time to live, in seconds.
#[derive(Clone, Copy)]
pub struct Bounds {
    pub least: u64,
    pub most: u64,
}

/// An option that a line sets. A further option has a variant here, its rank, and what it changes.
#[derive(Drop)]
pub enum OptionLine {
    ResponseCacheSize(u64),
    RecursionLimit(u8),
    NsRecursionLimit(u8),
    AllowAnswers(Nets),
    DenyAnswers(Nets),
    AllowServer(Nets),
    DenyServer(Nets),
    AvoidLocalUdpPorts(Ports),
    PositiveTtl(Bounds),
    NegativeTtl(Bounds),
    CaseRandomization(bool),
    EdnsPayloadLen(u16),
    FirstDelays(Delays),
}

impl OptionLine {
    /// Its place in the order of all options.
    pub fn rank(&self) -> u8
        ensures { result ≡ option_rank self.now }
    {
        match self {
            OptionLine::ResponseCacheSize(_) => 2,
            OptionLine::RecursionLimit(_) => 3,
            OptionLine::NsRecursionLimit(_) => 4,
            OptionLine::AllowAnswers(_) => 5,
            OptionLine::DenyAnswers(_) => 6,
            OptionLine::AllowServer(_) => 7,
            OptionLine::DenyServer(_) => 8,
            OptionLine::AvoidLocalUdpPorts(_) => 9,
            OptionLine::PositiveTtl(_) => 10,
            OptionLine::NegativeTtl(_) => 11,
            OptionLine::CaseRandomization(_) => 12,
            OptionLine::EdnsPayloadLen(_) => 14,
            OptionLine::FirstDelays(_) => 16,
        }
    }

    fn change(self, alloc: Global, options: &mut RecursorOptions)
        ensures { options.new ≡ changed options.old self }
    {
        match self {
            OptionLine::ResponseCacheSize(size) => options.response_cache_size = size,
            OptionLine::RecursionLimit(most) => options.recursion_limit = most,
            OptionLine::NsRecursionLimit(most) => options.ns_recursion_limit = most,
            OptionLine::AllowAnswers(nets) => options.allow_answers = nets,
            OptionLine::DenyAnswers(nets) => options.deny_answers = nets,
            OptionLine::AllowServer(nets) => options.allow_server = nets,
            OptionLine::DenyServer(nets) => options.deny_server = nets,
            OptionLine::AvoidLocalUdpPorts(ports) => options.avoid_local_udp_ports = ports,
            OptionLine::PositiveTtl(bounds) => {
                options.cache_policy = with_positive(alloc, &options.cache_policy, bounds);
            }
            OptionLine::NegativeTtl(bounds) => {
                options.cache_policy = with_negative(alloc, &options.cache_policy, bounds);
            }
            OptionLine::CaseRandomization(on) => options.case_randomization = on,
            OptionLine::EdnsPayloadLen(bytes) => options.edns_payload_len = bytes,
            OptionLine::FirstDelays(delays) => options.first_delays = delays,
        }
    }
}

/// Other bounds of positive answers, the same for every type.
fn with_positive(alloc: Global, policy: &TtlConfig, bounds: Bounds) -> TtlConfig
    ensures { result ≡ with_positive policy.now bounds }
{
    let general = TtlBounds {
        positive_min: bounds.least,
        positive_max: bounds.most,
        ..policy.general()
    };
    TtlConfig::new(alloc, general)
}

/// Other bounds of negative answers, the same for every type.
fn with_negative(alloc: Global, policy: &TtlConfig, bounds: Bounds) -> TtlConfig
    ensures { result ≡ with_negative policy.now bounds }
{
    let general = TtlBounds {
        negative_min: bounds.least,
        negative_max: bounds.most,
        ..policy.general()
    };
    TtlConfig::new(alloc, general)
}

/// The rank of the last line, and 0 where there is none.
pub fn last_rank(written: &[OptionLine]) -> u8
    ensures { result ≡ last_rank 0 written.now }
{
    match written.last() {
        Some(line) => line.rank(),
        None => 0,
    }
}

/// The limit of zones with a further line, where it was `limit` before.
fn limit_after(line: &OptionLine, limit: u8) -> u8
    ensures { (options : RecursorOptions) → options.ns_recursion_limit ≡ limit → result ≡ (changed options line.now).ns_recursion_limit }
{
    match line {
        OptionLine::NsRecursionLimit(most) => *most,
        _ => limit,
    }
}

/// The limit of zones of the options that the lines say.
pub fn ns_recursion_limit(written: &[OptionLine]) -> u8
    ensures { result ≡ (options_with written.now).ns_recursion_limit }
{
    let mut limit = STANDARD_LIMIT;
    for line in written {
        limit = limit_after(line, limit);
    }
    limit
}

/// The standard options, changed line by line.
pub fn options_with(alloc: Global, written: Items<OptionLine>) -> Result<RecursorOptions, NoMemory>
    ensures { IfOk result (λ options. options ≡ options_with written) }
{
    let mut options = RecursorOptions::standard(alloc)?;
    'lines: for line in written.into_vec() {
        line.change(alloc, &mut options);
    }
    Ok(options)
}

/// The least number of seconds, and the greatest, which is no smaller.
fn ttl_bounds(words: &mut Words) -> Result<Bounds, LineError>
    ensures { GivesFields result words.new (bounds_fields words.old) }
{
    let least = words.number(0, 4_294_967_295)?;
    let most = words.number(least, 4_294_967_295)?;
    Ok(Bounds { least, most })
}

/// Whether something is on, as 0 or 1.
fn switch(words: &mut Words) -> Result<bool, LineError>
    ensures { GivesFields result words.new (field (in_table switches) words.old) }
{
    let Some(word) = words.next() else {
        return Err(LineError::Refused);
    };
    if word == b"0".as_slice() {
        return Ok(false);
    }
    if word == b"1".as_slice() {
        return Ok(true);
    }
    Err(LineError::Refused)
}

#[tactic(auto, unfolding(crate::specs::OptionForm::response_cache_size_of))]
fn response_cache_size_line(words: &mut Words) -> Result<OptionLine, LineError>
    ensures { Gives result (response_cache_size_of words.old) }
{
    let size = words.number(0, 4_194_304)?;
    words.end()?;
    Ok(OptionLine::ResponseCacheSize(size))
}

fn limit(words: &mut Words) -> Result<u8, LineError>
    ensures { GivesFields result words.new (limit_field words.old) }
{
    let most = words.number(0, 255)?;
    Ok(most as u8)
}

#[tactic(auto, unfolding(crate::specs::OptionForm::recursion_limit_of))]
fn recursion_limit_line(words: &mut Words) -> Result<OptionLine, LineError>
    ensures { Gives result (recursion_limit_of words.old) }
{
    let most = limit(words)?;
    words.end()?;
    Ok(OptionLine::RecursionLimit(most))
}

#[tactic(auto, unfolding(crate::specs::OptionForm::ns_recursion_limit_of))]
fn ns_recursion_limit_line(words: &mut Words) -> Result<OptionLine, LineError>
    ensures { Gives result (ns_recursion_limit_of words.old) }
{
    let most = limit(words)?;
    words.end()?;
    Ok(OptionLine::NsRecursionLimit(most))
}

#[tactic(auto, unfolding(crate::specs::OptionForm::allow_answers_of))]
fn allow_answers_line(alloc: Global, words: &mut Words) -> Result<OptionLine, LineError>
    ensures { Gives result (allow_answers_of words.old) }
{
    let nets = words.nets(alloc)?;
    words.end()?;
    Ok(OptionLine::AllowAnswers(nets))
}

#[tactic(auto, unfolding(crate::specs::OptionForm::deny_answers_of))]
fn deny_answers_line(alloc: Global, words: &mut Words) -> Result<OptionLine, LineError>
    ensures { Gives result (deny_answers_of words.old) }
{
    let nets = words.nets(alloc)?;
    words.end()?;
    Ok(OptionLine::DenyAnswers(nets))
}

#[tactic(auto, unfolding(crate::specs::OptionForm::allow_server_of))]
fn allow_server_line(alloc: Global, words: &mut Words) -> Result<OptionLine, LineError>
    ensures { Gives result (allow_server_of words.old) }
{
    let nets = words.nets(alloc)?;
    words.end()?;
    Ok(OptionLine::AllowServer(nets))
}

#[tactic(auto, unfolding(crate::specs::OptionForm::deny_server_of))]
fn deny_server_line(alloc: Global, words: &mut Words) -> Result<OptionLine, LineError>
    ensures { Gives result (deny_server_of words.old) }
{
    let nets = words.nets(alloc)?;
    words.end()?;
    Ok(OptionLine::DenyServer(nets))
}

#[tactic(auto, unfolding(crate::specs::OptionForm::avoid_local_udp_ports_of))]
fn avoid_local_udp_ports_line(alloc: Global, words: &mut Words) -> Result<OptionLine, LineError>
    ensures { Gives result (avoid_local_udp_ports_of words.old) }
{
    let ports = words.ports(alloc)?;
    words.end()?;
    Ok(OptionLine::AvoidLocalUdpPorts(ports))
}

#[tactic(auto, unfolding(crate::specs::OptionForm::positive_ttl_of))]
fn positive_ttl_line(words: &mut Words) -> Result<OptionLine, LineError>
    ensures { Gives result (positive_ttl_of words.old) }
{
    let bounds = ttl_bounds(words)?;
    words.end()?;
    Ok(OptionLine::PositiveTtl(bounds))
}

#[tactic(auto, unfolding(crate::specs::OptionForm::negative_ttl_of))]
fn negative_ttl_line(words: &mut Words) -> Result<OptionLine, LineError>
    ensures { Gives result (negative_ttl_of words.old) }
{
    let bounds = ttl_bounds(words)?;
    words.end()?;
    Ok(OptionLine::NegativeTtl(bounds))
}

#[tactic(auto, unfolding(crate::specs::OptionForm::case_randomization_of))]
fn case_randomization_line(words: &mut Words) -> Result<OptionLine, LineError>
    ensures { Gives result (case_randomization_of words.old) }
{
    let on = switch(words)?;
    words.end()?;
    Ok(OptionLine::CaseRandomization(on))
}

#[tactic(auto, unfolding(crate::specs::OptionForm::edns_payload_len_of))]
fn edns_payload_len_line(words: &mut Words) -> Result<OptionLine, LineError>
    ensures { Gives result (edns_payload_len_of words.old) }
{
    let bytes = words.number(0, 65_535)?;
    words.end()?;
    Ok(OptionLine::EdnsPayloadLen(bytes as u16))
}

#[tactic(auto, unfolding(crate::specs::OptionForm::first_delays_of))]
fn first_delays_line(alloc: Global, words: &mut Words) -> Result<OptionLine, LineError>
    ensures { Gives result (first_delays_of words.old) }
{
    let delays = words.delays(alloc)?;
    words.end()?;
    Ok(OptionLine::FirstDelays(delays))
}

/// The name of an option, and its value.
#[tactic(auto, unfolding(crate::specs::OptionForm::option_line_of))]
pub fn option_line(alloc: Global, words: &mut Words) -> Result<OptionLine, LineError>
    ensures { Gives result (option_line_of words.old) }
{
    let Some(word) = words.next() else {
        return Err(LineError::Refused);
    };
    if word == b"response_cache_size".as_slice() {
        return response_cache_size_line(words);
    }
    if word == b"recursion_limit".as_slice() {
        return recursion_limit_line(words);
    }
    if word == b"ns_recursion_limit".as_slice() {
        return ns_recursion_limit_line(words);
    }
    if word == b"allow_answers".as_slice() {
        return allow_answers_line(alloc, words);
    }
    if word == b"deny_answers".as_slice() {
        return deny_answers_line(alloc, words);
    }
    if word == b"allow_server".as_slice() {
        return allow_server_line(alloc, words);
    }
    if word == b"deny_server".as_slice() {
        return deny_server_line(alloc, words);
    }
    later_option(alloc, word, words)
}

/// Of the options behind the networks.
#[tactic(auto, unfolding(crate::specs::OptionForm::later_option_of))]
fn later_option(alloc: Global, word: &[u8], words: &mut Words) -> Result<OptionLine, LineError>
    ensures { Gives result (later_option_of word.now words.old) }
{
    if word == b"avoid_local_udp_ports".as_slice() {
        return avoid_local_udp_ports_line(alloc, words);
    }
    if word == b"positive_ttl".as_slice() {
        return positive_ttl_line(words);
    }
    if word == b"negative_ttl".as_slice() {
        return negative_ttl_line(words);
    }
    if word == b"case_randomization".as_slice() {
        return case_randomization_line(words);
    }
    if word == b"edns_payload_len".as_slice() {
        return edns_payload_len_line(words);
    }
    if word == b"first_delays".as_slice() {
        return first_delays_line(alloc, words);
    }
    Err(LineError::Refused)
}
