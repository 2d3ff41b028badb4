//! A scenario, and what is read of it; of a text that is none, the line and the cause.

use crate::reading::owned::{Lines, lines_of};
use crate::reading::script::put_rule;
use crate::values::{put_ip, put_name};
use dns_core::{NoMemory, Question};
use recursor_text::{Cause, Scenario, ScenarioError, Upstream, read_scenario};
use recursor_types::RecursorOptions;
use resolver_settings::IpNet;
use script_upstream::ScriptLine;
use std::alloc::Global;
use std::fmt::Write;

/// The line of a fault.
fn fault_text(alloc: Global, error: ScenarioError) -> Result<String, NoMemory> {
    let cause = match error.cause {
        Cause::Line => "bad",
        Cause::NotBuilt => "not built",
        Cause::Cut => "cut",
        Cause::Long => "long",
        Cause::NoMemory => return Err(NoMemory),
    };
    let line = error.line;
    Ok(format!(in alloc; "{cause} at line {line}\n")?)
}

/// A scenario, all but its options.
#[derive(Drop)]
struct Read(Scenario);

/// The options of a scenario.
#[derive(Drop)]
struct Set(Scenario);

fn rules(upstream: &Upstream) -> &[ScriptLine] {
    match upstream {
        Upstream::Script(script) => script.lines.items(),
        Upstream::World(_) => &[],
    }
}

fn put_question(alloc: Global, out: &mut String, question: &Question) -> Result<(), NoMemory> {
    out.push_str("question")?;
    put_name(alloc, out, &question.query.name)?;
    let kind = question.query.query_type.code;
    let class = question.query.query_class.code;
    let dnssec = question.dnssec_ok;
    let is_qualified = question.query.name.is_fqdn();
    writeln!(
        out,
        " type {kind} class {class} dnssec {dnssec} qualified {is_qualified}"
    )?;
    Ok(())
}

fn put_head(out: &mut String, scenario: &Scenario) -> Result<(), NoMemory> {
    for root in scenario.roots.items() {
        out.push_str("root")?;
        put_ip(out, *root)?;
        out.push_str("\n")?;
    }
    let patience = scenario.patience;
    writeln!(out, "patience {patience}")?;
    Ok(())
}

fn put_rules(alloc: Global, out: &mut String, rules: &[ScriptLine]) -> Result<(), NoMemory> {
    for rule in rules {
        put_rule(alloc, out, rule)?;
    }
    Ok(())
}

fn put_questions(alloc: Global, out: &mut String, questions: &[Question]) -> Result<(), NoMemory> {
    for question in questions {
        put_question(alloc, out, question)?;
    }
    Ok(())
}

impl Lines for Read {
    fn lines(&self, alloc: Global) -> Result<String, NoMemory> {
        let scenario = &self.0;
        let mut out = String::new(alloc);
        put_head(&mut out, scenario)?;
        put_rules(alloc, &mut out, rules(&scenario.upstream))?;
        put_questions(alloc, &mut out, scenario.questions.items())?;
        for turn in scenario.turns.items() {
            let (question, moment) = (turn.question, turn.moment);
            writeln!(out, "turn {question} {moment}")?;
        }
        Ok(out)
    }
}

/// Writes each network.
fn put_nets(out: &mut String, nets: &[IpNet]) -> Result<(), NoMemory> {
    for net in nets {
        put_ip(out, net.addr())?;
        let prefix = net.prefix();
        write!(out, "/{prefix}")?;
    }
    Ok(())
}

fn put_access(out: &mut String, options: &RecursorOptions) -> Result<(), NoMemory> {
    out.push_str("allow_answers")?;
    put_nets(out, options.allow_answers.items())?;
    out.push_str("\ndeny_answers")?;
    put_nets(out, options.deny_answers.items())?;
    out.push_str("\nallow_server")?;
    put_nets(out, options.allow_server.items())?;
    out.push_str("\ndeny_server")?;
    put_nets(out, options.deny_server.items())?;
    out.push_str("\n")?;
    Ok(())
}

fn put_cache(out: &mut String, options: &RecursorOptions) -> Result<(), NoMemory> {
    let size = options.response_cache_size;
    let bounds = options.cache_policy.general();
    let (least, most) = (bounds.positive_min, bounds.positive_max);
    let (aliases, zones) = (options.recursion_limit, options.ns_recursion_limit);
    writeln!(out, "response_cache_size {size}")?;
    writeln!(out, "limits {aliases} {zones}")?;
    writeln!(out, "positive_ttl {least} {most}")?;
    let (least, most) = (bounds.negative_min, bounds.negative_max);
    writeln!(out, "negative_ttl {least} {most}")?;
    Ok(())
}

fn put_ports(out: &mut String, ports: &[u16]) -> Result<(), NoMemory> {
    out.push_str("avoid_local_udp_ports")?;
    for port in ports {
        write!(out, " {port}")?;
    }
    out.push_str("\n")?;
    Ok(())
}

fn put_delays(out: &mut String, delays: &[u8]) -> Result<(), NoMemory> {
    out.push_str("first_delays")?;
    for delay in delays {
        write!(out, " {delay}")?;
    }
    out.push_str("\n")?;
    Ok(())
}

impl Lines for Set {
    fn lines(&self, alloc: Global) -> Result<String, NoMemory> {
        let options = &self.0.options;
        let mut out = String::new(alloc);
        put_cache(&mut out, options)?;
        put_access(&mut out, options)?;
        put_ports(&mut out, options.avoid_local_udp_ports.items())?;
        let is_random = options.case_randomization;
        let payload = options.edns_payload_len;
        writeln!(out, "case_randomization {is_random}")?;
        writeln!(out, "edns_payload_len {payload}")?;
        put_delays(&mut out, options.first_delays.items())?;
        Ok(out)
    }
}

/// What is read of a scenario, without its options.
pub fn answer(alloc: Global, given: &[u8]) -> Result<String, NoMemory> {
    match read_scenario(alloc, given) {
        Ok(scenario) => lines_of(alloc, Read(scenario)),
        Err(error) => fault_text(alloc, error),
    }
}

/// How a recursor is set by a scenario.
pub fn options(alloc: Global, given: &[u8]) -> Result<String, NoMemory> {
    match read_scenario(alloc, given) {
        Ok(scenario) => lines_of(alloc, Set(scenario)),
        Err(error) => fault_text(alloc, error),
    }
}
