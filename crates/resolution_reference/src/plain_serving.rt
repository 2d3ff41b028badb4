//! Who serves a zone, by a plain program over a small log: slow, and no part of a resolver.
ghost use Rattle.std.specs.Prelude.{◌↔◌, ◌≡◌, ◌==◌, false, ◌<◌, IsTrue, Contains, if◌then◌else◌, None};
ghost use Rattle.std.specs.Option.{option_copied};
ghost use Rattle.dns_core.specs.declared.record.Record.{Record};
ghost use Rattle.resolution.specs.Serving.{Serves, targets, target_below};
ghost use Rattle.resolution_reference.specs.Plain.{apex, asks, kept as left, passes};
ghost use Rattle.resolution_reference.specs.PlainServing.{log_in, AnswerGives, TargetGives, Lists, ListedBy, ListedFrom, ServerGives, GivenFrom};

use crate::kept::entries::told_answer;
use crate::kept::kept::{Kept, base_of, behind, is_above, is_among};
use crate::setting::Setting;
use dns_core::{Label, Name, RData, Record};
use std::net::IpAddr;

impl Setting<'_> {
    /// Whether the address serves the zone with these labels.
    #[cycle(serving)]
    pub(crate) fn serves_apex(&self, n: usize, ip: IpAddr, zone: &[Label]) -> bool
        ensures { IsTrue result ↔ Serves self.now.policy.now (log_in self.now) n ip (apex zone.now) }
    {
        if zone.is_empty() {
            return is_among(self.policy.roots.items(), ip);
        }
        if self.policy.server_filter.denied(ip) {
            return false;
        }
        'entries: for i in 0..n {
            if self.is_listed_by(i, n, ip, zone) {
                return true;
            }
        }
        false
    }

    /// Whether entry i tells a delegation of the zone that gives the address.
    #[cycle(serving)]
    fn is_listed_by(&self, i: usize, n: usize, ip: IpAddr, zone: &[Label]) -> bool
        requires { i < n }
        ensures { IsTrue result ↔ ListedBy self.now.policy.now (log_in self.now) i n ip (apex zone.now) }
    {
        let Some(told) = told_answer(self.log, i, zone, 2, 1) else {
            return false;
        };
        'cuts: for cut in 0..zone.len() + 1 {
            let rest = behind(zone, cut);
            let kept = Kept {
                denied: &self.policy.answer_filter,
                zone: rest,
                message: told.message,
            };
            if self.is_listed_from(told.ask, told.teller, &kept, zone, n, ip) {
                return true;
            }
        }
        false
    }

    /// Whether the teller serves the zone of the message, which is a delegation that gives the
    /// address.
    #[cycle(serving)]
    fn is_listed_from(
        &self,
        ask: usize,
        teller: IpAddr,
        kept: &Kept,
        zone: &[Label],
        n: usize,
        ip: IpAddr,
    ) -> bool
        requires { ask < n }
        ensures { IsTrue result ↔ ListedFrom self.now.policy.now (log_in self.now) ask teller kept.now.denied.now kept.now.zone.now kept.now.message.now n ip (apex zone.now) }
    {
        if !kept.counts() {
            return false;
        }
        if !kept.is_delegation(zone) {
            return false;
        }
        if !self.serves_apex(ask, teller, kept.zone) {
            return false;
        }
        self.lists(kept, zone, n, ip)
    }

    /// Whether a delegation gives the address, beside it or for one of its servers.
    #[cycle(serving)]
    fn lists(&self, kept: &Kept, zone: &[Label], n: usize, ip: IpAddr) -> bool
        ensures { IsTrue result ↔ Lists self.now.policy.now (log_in self.now) n ip (apex zone.now) (left kept.now) }
    {
        let base = base_of(zone);
        if kept.has_glue(base, ip) {
            return true;
        }
        if self.any_server(kept, kept.message.answers.items(), zone, n, ip) {
            return true;
        }
        if self.any_server(kept, kept.message.authorities.items(), zone, n, ip) {
            return true;
        }
        self.any_server(kept, kept.message.additionals.items(), zone, n, ip)
    }

    /// Whether one of these records names a server of the delegation whose address was told so.
    #[cycle(serving)]
    fn any_server(&self, kept: &Kept, rs: &[Record], zone: &[Label], n: usize, ip: IpAddr) -> bool
        ensures { IsTrue result ↔ ((r : Record) × Contains rs.now r × ServerGives self.now.policy.now (log_in self.now) n ip (apex zone.now) kept.now r) }
    {
        'servers: for r in rs {
            if self.server_gives(kept, r, zone, n, ip) {
                return true;
            }
        }
        false
    }

    #[cycle(serving)]
    fn server_gives(&self, kept: &Kept, r: &Record, zone: &[Label], n: usize, ip: IpAddr) -> bool
        ensures { IsTrue result ↔ ServerGives self.now.policy.now (log_in self.now) n ip (apex zone.now) kept.now r.now }
    {
        let Some(target) = target_of(kept, r, base_of(zone)) else {
            return false;
        };
        self.target_gives(kept, zone, target, n, ip)
    }

    /// Whether an answer to a question for an address of the server gives the address.
    #[cycle(serving)]
    fn target_gives(&self, kept: &Kept, zone: &[Label], target: &Name, n: usize, ip: IpAddr) -> bool
        ensures { IsTrue result ↔ TargetGives self.now.policy.now (log_in self.now) n ip (targets (left kept.now) (apex zone.now)) target.now }
    {
        if !target.is_fqdn() {
            return false;
        }
        'answers: for j in 0..n {
            if self.answer_gives(j, kept, zone, target.labels(), 1, ip) {
                return true;
            }
            if self.answer_gives(j, kept, zone, target.labels(), 28, ip) {
                return true;
            }
        }
        false
    }

    #[cycle(serving)]
    fn answer_gives(
        &self,
        j: usize,
        kept: &Kept,
        zone: &[Label],
        labels: &[Label],
        record_type: u16,
        ip: IpAddr,
    ) -> bool
        requires { (record_type == 43) ≡ false }
        ensures { IsTrue result ↔ AnswerGives self.now.policy.now (log_in self.now) j ip (targets (left kept.now) (apex zone.now)) (asks labels.now record_type 1) }
    {
        let Some(told) = told_answer(self.log, j, labels, record_type, 1) else {
            return false;
        };
        'cuts: for cut in 0..labels.len() + 1 {
            let rest = behind(labels, cut);
            let answer = Kept {
                denied: &self.policy.answer_filter,
                zone: rest,
                message: told.message,
            };
            if self.is_given_from(told.ask, told.teller, &answer, kept, zone, ip) {
                return true;
            }
        }
        false
    }

    /// Whether the teller serves the zone of the answer, which gives the address.
    #[cycle(serving)]
    fn is_given_from(
        &self,
        ask: usize,
        teller: IpAddr,
        answer: &Kept,
        kept: &Kept,
        zone: &[Label],
        ip: IpAddr,
    ) -> bool
        ensures { IsTrue result ↔ GivenFrom self.now.policy.now (log_in self.now) ask teller answer.now.denied.now answer.now.zone.now answer.now.message.now (left kept.now) (apex zone.now) ip }
    {
        let named = answer.counts() & answer.has_under(kept, base_of(zone), ip);
        if !(named | answer.answers_with(ip)) {
            return false;
        }
        self.serves_apex(ask, teller, answer.zone)
    }
}

/// The target of an NS record that is left, at or below the base.
fn target_of<'a>(kept: &Kept, r: &'a Record, base: &[Label]) -> Option<&'a Name>
    ensures { option_copied result ≡ (if passes kept.now r.now then target_below (apex base.now) r.now else None) }
{
    match &r.rdata {
        RData::NS(target) => {
            if kept.passes(r) & is_above(base, &r.name) {
                Some(target)
            } else {
                None
            }
        }
        _ => None,
    }
}

/// Whether the address serves the zone, by the entries of the log below `n`.
pub fn serves(setting: &Setting, n: usize, ip: IpAddr, zone: &Name) -> bool
    ensures { IsTrue result ↔ Serves setting.now.policy.now (log_in setting.now) n ip zone.now }
{
    if !zone.is_fqdn() {
        return false;
    }
    setting.serves_apex(n, ip, zone.labels())
}
