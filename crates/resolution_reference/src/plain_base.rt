//! What an entry of a small log answers, by a plain program: slow, and no part of a resolver.
ghost use Rattle.std.specs.Prelude.{◌≡◌, ◌↔◌, ◌==◌, IsTrue, drop, if◌then◌else◌};
ghost use Rattle.resolution.specs.Names.{is_above, walk};
ghost use Rattle.resolution_reference.specs.Plain.{apex, asks};
ghost use Rattle.resolution_reference.specs.PlainServing.{log_in};
ghost use Rattle.resolution_reference.specs.PlainBase.{IsBase, IsFreshFor, life_of};

use crate::kept::entries::told_answer;
use crate::kept::kept::{Kept, base_of, is_suffix};
use crate::setting::Setting;
use dns_core::{Label, Name, Query, RecordType};

/// The labels of the name to which a question is walked: for DS those of the base name.
fn walked(labels: &[Label], record_type: u16) -> &[Label]
    ensures { result.now ≡ (if record_type == 43 then drop 1 labels.now else labels.now) }
{
    if record_type == 43 {
        base_of(labels)
    } else {
        labels
    }
}

/// Whether a question is walked to a name at or below the zone.
fn is_walked_below(zone: &[Label], labels: &[Label], record_type: u16, class: u16) -> bool
    ensures { result ≡ is_above (apex zone.now) (walk (asks labels.now record_type class)) }
{
    let _class = class;
    is_suffix(zone, walked(labels, record_type))
}

/// Whether what was told at a moment is fresh at another: no earlier, or within its life.
fn is_fresh(asked_at: u64, moment: u64, life: u64) -> bool
    ensures { IsTrue result ↔ IsFreshFor asked_at moment life }
{
    asked_at <= moment || asked_at - moment <= life.saturating_mul(1_000_000)
}

impl Setting<'_> {
    /// The seconds for which an answer to a question of the type counts.
    fn life(&self, record_type: u16, kept: &Kept) -> u64
        ensures { result ≡ life_of self.now record_type kept.now }
    {
        let record_type = RecordType { code: record_type };
        let (least, most) = self
            .policy
            .ttl_bounds
            .positive_response_ttl_bounds(record_type);
        least.max(most.min(u64::from(kept.least_ttl())))
    }

    /// Whether the entry tells an answer to the question for a fully qualified name, by a server of
    /// the zone with these labels, that is fresh.
    fn base_at(
        &self,
        asked_at: u64,
        labels: &[Label],
        record_type: u16,
        class: u16,
        entry: usize,
        zone: &[Label],
    ) -> bool
        ensures { IsTrue result ↔ IsBase self.now.policy.now (log_in self.now) asked_at (asks labels.now record_type class) entry (apex zone.now) }
    {
        let Some(told) = told_answer(self.log, entry, labels, record_type, class) else {
            return false;
        };
        if !is_walked_below(zone, labels, record_type, class) {
            return false;
        }
        let kept = Kept {
            denied: &self.policy.answer_filter,
            zone,
            message: told.message,
        };
        if !kept.counts() {
            return false;
        }
        if !is_fresh(asked_at, told.moment, self.life(record_type, &kept)) {
            return false;
        }
        self.serves_apex(told.ask, told.teller, zone)
    }
}

/// Whether the entry tells an answer to the question, by a server of the zone, that is fresh at `asked_at`.
pub fn base(setting: &Setting, asked_at: u64, query: &Query, entry: usize, zone: &Name) -> bool
    ensures { IsTrue result ↔ IsBase setting.now.policy.now (log_in setting.now) asked_at query.now entry zone.now }
{
    if !query.name.is_fqdn() {
        return false;
    }
    if !zone.is_fqdn() {
        return false;
    }
    setting.base_at(
        asked_at,
        query.name.labels(),
        query.query_type.code,
        query.query_class.code,
        entry,
        zone.labels(),
    )
}
