//! Domain names (RFC 1034 section 3.1), and which of them lie in a zone.
ghost use Rattle.std.specs.Prelude.{◌≡◌, ◌↔◌, ◌≤◌, [], true, false, refl, length, drop, IfOk, IsTrue};
ghost use Rattle.std.specs.Ordering.{as_partial_cmp};
ghost use Rattle.dns_core.specs.Labels.{AreLabels};
ghost use Rattle.dns_core.specs.Name.{DomainName, same_names, names_cmp, names_fed, is_suffix, last_labels, is_in_zone};
ghost use Rattle.dns_core.specs.NameLaws.{same_names_per, same_names_equiv, names_total, names_tie, names_po, names_alike};

use crate::errors::NoMemory;
use crate::label::Label;
use std::alloc::Global;
use std::cmp::Ordering;
use std::hash::{Hash, Hasher};
use std::marker::Model;
use std::sync::Arc;

/// A domain name. Its copies, parents and trimmed forms share its labels, so each of these is a
/// count. Equality, order and hash go without ASCII case.
#[derive(Drop, Debug)]
pub struct Name {
    shared: Option<Arc<Vec<Label>>>,
    skipped: usize,
    fqdn: bool,
}

impl Model for Name {
    ghost use Rattle.dns_core.specs.Name.{DomainName};

    ghost Value = { DomainName };

    ghost use Rattle.std.specs.Prelude.{◌≤◌, length, drop};
    ghost use Rattle.dns_core.specs.Labels.{AreLabels};
    ghost use Rattle.dns_core.specs.SharedLabels.{labels_in};

    ghost view = { λ a. record { labels = drop a.skipped (labels_in a.shared); fqdn = a.fqdn } };

    ghost invariant = { λ a. (a.skipped ≤ length (labels_in a.shared)) × AreLabels (labels_in a.shared) };
}

impl Name {
    /// The name without labels, fully qualified.
    pub fn root(_alloc: Global) -> Name
        ensures { result ≡ record { labels = []; fqdn = true } }
    {
        Name {
            shared: None,
            skipped: 0,
            fqdn: true,
        }
    }

    /// The name without labels, not fully qualified.
    pub fn empty(_alloc: Global) -> Name
        ensures { result ≡ record { labels = []; fqdn = false } }
    {
        Name {
            shared: None,
            skipped: 0,
            fqdn: false,
        }
    }

    /// The name of these labels, the one farthest from the root first.
    pub fn from_labels(alloc: Global, labels: Vec<Label>, fqdn: bool) -> Result<Name, NoMemory>
        requires { AreLabels labels.items }
        ensures { IfOk result (λ name. name ≡ record { labels = labels.items; fqdn = fqdn }) }
    {
        let shared = Arc::new(alloc, labels)?;
        Ok(Name {
            shared: Some(shared),
            skipped: 0,
            fqdn,
        })
    }

    pub fn is_fqdn(&self) -> bool
        ensures { result ≡ self.now.fqdn }
    {
        self.fqdn
    }

    /// The labels, the one farthest from the root first.
    pub fn labels(&self) -> &[Label]
        ensures labels { result.now ≡ self.now.labels }
        ensures fit { AreLabels result.now }
        ensures few { length result.now ≤ 254 }
    {
        match &self.shared {
            None => &[],
            Some(labels) => &labels[self.skipped..],
        }
    }

    pub fn num_labels(&self) -> u8
        ensures { result ≡ length self.now.labels }
    {
        self.labels().len() as u8
    }

    pub fn is_root(&self) -> bool
        ensures { IsTrue result ↔ (self.now ≡ record { labels = []; fqdn = true }) }
    {
        self.fqdn && self.labels().is_empty()
    }

    /// Whether this is the name that `empty` makes.
    pub fn is_empty(&self) -> bool
        ensures { IsTrue result ↔ (self.now ≡ record { labels = []; fqdn = false }) }
    {
        !self.fqdn && self.labels().is_empty()
    }

    fn without(&self, count: usize) -> Result<Name, NoMemory>
        requires { count ≤ length self.now.labels }
        ensures { IfOk result (λ name. name ≡ record { labels = drop count self.now.labels; fqdn = self.now.fqdn }) }
    {
        let shared = match &self.shared {
            None => None,
            Some(labels) => Some(labels.clone()?),
        };
        Ok(Name {
            shared,
            skipped: self.skipped + count,
            fqdn: self.fqdn,
        })
    }

    /// The last `count` labels, the whole name if it has fewer.
    pub fn trim_to(&self, _alloc: Global, count: usize) -> Result<Name, NoMemory>
        ensures { IfOk result (λ name. name ≡ record { labels = last_labels count self.now.labels; fqdn = self.now.fqdn }) }
    {
        let have = self.labels().len();
        self.without(have.saturating_sub(count))
    }

    /// Without its first label; the root stays.
    pub fn base_name(&self, _alloc: Global) -> Result<Name, NoMemory>
        ensures { IfOk result (λ name. name ≡ record { labels = drop 1 self.now.labels; fqdn = self.now.fqdn }) }
    {
        let have = self.labels().len();
        self.without(have.min(1))
    }

    pub(crate) fn copied(&self) -> Result<Name, NoMemory>
        ensures { IfOk result (λ copy. copy ≡ self.now) }
    {
        self.without(0)
    }

    /// Whether the own labels are a suffix of the child's, without case.
    pub fn zone_of(&self, child: &Name) -> bool
        ensures { result ≡ is_suffix self.now.labels child.now.labels }
    {
        let own = self.labels();
        let theirs = child.labels();
        own.len() <= theirs.len() && own == &theirs[theirs.len() - own.len()..]
    }

    /// Whether two names are equal with case.
    pub fn eq_case(&self, other: &Name) -> bool
        ensures { IsTrue result ↔ (self.now ≡ other.now) }
    {
        self.fqdn == other.fqdn && are_identical(self.labels(), other.labels())
    }
}

fn are_identical(left: &[Label], right: &[Label]) -> bool
    ensures { IsTrue result ↔ (left.now ≡ right.now) }
{
    if left.len() != right.len() {
        return false;
    }
    for (i, label) in left.iter().enumerate() {
        if !label.identical(&right[i]) {
            return false;
        }
    }
    true
}

impl PartialEq for Name {
    ghost eq = { same_names };

    ghost laws = { same_names_per };

    fn eq(&self, other: &Self) -> bool {
        self.labels() == other.labels() && self.fqdn == other.fqdn
    }
}

impl Eq for Name {
    ghost laws = { same_names_equiv };
}

impl Ord for Name {
    ghost cmp = { names_cmp };

    ghost total = { names_total };

    ghost matches_partial_cmp = { λ _ _. refl };

    ghost matches_eq = { names_tie };

    fn cmp(&self, other: &Self) -> Ordering {
        self.labels()
            .cmp(other.labels())
            .then(self.fqdn.cmp(&other.fqdn))
    }
}

impl PartialOrd for Name {
    ghost partial_cmp = { as_partial_cmp names_cmp };

    ghost laws = { names_po };

    fn partial_cmp(&self, other: &Self) -> Option<Ordering> {
        Some(self.cmp(other))
    }
}

impl Hash for Name {
    ghost hash_input = { names_fed };

    ghost respects_eq = { names_alike.fed };

    fn hash<H: Hasher>(&self, state: &mut H) {
        self.labels().hash(state);
        self.fqdn.hash(state);
    }
}

/// Whether `child` lies in the zone of `parent`, its apex included. It does not where the parent is
/// the empty name, nor where only one of the two is fully qualified.
pub fn is_subzone(parent: &Name, child: &Name) -> bool
    ensures { result ≡ is_in_zone parent.now child.now }
{
    !parent.is_empty() && parent.is_fqdn() == child.is_fqdn() && parent.zone_of(child)
}
