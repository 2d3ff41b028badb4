//! What a pool of servers is set to.
ghost use Rattle.std.specs.Prelude.{◌≡◌, Some, None, option_map};
ghost use Rattle.server_core.specs.Context.{Context};

use dns_core::{NoMemory, TryClone};
use resolver_settings::{AccessControlSet, ResolverOpts};
use std::alloc::Global;
use std::marker::Model;

/// The options of a pool of servers, how many probes may go on at a time, and the set of the addresses
/// that answers may have. How encryption is tried, and what is known of the encrypted transports of
/// each server, is no part of it as long as connections are not encrypted.
#[derive(Debug)]
pub struct PoolContext {
    options: ResolverOpts,
    probe_budget: u8,
    answer_address_filter: Option<AccessControlSet>,
}

impl Drop for PoolContext {
    fn drop(self) {
        let PoolContext {
            options: _,
            probe_budget: _,
            answer_address_filter: _,
        } = self;
    }
}

impl Model for PoolContext {
    ghost use Rattle.server_core.specs.Context.{Context};

    ghost Value = { Context };

    ghost view = { λ a. record { options = a.options; probe_budget = a.probe_budget; answer_address_filter = a.answer_address_filter } };
}

impl PoolContext {
    /// No probe may go on, and answers may have every address.
    pub fn new(options: ResolverOpts) -> Self
        ensures { result ≡ record { options = options; probe_budget = 0; answer_address_filter = None } }
    {
        PoolContext {
            options,
            probe_budget: 0,
            answer_address_filter: None,
        }
    }

    /// Lets so many probes go on at a time.
    pub fn with_probe_budget(mut self, budget: u8) -> Self
        ensures { result ≡ record self { probe_budget = budget } }
    {
        self.probe_budget = budget;
        self
    }

    /// Takes the addresses that a set denies out of answers.
    pub fn with_answer_filter(mut self, filter: AccessControlSet) -> Self
        ensures { result ≡ record self { answer_address_filter = Some filter } }
    {
        self.answer_address_filter = Some(filter);
        self
    }

    pub fn options(&self) -> &ResolverOpts
        ensures { result.now ≡ self.now.options }
    {
        &self.options
    }

    pub fn probe_budget(&self) -> u8
        ensures { result ≡ self.now.probe_budget }
    {
        self.probe_budget
    }

    /// The set of the addresses that answers may have, if there is one.
    pub fn answer_address_filter(&self) -> Option<&AccessControlSet>
        ensures { option_map (λ filter. filter.now) result ≡ self.now.answer_address_filter }
    {
        self.answer_address_filter.as_ref()
    }
}

impl TryClone for PoolContext {
    fn try_clone(&self, alloc: Global) -> Result<Self, NoMemory> {
        let options = self.options.try_clone(alloc)?;
        let answer_address_filter = self.answer_address_filter.try_clone(alloc)?;
        Ok(PoolContext {
            options,
            probe_budget: self.probe_budget,
            answer_address_filter,
        })
    }
}
