//! A policy, with what pools of servers are set to by it.
ghost use Rattle.std.specs.Prelude.{◌≡◌, min, IfOk};
ghost use Rattle.recursor_types.specs.Policy.{with_patience};
ghost use Rattle.recursor_types.specs.declared.policy.Policy.{Policy};
ghost use Rattle.walk_lookup.specs.Asking.{context_of};

use dns_core::NoMemory;
use recursor_types::Policy;
use server_core::PoolContext;
use std::alloc::Global;
use std::marker::Model;
use walk_lookup::pool_context;

/// A policy, and the context of pools that follows from it. Contracts see the policy.
pub struct PolicyWithContext {
    policy: Policy,
    context: PoolContext,
}

impl Drop for PolicyWithContext {
    fn drop(self) {
        let PolicyWithContext {
            policy: _,
            context: _,
        } = self;
    }
}

impl Model for PolicyWithContext {
    ghost Value = { Policy };

    ghost view = { λ p. p.policy };

    ghost invariant = { λ p. p.context ≡ context_of p.policy };
}

impl PolicyWithContext {
    pub fn new(alloc: Global, policy: Policy) -> Result<PolicyWithContext, NoMemory>
        ensures { IfOk result (λ whole. whole ≡ policy) }
    {
        let context = pool_context(alloc, &policy)?;
        Ok(PolicyWithContext { policy, context })
    }

    pub fn policy(&self) -> &Policy
        ensures { result.now ≡ self.now }
    {
        &self.policy
    }

    pub fn context(&self) -> &PoolContext
        ensures { result.now ≡ context_of self.now }
    {
        &self.context
    }

    /// With this patience, where it is less.
    pub fn with_patience(&mut self, patience: u32)
        ensures { self.new ≡ with_patience (min self.old.patience patience) self.old }
    {
        self.policy.with_patience(patience);
    }
}
