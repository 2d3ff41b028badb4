//! The recursor: the machine over a provider.
ghost use Rattle.std.specs.Prelude.{◌≡◌, ◌≢◌, ◌↔◌, IsTrue, false, List, [], Some, Err, IfOk, IfErr, IfSome};
ghost use Rattle.dns_core.specs.declared.log.LogEntry.{LogEntry};
ghost use Rattle.resolver_settings.specs.Ttl.{has_reversed};
ghost use Rattle.recursor_core.specs.Recursor.{IsSetupError, IsSetupKind};
ghost use Rattle.recursor_types.specs.Options.{has_bad_first_delays};
ghost use Rattle.recursor_types.specs.Policy.{policy_of};
ghost use Rattle.walk_lookup.specs.Asking.{context_of, connect_of};
ghost use Rattle.recursor_core.specs.RecursorState.{RecursorState, Rests, first_state};

use crate::machine::resolutions::RecursorCore;
use crate::run::Run;
use dns_core::{ConnectOptions, ConnectionProvider, NoMemory};
use order_carrier::{Carrier, InFlight};
use recursor_types::{MessageKind, RecursorError, RecursorOptions};
use server_core::PoolContext;
use std::alloc::Global;
use std::marker::Model;
use std::net::IpAddr;

/// A recursor over a provider. Contracts see the provider, the policy, with the least patience of its runs, and
/// the greatest moment handed in so far. What it keeps, its cache of responses too, is derived from the provider's log.
pub struct Recursor<P: ConnectionProvider> {
    pub(crate) run: Run<P>,
}

impl<P: ConnectionProvider> Drop for Recursor<P> {
    fn drop(self) {
        let Recursor { run: _ } = self;
    }
}

impl<P: ConnectionProvider> Model for Recursor<P> {
    ghost Value = { RecursorState P };

    ghost view = { λ a. record { provider = a.run.runner.carrier.provider; policy = a.run.core.policy; moment = a.run.core.moment } };

    ghost invariant = { λ a. Rests P.ConnectionProvider a.run.core a.run.runner };
}

/// Why a recursor of these roots and options is refused, if it is.
fn refusal(roots: &[IpAddr], options: &RecursorOptions) -> Option<MessageKind>
    ensures no_roots { (result ≡ Some MessageKind.NoRoots) ↔ (roots.now ≡ []) }
    ensures reversed { (result ≡ Some MessageKind.ReversedTtl) ↔ ((roots.now ≢ []) × IsTrue (has_reversed options.now.cache_policy)) }
    ensures first_delays { (result ≡ Some MessageKind.FirstDelays) ↔ ((roots.now ≢ []) × (has_reversed options.now.cache_policy ≡ false) × IsTrue (has_bad_first_delays options.now.first_delays)) }
    ensures only { IfSome result IsSetupKind }
{
    if roots.is_empty() {
        Some(MessageKind::NoRoots)
    } else if options.cache_policy.is_reversed() {
        Some(MessageKind::ReversedTtl)
    } else if options.has_bad_first_delays() {
        Some(MessageKind::FirstDelays)
    } else {
        None
    }
}

impl<P: ConnectionProvider> Recursor<P> {
    /// A recursor that begins at these roots, over a provider whose log is empty. The filter of the
    /// options is for other servers: no root is left out for it. It is refused where there is no root,
    /// else where a minimum TTL is above its maximum, else where a first delay is missing or outside
    /// 1 to 31.
    pub fn with_options(
        alloc: Global,
        roots: &[IpAddr],
        options: RecursorOptions,
        provider: P,
    ) -> Result<Recursor<P>, RecursorError>
        requires { (es : List LogEntry) → P.log provider ≡ Some es → es ≡ [] }
        ensures ok { IfOk result (λ recursor. recursor ≡ record { provider = provider; policy = policy_of roots.now options; moment = 0 }) }
        ensures no_roots { (result ≡ Err (RecursorError.Message MessageKind.NoRoots)) ↔ (roots.now ≡ []) }
        ensures reversed { (result ≡ Err (RecursorError.Message MessageKind.ReversedTtl)) ↔ ((roots.now ≢ []) × IsTrue (has_reversed options.cache_policy)) }
        ensures first_delays { (result ≡ Err (RecursorError.Message MessageKind.FirstDelays)) ↔ ((roots.now ≢ []) × (has_reversed options.cache_policy ≡ false) × IsTrue (has_bad_first_delays options.first_delays)) }
        ensures only { IfErr result IsSetupError }
    {
        match refusal(roots, &options) {
            Some(kind) => Err(RecursorError::Message(kind)),
            None => match Recursor::at_rest(alloc, roots, options, provider) {
                Ok(recursor) => Ok(recursor),
                Err(_) => Err(RecursorError::NoMemory),
            },
        }
    }

    /// One that is refused for nothing.
    fn at_rest(
        alloc: Global,
        roots: &[IpAddr],
        options: RecursorOptions,
        provider: P,
    ) -> Result<Recursor<P>, NoMemory>
        requires empty { (es : List LogEntry) → P.log provider ≡ Some es → es ≡ [] }
        requires some { roots.now ≢ [] }
        requires ordered { has_reversed options.cache_policy ≡ false }
        ensures { IfOk result (λ recursor. recursor ≡ first_state provider roots.now options) }
    {
        let core = RecursorCore::new(alloc, roots, options)?;
        let connect = core.connect_options(alloc)?;
        let run = Run {
            core,
            runner: InFlight::new(alloc, Carrier::new(alloc, provider, connect)),
            plays: Vec::new(alloc),
            patience: 0,
        };
        Ok(Recursor { run })
    }

    /// The provider.
    pub fn provider(&self) -> &P
        ensures { result.now ≡ self.now.provider }
    {
        self.run.runner.provider()
    }

    /// What its pools of servers are set to: how servers are asked, one at a time and without the wish
    /// that they recurse, and which addresses answers may have.
    pub fn pool_context(&self) -> &PoolContext
        ensures { result.now ≡ context_of self.now.policy }
    {
        self.run.core.pool_context()
    }

    /// What each connection is opened with, as the options of its pools say. It fails where memory runs out
    /// alone.
    pub fn connect_options(&self, alloc: Global) -> Result<ConnectOptions, NoMemory>
        ensures { IfOk result (λ connect. connect ≡ connect_of self.now.policy.resolver) }
    {
        self.run.core.connect_options(alloc)
    }

    /// The greatest moment handed in so far, 0 at first, in microseconds.
    pub fn moment(&self) -> u64
        ensures { result ≡ self.now.moment }
    {
        self.run.core.moment()
    }

    /// Gives the provider back.
    pub fn into_provider(self) -> P
        ensures { result ≡ self.provider }
    {
        let Recursor { run } = self;
        let Run {
            core: _,
            runner,
            plays: _,
            patience: _,
        } = run;
        runner.into_provider()
    }
}
