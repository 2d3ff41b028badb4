//! Addresses that serve nothing, worked.
ghost use Rattle.std.specs.Prelude.{ℕ};
ghost use Rattle.dns_core.specs.Name.{DomainName};
ghost use Rattle.resolution.specs.Serving.{Serves};
ghost use Rattle.resolution.specs.BaseScript as script;

/// By the log of the base script, 66.6.6.6 serves no zone: no delegation lists it.
pub fn a_stranger_serves_nothing()
    ensures { (n : ℕ) (z : DomainName) → Serves script.policy script.log n script.stranger z → ⊥ }
{}

/// Nor does it where a server of com. gives it as the address of a name outside com.
pub fn stray_glue_serves_nothing()
    ensures { (n : ℕ) (z : DomainName) → Serves script.policy script.stray_glue_log n script.stranger z → ⊥ }
{}
