//! What a resolver works with: a domain, a search list and servers.
ghost use Rattle.std.specs.Prelude.{◌≡◌, ◌++◌, ◌∷◌, [], Some, OnOk, OnErr};
ghost use Rattle.std.specs.Option.{option_copied};
ghost use Rattle.resolver_settings.specs.Config.{same_parts, same_parts_per, same_parts_equiv};

use crate::name_server::NameServerConfig;
use dns_core::{Name, Names, NoMemory, TryClone, try_clone_all};
use std::alloc::Global;
use std::marker::Model;

/// The domain of the host, the domains in which a name is looked for (RFC 1123 section 6.1.4.3), and
/// the servers that are asked, each in their order.
#[derive(Debug)]
pub struct ResolverConfig {
    domain: Option<Name>,
    search: Names,
    name_servers: Vec<NameServerConfig>,
}

impl Drop for ResolverConfig {
    fn drop(self) {
        let ResolverConfig {
            domain: _,
            search: _,
            name_servers: _,
        } = self;
    }
}

impl Model for ResolverConfig {
    ghost use Rattle.resolver_settings.specs.Config.{ResolverParts};

    ghost Value = { ResolverParts };

    ghost view = { λ a. record { domain = a.domain; search = a.search; name_servers = a.name_servers.items } };
}

impl ResolverConfig {
    pub fn from_parts(domain: Option<Name>, search: Names, servers: Vec<NameServerConfig>) -> Self
        ensures { result ≡ record { domain = domain; search = search; name_servers = servers.items } }
    {
        ResolverConfig {
            domain,
            search,
            name_servers: servers,
        }
    }

    /// The domain of the host.
    pub fn domain(&self) -> Option<&Name>
        ensures { option_copied result ≡ self.now.domain }
    {
        self.domain.as_ref()
    }

    /// The domains in which a name is looked for.
    pub fn search(&self) -> &[Name]
        ensures { result.now ≡ self.now.search }
    {
        self.search.items()
    }

    /// The servers that are asked.
    pub fn name_servers(&self) -> &[NameServerConfig]
        ensures { result.now ≡ self.now.name_servers }
    {
        self.name_servers.as_slice()
    }

    /// Adds a domain at the end of those in which a name is looked for.
    pub fn add_search(&mut self, _alloc: Global, name: Name) -> Result<(), NoMemory>
        ensures ok { OnOk result (self.new ≡ record self.old { search = self.old.search ++ name ∷ [] }) }
        ensures err { OnErr result (self.new ≡ self.old) }
    {
        self.search.push(name)
    }

    /// Puts a domain in place of the one of the host.
    pub fn set_domain(&mut self, name: Name)
        ensures { self.new ≡ record self.old { domain = Some name } }
    {
        self.domain = Some(name);
    }
}

impl PartialEq for ResolverConfig {
    ghost eq = { same_parts };

    ghost laws = { same_parts_per };

    fn eq(&self, other: &Self) -> bool {
        self.domain == other.domain
            && self.search == other.search
            && self.name_servers == other.name_servers
    }
}

impl Eq for ResolverConfig {
    ghost laws = { same_parts_equiv };
}

impl TryClone for ResolverConfig {
    fn try_clone(&self, alloc: Global) -> Result<Self, NoMemory> {
        let domain = self.domain.try_clone(alloc)?;
        let search = self.search.try_clone(alloc)?;
        let name_servers = try_clone_all(alloc, &self.name_servers)?;
        Ok(ResolverConfig {
            domain,
            search,
            name_servers,
        })
    }
}
