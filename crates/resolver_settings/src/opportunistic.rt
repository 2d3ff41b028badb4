//! Encryption of queries to servers that were not known to speak it (RFC 9539).
ghost use Rattle.std.specs.Prelude.{◌≡◌, is_some};
ghost use Rattle.std.specs.Option.{option_map};
ghost use Rattle.resolver_settings.specs.Opportunistic.{config_of, standard};

/// Whether servers are tried with encryption that no one said they speak.
#[derive(Clone, Copy, Debug, PartialEq, Eq)]
pub enum OpportunisticEncryption {
    Disabled,
    Enabled {
        config: OpportunisticEncryptionConfig,
    },
}

impl Default for OpportunisticEncryption {
    ghost use Rattle.std.specs.Prelude.{◌≡◌};
    ghost use Rattle.resolver_settings.specs.declared.opportunistic.OpportunisticEncryption.TheVariants.{Disabled};

    ghost is_default = { λ e. e ≡ Disabled };

    /// No server is tried with encryption.
    fn default() -> Self {
        OpportunisticEncryption::Disabled
    }
}

impl OpportunisticEncryption {
    pub fn is_enabled(&self) -> bool
        ensures { result ≡ is_some (config_of self.now) }
    {
        match self {
            OpportunisticEncryption::Disabled => false,
            OpportunisticEncryption::Enabled { .. } => true,
        }
    }

    /// How many servers are probed at a time, where any is.
    pub fn max_concurrent_probes(&self) -> Option<u8>
        ensures { result ≡ option_map (λ config. config.max_concurrent_probes) (config_of self.now) }
    {
        match self {
            OpportunisticEncryption::Disabled => None,
            OpportunisticEncryption::Enabled { config } => Some(config.max_concurrent_probes),
        }
    }
}

/// For how long what a probe showed is remembered (RFC 9539 section 4.3).
#[derive(Clone, Copy, Debug, PartialEq, Eq)]
pub struct OpportunisticEncryptionConfig {
    /// For how long a server counts as one that speaks encryption, in microseconds.
    pub persistence_period: u64,

    /// For how long a server is not probed after it did not speak it, in microseconds.
    pub damping_period: u64,

    /// How many servers are probed at a time.
    pub max_concurrent_probes: u8,
}

impl Default for OpportunisticEncryptionConfig {
    ghost use Rattle.std.specs.Prelude.{◌≡◌};
    ghost use Rattle.resolver_settings.specs.Opportunistic.{standard};

    ghost is_default = { λ c. c ≡ standard };

    fn default() -> Self {
        OpportunisticEncryptionConfig::standard()
    }
}

impl OpportunisticEncryptionConfig {
    /// Three days, one day (RFC 9539 section 4.3), and ten servers.
    pub fn standard() -> Self
        ensures { result ≡ standard }
    {
        OpportunisticEncryptionConfig {
            persistence_period: 259_200_000_000,
            damping_period: 86_400_000_000,
            max_concurrent_probes: 10,
        }
    }
}
