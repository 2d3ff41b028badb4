//! What holds of the kept error whatever the errors.
ghost use Rattle.std.specs.Prelude.{◌≡◌, ℕ, List, true, false, map};
ghost use Rattle.dns_core.specs.declared.net_error.NetError.{NetError};
ghost use Rattle.dns_core.specs.declared.net_error.NoRecords.{NoRecords};
ghost use Rattle.dns_core.specs.declared.net_error.NetError.TheVariants as net;
ghost use Rattle.dns_core.specs.declared.net_error.DnsError.TheVariants as dns;
ghost use Rattle.resolution.specs.KeptError.{most_specific, is_negative_error};
ghost use Rattle.resolution.specs.Lookups.{Answered, Rules, End, class_of_end, none_is_final, what_is_left};
ghost use Rattle.resolution.specs.declared.class.Class.{Class};
ghost use Rattle.pool_rules.specs.KeptError.{kept_over};

/// Of two errors that tell that there are no such records the earlier is kept, and such an error is
/// kept beside each other one.
pub fn the_earlier_negative_is_kept()
    ensures earlier { (n m : NoRecords) → most_specific (net.Dns (dns.NoRecordsFound n)) (net.Dns (dns.NoRecordsFound m)) ≡ net.Dns (dns.NoRecordsFound n) }
    ensures beside { (n : NoRecords) (e : NetError) → is_negative_error e ≡ false → most_specific e (net.Dns (dns.NoRecordsFound n)) ≡ net.Dns (dns.NoRecordsFound n) }
{}

/// The error that is kept over all the ends of a lookup is the one that it answers where none of them
/// decides it.
pub fn the_kept_error_is_what_is_left()
    ensures { (rules : Rules ℕ) (class : Answered → Class) (ends : List (End ℕ)) → none_is_final rules class ends ≡ true
        → kept_over (map (class_of_end rules class) ends) ≡ what_is_left rules class ends }
{}
