//! Ways of so few names, with so few labels, that no limit is met.
ghost use Rattle.std.specs.Prelude.{◌≡◌, ◌↔◌, ◌+◌, ◌*◌, ◌<◌, ◌≤◌, length, sum_by, take, IsTrue};
ghost use Rattle.zone_rules.specs.Short.{weight, IsShort};

use dns_core::Name;

/// The labels of these names, and their number.
fn weight(names: &[Name]) -> usize
    requires { length names.now ≤ 65 }
    ensures { result ≡ weight names.now }
{
    let mut labels: usize = 0;
    for name in names {
        labels += name.labels().len();
    }
    labels + names.len()
}

/// Whether the names on a way are so few, with so few labels, that no limit is met.
pub fn is_short(names: &[Name], recursion_limit: u8, ns_recursion_limit: u8) -> bool
    ensures { IsTrue result ↔ IsShort names.now recursion_limit ns_recursion_limit }
{
    if names.len() > 65 {
        return false;
    }
    let total = weight(names);
    total <= 200 && total < recursion_limit as usize && total < ns_recursion_limit as usize
}
