//! The responses of an alias chain, each put behind those before it, are what the chain is answered with:
//! all its questions ask for one type.
ghost use Rattle.std.specs.Prelude.{◌≡◌, ◌++◌, ◌∷◌, [], Bool, List};
ghost use Rattle.dns_core.specs.declared.message.Query.{Query};
ghost use Rattle.dns_core.specs.declared.message.Message.{Message};
ghost use Rattle.resolution.specs.Answering.{joined};
ghost use Rattle.resolution.specs.Links.{Link, merged};
ghost use Rattle.alias_rules.specs.Chains.{AllAskFor, joined_so_far};

/// To append what two further responses are joined to is to append the one and then the other. Of a chain
/// it is enough to keep the responses so far, joined.
pub fn responses_join_forwards()
    ensures twice { (first second third : Message) (query other : Query) → other.query_type ≡ query.query_type →
        joined first query (joined second other third) ≡ joined (joined first query second) query third }
    ensures chain { (dnssec : Bool) (links : List Link) (l : Link) (reply : Message) → AllAskFor l.query.query_type links →
        merged dnssec (links ++ l ∷ []) reply ≡ joined (joined_so_far dnssec links l) l.query reply }
{}
