//! What the choice of a connection promises whatever the server.
ghost use Rattle.server_core.specs.ChoiceLaws.{ConnectionIsSingle, ConfigIsSingle};

/// No two places are the choice of one policy among the same connections at the same moment, and
/// none is where another says that there is none.
pub fn a_connection_is_chosen_alone()
    ensures { ConnectionIsSingle }
{}

/// The same of the ways to reach a server.
pub fn a_way_is_chosen_alone()
    ensures { ConfigIsSingle }
{}
