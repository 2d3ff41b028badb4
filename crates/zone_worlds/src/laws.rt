//! Laws of the definitions.
ghost use Rattle.std.specs.Prelude.{◌≡◌, Option};
ghost use Rattle.std.specs.declared.net.IpAddr.{IpAddr};
ghost use Rattle.dns_core.specs.declared.message.Query.{Query};
ghost use Rattle.dns_core.specs.declared.message.Message.{Message};
ghost use Rattle.zone_worlds.specs.Telling.{Tells};
ghost use Rattle.zone_worlds.specs.Answer.{Answers};
ghost use Rattle.zone_rules.specs.declared.world.World.{World};
ghost use Rattle.zone_rules.specs.declared.world.WorldAnswer.{WorldAnswer};

/// Law: an address tells one message for a question.
pub fn an_address_tells_one_message()
    ensures { (world : World) (ip : IpAddr) (query : Query) (told other : Message) → Tells world ip query told → Tells world ip query other → told ≡ other }
{}

/// Law: a world has one answer to a question.
pub fn a_world_answers_once()
    ensures { (world : World) (query : Query) (answer other : Option WorldAnswer) → Answers world query answer → Answers world query other → answer ≡ other }
{}
