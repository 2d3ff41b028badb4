//! Where the lines of a script are.
ghost use Rattle.std.specs.Prelude.{◌≡◌, length, slice_get, option_and_then, [], ◌∷◌, ◌++◌, ◌||◌, true, false, Some, None, OnOk, IfOk, if◌then◌else◌};
ghost use Rattle.std.specs.Option.{option_or};

use crate::script::script::ScriptLine;
use dns_core::{Items, Name, NoMemory, Protocol, Query, RecordType, TryClone};
use std::alloc::Global;
use std::collections::HashMap;
use std::net::IpAddr;

/// Whom a connection reaches.
#[derive(Copy, Clone, Debug, PartialEq, Eq, Hash)]
pub struct Endpoint {
    pub ip: IpAddr,
    pub protocol: Protocol,
}

/// The four values by which a question finds its line. Names are equal without ASCII case.
#[derive(Drop, PartialEq, Eq, Hash)]
pub struct Asking {
    pub ip: IpAddr,
    pub protocol: Protocol,
    pub name: Name,
    pub query_type: RecordType,
}

impl Asking {
    ghost use Rattle.script_upstream.specs.Giving.{asking_of};

    /// The four values of a question that is asked over a connection.
    pub fn of(alloc: Global, endpoint: Endpoint, query: &Query) -> Result<Asking, NoMemory>
        ensures { IfOk result (λ asking. asking ≡ asking_of endpoint query.now) }
    {
        let name = query.name.try_clone(alloc)?;
        Ok(Asking {
            ip: endpoint.ip,
            protocol: endpoint.protocol,
            name,
            query_type: query.query_type,
        })
    }
}

/// The places of the lines of a question, and how many of them are used up.
#[derive(Drop)]
pub struct Turns {
    pub places: Items<usize>,
    pub used: usize,
}

impl Turns {
    ghost use Rattle.script_upstream.specs.Index.{advanced};

    /// The place of the line that is taken next.
    pub fn place(&self) -> Option<usize>
        ensures { result ≡ slice_get self.now.places self.now.used }
    {
        self.places.items().get(self.used).copied()
    }

    /// Uses up a line, but for the last.
    pub fn advance(&mut self)
        ensures { self.new ≡ record self.old { used = advanced (length self.old.places) self.old.used } }
    {
        if self.used < self.places.len().saturating_sub(1) {
            self.used += 1;
        }
    }
}

/// Whether a connection is refused, and the place of the first line that says what it comes to.
#[derive(Clone, Copy)]
pub struct Route {
    pub refused: bool,
    pub place: Option<usize>,
}

/// Where the lines of a script are, by whom and what they are for.
#[derive(Drop)]
pub struct Index {
    pub replies: HashMap<Asking, Turns>,
    pub routes: HashMap<Endpoint, Route>,
}

impl Index {
    ghost use Rattle.script_upstream.specs.Keys.{same_endpoint, same_asking};
    ghost use Rattle.script_upstream.specs.declared.courses.index.Endpoint.{Endpoint};
    ghost use Rattle.script_upstream.specs.declared.courses.index.Asking.{Asking};
    ghost use Rattle.std.specs.HashMap.{get};
    ghost use Rattle.script_upstream.specs.Index.{places_at, used_at, refused_at, place_at, AddsLine, IsIndexed};
    ghost use Rattle.script_upstream.specs.Giving.{replies, refuses, connects};

    pub fn new(alloc: Global) -> Index
        ensures places { (a : Asking) → places_at result a ≡ [] }
        ensures used { (a : Asking) → used_at result a ≡ 0 }
        ensures refused { (p : Endpoint) → refused_at result p ≡ false }
        ensures place { (p : Endpoint) → place_at result p ≡ None }
    {
        Index {
            replies: HashMap::new(alloc),
            routes: HashMap::new(alloc),
        }
    }

    /// Takes out the turns of a question.
    fn turns(&mut self, alloc: Global, asking: &Asking) -> Turns
        ensures places { result.places ≡ places_at self.old asking.now }
        ensures used { result.used ≡ used_at self.old asking.now }
        ensures others { (a : Asking) → same_asking asking.now a ≡ false → get same_asking self.new.replies a ≡ get same_asking self.old.replies a }
        ensures routes { self.new.routes ≡ self.old.routes }
    {
        match self.replies.remove(asking) {
            Some(turns) => turns,
            None => Turns {
                places: Items::empty(alloc),
                used: 0,
            },
        }
    }

    fn add_reply(&mut self, alloc: Global, asking: Asking, place: usize) -> Result<(), NoMemory>
        ensures places { OnOk result ((a : Asking) → places_at self.new a ≡ (if same_asking asking a then places_at self.old a ++ place ∷ [] else places_at self.old a)) }
        ensures used { OnOk result ((a : Asking) → used_at self.new a ≡ used_at self.old a) }
        ensures routes { self.new.routes ≡ self.old.routes }
    {
        let mut turns = self.turns(alloc, &asking);
        turns.places.push(place)?;
        self.replies.insert(asking, turns)?;
        Ok(())
    }

    fn add_refusal(&mut self, endpoint: Endpoint) -> Result<(), NoMemory>
        ensures refused { OnOk result ((p : Endpoint) → refused_at self.new p ≡ (refused_at self.old p || same_endpoint endpoint p)) }
        ensures place { OnOk result ((p : Endpoint) → place_at self.new p ≡ place_at self.old p) }
        ensures replies { self.new.replies ≡ self.old.replies }
    {
        let route = Route {
            refused: true,
            place: self.route(&endpoint).place,
        };
        self.routes.insert(endpoint, route)?;
        Ok(())
    }

    fn add_connection(&mut self, endpoint: Endpoint, place: usize) -> Result<(), NoMemory>
        ensures refused { OnOk result ((p : Endpoint) → refused_at self.new p ≡ refused_at self.old p) }
        ensures place { OnOk result ((p : Endpoint) → place_at self.new p ≡ option_or (place_at self.old p) (if same_endpoint endpoint p then Some place else None)) }
        ensures replies { self.new.replies ≡ self.old.replies }
    {
        let known = self.route(&endpoint);
        let route = Route {
            refused: known.refused,
            place: known.place.or(Some(place)),
        };
        self.routes.insert(endpoint, route)?;
        Ok(())
    }

    fn route(&self, endpoint: &Endpoint) -> Route
        ensures refused { result.refused ≡ refused_at self.now endpoint.now }
        ensures place { result.place ≡ place_at self.now endpoint.now }
    {
        match self.routes.get(endpoint) {
            Some(route) => *route,
            None => Route {
                refused: false,
                place: None,
            },
        }
    }

    fn add(&mut self, alloc: Global, place: usize, line: &ScriptLine) -> Result<(), NoMemory>
        ensures { OnOk result (AddsLine self.old self.new line.now place) }
    {
        match line {
            ScriptLine::Connect { ip, protocol, .. } => self.add_connection(
                Endpoint {
                    ip: *ip,
                    protocol: *protocol,
                },
                place,
            ),
            ScriptLine::Refuse { ip, protocol } => self.add_refusal(Endpoint {
                ip: *ip,
                protocol: *protocol,
            }),
            ScriptLine::Reply {
                ip,
                protocol,
                name,
                query_type,
                ..
            } => {
                let name = name.try_clone(alloc)?;
                let asking = Asking {
                    ip: *ip,
                    protocol: *protocol,
                    name,
                    query_type: *query_type,
                };
                self.add_reply(alloc, asking, place)
            }
        }
    }

    /// The index of these lines, none of them used up.
    pub fn of(alloc: Global, lines: &[ScriptLine]) -> Result<Index, NoMemory>
        ensures indexed { IfOk result (IsIndexed lines.now lines.now) }
        ensures unused { IfOk result (λ index. (a : Asking) → used_at index a ≡ 0) }
    {
        let mut index = Index::new(alloc);
        for (place, line) in lines.iter().enumerate() {
            index.add(alloc, place, line)?;
        }
        Ok(index)
    }

    pub fn is_refused(&self, endpoint: &Endpoint) -> bool
        ensures { result ≡ refused_at self.now endpoint.now }
    {
        self.route(endpoint).refused
    }

    /// The place of the first line that says what a connection comes to.
    pub fn connection_place(&self, endpoint: &Endpoint) -> Option<usize>
        ensures { result ≡ place_at self.now endpoint.now }
    {
        self.route(endpoint).place
    }
}
