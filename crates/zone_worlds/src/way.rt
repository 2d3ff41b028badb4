//! Ways of aliases.
ghost use Rattle.std.specs.Prelude.{◌≡◌, [], ◌∷◌, ◌++◌, IfOk, OnOk};

use dns_core::{Name, NoMemory, Record, TryClone};
use std::alloc::Global;
use std::mem;

/// Aliases, the names on their way, and the last of these. Several names and records are let go as one
/// value where a call fails: a body that lets them go one by one is dear to prove.
#[derive(Drop)]
pub(crate) struct Way {
    pub aliases: Vec<Record>,
    pub names: Vec<Name>,
    pub last: Name,
}

impl Way {
    /// No alias yet, from a name on. The last name is not among the names until the end.
    pub fn begin(alloc: Global, name: &Name) -> Result<Way, NoMemory>
        ensures aliases { IfOk result (λ way. way.aliases.items ≡ []) }
        ensures names { IfOk result (λ way. way.names.items ≡ []) }
        ensures last { IfOk result (λ way. way.last ≡ name.now) }
    {
        let last = name.try_clone(alloc)?;
        Ok(Way {
            aliases: Vec::new(alloc),
            names: Vec::new(alloc),
            last,
        })
    }

    /// Goes on by an alias.
    pub fn follow(&mut self, alloc: Global, record: &Record, target: &Name) -> Result<(), NoMemory>
        ensures aliases { OnOk result (self.new.aliases.items ≡ self.old.aliases.items ++ record.now ∷ []) }
        ensures names { OnOk result (self.new.names.items ≡ self.old.names.items ++ self.old.last ∷ []) }
        ensures last { OnOk result (self.new.last ≡ target.now) }
    {
        let target = target.try_clone(alloc)?;
        self.aliases.push(record.try_clone(alloc)?)?;
        self.names.push(mem::replace(&mut self.last, target))?;
        Ok(())
    }

    /// Ends at the last name.
    pub fn end(&mut self, alloc: Global) -> Result<(), NoMemory>
        ensures aliases { OnOk result (self.new.aliases.items ≡ self.old.aliases.items) }
        ensures names { OnOk result (self.new.names.items ≡ self.old.names.items ++ self.old.last ∷ []) }
        ensures last { OnOk result (self.new.last ≡ self.old.last) }
    {
        let last = self.last.try_clone(alloc)?;
        self.names.push(last)?;
        Ok(())
    }
}
