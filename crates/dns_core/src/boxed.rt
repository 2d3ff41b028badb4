//! Values in memory of their own, which contracts see as the values.
ghost use Rattle.std.specs.Prelude.{◌≡◌, IfOk};

use crate::errors::NoMemory;
use std::alloc::Global;
use std::marker::Model;

/// A value in a box. Where memory runs out the value is let go.
pub fn in_box<T: Drop>(alloc: Global, value: T) -> Result<Box<T>, NoMemory>
    ensures { IfOk result (λ b. b.value ≡ value) }
{
    match Box::new(alloc, value) {
        Ok(b) => Ok(b),
        Err(failed) => {
            drop(failed);
            Err(NoMemory)
        }
    }
}

/// A value in memory of its own: however large it is, it moves as one pointer.
#[derive(Drop, Debug)]
pub struct Boxed<T> {
    at: Box<T>,
}

impl<T> Model for Boxed<T> {
    ghost Value = { T };

    ghost view = { λ b. b.at.value };
}

impl<T> Boxed<T> {
    pub fn get(&self) -> &T
        ensures { result.now ≡ self.now }
    {
        self.at.as_ref()
    }

    pub fn into_inner(self) -> T
        ensures { result ≡ self }
    {
        Box::into_inner(self.at)
    }
}

impl<T> Boxed<T> {
    ghost use Rattle.std.specs.Prelude.{◌≡◌};
    ghost use Rattle.std.specs.Borrow.{Lends, sem};
    ghost use Rattle.dns_core.specs.contracts.boxed.Boxed.{the_row};

    pub fn get_mut(&mut self) -> &mut T
        ensures* lends { sem 𝓛 (Lends (the_row T.row) T.row self.entry result (λ w. w)) }
        ensures value { result.now ≡ self.old }
    {
        self.at.as_mut()
    }
}

impl<T: Drop> Boxed<T> {
    ghost use Rattle.std.specs.Prelude.{◌≡◌, IfOk};

    pub fn new(alloc: Global, value: T) -> Result<Self, NoMemory>
        ensures { IfOk result (λ boxed. boxed ≡ value) }
    {
        let at = in_box(alloc, value)?;
        Ok(Boxed { at })
    }
}

impl<T: PartialEq> PartialEq for Boxed<T> {
    ghost eq = { T.eq };

    ghost laws = { T.laws };

    fn eq(&self, other: &Self) -> bool {
        self.get() == other.get()
    }
}

impl<T: Eq> Eq for Boxed<T> {
    ghost laws = { T.Eq.laws };
}
