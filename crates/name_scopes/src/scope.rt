//! What names stand for: the declarations in reach, with the last one of each name at hand.
ghost use Rattle.std.specs.Prelude.{◌≡◌, [], take, OnOk, IfOk};
ghost use Rattle.name_scopes.specs.Scope as spec;
ghost use Rattle.name_scopes.specs.Table.{IsTable};

use indexmap::IndexMap;
use sqlite_items::Items;
use std::alloc::{AllocError, Global};

/// What a name stands for. Each kind of thing is numbered by itself, from 0, in order of
/// declaration; the variables of a function are numbered with its parameters first.
#[derive(Clone, Copy, Debug, PartialEq, Eq)]
pub enum Meaning {
    Scalar {
        number: usize,
        constant: bool,
    },
    Array {
        number: usize,
        constant: bool,
    },
    Register {
        number: usize,
    },
    /// A function, whether its calls have a value, and how many parameters it has.
    Function {
        number: usize,
        value: bool,
        params: usize,
    },
    Local {
        slot: usize,
        constant: bool,
    },
}

/// What a name stands for, and the place of its declaration among those in reach.
#[derive(Clone, Copy, Debug, PartialEq, Eq)]
pub struct Binding {
    pub place: usize,
    pub meaning: Meaning,
}

/// A declaration in reach, and what it hides.
#[derive(Drop)]
pub struct Declared {
    pub name: Items<u8>,
    pub binding: Binding,
    pub hidden: Option<Binding>,
}

/// The declarations in reach, in order.
#[derive(Drop)]
pub struct Scope {
    pub by_name: IndexMap<Vec<u8>, Option<Binding>>,
    pub declared: Items<Declared>,
}

/// Nothing is declared.
pub fn no_names(alloc: Global) -> Scope
    ensures table { IsTable result }
    ensures declared { result.declared ≡ [] }
{
    Scope {
        by_name: IndexMap::new(alloc),
        declared: Items::new(alloc),
    }
}

impl Scope {
    /// What the name stands for.
    pub fn look(&self, name: &[u8]) -> Option<Binding>
        requires { IsTable self.now }
        ensures { result ≡ spec.look self.now.declared name.now }
    {
        match self.by_name.get(name) {
            Some(found) => *found,
            None => None,
        }
    }

    /// Declares the name, which hides an earlier declaration of it.
    pub fn declare(
        &mut self,
        alloc: Global,
        name: &[u8],
        meaning: Meaning,
    ) -> Result<(), AllocError>
        requires { IsTable self.old }
        ensures table { OnOk result (IsTable self.new) }
        ensures declared { OnOk result (self.new.declared ≡ spec.declare name.now meaning self.old.declared) }
    {
        let binding = Binding {
            place: self.declared.len(),
            meaning,
        };
        let hidden = self.look(name);
        self.declared.push(Declared {
            name: Items::from_slice(alloc, name)?,
            binding,
            hidden,
        })?;
        self.by_name
            .insert(Vec::from_slice(alloc, name)?, Some(binding))?;
        Ok(())
    }

    /// Forgets the declarations behind the first `count`.
    pub fn leave(&mut self, alloc: Global, count: usize) -> Result<(), AllocError>
        requires { IsTable self.old }
        ensures table { OnOk result (IsTable self.new) }
        ensures declared { OnOk result (self.new.declared ≡ take count self.old.declared) }
    {
        while self.declared.len() > count {
            let Some(last) = self.declared.pop() else {
                break;
            };
            self.by_name
                .insert(Vec::from_slice(alloc, last.name.as_slice())?, last.hidden)?;
        }
        Ok(())
    }
}
