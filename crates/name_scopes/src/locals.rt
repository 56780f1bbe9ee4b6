//! The names in reach inside a function, and its variables.
ghost use Rattle.std.specs.Prelude.{◌≡◌, OnOk};
ghost use Rattle.std.specs.List.{list_any};
ghost use Rattle.name_scopes.specs.Locals as spec;
ghost use Rattle.name_scopes.specs.Table.{IsTable};

use crate::scope::{Meaning, Scope};
use raw_tree::{Qualifier, RawName};
use sqlite_items::Items;
use std::alloc::{AllocError, Global};
use xmt_base::Place;

/// The names in reach, and where each variable of the function is declared, in order.
#[derive(Drop)]
pub struct Locals {
    pub scope: Scope,
    pub variables: Items<Place>,
}

impl Locals {
    /// Declares one more variable.
    pub fn declare(
        &mut self,
        alloc: Global,
        constant: bool,
        name: &RawName,
    ) -> Result<(), AllocError>
        requires { IsTable self.old.scope }
        ensures table { OnOk result (IsTable self.new.scope) }
        ensures env { OnOk result (spec.env self.new ≡ spec.declare_local constant name.now (spec.env self.old)) }
    {
        let meaning = Meaning::Local {
            slot: self.variables.len(),
            constant,
        };
        self.scope.declare(alloc, name.bytes.as_slice(), meaning)?;
        self.variables.push(name.at)?;
        Ok(())
    }

    /// Leaves a scope that began after `count` declarations.
    pub fn leave(&mut self, alloc: Global, count: usize) -> Result<(), AllocError>
        requires { IsTable self.old.scope }
        ensures table { OnOk result (IsTable self.new.scope) }
        ensures env { OnOk result (spec.env self.new ≡ spec.left count (spec.env self.old)) }
    {
        self.scope.leave(alloc, count)?;
        Ok(())
    }
}

fn is_const(word: Qualifier) -> bool
    ensures { result ≡ spec.is_const word }
{
    match word {
        Qualifier::Const => true,
        Qualifier::Volatile => false,
    }
}

/// The type has the word `const`.
pub fn is_constant(words: &[Qualifier]) -> bool
    ensures { result ≡ spec.is_constant words.now }
{
    words.iter().any(|word| is_const(*word))
}
