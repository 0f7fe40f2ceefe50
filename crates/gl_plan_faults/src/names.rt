//! Tables of names.

ghost use Rattle.std.specs.Prelude.{◌≡◌, ◌<◌, ◌^◌, ℕ, List, [], ◌∷◌, ◌++◌, length, IfOk, IfSome};
ghost use Rattle.spec_plans.specs.Making.{number};
ghost use Rattle.spec_plans.specs.Names.{number_of};
ghost use Rattle.gl_plan_faults.specs.Table.{HasNumbers};

use gl_lines::Named;
use gl_value::Name;
use std::alloc::{AllocError, Global};
use std::collections::BTreeMap;
use std::marker::Model;

/// Names by number, and the first number of each name. A name is found in logarithmic time.
#[derive(Drop)]
pub struct NameTable {
    names: Vec<Name>,
    numbers: BTreeMap<Name, u32>,
}

impl Model for NameTable {
    ghost use Rattle.std.specs.Prelude.{ℕ, List};
    ghost use Rattle.gl_plan_faults.specs.Table.{HasNumbers};

    ghost Value = { List (List ℕ) };

    ghost view = { λ table. table.names.items };

    ghost invariant = { λ table. HasNumbers table.numbers table.names.items };
}

impl NameTable {
    /// No names, which takes no memory.
    pub fn new(alloc: Global) -> NameTable
        ensures { result ≡ [] }
    {
        NameTable {
            names: Vec::new(alloc),
            numbers: BTreeMap::new(alloc),
        }
    }

    /// The number of a name, if it is there.
    pub fn number(&self, name: &Name) -> Option<u32>
        ensures value { result ≡ number_of self.now name.now }
        ensures within { IfSome result (λ number. number < length self.now) }
    {
        self.numbers.get(name).copied()
    }

    /// The number that a name stands for, where it stands for one.
    pub fn number_of(&self, named: &Named) -> u32
        ensures { result ≡ number self.now named.now }
    {
        self.number(&named.name).unwrap_or(0)
    }

    /// The names with a name more. They are given up where memory runs out.
    pub fn with(self, name: &Name) -> Result<NameTable, AllocError>
        requires { length self < 2 ^ 32 }
        ensures { IfOk result (λ table. table ≡ self ++ name.now ∷ []) }
    {
        let NameTable { mut names, numbers } = self;
        let numbers = with_number(numbers, name, names.len() as u32)?;
        names.push(name.copy()?)?;
        Ok(NameTable { names, numbers })
    }

    /// The names, by number.
    pub fn as_slice(&self) -> &[Name]
        ensures { result.now ≡ self.now }
    {
        self.names.as_slice()
    }
}

// The first numbers of names with a name more.
#[tactic(auto, using(crate::proofs::Numbers::still_there, crate::proofs::Numbers::put_there))]
fn with_number(
    mut numbers: BTreeMap<Name, u32>,
    name: &Name,
    number: u32,
) -> Result<BTreeMap<Name, u32>, AllocError>
    ensures { IfOk result
        (λ more. (names : List (List ℕ)) → length names ≡ number → HasNumbers numbers names
        → HasNumbers more (names ++ name.now ∷ [])) }
{
    if numbers.contains_key(name) {
        return Ok(numbers);
    }
    numbers.insert(name.copy()?, number)?;
    Ok(numbers)
}
