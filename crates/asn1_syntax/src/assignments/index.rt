//! Assignments by their names.

ghost use Rattle.std.specs.Prelude.{◌≡◌, ℕ, List, None, OnOk, IfOk};
ghost use Rattle.asn1_syntax.specs.assignments.Index.{numbered, Indexes};
ghost use Rattle.asn1_syntax.specs.assignments.inside.Index.{noted};

use crate::assignments::assignment::Assignment;
use gnb_types::octets::Memory;
use std::alloc::Global;
use std::collections::BTreeMap;

/// The numbers of a module's assignments by their names, in the order of the names.
#[derive(Drop)]
pub struct NameIndex {
    numbers: BTreeMap<Vec<u8>, usize>,
}

impl NameIndex {
    /// No names.
    pub fn new(alloc: Global) -> NameIndex
        ensures { (name : List ℕ) → numbered result name ≡ None }
    {
        NameIndex {
            numbers: BTreeMap::new(alloc),
        }
    }

    /// The number of a name.
    pub fn number_of(&self, name: &[u8]) -> Option<usize>
        ensures { result ≡ numbered self.now name.now }
    {
        self.numbers.get(name).copied()
    }

    /// Notes a name with this number, unless it has one. After an error the state is free.
    pub fn note(&mut self, alloc: Global, name: &[u8], number: usize) -> Result<(), Memory>
        ensures { OnOk result ((other : List ℕ) → numbered self.new other ≡ noted name.now number other (numbered self.old other)) }
    {
        if self.numbers.contains_key(name) {
            return Ok(());
        }
        let name = Vec::from_slice(alloc, name)?;
        self.numbers.insert(name, number)?;
        Ok(())
    }
}

/// An index of these assignments.
pub fn index_of(alloc: Global, assignments: &[Assignment]) -> Result<NameIndex, Memory>
    ensures { IfOk result (λ index. Indexes index assignments.now) }
{
    let mut index = NameIndex::new(alloc);
    for (number, assignment) in assignments.iter().enumerate() {
        index.note(alloc, assignment.name.as_slice(), number)?;
    }
    Ok(index)
}
