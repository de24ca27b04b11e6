//! The assignments that were read so far.

ghost use Rattle.std.specs.Prelude.{◌≡◌, [], ◌∷◌, ◌++◌, OnOk, IfOk};
ghost use Rattle.asn1_syntax.specs.assignments.inside.Module.{has_all_types, is_assigned};

use crate::assignments::assignment::Assignment;
use crate::assignments::index::NameIndex;
use crate::types::Items;
use gnb_types::octets::Memory;
use std::alloc::Global;
use std::marker::Model;
use std::mem;

/// As many types as a module may have.
const TYPES: usize = 1000;

/// The assignments so far, with an index of their names and how many types more there may be, so that none is searched for or
/// counted again. Contracts see the assignments.
#[derive(Drop)]
pub struct Assigned {
    assignments: Items<Assignment>,
    index: NameIndex,
    types_left: usize,
}

impl Model for Assigned {
    ghost use Rattle.std.specs.Prelude.{◌≡◌, ◌-◌, List, count_by};
    ghost use Rattle.asn1_syntax.specs.declared.assignments.assignment.Assignment.{Assignment};
    ghost use Rattle.asn1_syntax.specs.assignments.Index.{Indexes};
    ghost use Rattle.asn1_syntax.specs.assignments.Module.{is_type};

    ghost Value = { List Assignment };

    ghost view = { λ a. a.assignments };

    ghost invariant = { λ a. Indexes a.index a.assignments × (a.types_left ≡ 1000 - count_by is_type a.assignments) };
}

impl Assigned {
    /// No assignments.
    pub fn new(alloc: Global) -> Assigned
        ensures { result ≡ [] }
    {
        Assigned {
            assignments: Items::new(alloc),
            index: NameIndex::new(alloc),
            types_left: TYPES,
        }
    }

    /// There are as many types as a module may have.
    pub fn has_all_types(&self) -> bool
        ensures { result ≡ has_all_types self.now }
    {
        self.types_left == 0
    }

    /// The name is that of one of these.
    pub fn is_assigned(&self, name: &[u8]) -> bool
        ensures { result ≡ is_assigned name.now self.now }
    {
        self.index.number_of(name).is_some()
    }

    /// With one more assignment.
    fn with(self, alloc: Global, assignment: Assignment) -> Result<Assigned, Memory>
        ensures { IfOk result (λ new. new ≡ self ++ assignment ∷ []) }
    {
        let Assigned {
            mut assignments,
            mut index,
            mut types_left,
        } = self;
        if assignment.is_type() {
            types_left = types_left.saturating_sub(1);
        }
        index.note(alloc, assignment.name.as_slice(), assignments.len())?;
        assignments.push(assignment)?;
        Ok(Assigned {
            assignments,
            index,
            types_left,
        })
    }

    /// One more assignment. After an error the state is free.
    pub fn push(&mut self, alloc: Global, assignment: Assignment) -> Result<(), Memory>
        ensures { OnOk result (self.new ≡ self.old ++ assignment ∷ []) }
    {
        let assigned = mem::replace(self, Assigned::new(alloc));
        *self = assigned.with(alloc, assignment)?;
        Ok(())
    }

    /// The assignments.
    pub fn into_items(self) -> Items<Assignment>
        ensures { result ≡ self }
    {
        self.assignments
    }
}
