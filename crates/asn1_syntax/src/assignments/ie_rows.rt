//! The rows of a set of information elements that were read so far.

ghost use Rattle.std.specs.Prelude.{◌≡◌, [], ◌∷◌, ◌++◌, OnOk, IfOk};
ghost use Rattle.asn1_syntax.specs.assignments.inside.Rows.{has_id};

use crate::assignments::assignment::IeRow;
use crate::types::Items;
use gnb_types::octets::Memory;
use std::alloc::Global;
use std::collections::BTreeSet;
use std::marker::Model;
use std::mem;

/// The rows so far, with an index of their ids, so that none is searched for row by row. Contracts see the rows.
#[derive(Drop)]
pub struct IeRows {
    rows: Items<IeRow>,
    ids: BTreeSet<u32>,
}

impl Model for IeRows {
    ghost use Rattle.std.specs.Prelude.{◌≡◌, ℕ, List};
    ghost use Rattle.std.specs.Ordering.{nat_cmp};
    ghost use Rattle.std.specs.BTreeSet.{contains};
    ghost use Rattle.asn1_syntax.specs.declared.assignments.assignment.IeRow.{IeRow};
    ghost use Rattle.asn1_syntax.specs.assignments.inside.Rows.{has_id};

    ghost Value = { List IeRow };

    ghost view = { λ r. r.rows };

    ghost invariant = { λ r. (id : ℕ) → contains nat_cmp r.ids id ≡ has_id id r.rows };
}

impl IeRows {
    /// No rows.
    pub fn new(alloc: Global) -> IeRows
        ensures { result ≡ [] }
    {
        IeRows {
            rows: Items::new(alloc),
            ids: BTreeSet::new(alloc),
        }
    }

    /// One of the rows has this id.
    pub fn has_id(&self, id: u32) -> bool
        ensures { result ≡ has_id id self.now }
    {
        self.ids.contains(&id)
    }

    /// With one more row.
    fn with(self, row: IeRow) -> Result<IeRows, Memory>
        ensures { IfOk result (λ new. new ≡ self ++ row ∷ []) }
    {
        let IeRows { mut rows, mut ids } = self;
        ids.insert(u32::from(row.id))?;
        rows.push(row)?;
        Ok(IeRows { rows, ids })
    }

    /// One more row. After an error the state is free.
    pub fn push(&mut self, alloc: Global, row: IeRow) -> Result<(), Memory>
        ensures { OnOk result (self.new ≡ self.old ++ row ∷ []) }
    {
        let rows = mem::replace(self, IeRows::new(alloc));
        *self = rows.with(row)?;
        Ok(())
    }

    /// The rows.
    pub fn into_items(self) -> Items<IeRow>
        ensures { result ≡ self }
    {
        self.rows
    }
}
