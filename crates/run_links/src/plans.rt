//! The plans of terminals: which terminals there are, and which bearers they have.

ghost use Rattle.std.specs.Prelude.{◌≡◌, ◌==◌, ◌<◌, ◌^◌, ◌&&◌, [], not, nat_le, is_some, length, IfSome, OnOk, OnErr, option_copied};
ghost use Rattle.std.specs.List.{list_any};
ghost use Rattle.std.specs.Map.Iter.{ShowsInOrder, ShowsValuesInOrder, deref_pair};
ghost use Rattle.gnb_types.specs.declared.names.UeId.{UeId as UeKey};
ghost use Rattle.gnb_types.specs.declared.plans.Plan.{Plan as PlanOf};
ghost use Rattle.gnb_types.specs.Orders.{ue_cmp};
ghost use Rattle.tables.specs.Tables.{find, put, IsSorted};
ghost use Rattle.run_defs.specs.States.{bearers_in};

use crate::network::Network;
use gnb_types::items::{Items, Memory};
use gnb_types::names::{BearerId, UeId};
use gnb_types::plans::Plan;
use std::alloc::Global;
use std::collections::btree_map::Iter;
use std::marker::Model;
use tables::table::Table;

/// The plans of the terminals that were ever attached, each under its own terminal. Contracts see the list in the order of the terminals.
#[derive(Drop)]
pub struct Plans {
    plans: Table<UeId, Plan>,
}

impl Model for Plans {
    ghost use Rattle.std.specs.Prelude.{List};
    ghost use Rattle.gnb_types.specs.declared.names.UeId.{UeId as UeKey};
    ghost use Rattle.gnb_types.specs.declared.plans.Plan.{Plan as PlanOf};
    ghost use Rattle.run_links.specs.inside.Plans.{AreOwn};

    ghost Value = { List (UeKey × PlanOf) };

    ghost view = { λ p. p.plans };

    ghost invariant = { λ p. AreOwn p.plans };
}

impl Plans {
    /// No terminal was ever attached.
    pub fn new(alloc: Global) -> Plans
        ensures { result ≡ [] }
    {
        Plans {
            plans: Table::new(alloc),
        }
    }

    /// The plan of a terminal.
    pub fn get(&self, ue: UeId) -> Option<&Plan>
        ensures plan { option_copied result ≡ find ue_cmp self.now ue }
        ensures own { IfSome result (λ plan. plan.now.ue ≡ ue) }
    {
        self.plans.get(&ue)
    }

    /// Whether there is a plan of a terminal.
    pub fn has(&self, ue: UeId) -> bool
        ensures { result ≡ is_some (find ue_cmp self.now ue) }
    {
        self.plans.has(&ue)
    }

    /// Puts the plan of a terminal, in the place of its earlier one.
    pub fn put(&mut self, plan: Plan) -> Result<(), Memory>
        ensures ok { OnOk result (self.new ≡ put ue_cmp self.old plan.ue plan) }
        ensures err { OnErr result (self.new ≡ self.old) }
    {
        self.plans.put(plan.ue, plan)?;
        Ok(())
    }

    /// The plans in the order of their terminals.
    pub fn iter(&self) -> Iter<'_, UeId, Plan>
        ensures rest { result ≡ self.now }
        ensures runs { ShowsInOrder (deref_pair {K = UeKey} {X = PlanOf}) }
        ensures values_run { ShowsValuesInOrder (deref_pair {K = UeKey} {X = PlanOf}) }
        ensures ordered { IsSorted ue_cmp self.now }
        ensures fits { length self.now < 2 ^ 63 }
    {
        self.plans.iter()
    }
}

/// Whether a terminal is among these.
fn holds(terminals: &Items<UeId>, ue: UeId) -> bool
    ensures { result ≡ list_any (λ u. u.0 == ue.0) terminals.now }
{
    terminals.as_slice().iter().any(|other| other.0 == ue.0)
}

impl Network {
    /// Whether a terminal was released.
    pub fn is_gone(&self, ue: UeId) -> bool
        ensures { result ≡ list_any (λ u. u.0 == ue.0) self.now.gone }
    {
        holds(&self.gone, ue)
    }

    /// Whether a terminal was ever attached.
    pub fn was_attached(&self, ue: UeId) -> bool
        ensures { result ≡ is_some (find ue_cmp self.now.plans ue) }
    {
        self.plans.has(ue)
    }

    /// Whether a terminal was attached and isn't gone.
    pub fn is_attached(&self, ue: UeId) -> bool
        ensures { result ≡ (is_some (find ue_cmp self.now.plans ue) && not (list_any (λ u. u.0 == ue.0) self.now.gone)) }
    {
        self.was_attached(ue) && !self.is_gone(ue)
    }

    /// Whether an attached terminal has this bearer.
    pub fn has_bearer(&self, ue: UeId, bearer: BearerId) -> bool
        ensures { result ≡ (is_some (find ue_cmp self.now.plans ue) && not (list_any (λ u. u.0 == ue.0) self.now.gone)
            && nat_le bearer.0 (bearers_in (find ue_cmp self.now.plans ue))) }
    {
        self.is_attached(ue) && bearer.0 <= self.bearers(ue)
    }

    fn bearers(&self, ue: UeId) -> u8
        ensures { result ≡ bearers_in (find ue_cmp self.now.plans ue) }
    {
        match self.plans.get(ue) {
            Some(plan) => plan.bearers,
            None => 0,
        }
    }
}
