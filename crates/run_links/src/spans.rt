//! How far the COUNTs of a bearer reach that were given and aren't all delivered, or still stand on a link.

ghost use Rattle.std.specs.Prelude.{◌≡◌, ◌∷◌, [], ◌++◌};
ghost use Rattle.std.specs.List.{flat_map};
ghost use Rattle.transport_defs.specs.Links.{tunnel_counts, radio_counts, least};
ghost use Rattle.tables.specs.Tables.{find};
ghost use Rattle.gnb_types.specs.Orders.{ue_cmp};
ghost use Rattle.pdcp.specs.Numbers.{half};
ghost use Rattle.run_defs.specs.States.{sn_in};
ghost use Rattle.run_defs.specs.Steps.{span, first_outstanding, bearer_numbers, checked_by, check_spans};
ghost use Rattle.run_defs.specs.UnitRuns.{Records};
ghost use Rattle.run_links.specs.Networks.{OctetCore, state_of};
ghost use Rattle.run_links.specs.Spans.{lowered, stop_of, both_of};
ghost use Rattle.run_links.specs.Told.{outstanding_line};

use crate::network::Network;
use gnb_types::keys::EntityKey;
use gnb_types::names::{BearerId, Dir, SnBits, UeId};
use scenario_text::line::OutLine;

/// A bearer and direction whose COUNTs span more than half the space of its numbers.
#[derive(Clone, Copy, Debug, PartialEq, Eq)]
pub struct Outstanding {
    pub key: EntityKey,
    pub span: u64,
    pub window: u32,
}

impl Outstanding {
    /// The line that tells of it.
    pub fn line(self) -> OutLine
        ensures { result ≡ outstanding_line self }
    {
        let EntityKey { ue, bearer, dir } = self.key;
        OutLine::Outstanding {
            ue,
            bearer,
            dir,
            span: self.span,
            window: self.window,
        }
    }
}

/// Half the space of numbers of this length.
fn window(sn: SnBits) -> u32
    ensures { result ≡ half sn }
{
    match sn {
        SnBits::Len12 => 2048,
        SnBits::Len18 => 131_072,
    }
}

/// The lesser of a number and a COUNT, if there is one.
fn lowered(least: u64, count: Option<u32>) -> u64
    ensures { result ≡ lowered least count }
{
    match count {
        Some(count) => least.min(u64::from(count)),
        None => least,
    }
}

impl Network {
    /// How long the numbers of a terminal are.
    fn sn(&self, ue: UeId) -> SnBits
        ensures { result ≡ sn_in (find ue_cmp self.now.plans ue) }
    {
        match self.plans.get(ue) {
            Some(plan) => plan.sn,
            None => SnBits::Len12,
        }
    }

    /// The least COUNT of a bearer and direction that stands on a link, or this number, if it is less.
    fn least_standing(&self, key: EntityKey, most: u64) -> u64
        ensures { result ≡ least most (tunnel_counts key self.now.tunnels.tunnels ++ radio_counts key self.now.radios.radios) }
    {
        let (_, on_tunnels) = self.tunnels.standing(key.ue, key.bearer, key.dir);
        let (_, on_radios) = self.radios.standing(key.ue, key.bearer, key.dir);
        lowered(lowered(most, on_tunnels), on_radios)
    }

    /// How far the COUNTs of a bearer and direction reach.
    #[tactic(auto, unfolding(run_defs::specs::Steps::span))]
    pub fn span(&self, key: EntityKey) -> u64
        ensures { (units : Records) (core : OctetCore) → result ≡ span (state_of units core self.now) key }
    {
        let book = self.book(key);
        if book.numbered == 0 {
            return 0;
        }
        let most = book.numbered.min(book.delivered);
        book.numbered - self.least_standing(key, most)
    }

    fn outstanding_in(&self, key: EntityKey) -> Option<Outstanding>
        ensures { (units : Records) (core : OctetCore) → stop_of result ≡ first_outstanding (state_of units core self.now) (key ∷ []) }
    {
        let span = self.span(key);
        let window = window(self.sn(key.ue));
        if span > u64::from(window) {
            Some(Outstanding { key, span, window })
        } else {
            None
        }
    }

    #[tactic(auto, using(crate::proofs::Outstanding::first_cons))]
    fn outstanding_at(&self, ue: UeId, bearer: BearerId) -> Option<Outstanding>
        ensures { (units : Records) (core : OctetCore) → stop_of result ≡ first_outstanding (state_of units core self.now) (both_of ue bearer) }
    {
        let dir = Dir::Dl;
        match self.outstanding_in(EntityKey { ue, bearer, dir }) {
            Some(outstanding) => Some(outstanding),
            None => {
                let dir = Dir::Ul;
                self.outstanding_in(EntityKey { ue, bearer, dir })
            }
        }
    }

    #[tactic(auto, using(crate::proofs::Outstanding::first_bearer))]
    fn outstanding_of(&self, ue: UeId, bearers: u8) -> Option<Outstanding>
        ensures { (units : Records) (core : OctetCore)
            → stop_of result ≡ first_outstanding (state_of units core self.now) (flat_map (both_of ue) (bearer_numbers 1 bearers)) }
    {
        for before in 0..bearers {
            if let Some(outstanding) = self.outstanding_at(ue, BearerId(before + 1)) {
                return Some(outstanding);
            }
        }
        None
    }

    /// The first bearer and direction whose COUNTs span more than half the space of its numbers. It is looked for after each step.
    #[tactic(auto, using(crate::proofs::Outstanding::first_entry_of), unfolding(run_defs::specs::Steps::check_spans))]
    pub fn outstanding(&self) -> Option<Outstanding>
        ensures { (units : Records) (core : OctetCore)
            → check_spans (state_of units core self.now) ≡ checked_by (state_of units core self.now) (stop_of result) }
    {
        for (ue, plan) in self.plans.iter() {
            if let Some(outstanding) = self.outstanding_of(*ue, plan.bearers) {
                return Some(outstanding);
            }
        }
        None
    }
}
