//! A context: how it is made, and what it says of itself.

ghost use Rattle.std.specs.Prelude.{◌≡◌, ◌+◌, ◌*◌, ◌<◌, ◌≤◌, ◌^◌, length, Some, IfOk, IfSome, IfNone};
ghost use Rattle.unit_defs.specs.Accessors.{is_unconfirmed_of, up_context_rests};
ghost use Rattle.unit_defs.specs.CuUp.{bearers_from, bearers_made};
ghost use Rattle.unit_defs.specs.CuUpBearers.{teids_of_bearer};
ghost use Rattle.cu_up_bearer.specs.tunnels.Tunnels.{flags_as};
ghost use Rattle.cu_up_contexts.specs.bearer_context.Bearers.{numbered, shared, AreServed, IsOutside};
ghost use Rattle.cu_up_contexts.specs.bearer_context.Contexts.{made_from, flags_at_first, at_in};

use crate::bearer_context::ending::rests;
use cu_up_bearer::bearers::Bearer;
use cu_up_bearer::tunnels::{Flags, Scope};
use gnb_types::items::Memory;
use gnb_types::names::{BearerId, SnBits, UeId};
use std::alloc::Global;
use std::marker::Model;

/// What a context is set up with.
#[derive(Clone, Copy)]
pub struct ContextSetup {
    pub sn: SnBits,
    pub quota: u16,
    /// Whether it is the target of a handover, which has its packets from a source.
    pub target: bool,
    /// Its bearers are 1 to this number.
    pub count: u8,
}

/// The bearers of a terminal, and what they share. Contracts see the record of the procedure tables.
#[derive(Drop)]
pub struct Context {
    /// The first TEID that was given for it: a later context of the same terminal has another one.
    pub(crate) instance: u32,
    pub(crate) sn: SnBits,
    pub(crate) quota: u16,
    pub(crate) flags: Flags,
    /// Bearer `i + 1` stands at index `i`.
    pub(crate) bearers: Vec<Bearer>,
}

impl Model for Context {
    ghost use Rattle.unit_defs.specs.CuUpRecords.{CuUpContext};
    ghost use Rattle.cu_up_contexts.specs.bearer_context.Bearers.{context_as, IsContext};

    ghost Value = { CuUpContext };

    ghost view = { λ c. context_as c.instance c.sn c.quota c.flags c.bearers.items };

    ghost invariant = { λ c. IsContext c.sn c.quota c.flags c.bearers.items };
}

impl ContextSetup {
    /// How many TEIDs each bearer has.
    pub fn teids_of_bearer(&self) -> u32
        ensures { result ≡ teids_of_bearer self.now.target }
    {
        if self.target { 4 } else { 2 }
    }

    /// A target goes on once the SN status is there, and serves once the terminal arrived.
    fn flags(&self) -> Flags
        ensures { result ≡ flags_at_first self.now.target }
    {
        Flags {
            target: self.target,
            may_serve: !self.target,
            arrived: !self.target,
            frozen: false,
            released: false,
        }
    }

    /// The bearers of a new context, with TEIDs from `first` on.
    fn bearers(&self, alloc: Global, ue: UeId, first: u32) -> Result<Vec<Bearer>, Memory>
        requires least { 4 ≤ self.now.quota }
        requires most { self.now.quota ≤ 4096 }
        requires few { self.now.count ≤ 8 }
        requires teids { first + self.now.count * teids_of_bearer self.now.target ≤ 2 ^ 32 }
        ensures made { IfOk result (λ bs. numbered 1 bs.items ≡ bearers_made self.now.target first (bearers_from 1 self.now.count)) }
        ensures count { IfOk result (λ bs. length bs.items ≡ self.now.count) }
        ensures served { IfOk result (λ bs. AreServed (shared self.now.sn self.now.quota (flags_at_first self.now.target)) bs.items) }
    {
        let mut bearers = Vec::new(alloc);
        let mut teid = u64::from(first);
        for index in 0..self.count {
            let at = Scope {
                ue,
                bearer: BearerId(index + 1),
                sn: self.sn,
                quota: self.quota,
                flags: self.flags(),
            };
            bearers.push(Bearer::new(alloc, &at, self.target, teid as u32)?)?;
            teid += u64::from(self.teids_of_bearer());
        }
        Ok(bearers)
    }
}

/// Where a bearer stands among so many.
pub(crate) fn index_of(bearer: BearerId, count: usize) -> Option<usize>
    ensures within { IfSome result (λ i. (i < count) × (i + 1 ≡ bearer.0)) }
    ensures none { IfNone result (IsOutside bearer.0 count) }
{
    let index = usize::from(bearer.0).checked_sub(1)?;
    if index < count { Some(index) } else { None }
}

impl Context {
    /// A context with TEIDs from `first` on. It takes the blocks for the packets of its bearers.
    pub fn new(alloc: Global, ue: UeId, setup: &ContextSetup, first: u32) -> Result<Context, Memory>
        requires least { 4 ≤ setup.now.quota }
        requires most { setup.now.quota ≤ 4096 }
        requires few { setup.now.count ≤ 8 }
        requires teids { first + setup.now.count * teids_of_bearer setup.now.target ≤ 2 ^ 32 }
        ensures { IfOk result (λ c. c ≡ made_from first setup.now) }
    {
        let bearers = setup.bearers(alloc, ue, first)?;
        Ok(Context {
            instance: first,
            sn: setup.sn,
            quota: setup.quota,
            flags: setup.flags(),
            bearers,
        })
    }

    pub fn instance(&self) -> u32
        ensures { result ≡ self.now.instance }
    {
        self.instance
    }

    pub fn quota(&self) -> u16
        ensures { result ≡ self.now.quota }
    {
        self.quota
    }

    pub fn sn(&self) -> SnBits
        ensures { result ≡ self.now.sn }
    {
        self.sn
    }

    pub fn flags(&self) -> Flags
        ensures { flags_as result ≡ self.now.flags }
    {
        self.flags
    }

    /// How many bearers it has.
    pub fn count(&self) -> u8
        ensures { result ≡ length self.now.bearers }
    {
        self.bearers.len() as u8
    }

    /// Whether a downlink packet of this bearer is unconfirmed.
    pub fn is_unconfirmed(&self, bearer: BearerId) -> bool
        ensures { result ≡ is_unconfirmed_of bearer (Some self.now) }
    {
        match index_of(bearer, self.bearers.len()) {
            Some(index) => self.bearers[index].down.sending.unconfirmed(0).is_some(),
            None => false,
        }
    }

    /// Whether nothing of this bearer is unconfirmed or waits, and no End Marker is awaited for it.
    pub fn rests(&self, bearer: BearerId) -> bool
        ensures { result ≡ up_context_rests bearer (Some self.now) }
    {
        match index_of(bearer, self.bearers.len()) {
            Some(index) => rests(&self.bearers[index], self.flags),
            None => true,
        }
    }
}
