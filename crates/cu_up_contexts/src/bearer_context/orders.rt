//! The orders of control to the bearers of a context (TS 37.483, 8.3.2; TS 38.300, 9.2.3.2).

ghost use Rattle.std.specs.Prelude.{◌≡◌, ℕ, ◌+◌, ◌<◌, ◌≤◌, ◌^◌, true, false, List, [], length, OnOk};
ghost use Rattle.gnb_types.specs.declared.names.BearerId.{BearerId as Id};
ghost use Rattle.gnb_types.specs.declared.names.Gnb.{Gnb as GnbName};
ghost use Rattle.gnb_types.specs.declared.names.NodeId.TheVariants.{Du};
ghost use Rattle.unit_defs.specs.Messages.{teid_of};
ghost use Rattle.unit_defs.specs.Static.{with_downlinks};
ghost use Rattle.unit_defs.specs.CuUpRecords.{CuUpBearer, cu_up_scope};
ghost use Rattle.unit_defs.specs.CuUp.{each_bearer, uplinks_from, status_each, as_switched, as_frozen, as_known, as_resumed};
ghost use Rattle.unit_defs.specs.octet_defs.Codec.{Codec, octet_way};
ghost use Rattle.unit_messages.specs.steps.Steps.{IsStep, step_after};
ghost use Rattle.cu_up_bearer.specs.tunnels.Tunnels.{at_as};
ghost use Rattle.cu_up_bearer.specs.bearers.Bearers.{kept};
ghost use Rattle.cu_up_bearer.specs.declared.tunnels.at.Scope.{Scope as Place};
ghost use Rattle.cu_up_contexts.specs.bearer_context.Bearers.{numbered, IsServed, AreServed, AreEmpty};
ghost use Rattle.cu_up_contexts.specs.bearer_context.Orders.{bearers_after, context_after, row_of, at_bearer, holder, switched_each, frozen_each, resumed_each, IsAllowed, AreShort};

use crate::bearer_context::context::Context;
use cu_up_bearer::bearers::Bearer;
use cu_up_bearer::orders::freezing::freeze;
use cu_up_bearer::orders::going_on::{resume, take_status};
use cu_up_bearer::orders::serving::{add_uplink, switch};
use cu_up_bearer::tunnels::{DownlinkTunnel, Hop, Scope};
use gnb_types::names::{BearerId, Gnb, NodeId, UeId};
use gnb_types::outputs::Outputs;
use gnb_types::plans::{SnStatus, Tunnel};
use std::alloc::Global;
use unit_messages::steps::StepError;

/// An order that goes to each bearer.
#[derive(Clone, Copy)]
pub(crate) enum BearerOrder<'a> {
    /// The downlinks go to these tunnels of a DU from now on.
    Switch {
        du: NodeId,
        downlinks: &'a [Tunnel],
    },
    /// All that is held goes to these tunnels of a CU-UP.
    Freeze {
        peer: NodeId,
        down: &'a [Tunnel],
        up: &'a [Tunnel],
    },
    Resume,
}

/// The TEID of a bearer in a list, 0 where it has none.
fn teid_of(tunnels: &[Tunnel], bearer: BearerId) -> u32
    ensures { result ≡ teid_of tunnels.now bearer }
{
    for tunnel in tunnels {
        if tunnel.bearer.0 == bearer.0 {
            return tunnel.teid;
        }
    }
    0
}

/// A bearer carries out an order.
fn carry_out(
    order: BearerOrder<'_>,
    alloc: Global,
    at: &Scope,
    bearer: &mut Bearer,
    out: &mut Outputs,
) -> Result<(), StepError>
    requires allowed { IsAllowed order at.now.flags.may_serve }
    requires served { IsServed at.now bearer.old }
    ensures step { (codec : Codec) → IsStep (step_after out.old (row_of codec order.entry (at_as at.now) (kept bearer.old)))
        out.new (kept bearer.new) result }
    ensures served { OnOk result (IsServed at.now bearer.new) }
{
    match order {
        BearerOrder::Switch { du, downlinks } => {
            switch(bearer, alloc, at, du, teid_of(downlinks, at.bearer), out)
        }
        BearerOrder::Freeze { peer, down, up } => {
            let hop = Hop {
                peer,
                down: teid_of(down, at.bearer),
                up: teid_of(up, at.bearer),
                up_ended: false,
            };
            freeze(bearer, alloc, at, hop, out)
        }
        BearerOrder::Resume => resume(bearer, alloc, at, out),
    }
}

/// Each of these bearers carries out an order, the first one at `at`.
fn each(
    order: BearerOrder<'_>,
    alloc: Global,
    at: Scope,
    bearers: &mut [Bearer],
    out: &mut Outputs,
) -> Result<(), StepError>
    requires allowed { IsAllowed order at.flags.may_serve }
    requires few { at.bearer.0 + length bearers.old ≤ 255 }
    requires served { AreServed at bearers.old }
    ensures step { (codec : Codec) → IsStep (bearers_after codec out.old (each_bearer (octet_way codec)
        (λ id b. row_of codec order.entry (at_as (at_bearer at id)) b) (numbered at.bearer.0 bearers.old)))
        out.new (numbered at.bearer.0 bearers.new) result }
    ensures served { OnOk result (AreServed at bearers.new) }
{
    let Some((first, rest)) = bearers.split_first_mut() else {
        return Ok(());
    };
    carry_out(order, alloc, &at, first, out)?;
    let mut next = at;
    next.bearer = BearerId(at.bearer.0 + 1);
    each(order, alloc, next, rest, out)
}

/// Each of these bearers gets one more uplink, with TEIDs from `next` on.
fn add_each(next: u64, bearers: &mut [Bearer], out: &mut Outputs) -> Result<(), StepError>
    requires { next + length bearers.old ≤ 2 ^ 32 }
    ensures step { (codec : Codec) (i : ℕ) → IsStep (bearers_after codec out.old (uplinks_from (octet_way codec) next (numbered i bearers.old)))
        out.new (numbered i bearers.new) result }
    ensures served { (at : Place) → AreServed at bearers.old → OnOk result (AreServed at bearers.new) }
{
    let Some((first, rest)) = bearers.split_first_mut() else {
        return Ok(());
    };
    add_uplink(first, next as u32, out)?;
    add_each(next + 1, rest, out)
}

/// These bearers go on where those of the source stand, the first one at `at`; those without a status stay as they are.
fn go_on_each(
    statuses: &[SnStatus],
    alloc: Global,
    at: Scope,
    bearers: &mut [Bearer],
    out: &mut Outputs,
) -> Result<(), StepError>
    requires short { AreShort statuses.now }
    requires known { at.flags.may_serve ≡ true }
    requires few { at.bearer.0 + length bearers.old ≤ 255 }
    requires empty { AreEmpty at bearers.old }
    ensures step { (codec : Codec) (instance : ℕ) (others : List (Id × CuUpBearer)) → IsStep (bearers_after codec out.old
        (status_each (octet_way codec) at.ue (holder instance at others) statuses.now (numbered at.bearer.0 bearers.old)))
        out.new (numbered at.bearer.0 bearers.new) result }
    ensures served { OnOk result (AreServed at bearers.new) }
{
    let Some((status, others)) = statuses.split_first() else {
        return Ok(());
    };
    let Some((first, rest)) = bearers.split_first_mut() else {
        return Ok(());
    };
    take_status(first, alloc, &at, status, out)?;
    let mut next = at;
    next.bearer = BearerId(at.bearer.0 + 1);
    go_on_each(others, alloc, next, rest, out)
}

/// The downlinks of these bearers go to the TEIDs of a DU from `next` on.
fn begin_each(du: NodeId, next: u64, bearers: &mut [Bearer])
    requires { next + length bearers.old ≤ 2 ^ 32 }
    ensures begun { (gnb : GnbName) (number : ℕ) (i : ℕ) → du ≡ Du gnb number
        → numbered i bearers.new ≡ with_downlinks gnb number next (numbered i bearers.old) }
    ensures count { length bearers.new ≡ length bearers.old }
    ensures served { (at : Place) → AreServed at bearers.old → AreServed at bearers.new }
{
    let Some((first, rest)) = bearers.split_first_mut() else {
        return;
    };
    first.down.frames.downlink = Some(DownlinkTunnel {
        du,
        teid: next as u32,
        next: 0,
    });
    begin_each(du, next + 1, rest);
}

/// After an error bearers are of no use, and none is kept.
pub(crate) fn forget_if(failed: bool, alloc: Global, bearers: &mut Vec<Bearer>)
    ensures kept { failed ≡ false → bearers.new ≡ bearers.old }
    ensures none { failed ≡ true → bearers.new.items ≡ [] }
{
    if failed {
        *bearers = Vec::new(alloc);
    }
}

impl Context {
    /// Each bearer carries out the order, in their order.
    fn carry_out(
        &mut self,
        alloc: Global,
        ue: UeId,
        order: BearerOrder<'_>,
        out: &mut Outputs,
    ) -> Result<(), StepError>
        requires { IsAllowed order self.old.flags.may_serve }
        ensures { (codec : Codec) → IsStep (context_after codec out.old self.old (each_bearer (octet_way codec)
            (λ id b. row_of codec order.entry (cu_up_scope ue self.old id) b) self.old.bearers)) out.new self.new result }
    {
        let at = Scope {
            ue,
            bearer: BearerId(1),
            sn: self.sn,
            quota: self.quota,
            flags: self.flags,
        };
        let done = each(order, alloc, at, self.bearers.as_mut_slice(), out);
        forget_if(done.is_err(), alloc, &mut self.bearers);
        done
    }

    /// The frozen state ends, the terminal is there, and the downlinks go to these tunnels of a DU from now on.
    pub fn switch(
        &mut self,
        alloc: Global,
        ue: UeId,
        du: NodeId,
        downlinks: &[Tunnel],
        out: &mut Outputs,
    ) -> Result<(), StepError>
        ensures { (codec : Codec) → IsStep (context_after codec out.old (as_switched (octet_way codec) self.old)
            (switched_each codec ue du downlinks.now (as_switched (octet_way codec) self.old))) out.new self.new result }
    {
        self.flags.frozen = false;
        self.flags.arrived = true;
        self.carry_out(alloc, ue, BearerOrder::Switch { du, downlinks }, out)
    }

    /// All that is held goes to these tunnels of a CU-UP, and so does what comes from now on.
    pub fn freeze(
        &mut self,
        alloc: Global,
        ue: UeId,
        peer: NodeId,
        down: &[Tunnel],
        up: &[Tunnel],
        out: &mut Outputs,
    ) -> Result<(), StepError>
        requires { self.old.flags.may_serve ≡ true }
        ensures { (codec : Codec) → IsStep (context_after codec out.old (as_frozen (octet_way codec) self.old)
            (frozen_each codec ue peer down.now up.now (as_frozen (octet_way codec) self.old))) out.new self.new result }
    {
        self.flags.frozen = true;
        self.carry_out(alloc, ue, BearerOrder::Freeze { peer, down, up }, out)
    }

    /// The frozen state ends, and the bearers go on.
    pub fn resume(&mut self, alloc: Global, ue: UeId, out: &mut Outputs) -> Result<(), StepError>
        requires { self.old.flags.frozen ≡ true }
        ensures { (codec : Codec) → IsStep (context_after codec out.old (as_resumed (octet_way codec) self.old)
            (resumed_each codec ue (as_resumed (octet_way codec) self.old))) out.new self.new result }
    {
        self.flags.frozen = false;
        self.carry_out(alloc, ue, BearerOrder::Resume, out)
    }

    /// The bearers of a target go on where those of the source stand.
    pub fn take_status(
        &mut self,
        alloc: Global,
        ue: UeId,
        statuses: &[SnStatus],
        out: &mut Outputs,
    ) -> Result<(), StepError>
        requires new { self.old.flags.may_serve ≡ false }
        requires short { AreShort statuses.now }
        ensures { (codec : Codec) → IsStep (context_after codec out.old (as_known (octet_way codec) self.old)
            (status_each (octet_way codec) ue (as_known (octet_way codec) self.old) statuses.now self.old.bearers)) out.new self.new result }
    {
        self.flags.may_serve = true;
        let at = Scope {
            ue,
            bearer: BearerId(1),
            sn: self.sn,
            quota: self.quota,
            flags: self.flags,
        };
        let done = go_on_each(statuses, alloc, at, self.bearers.as_mut_slice(), out);
        forget_if(done.is_err(), alloc, &mut self.bearers);
        done
    }

    /// Each bearer gets one more uplink, with TEIDs from `next` on.
    pub fn add_uplinks(
        &mut self,
        alloc: Global,
        next: u32,
        out: &mut Outputs,
    ) -> Result<(), StepError>
        requires { next + length self.old.bearers ≤ 2 ^ 32 }
        ensures { (codec : Codec) → IsStep (context_after codec out.old self.old
            (uplinks_from (octet_way codec) next self.old.bearers)) out.new self.new result }
    {
        let done = add_each(u64::from(next), self.bearers.as_mut_slice(), out);
        forget_if(done.is_err(), alloc, &mut self.bearers);
        done
    }

    /// The downlinks go to the TEIDs of a DU from `next` on, as if they had been switched there before anything was sent.
    pub fn begin_at(&mut self, gnb: Gnb, du: u8, next: u32)
        requires { next + length self.old.bearers ≤ 2 ^ 32 }
        ensures { self.new ≡ record self.old { bearers = with_downlinks gnb du next self.old.bearers } }
    {
        begin_each(
            NodeId::Du(gnb, du),
            u64::from(next),
            self.bearers.as_mut_slice(),
        );
    }
}
