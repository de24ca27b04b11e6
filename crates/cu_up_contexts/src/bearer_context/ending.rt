//! The release and the end of a context (TS 37.483, 8.3.5).

ghost use Rattle.std.specs.Prelude.{◌≡◌, ℕ, ◌++◌, ◌&&◌, length, map, IfOk, OnOk};
ghost use Rattle.unit_defs.specs.CuUp.{as_released};
ghost use Rattle.unit_defs.specs.CuUpBearers.{released, is_closed, no_uplink, hop_is_done, is_over, teid_in, open_teids};
ghost use Rattle.unit_defs.specs.octet_defs.Codec.{Codec, octet_way};
ghost use Rattle.cu_up_bearer.specs.declared.tunnels.at.Scope.{Scope as Place};
ghost use Rattle.cu_up_bearer.specs.tunnels.Tunnels.{flags_as};
ghost use Rattle.cu_up_bearer.specs.bearers.Bearers.{kept};
ghost use Rattle.cu_up_contexts.specs.bearer_context.Bearers.{numbered, AreServed};
ghost use Rattle.cu_up_contexts.specs.bearer_context.Contexts.{is_all_over, all_open, awaits, bearer_rests};

use crate::bearer_context::context::Context;
use cu_up_bearer::bearers::Bearer;
use cu_up_bearer::orders::freezing::release;
use cu_up_bearer::tunnels::Flags;
use gnb_types::items::{Items, Memory};
use std::alloc::Global;

/// None of these bearers keeps a packet any more.
fn release_each(bearers: &mut [Bearer], alloc: Global)
    ensures released { (i : ℕ) → numbered i bearers.new ≡ map (λ e. (e.0, released e.1)) (numbered i bearers.old) }
    ensures count { length bearers.new ≡ length bearers.old }
    ensures served { (a : Place) → AreServed a bearers.old → AreServed a bearers.new }
{
    let Some((first, rest)) = bearers.split_first_mut() else {
        return;
    };
    release(first, alloc);
    release_each(rest, alloc);
}

/// Whether no packet comes from N3 or an uplink any more.
fn is_closed(bearer: &Bearer) -> bool
    ensures { result ≡ (is_closed bearer.now.n3 && no_uplink bearer.now.uplinks) }
{
    bearer.n3.is_none() && bearer.uplinks.is_empty()
}

/// Whether its hop from the source, if it has one, has ended in both directions.
fn hop_is_done(bearer: &Bearer, flags: Flags) -> bool
    ensures { result ≡ hop_is_done (flags_as flags) (kept bearer.now) }
{
    !flags.target || (bearer.down_ended && bearer.up_ended)
}

/// Whether an End Marker is awaited at a bearer: of N3 or an uplink after its context was released, or of the source.
fn is_awaiting(bearer: &Bearer, flags: Flags) -> bool
    ensures { result ≡ awaits (flags_as flags) (kept bearer.now) }
{
    (flags.released && !is_closed(bearer)) || !hop_is_done(bearer, flags)
}

/// Whether nothing of a bearer is unconfirmed or waits, and no End Marker is awaited.
pub(crate) fn rests(bearer: &Bearer, flags: Flags) -> bool
    ensures { result ≡ bearer_rests (flags_as flags) (kept bearer.now) }
{
    !is_awaiting(bearer, flags) && bearer.down.sending.rests()
}

/// Whether nothing comes any more at a bearer.
fn is_over(bearer: &Bearer, flags: Flags) -> bool
    ensures { result ≡ is_over (flags_as flags) (kept bearer.now) }
{
    is_closed(bearer) && hop_is_done(bearer, flags)
}

/// A TEID stands last, if there is one.
fn push_teid(teid: Option<u32>, teids: &mut Items<u32>) -> Result<(), Memory>
    ensures { OnOk result (teids.new ≡ teids.old ++ teid_in teid) }
{
    if let Some(teid) = teid {
        teids.push(teid)?;
    }
    Ok(())
}

/// The open tunnels of a bearer, in the order in which they are closed.
fn push_open(bearer: &Bearer, teids: &mut Items<u32>) -> Result<(), Memory>
    ensures { OnOk result (teids.new ≡ teids.old ++ open_teids (kept bearer.now)) }
{
    push_teid(bearer.n3, teids)?;
    push_teid(bearer.forward_down, teids)?;
    teids.append(bearer.uplinks.as_slice())?;
    push_teid(bearer.forward_up, teids)
}

impl Context {
    /// It is released: no packet is kept any more.
    pub fn release(&mut self, alloc: Global)
        ensures { (codec : Codec) → self.new ≡ as_released (octet_way codec) self.old }
    {
        self.flags.released = true;
        release_each(self.bearers.as_mut_slice(), alloc);
    }

    /// Whether it was released, and nothing comes any more.
    pub fn is_over(&self) -> bool
        ensures { result ≡ is_all_over self.now }
    {
        if !self.flags.released {
            return false;
        }
        for bearer in self.bearers.iter() {
            if !is_over(bearer, self.flags) {
                return false;
            }
        }
        true
    }

    /// Its open tunnels, in the order in which they are closed.
    pub fn open_teids(&self, alloc: Global) -> Result<Items<u32>, Memory>
        ensures { IfOk result (λ teids. teids ≡ all_open self.now) }
    {
        let mut teids = Items::new(alloc);
        for bearer in self.bearers.iter() {
            push_open(bearer, &mut teids)?;
        }
        Ok(teids)
    }
}
