//! Which modes of a modification fit the state of a context.

ghost use Rattle.std.specs.Prelude.{◌≡◌, Some, IfOk};
ghost use Rattle.unit_defs.specs.CuUp.{context_of};
ghost use Rattle.unit_defs.specs.octet_defs.Codec.{Codec};
ghost use Rattle.cu_user.specs.cu_up_rows.Modes.{may_add, may_switch, may_freeze, may_know, may_resume, may_serve, statuses_on};

use crate::cu_up_rows::record::CuUpRecord;
use cu_up_contexts::contexts::Context;
use gnb_types::items::{Items, Memory};
use gnb_types::names::UeId;
use gnb_types::plans::{SnStatus, StatusList, Tunnel};
use std::alloc::Global;

/// Whether the downlinks of a context may go to these tunnels: those of a released one go nowhere.
fn may_switch(context: &Context, downlinks: &[Tunnel]) -> bool
    ensures { (codec : Codec) → result ≡ may_switch codec downlinks.now (Some context.now) }
{
    let flags = context.flags();
    if flags.released {
        return false;
    }
    context.is_named_by(downlinks)
}

/// Whether a context may be frozen, so that its packets go to these tunnels.
fn may_freeze(context: &Context, down: &[Tunnel], up: &[Tunnel]) -> bool
    ensures { (codec : Codec) → result ≡ may_freeze codec down.now up.now (Some context.now) }
{
    let flags = context.flags();
    if flags.frozen {
        return false;
    }
    if flags.released {
        return false;
    }
    if !flags.arrived {
        return false;
    }
    if !context.is_named_by(down) {
        return false;
    }
    context.is_named_by(up)
}

/// Whether a context may go on from these statuses: a target has none yet.
fn may_know(context: &Context, statuses: &[SnStatus]) -> bool
    ensures { (codec : Codec) → result ≡ may_know codec statuses.now (Some context.now) }
{
    let flags = context.flags();
    if flags.may_serve {
        return false;
    }
    context.is_named_by_statuses(statuses)
}

impl CuUpRecord {
    /// Whether its bearers may get further uplinks: a released context gets none.
    pub(crate) fn may_add(&self, ue: UeId) -> bool
        ensures { (codec : Codec) → result ≡ may_add codec (context_of self.now ue) }
    {
        match self.contexts.get(ue) {
            Some(context) => !context.flags().released,
            None => false,
        }
    }

    /// Whether its downlinks may go to these tunnels.
    pub(crate) fn may_switch(&self, ue: UeId, downlinks: &[Tunnel]) -> bool
        ensures { (codec : Codec) → result ≡ may_switch codec downlinks.now (context_of self.now ue) }
    {
        match self.contexts.get(ue) {
            Some(context) => may_switch(context, downlinks),
            None => false,
        }
    }

    /// Whether it may be frozen, so that its packets go to these tunnels.
    pub(crate) fn may_freeze(&self, ue: UeId, down: &[Tunnel], up: &[Tunnel]) -> bool
        ensures { (codec : Codec) → result ≡ may_freeze codec down.now up.now (context_of self.now ue) }
    {
        match self.contexts.get(ue) {
            Some(context) => may_freeze(context, down, up),
            None => false,
        }
    }

    /// Whether it may go on from these statuses.
    pub(crate) fn may_know(&self, ue: UeId, statuses: &[SnStatus]) -> bool
        ensures { (codec : Codec) → result ≡ may_know codec statuses.now (context_of self.now ue) }
    {
        match self.contexts.get(ue) {
            Some(context) => may_know(context, statuses),
            None => false,
        }
    }

    /// Whether it may go on itself.
    pub(crate) fn may_resume(&self, ue: UeId) -> bool
        ensures { (codec : Codec) → result ≡ may_resume codec (context_of self.now ue) }
    {
        match self.contexts.get(ue) {
            Some(context) => context.flags().frozen && !context.flags().released,
            None => false,
        }
    }

    /// Whether it has its SN status.
    pub(crate) fn may_serve(&self, ue: UeId) -> bool
        ensures { (codec : Codec) → result ≡ may_serve codec (context_of self.now ue) }
    {
        match self.contexts.get(ue) {
            Some(context) => context.flags().may_serve,
            None => false,
        }
    }

    /// Where the target of a freeze is to go on.
    pub(crate) fn statuses(&self, alloc: Global, ue: UeId) -> Result<StatusList, Memory>
        ensures { (codec : Codec) → IfOk result (λ list. list ≡ statuses_on codec (context_of self.now ue)) }
    {
        match self.contexts.get(ue) {
            Some(context) => context.statuses(alloc),
            None => Ok(Items::new(alloc)),
        }
    }
}
