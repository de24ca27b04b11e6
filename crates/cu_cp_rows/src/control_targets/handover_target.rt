//! A handover between gNBs, at its target, before the terminal comes.

ghost use Rattle.std.specs.Prelude.{◌≡◌, [], ◌∷◌, ◌&&◌, map, true, None, IfOk};
ghost use Rattle.unit_defs.specs.CuCpRows.{offer_context as offer_context_of, own_peer, own_up, own_du, du_setup, offer, offer_on, offer_has_tunnels, offer_is_declined, offer_is_placed, other_cu_cp};
ghost use Rattle.unit_defs.specs.octet_defs.Codec.{octet_way};
ghost use Rattle.unit_defs.specs.CuCpRecords.{has_unit, replies_late};
ghost use Rattle.unit_defs.specs.Ways.{xn};
ghost use Rattle.cu_cp_records.specs.control_actions.Rows.{action_as, RowGives};

use cu_cp_records::control_actions::actions::{Action, Actions};
use cu_cp_records::control_actions::{Row, Scope, other_cu_cp, told_epoch};
use cu_cp_records::control_contexts::{Attempt, Context, Terminal, copy_tunnels, has_node};
use cu_cp_records::control_requests::{bearer_setup, du_setup};
use gnb_types::items::{Items, Memory};
use gnb_types::names::{NodeId, SnBits};
use gnb_types::plans::{Peer, TunnelList};
use gnb_types::results::beside;
use message_types::XnMessage;
use unit_defs::{AttemptKind, StateName};
use unit_messages::steps::StepError;
use unit_messages::{Message, MessageCodec};

// The causes of the profile's enumeration.
const BUSY: u32 = 1;

const NO_UNIT: u32 = 2;

/// What a Handover Request says of a terminal: its instance, the place, the bearers, and the epoch.
#[derive(Clone, Copy)]
pub struct Offered {
    pub instance: u32,
    pub epoch: u32,
    pub up: u8,
    pub du: u8,
    pub bearers: u8,
    pub sn: SnBits,
    pub quota: u16,
}

/// The context of an offer: no epoch was accepted yet.
pub fn offer_context<C: MessageCodec>(at: &Scope<'_, C>, offered: Offered) -> Context
    ensures { result ≡ offer_context_of (octet_way C.codec) offered.up offered.du offered.instance
        offered.bearers offered.sn offered.quota offered.epoch }
{
    let mut attempt = Attempt::new(
        at.alloc,
        AttemptKind::Offer,
        u64::from(offered.epoch),
        offered.up,
        offered.du,
    );
    attempt.instance = offered.instance;
    Context {
        state: StateName::Offered,
        epoch: None,
        finished: false,
        up: offered.up,
        du: offered.du,
        sn: offered.sn,
        bearers: offered.bearers,
        quota: offered.quota,
        by_xn: true,
        attempt: Some(attempt),
    }
}

fn refuse_offer<C>(at: &Scope<'_, C>, from: NodeId, instance: u32, cause: u32) -> Action
    ensures { result ≡ Action.Reply from
        (Message.Xn (XnMessage.HandoverPreparationFailure at.now.ue instance cause)) }
{
    Action::Reply {
        to: from,
        message: Message::Xn(XnMessage::HandoverPreparationFailure {
            ue: at.ue,
            instance,
            cause,
        }),
    }
}

/// The other gNB offers a terminal: there is no context of it, and the units are set up.
#[tactic(auto, unfolding(unit_defs::specs::CuCpRows::offer))]
pub fn offer<C: MessageCodec>(
    at: &Scope<'_, C>,
    from: NodeId,
    instance: u32,
    new: Context,
    terminal: &Terminal,
) -> Result<Row, StepError>
    ensures { RowGives (offer (octet_way C.codec) at.now from instance new terminal.now) result }
{
    match &terminal.context {
        None => offer_begins(at, from, instance, new, terminal),
        Some(_) => {
            drop(new);
            Row::only_says(at, terminal, refuse_offer(at, from, instance, BUSY))
        }
    }
}

/// Whether the units of a place are set up.
fn has_units<C>(at: &Scope<'_, C>, up: u8, du: u8) -> bool
    ensures { result
        ≡ (has_unit at.now.units (own_up at.now up) && has_unit at.now.units (own_du at.now du)) }
{
    has_node(at.units, NodeId::CuUp(at.gnb, up)) && has_node(at.units, NodeId::Du(at.gnb, du))
}

fn offer_begins<C: MessageCodec>(
    at: &Scope<'_, C>,
    from: NodeId,
    instance: u32,
    new: Context,
    terminal: &Terminal,
) -> Result<Row, StepError>
    ensures { RowGives
        (offer_on (octet_way C.codec) at.now from instance new terminal.now None) result }
{
    if !has_units(at, new.up, new.du) {
        drop(new);
        return Row::only_says(at, terminal, refuse_offer(at, from, instance, NO_UNIT));
    }
    let (actions, new) = beside(Items::one(at.alloc, bearer_setup(at, &new, true)), new)?;
    Ok(Row::keeps(terminal, actions, new))
}

/// The tunnels of an offer: of the bearers, and of forwarding.
#[derive(Drop)]
pub struct OfferTunnels {
    pub uplinks: TunnelList,
    pub n3: TunnelList,
    pub forward_down: TunnelList,
    pub forward_up: TunnelList,
}

/// The DU is to set the terminal up.
fn setup_of_offer<C: MessageCodec>(
    at: &Scope<'_, C>,
    context: &Context,
    epoch: u64,
    uplinks: TunnelList,
) -> Result<Actions, Memory>
    ensures { IfOk result (λ actions. map action_as actions
        ≡ du_setup (octet_way C.codec) at.now context.now context.now.du epoch uplinks ∷ []) }
{
    let epoch = told_epoch(epoch)?;
    Items::one(at.alloc, du_setup(at, context, context.du, epoch, uplinks))
}

/// An attempt whose tunnels at its CU-UP are known, and whose DU was asked.
fn with_tunnels(
    mut attempt: Attempt,
    n3: TunnelList,
    forward_down: TunnelList,
    forward_up: TunnelList,
) -> Attempt
    ensures { result ≡ record attempt
        { n3 = n3; forward_down = forward_down; forward_up = forward_up; du_begun = true } }
{
    attempt.n3 = n3;
    attempt.forward_down = forward_down;
    attempt.forward_up = forward_up;
    attempt.du_begun = true;
    attempt
}

/// Its tunnels are there: the DU gets the context.
#[tactic(auto, unfolding(unit_defs::specs::CuCpRows::offer_has_tunnels))]
pub fn offer_has_tunnels<C: MessageCodec>(
    at: &Scope<'_, C>,
    tunnels: OfferTunnels,
    terminal: &Terminal,
    context: &Context,
    attempt: Attempt,
) -> Result<Row, StepError>
    ensures { RowGives
        (offer_has_tunnels (octet_way C.codec) at.now tunnels.uplinks tunnels.n3
        tunnels.forward_down tunnels.forward_up terminal.now context.now attempt) result }
{
    let OfferTunnels {
        uplinks,
        n3,
        forward_down,
        forward_up,
    } = tunnels;
    let attempt = with_tunnels(attempt, n3, forward_down, forward_up);
    let actions = setup_of_offer(at, context, attempt.epoch, uplinks);
    let (actions, attempt) = beside(actions, attempt)?;
    let context = context.attempted(StateName::Offered, attempt);
    Ok(Row::keeps(terminal, actions, context))
}

/// The CU-UP could not set up the bearers.
#[tactic(auto, unfolding(unit_defs::specs::CuCpRows::offer_is_declined))]
pub fn offer_is_declined<C: MessageCodec>(
    at: &Scope<'_, C>,
    cause: u32,
    terminal: &Terminal,
    attempt: &Attempt,
) -> Result<Row, StepError>
    ensures { RowGives
        (offer_is_declined (octet_way C.codec) at.now cause terminal.now attempt.now) result }
{
    let failure = Action::ReplyLate {
        to: other_cu_cp(at),
        instance: attempt.instance,
        message: Message::Xn(XnMessage::HandoverPreparationFailure {
            ue: at.ue,
            instance: attempt.instance,
            cause,
        }),
    };
    let actions = Items::one(at.alloc, failure)?;
    Ok(Row::gives_up(terminal, actions))
}

/// The source is told of the tunnels of forwarding.
fn say_ready<C: MessageCodec>(
    at: &Scope<'_, C>,
    context: &Context,
    attempt: &Attempt,
) -> Result<Actions, Memory>
    ensures { IfOk result (λ actions. map action_as actions
        ≡ replies_late (other_cu_cp at.now) attempt.now.instance
        (xn (XnMessage.HandoverRequestAcknowledge at.now.ue attempt.now.instance
        (own_peer at.now context.now.up) attempt.now.forward_down attempt.now.forward_up)) ∷ []) }
{
    let forward_down = copy_tunnels(at.alloc, &attempt.forward_down)?;
    let forward_up = copy_tunnels(at.alloc, &attempt.forward_up)?;
    let ready = Action::ReplyLate {
        to: other_cu_cp(at),
        instance: attempt.instance,
        message: Message::Xn(XnMessage::HandoverRequestAcknowledge {
            ue: at.ue,
            instance: attempt.instance,
            peer: Peer {
                gnb: at.gnb,
                up: context.up,
            },
            forward_down,
            forward_up,
        }),
    };
    Items::one(at.alloc, ready)
}

/// The DU is ready: the source is told.
#[tactic(auto, unfolding(unit_defs::specs::CuCpRows::offer_is_placed))]
pub fn offer_is_placed<C: MessageCodec>(
    at: &Scope<'_, C>,
    downlinks: TunnelList,
    terminal: &Terminal,
    context: &Context,
    mut attempt: Attempt,
) -> Result<Row, StepError>
    ensures { RowGives
        (offer_is_placed (octet_way C.codec) at.now downlinks terminal.now context.now attempt)
        result }
{
    attempt.downlinks = downlinks;
    let (actions, attempt) = beside(say_ready(at, context, &attempt), attempt)?;
    let context = context.attempted(StateName::Ready, attempt);
    Ok(Row::keeps(terminal, actions, context))
}
