//! A codec of few messages.

ghost use Rattle.std.specs.Prelude.{◌≡◌, ◌∷◌, ◌++◌, ◌%◌, [], IfOk, Some};
ghost use Rattle.std.specs.Option.{option_map};
ghost use Rattle.unit_messages.specs.Messages.{answer_as};
ghost use Rattle.tests_cu_up.specs.FewMessages.{teid_in, some_teid_in, some_counts_in, encoded_e1, tunnel_at, status_at, received_sn, wide, received_order, received_e1, heard};

use gnb_types::items::{Items, Memory};
use gnb_types::names::{BearerId, Gnb, NodeId, SnBits, UeId};
use gnb_types::octets::Octets;
use gnb_types::plans::{Peer, SnStatus, StatusList, Tunnel, TunnelList};
use gnb_types::reasons::DropReason;
use message_types::{E1Message, Token};
use std::alloc::Global;
use unit_messages::{Message, MessageCodec};

/// E1AP, each field below 256 in one octet, and the COUNTs of an SN status in three: requests for bearer 1 alone, and octets that are
/// dropped. Octets are heard by their count, those of four by their kind too, and those of a setup say by it how long numbers are.
pub struct FewMessages;

impl MessageCodec for FewMessages {
    ghost use Rattle.tests_cu_up.specs.FewMessages.{few_messages};

    ghost codec = { few_messages };

    fn encode(&self, alloc: Global, message: &Message) -> Result<Octets, Memory> {
        match message {
            Message::E1(message) => encoded_e1(alloc, message),
            Message::F1(_) | Message::Rrc(_) | Message::Xn(_) | Message::Core(_) => {
                Ok(Octets::new(alloc))
            }
        }
    }

    fn read(
        &self,
        alloc: Global,
        _from: NodeId,
        _to: NodeId,
        octets: &[u8],
    ) -> Result<Result<Message, DropReason>, Memory> {
        heard_message(alloc, octets)
    }

    fn read_token(&self, _alloc: Global, _container: &[u8]) -> Result<Option<Token>, Memory> {
        Ok(None)
    }
}

/// The TEID of the one bearer, if there is one.
fn teid_in(tunnels: &[Tunnel]) -> u8
    ensures { result ≡ teid_in tunnels.now }
{
    match tunnels {
        [tunnel] => (tunnel.teid % 256) as u8,
        _ => 0,
    }
}

fn some_teid_in(tunnels: &Option<TunnelList>) -> u8
    ensures { result ≡ some_teid_in tunnels.now }
{
    match tunnels {
        Some(tunnels) => teid_in(tunnels.as_slice()),
        None => 0,
    }
}

/// These octets, and the two COUNTs of the status of the one bearer, if there is one.
fn with_counts(alloc: Global, head: &[u8], statuses: &Option<StatusList>) -> Result<Octets, Memory>
    ensures { IfOk result (λ octets. octets ≡ head.now ++ some_counts_in statuses.now) }
{
    let mut octets = Octets::from_slice(alloc, head)?;
    if let Some(statuses) = statuses {
        if let [status] = statuses.as_slice() {
            let dl_next = (status.dl_next % 256) as u8;
            octets.append(&[dl_next, (status.ul_first % 256) as u8])?;
        }
    }
    Ok(octets)
}

fn spelled_name(alloc: Global, instance: u32, name: &[u8]) -> Result<Octets, Memory>
    ensures { IfOk result (λ octets. octets ≡ 1 ∷ instance % 256 ∷ name.now) }
{
    let mut octets = Octets::from_slice(alloc, &[1, (instance % 256) as u8])?;
    octets.append(name)?;
    Ok(octets)
}

fn spelled_mark(
    alloc: Global,
    kind: u8,
    ue: UeId,
    instance: u32,
    cause: u32,
) -> Result<Octets, Memory>
    ensures { IfOk result (λ octets. octets ≡ kind ∷ ue.0 ∷ instance % 256 ∷ cause % 256 ∷ []) }
{
    let number = (instance % 256) as u8;
    Octets::from_slice(alloc, &[kind, ue.0, number, (cause % 256) as u8])
}

fn encoded_e1(alloc: Global, message: &E1Message) -> Result<Octets, Memory>
    ensures { IfOk result (λ octets. octets ≡ encoded_e1 message.now) }
{
    match message {
        E1Message::E1SetupRequest { instance, name } => {
            spelled_name(alloc, *instance, name.as_slice())
        }
        E1Message::BearerContextSetupResponse {
            ue,
            instance,
            uplinks,
            n3,
            forward_down,
            forward_up,
        } => {
            let number = (*instance % 256) as u8;
            let uplink = teid_in(uplinks.as_slice());
            let n3 = teid_in(n3.as_slice());
            let (down, up) = (some_teid_in(forward_down), some_teid_in(forward_up));
            Octets::from_slice(alloc, &[18, ue.0, number, uplink, n3, down, up])
        }
        E1Message::BearerContextSetupFailure {
            ue,
            instance,
            cause,
        } => { spelled_mark(alloc, 34, *ue, *instance, *cause) }
        E1Message::BearerContextModificationResponse {
            ue,
            instance,
            uplinks,
            statuses,
        } => {
            let number = (*instance % 256) as u8;
            with_counts(alloc, &[19, ue.0, number, some_teid_in(uplinks)], statuses)
        }
        E1Message::BearerContextModificationFailure {
            ue,
            instance,
            cause,
        } => { spelled_mark(alloc, 35, *ue, *instance, *cause) }
        E1Message::BearerContextReleaseComplete { ue, instance } => {
            Octets::from_slice(alloc, &[20, ue.0, (*instance % 256) as u8])
        }
        E1Message::E1SetupResponse { .. }
        | E1Message::BearerContextSetupRequest { .. }
        | E1Message::BearerContextModificationRequest { .. }
        | E1Message::BearerContextReleaseCommand { .. } => Ok(Octets::new(alloc)),
    }
}

fn tunnel_at(alloc: Global, teid: u8) -> Result<TunnelList, Memory>
    ensures { IfOk result (λ tunnels. tunnels ≡ tunnel_at teid) }
{
    let bearer = BearerId(1);
    let teid = u32::from(teid);
    Items::one(alloc, Tunnel { bearer, teid })
}

/// A number of three octets, the lowest first.
fn wide(low: u8, middle: u8, high: u8) -> u32
    ensures { result ≡ wide low middle high }
{
    u32::from(low) + 256 * u32::from(middle) + 65536 * u32::from(high)
}

fn status_at(alloc: Global, dl_next: u32, ul_first: u32) -> Result<StatusList, Memory>
    ensures { IfOk result (λ statuses. statuses ≡ status_at dl_next ul_first) }
{
    Items::one(
        alloc,
        SnStatus {
            bearer: BearerId(1),
            dl_next,
            ul_first,
            ul_received: None,
        },
    )
}

/// A modification request with what is not `None`.
fn modification(ue: u8, instance: u8, mode: u8) -> E1Message
    ensures { result ≡ received_order 3 ue instance mode }
{
    E1Message::BearerContextModificationRequest {
        ue: UeId(ue),
        instance: u32::from(instance),
        downlinks: None,
        mode: u32::from(mode),
        peer: None,
        forward_down: None,
        forward_up: None,
        statuses: None,
        du: None,
    }
}

fn received_order(kind: u8, ue: u8, instance: u8, number: u8) -> E1Message
    ensures { result ≡ received_order kind ue instance number }
{
    if kind == 5 {
        return E1Message::BearerContextReleaseCommand {
            ue: UeId(ue),
            instance: u32::from(instance),
            is_final: number == 1,
        };
    }
    modification(ue, instance, number)
}

fn heard_switch(alloc: Global, ue: u8, instance: u8, du: u8, teid: u8) -> Result<E1Message, Memory>
    ensures { IfOk result (λ message. Some message ≡ received_e1 (3 ∷ ue ∷ instance ∷ du ∷ teid ∷ [])) }
{
    let downlinks = tunnel_at(alloc, teid)?;
    Ok(E1Message::BearerContextModificationRequest {
        ue: UeId(ue),
        instance: u32::from(instance),
        downlinks: Some(downlinks),
        mode: 1,
        peer: None,
        forward_down: None,
        forward_up: None,
        statuses: None,
        du: Some(du),
    })
}

/// The two forwarding tunnels of bearer 1.
fn hops_at(alloc: Global, down: u8, up: u8) -> Result<(TunnelList, TunnelList), Memory>
    ensures { IfOk result (λ hops. hops ≡ (tunnel_at down, tunnel_at up)) }
{
    let down = tunnel_at(alloc, down)?;
    match tunnel_at(alloc, up) {
        Ok(up) => Ok((down, up)),
        Err(error) => Err(error),
    }
}

fn heard_freeze(
    alloc: Global,
    ue: u8,
    instance: u8,
    number: u8,
    down: u8,
    up: u8,
) -> Result<E1Message, Memory>
    ensures { IfOk result (λ message. Some message ≡ received_e1 (3 ∷ ue ∷ instance ∷ 1 ∷ number ∷ down ∷ up ∷ [])) }
{
    let (down, up) = hops_at(alloc, down, up)?;
    Ok(E1Message::BearerContextModificationRequest {
        ue: UeId(ue),
        instance: u32::from(instance),
        downlinks: None,
        mode: 2,
        peer: Some(Peer {
            gnb: Gnb::B,
            up: number,
        }),
        forward_down: Some(down),
        forward_up: Some(up),
        statuses: None,
        du: None,
    })
}

/// A modification request with the SN status of bearer 1: where the source stands, the lower two octets of each COUNT and the third of
/// both.
fn heard_status(
    alloc: Global,
    ue: u8,
    instance: u8,
    next: (u8, u8),
    first: (u8, u8),
    high: u8,
) -> Result<E1Message, Memory>
    ensures { IfOk result (λ message. Some message ≡ received_e1 (3 ∷ ue ∷ instance ∷ next.0 ∷ first.0 ∷ next.1 ∷ first.1 ∷ high ∷ [])) }
{
    let (next, first) = (wide(next.0, next.1, high), wide(first.0, first.1, high));
    let statuses = status_at(alloc, next, first)?;
    Ok(E1Message::BearerContextModificationRequest {
        ue: UeId(ue),
        instance: u32::from(instance),
        downlinks: None,
        mode: 3,
        peer: None,
        forward_down: None,
        forward_up: None,
        statuses: Some(statuses),
        du: None,
    })
}

fn received_sn(kind: u8) -> SnBits
    ensures { result ≡ received_sn kind }
{
    if kind == 3 {
        SnBits::Len18
    } else {
        SnBits::Len12
    }
}

fn heard_setup(kind: u8, ue: u8, instance: u8, count: u8, quota: u8, forward: u8) -> E1Message
    ensures { Some result ≡ received_e1 (kind ∷ ue ∷ instance ∷ count ∷ quota ∷ forward ∷ []) }
{
    E1Message::BearerContextSetupRequest {
        ue: UeId(ue),
        instance: u32::from(instance),
        bearers: count % 8 + 1,
        sn: received_sn(kind),
        quota: u16::from(quota) % 256 * 16 + 4,
        forward: forward == 1,
    }
}

fn heard_message(alloc: Global, octets: &[u8]) -> Result<Result<Message, DropReason>, Memory>
    ensures { IfOk result (λ answer. answer_as answer ≡ heard octets.now) }
{
    let message = match octets {
        [_] => return Ok(Err(DropReason::Criticality)),
        [_, instance] => E1Message::E1SetupResponse {
            instance: u32::from(*instance),
        },
        [kind, ue, instance, number] => received_order(*kind, *ue, *instance, *number),
        [_, ue, instance, du, teid] => heard_switch(alloc, *ue, *instance, *du, *teid)?,
        [kind, ue, instance, count, quota, forward] => {
            heard_setup(*kind, *ue, *instance, *count, *quota, *forward)
        }
        [_, ue, instance, _, number, down, up] => {
            heard_freeze(alloc, *ue, *instance, *number, *down, *up)?
        }
        [_, ue, instance, next, first, down, up, high] => {
            heard_status(alloc, *ue, *instance, (*next, *down), (*first, *up), *high)?
        }
        _ => return Ok(Err(DropReason::Undecodable)),
    };
    Ok(Ok(Message::E1(message)))
}
