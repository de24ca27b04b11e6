//! Values of fields, and fields of values. What is found where no value of the field's type stands means nothing: 0, or nothing there.

ghost use Rattle.std.specs.Prelude.{◌≡◌, ◌<◌, ◌^◌, IfOk, Option, option_map, option_copied};
ghost use Rattle.std.specs.List.{All};
ghost use Rattle.aper_defs.specs.Values as seen;
ghost use Rattle.aper_values.specs.Views.{view, values_view, options_view};
ghost use Rattle.message_defs.specs.Fields.{from_number, to_number, from_ue, to_ue, to_index, to_flag, to_octets, to_text, gnb_index, gnb_at, sn_index, sn_at, from_sn, to_sn, from_peer, to_peer, from_tunnel, to_tunnel, from_tunnels, to_tunnels, from_status, to_status, from_statuses, to_statuses};
ghost use Rattle.message_values.specs.Parts.{option_at, part_at, members_in, received_of};
ghost use Rattle.message_values.specs.Fitting.{IsTunnel, IsStatus};

use aper_values::make::{
    bit_string, components, enumeral, integer, listed, octet_string, printable_string,
};
use aper_values::value::Value;
use gnb_types::bits::Bits;
use gnb_types::items::Memory;
use gnb_types::names::{BearerId, Gnb, SnBits, UeId};
use gnb_types::octets::Octets;
use gnb_types::plans::{Peer, SnStatus, StatusList, Tunnel, TunnelList};
use std::alloc::Global;

// ---- numbers, flags and strings
pub fn from_number(number: u32) -> Value
    ensures { view result ≡ from_number number }
{
    let number = i128::from(number);
    integer(number)
}

pub fn to_number(value: &Value) -> u32
    requires { to_number (view value.now) < 2 ^ 32 }
    ensures { result ≡ to_number (view value.now) }
{
    match value {
        Value::Int(number) if *number >= 0 => *number as u32,
        _ => 0,
    }
}

/// A number of 16 bits.
pub fn to_half_word(value: &Value) -> u16
    requires { to_number (view value.now) < 2 ^ 16 }
    ensures { result ≡ to_number (view value.now) }
{
    to_number(value) as u16
}

/// A number of 8 bits.
pub fn to_octet(value: &Value) -> u8
    requires { to_number (view value.now) < 2 ^ 8 }
    ensures { result ≡ to_number (view value.now) }
{
    to_number(value) as u8
}

pub fn from_ue(ue: UeId) -> Value
    ensures { view result ≡ from_ue ue }
{
    from_number(u32::from(ue.0))
}

pub fn to_index(value: &Value) -> u32
    ensures { result ≡ to_index (view value.now) }
{
    match value {
        Value::Enum(index) => *index,
        _ => 0,
    }
}

pub fn to_flag(value: &Value) -> bool
    ensures { result ≡ to_flag (view value.now) }
{
    match value {
        Value::Bool(flag) => *flag,
        _ => false,
    }
}

pub fn from_octets(alloc: Global, octets: &Octets) -> Result<Value, Memory>
    ensures { IfOk result (λ v. view v ≡ seen.octets octets.now) }
{
    let octets = Octets::from_slice(alloc, octets.as_slice())?;
    Ok(octet_string(octets))
}

pub fn to_octets(alloc: Global, value: &Value) -> Result<Octets, Memory>
    ensures { IfOk result (λ octets. octets ≡ to_octets (view value.now)) }
{
    match value {
        Value::Octets(octets) => Ok(Octets::from_slice(alloc, octets.as_slice())?),
        _ => Ok(Octets::new(alloc)),
    }
}

pub fn from_text(alloc: Global, characters: &Octets) -> Result<Value, Memory>
    ensures { IfOk result (λ v. view v ≡ seen.text characters.now) }
{
    let characters = Octets::from_slice(alloc, characters.as_slice())?;
    Ok(printable_string(characters))
}

pub fn to_text(alloc: Global, value: &Value) -> Result<Octets, Memory>
    ensures { IfOk result (λ text. text ≡ to_text (view value.now)) }
{
    match value {
        Value::Text(characters) => Ok(Octets::from_slice(alloc, characters.as_slice())?),
        _ => Ok(Octets::new(alloc)),
    }
}

pub fn from_gnb(gnb: Gnb) -> Value
    ensures { view result ≡ seen.enumeral (gnb_index gnb) }
{
    match gnb {
        Gnb::A => enumeral(0),
        Gnb::B => enumeral(1),
    }
}

pub fn to_gnb(value: &Value) -> Gnb
    ensures { result ≡ gnb_at (to_index (view value.now)) }
{
    if to_index(value) == 0 { Gnb::A } else { Gnb::B }
}

pub fn from_sn(sn: SnBits) -> Value
    ensures { view result ≡ from_sn sn }
{
    match sn {
        SnBits::Len12 => enumeral(0),
        SnBits::Len18 => enumeral(1),
    }
}

pub fn to_sn(value: &Value) -> SnBits
    ensures { result ≡ to_sn (view value.now) }
{
    if to_index(value) == 0 {
        SnBits::Len12
    } else {
        SnBits::Len18
    }
}

// ---- SEQUENCEs
/// A SEQUENCE of these components, with no additions.
pub fn sequence<const N: usize>(alloc: Global, parts: [Option<Value>; N]) -> Result<Value, Memory>
    ensures { IfOk result (λ v. view v ≡ seen.components (options_view parts.entry) seen.no_options) }
{
    let root = Vec::from_array(alloc, parts)?;
    Ok(components(root, Vec::new(alloc)))
}

/// The one with this number, where it is there.
fn option_at(parts: &[Option<Value>], number: usize) -> Option<&Value>
    ensures { option_map view (option_copied result) ≡ option_at number (options_view parts.now) }
{
    match parts.get(number) {
        Some(part) => part.as_ref(),
        None => None,
    }
}

/// The component of a SEQUENCE with this number, where it is there.
pub fn part_at(value: &Value, number: usize) -> Option<&Value>
    ensures { option_map view (option_copied result) ≡ part_at number (view value.now) }
{
    match value {
        Value::Seq { root, .. } => option_at(root, number),
        _ => None,
    }
}

// ---- a CU-UP, and tunnels
pub fn from_peer(alloc: Global, peer: Peer) -> Result<Value, Memory>
    ensures { IfOk result (λ v. view v ≡ from_peer peer) }
{
    let up = from_number(u32::from(peer.up));
    Ok(sequence(alloc, [Some(from_gnb(peer.gnb)), Some(up)])?)
}

pub fn to_peer(value: &Value) -> Peer
    requires { (to_peer (view value.now)).up < 2 ^ 8 }
    ensures { result ≡ to_peer (view value.now) }
{
    let gnb = part_at(value, 0);
    let up = part_at(value, 1);
    if let Some(gnb) = gnb
        && let Some(up) = up
    {
        return Peer {
            gnb: to_gnb(gnb),
            up: to_octet(up),
        };
    }
    Peer { gnb: Gnb::A, up: 0 }
}

fn from_tunnel(alloc: Global, tunnel: Tunnel) -> Result<Value, Memory>
    ensures { IfOk result (λ v. view v ≡ from_tunnel tunnel) }
{
    let bearer = from_number(u32::from(tunnel.bearer.0));
    Ok(sequence(alloc, [Some(bearer), Some(from_number(tunnel.teid))])?)
}

fn to_tunnel(value: &Value) -> Tunnel
    requires { IsTunnel (to_tunnel (view value.now)) }
    ensures { result ≡ to_tunnel (view value.now) }
{
    let bearer = part_at(value, 0);
    let teid = part_at(value, 1);
    if let Some(bearer) = bearer
        && let Some(teid) = teid
    {
        return Tunnel {
            bearer: BearerId(to_octet(bearer)),
            teid: to_number(teid),
        };
    }
    Tunnel {
        bearer: BearerId(0),
        teid: 0,
    }
}

pub fn from_tunnels(alloc: Global, tunnels: &[Tunnel]) -> Result<Value, Memory>
    ensures { IfOk result (λ v. view v ≡ from_tunnels tunnels.now) }
{
    let mut members = Vec::new(alloc);
    for tunnel in tunnels {
        let member = from_tunnel(alloc, *tunnel)?;
        members.push(member)?;
    }
    Ok(listed(members))
}

pub fn to_tunnels(alloc: Global, value: &Value) -> Result<TunnelList, Memory>
    requires { All IsTunnel (to_tunnels (view value.now)) }
    ensures { IfOk result (λ tunnels. tunnels ≡ to_tunnels (view value.now)) }
{
    let mut tunnels = TunnelList::new(alloc);
    for member in members_in(value) {
        tunnels.push(to_tunnel(member))?;
    }
    Ok(tunnels)
}

/// The members of a SEQUENCE OF.
fn members_in(value: &Value) -> &[Value]
    ensures { values_view result.now ≡ members_in (view value.now) }
{
    match value {
        Value::List(members) => members.as_slice(),
        _ => &[],
    }
}

// ---- SN statuses
fn from_status(alloc: Global, status: &SnStatus) -> Result<Value, Memory>
    ensures { IfOk result (λ v. view v ≡ from_status status.now) }
{
    let received = match &status.ul_received {
        Some(bits) => Some(bit_string(Bits::from_slice(alloc, bits.as_slice())?)),
        None => None,
    };
    let bearer = from_number(u32::from(status.bearer.0));
    let dl_next = from_number(status.dl_next);
    let ul_first = from_number(status.ul_first);
    Ok(sequence(
        alloc,
        [Some(bearer), Some(dl_next), Some(ul_first), received],
    )?)
}

fn to_received(alloc: Global, value: &Value) -> Result<Option<Bits>, Memory>
    ensures { IfOk result (λ received. received ≡ received_of (part_at 3 (view value.now))) }
{
    match part_at(value, 3) {
        Some(Value::Bits(bits)) => Ok(Some(Bits::from_slice(alloc, bits.as_slice())?)),
        _ => Ok(None),
    }
}

fn to_status(alloc: Global, value: &Value) -> Result<SnStatus, Memory>
    requires { IsStatus (to_status (view value.now)) }
    ensures { IfOk result (λ status. status ≡ to_status (view value.now)) }
{
    let bearer = part_at(value, 0);
    let dl_next = part_at(value, 1);
    let ul_first = part_at(value, 2);
    if let Some(bearer) = bearer
        && let Some(dl_next) = dl_next
        && let Some(ul_first) = ul_first
    {
        return Ok(SnStatus {
            bearer: BearerId(to_octet(bearer)),
            dl_next: to_number(dl_next),
            ul_first: to_number(ul_first),
            ul_received: to_received(alloc, value)?,
        });
    }
    Ok(SnStatus {
        bearer: BearerId(0),
        dl_next: 0,
        ul_first: 0,
        ul_received: None,
    })
}

pub fn from_statuses(alloc: Global, statuses: &[SnStatus]) -> Result<Value, Memory>
    ensures { IfOk result (λ v. view v ≡ from_statuses statuses.now) }
{
    let mut members = Vec::new(alloc);
    for status in statuses {
        let member = from_status(alloc, status)?;
        members.push(member)?;
    }
    Ok(listed(members))
}

pub fn to_statuses(alloc: Global, value: &Value) -> Result<StatusList, Memory>
    requires { All IsStatus (to_statuses (view value.now)) }
    ensures { IfOk result (λ statuses. statuses ≡ to_statuses (view value.now)) }
{
    let mut statuses = StatusList::new(alloc);
    for member in members_in(value) {
        let status = to_status(alloc, member)?;
        statuses.push(status)?;
    }
    Ok(statuses)
}

// ---- what may be there
pub fn from_any_octet(octet: Option<u8>) -> Option<Value>
    ensures { option_map view result ≡ option_map from_number octet }
{
    match octet {
        Some(octet) => Some(from_number(u32::from(octet))),
        None => None,
    }
}

pub fn from_any_peer(alloc: Global, peer: Option<Peer>) -> Result<Option<Value>, Memory>
    ensures { IfOk result (λ v. option_map view v ≡ option_map from_peer peer) }
{
    match peer {
        Some(peer) => Ok(Some(from_peer(alloc, peer)?)),
        None => Ok(None),
    }
}

pub fn from_any_tunnels(
    alloc: Global,
    tunnels: &Option<TunnelList>,
) -> Result<Option<Value>, Memory>
    ensures { IfOk result (λ v. option_map view v ≡ option_map from_tunnels tunnels.now) }
{
    match tunnels {
        Some(tunnels) => Ok(Some(from_tunnels(alloc, tunnels.as_slice())?)),
        None => Ok(None),
    }
}

pub fn from_any_statuses(
    alloc: Global,
    statuses: &Option<StatusList>,
) -> Result<Option<Value>, Memory>
    ensures { IfOk result (λ v. option_map view v ≡ option_map from_statuses statuses.now) }
{
    match statuses {
        Some(statuses) => Ok(Some(from_statuses(alloc, statuses.as_slice())?)),
        None => Ok(None),
    }
}
