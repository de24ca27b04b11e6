//! The information elements that are found in the value of a message.

ghost use Rattle.std.specs.Prelude.{◌≡◌, ◌≤◌, ◌^◌, IfOk, IfSome, option_map, option_copied, map};
ghost use Rattle.aper_values.specs.Views.{view, ies_view};
ghost use Rattle.message_defs.specs.profile_defs.Elements as ies;
ghost use Rattle.message_defs.specs.Fields.{to_number, to_ue, to_index, to_flag, to_octets, to_text, to_sn, to_peer, to_tunnels, to_statuses};
ghost use Rattle.message_defs.specs.Places.{element_of, elements_in, the, any};
ghost use Rattle.message_defs.specs.FromValue.{first_rejected, is_used};
ghost use Rattle.message_values.specs.Elements.{element_named, use_of};
ghost use Rattle.message_values.specs.Fitting.{IsFitting, AreFitting, limit_of};

use crate::elements::{ElementName, Use};
use crate::fields::{
    part_at, to_flag, to_half_word, to_index, to_number, to_octet, to_octets, to_peer, to_sn,
    to_statuses, to_text, to_tunnels,
};
use crate::places::REJECT;
use aper_values::value::{Ie, Value};
use gnb_types::items::Memory;
use gnb_types::names::{Gnb, SnBits, UeId};
use gnb_types::octets::Octets;
use gnb_types::plans::{Peer, StatusList, TunnelList};
use std::alloc::Global;

/// The information elements of a message's body.
pub fn elements_in(body: &Value) -> &[Ie]
    ensures { ies_view result.now ≡ elements_in (view body.now) }
{
    match part_at(body, 0) {
        Some(Value::Ies(ies)) => ies.as_slice(),
        _ => &[],
    }
}

/// A message has an element with this id.
fn is_used(id: u16, uses: &[Use]) -> bool
    ensures { result ≡ is_used id (map use_of uses.now) }
{
    for it in uses {
        if it.id() == id {
            return true;
        }
    }
    false
}

/// The id of the first element that the message doesn't have, with criticality reject.
pub fn first_rejected(uses: &[Use], found: &[Ie]) -> Option<u16>
    ensures { result ≡ first_rejected (map use_of uses.now) (ies_view found.now) }
{
    for ie in found {
        if ie.criticality == REJECT && !is_used(ie.id, uses) {
            return Some(ie.id);
        }
    }
    None
}

/// The value of an element; of several that of the first.
fn element_of(found: &[Ie], name: ElementName) -> Option<&Value>
    requires { AreFitting (ies_view found.now) }
    ensures value { option_map view (option_copied result) ≡ element_of (element_named name) (ies_view found.now) }
    ensures fitting { IfSome result (λ v. IsFitting (element_named name).id (view v.now)) }
{
    for ie in found {
        if ie.id == name.id() {
            return Some(&ie.body);
        }
    }
    None
}

// ---- an element that a message has
#[tactic(auto, using(crate::proofs::Shapes::limit_most))]
pub fn the_number(found: &[Ie], name: ElementName) -> u32
    requires { AreFitting (ies_view found.now) }
    ensures { result ≡ the (element_named name) to_number (ies_view found.now) }
{
    match element_of(found, name) {
        Some(value) => to_number(value),
        None => 0,
    }
}

pub fn the_half_word(found: &[Ie], name: ElementName) -> u16
    requires fitting { AreFitting (ies_view found.now) }
    requires small { limit_of (element_named name).id ≤ 2 ^ 16 }
    ensures { result ≡ the (element_named name) to_number (ies_view found.now) }
{
    match element_of(found, name) {
        Some(value) => to_half_word(value),
        None => 0,
    }
}

pub fn the_octet(found: &[Ie], name: ElementName) -> u8
    requires fitting { AreFitting (ies_view found.now) }
    requires small { limit_of (element_named name).id ≤ 2 ^ 8 }
    ensures { result ≡ the (element_named name) to_number (ies_view found.now) }
{
    match element_of(found, name) {
        Some(value) => to_octet(value),
        None => 0,
    }
}

pub fn the_ue(found: &[Ie]) -> UeId
    requires { AreFitting (ies_view found.now) }
    ensures { result ≡ the ies.ue to_ue (ies_view found.now) }
{
    UeId(the_octet(found, ElementName::Ue))
}

pub fn the_index(found: &[Ie], name: ElementName) -> u32
    requires { AreFitting (ies_view found.now) }
    ensures { result ≡ the (element_named name) to_index (ies_view found.now) }
{
    match element_of(found, name) {
        Some(value) => to_index(value),
        None => 0,
    }
}

pub fn the_flag(found: &[Ie], name: ElementName) -> bool
    requires { AreFitting (ies_view found.now) }
    ensures { result ≡ the (element_named name) to_flag (ies_view found.now) }
{
    match element_of(found, name) {
        Some(value) => to_flag(value),
        None => false,
    }
}

pub fn the_sn(found: &[Ie]) -> SnBits
    requires { AreFitting (ies_view found.now) }
    ensures { result ≡ the ies.sn to_sn (ies_view found.now) }
{
    match element_of(found, ElementName::Sn) {
        Some(value) => to_sn(value),
        None => SnBits::Len12,
    }
}

pub fn the_container(alloc: Global, found: &[Ie]) -> Result<Octets, Memory>
    requires { AreFitting (ies_view found.now) }
    ensures { IfOk result (λ octets. octets ≡ the ies.container to_octets (ies_view found.now)) }
{
    match element_of(found, ElementName::Container) {
        Some(value) => Ok(to_octets(alloc, value)?),
        None => Ok(Octets::new(alloc)),
    }
}

pub fn the_name(alloc: Global, found: &[Ie]) -> Result<Octets, Memory>
    requires { AreFitting (ies_view found.now) }
    ensures { IfOk result (λ text. text ≡ the ies.name to_text (ies_view found.now)) }
{
    match element_of(found, ElementName::Name) {
        Some(value) => Ok(to_text(alloc, value)?),
        None => Ok(Octets::new(alloc)),
    }
}

pub fn the_peer(found: &[Ie]) -> Peer
    requires { AreFitting (ies_view found.now) }
    ensures { result ≡ the ies.peer to_peer (ies_view found.now) }
{
    match element_of(found, ElementName::Peer) {
        Some(value) => to_peer(value),
        None => Peer { gnb: Gnb::A, up: 0 },
    }
}

pub fn the_tunnels(alloc: Global, found: &[Ie], name: ElementName) -> Result<TunnelList, Memory>
    requires { AreFitting (ies_view found.now) }
    ensures { IfOk result (λ tunnels. tunnels ≡ the (element_named name) to_tunnels (ies_view found.now)) }
{
    match element_of(found, name) {
        Some(value) => Ok(to_tunnels(alloc, value)?),
        None => Ok(TunnelList::new(alloc)),
    }
}

pub fn the_statuses(alloc: Global, found: &[Ie]) -> Result<StatusList, Memory>
    requires { AreFitting (ies_view found.now) }
    ensures { IfOk result (λ statuses. statuses ≡ the ies.statuses to_statuses (ies_view found.now)) }
{
    match element_of(found, ElementName::Statuses) {
        Some(value) => Ok(to_statuses(alloc, value)?),
        None => Ok(StatusList::new(alloc)),
    }
}

// ---- an element that a message may have
pub fn any_octet(found: &[Ie], name: ElementName) -> Option<u8>
    requires fitting { AreFitting (ies_view found.now) }
    requires small { limit_of (element_named name).id ≤ 2 ^ 8 }
    ensures { result ≡ any (element_named name) to_number (ies_view found.now) }
{
    match element_of(found, name) {
        Some(value) => Some(to_octet(value)),
        None => None,
    }
}

pub fn any_peer(found: &[Ie]) -> Option<Peer>
    requires { AreFitting (ies_view found.now) }
    ensures { result ≡ any ies.peer to_peer (ies_view found.now) }
{
    match element_of(found, ElementName::Peer) {
        Some(value) => Some(to_peer(value)),
        None => None,
    }
}

pub fn any_tunnels(
    alloc: Global,
    found: &[Ie],
    name: ElementName,
) -> Result<Option<TunnelList>, Memory>
    requires { AreFitting (ies_view found.now) }
    ensures { IfOk result (λ tunnels. tunnels ≡ any (element_named name) to_tunnels (ies_view found.now)) }
{
    match element_of(found, name) {
        Some(value) => Ok(Some(to_tunnels(alloc, value)?)),
        None => Ok(None),
    }
}

pub fn any_statuses(alloc: Global, found: &[Ie]) -> Result<Option<StatusList>, Memory>
    requires { AreFitting (ies_view found.now) }
    ensures { IfOk result (λ statuses. statuses ≡ any ies.statuses to_statuses (ies_view found.now)) }
{
    match element_of(found, ElementName::Statuses) {
        Some(value) => Ok(Some(to_statuses(alloc, value)?)),
        None => Ok(None),
    }
}
