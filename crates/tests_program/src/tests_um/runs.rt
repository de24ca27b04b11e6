//! Whole runs, worked by hand.

use gnb_types::names::SnBits;
use gnb_types::octets::Octets;
use std::alloc::Global;
use std::process::Abort;
use std::test::Fail;
use um::run::world::UmWorld;
use um_defs::types::event::UmEvent;
use um_defs::types::line::UmLine;
use um_defs::types::stop::{UmLines, UmStop};

#[derive(Clone, Copy)]
enum Event {
    Offer(u8),
    Give(u32),
    Tick,
    Ask,
}

/// A line, with the octets of its PDU or packet.
#[derive(Clone, Copy)]
enum Line {
    Put(u32, u32, &'static [u8]),
    Got(u32, u32, &'static [u8]),
    Deliver(u32, &'static [u8]),
    DropLate,
    Waiting(u32, u32, u32),
}

fn made(alloc: Global, event: Event) -> Option<UmEvent> {
    Some(match event {
        Event::Offer(octet) => UmEvent::Offer {
            packet: Octets::from_slice(alloc, &[octet]).ok()?,
        },
        Event::Give(number) => UmEvent::Give { number },
        Event::Tick => UmEvent::Tick,
        Event::Ask => UmEvent::Ask,
    })
}

fn is_line(line: &UmLine, wanted: Line) -> bool {
    match (line, wanted) {
        (UmLine::Put { number, count, pdu }, Line::Put(n, c, octets)) => {
            *number == n && *count == c && pdu.as_slice() == octets
        }
        (UmLine::Got { number, count, pdu }, Line::Got(n, c, octets)) => {
            *number == n && *count == c && pdu.as_slice() == octets
        }
        (UmLine::Deliver { count, packet }, Line::Deliver(c, octets)) => {
            *count == c && packet.as_slice() == octets
        }
        (UmLine::DropLate, Line::DropLate) => true,
        (
            UmLine::Waiting {
                deliv,
                next,
                stored,
            },
            Line::Waiting(d, n, s),
        ) => { *deliv == d && *next == n && *stored == s }
        _ => false,
    }
}

fn are_lines(lines: &[UmLine], wanted: &[Line]) -> bool {
    lines.len() == wanted.len() && lines.iter().zip(wanted).all(|(line, w)| is_line(line, *w))
}

/// Applies an event, if its numbers are those that scripts have.
fn apply(alloc: Global, world: &mut UmWorld, step: Event) -> Option<Result<UmLines, UmStop>> {
    let event = made(alloc, step)?;
    match &event {
        UmEvent::Offer { packet } if packet.len() == 0 => None,
        UmEvent::Give { number } if *number == 0 => None,
        UmEvent::Offer { .. } | UmEvent::Give { .. } | UmEvent::Tick | UmEvent::Ask => Some(
            world.apply(alloc, &event),
        ),
        _ => None,
    }
}

fn prints(alloc: Global, world: &mut UmWorld, step: Event, wanted: &[Line]) -> bool {
    match apply(alloc, world, step) {
        Some(Ok(lines)) => are_lines(lines.as_slice(), wanted),
        _ => false,
    }
}

/// A packet is missing until the timer of two ticks has expired, and comes too late.
const LATE: [(Event, &[Line]); 9] = [
    (Event::Offer(1), &[Line::Put(1, 0, &[0x80, 0x00, 0x01])]),
    (Event::Offer(2), &[Line::Put(2, 1, &[0x80, 0x01, 0x02])]),
    (Event::Offer(3), &[Line::Put(3, 2, &[0x80, 0x02, 0x03])]),
    (
        Event::Give(1),
        &[Line::Got(1, 0, &[0x80, 0x00, 0x01]), Line::Deliver(0, &[1])],
    ),
    (Event::Give(3), &[Line::Got(3, 2, &[0x80, 0x02, 0x03])]),
    (Event::Tick, &[]),
    (Event::Tick, &[Line::Deliver(2, &[3])]),
    (
        Event::Give(2),
        &[Line::Got(2, 1, &[0x80, 0x01, 0x02]), Line::DropLate],
    ),
    (Event::Ask, &[Line::Waiting(3, 3, 0)]),
];

#[test]
fn a_late_packet(rt: HostRuntime) -> Result<(), Fail> {
    let alloc = rt.alloc();
    let mut world = UmWorld::new(alloc, SnBits::Len12, 2)?;
    for &(step, wanted) in &LATE {
        assert!(rt; prints(alloc, &mut world, step, wanted));
    }
    Ok(())
}

/// Whether an offer ends the run with so many COUNTs outstanding, in so many lines.
fn ends(alloc: Global, world: &mut UmWorld, outstanding: u32, most: u32, count: usize) -> bool {
    match apply(alloc, world, Event::Offer(0)) {
        Some(
            Err(
                UmStop::Outstanding {
                    span,
                    window,
                    lines,
                },
            ),
        ) => { span == outstanding && window == most && lines.len() == count }
        _ => false,
    }
}

#[test]
fn half_a_space_is_outstanding(rt: HostRuntime) -> Result<(), Fail> {
    let alloc = rt.alloc();
    let mut world = UmWorld::new(alloc, SnBits::Len12, 2)?;
    for _ in 0..2_048 {
        assert!(rt; matches!(apply(alloc, &mut world, Event::Offer(0)), Some(Ok(_))));
    }
    // the line of the PDU, and that of what is outstanding; and from then on none
    assert!(rt; ends(alloc, &mut world, 2_049, 2_048, 2));
    assert!(rt; ends(alloc, &mut world, 2_049, 2_048, 0));
    Ok(())
}
