//! What an entity hands up for each packet and tick.

use gnb_types::names::SnBits;
use std::alloc::Global;
use std::process::Abort;
use std::test::Fail;
use um::um_pdcp::rx::UmRx;
use um::um_pdcp::{Out, UmError};

/// A packet with this number, whose one octet it is, or a tick; and the COUNTs that are handed up.
type Step = (Option<u8>, &'static [u8]);

/// A packet is missing, and comes too late: the timer has two ticks.
const GAP: [Step; 5] = [
    (Some(0), &[0]),
    (Some(2), &[]),
    (None, &[]),
    (None, &[2]),
    (Some(3), &[3]),
];

/// What is missing comes in time, and the timer stops.
const FILLED: [Step; 5] = [
    (Some(1), &[]),
    (None, &[]),
    (Some(0), &[0, 1]),
    (None, &[]),
    (Some(2), &[2]),
];

/// A second gap opens while the timer runs: it is waited for with all ticks, from the first timer's end on.
const TWO_GAPS: [Step; 7] = [
    (Some(1), &[]),
    (None, &[]),
    (Some(3), &[]),
    (None, &[1]),
    (None, &[]),
    (None, &[3]),
    (None, &[]),
];

/// What follows without a gap on RX_REORD is handed up with what is below it.
const FOLLOWED: [Step; 4] = [(Some(1), &[]), (Some(2), &[]), (None, &[]), (None, &[1, 2])];

fn is_out(out: &Out, count: u8) -> bool {
    out.count == u32::from(count) && out.packet.as_slice() == [count].as_slice()
}

fn are_counts(outs: &[Out], counts: &[u8]) -> bool {
    outs.len() == counts.len()
        && outs
            .iter()
            .zip(counts)
            .all(|(out, count)| is_out(out, *count))
}

fn hands_up(alloc: Global, rx: &mut UmRx, step: Step) -> bool {
    let outs = match step.0 {
        Some(number) => rx.take(alloc, u32::from(number), &[number]),
        None => rx.tick(alloc),
    };
    match outs {
        Ok(outs) => are_counts(outs.as_slice(), step.1),
        Err(_) => false,
    }
}

/// Whether an entity with a timer of two ticks does all steps.
fn does_all(alloc: Global, steps: &[Step]) -> bool {
    let Ok(mut rx) = UmRx::new(alloc, SnBits::Len12, 2) else {
        return false;
    };
    for step in steps {
        if !hands_up(alloc, &mut rx, *step) {
            return false;
        }
    }
    true
}

#[test]
fn scripts(rt: HostRuntime) {
    assert!(rt; does_all(rt.alloc(), &GAP));
    assert!(rt; does_all(rt.alloc(), &FILLED));
    assert!(rt; does_all(rt.alloc(), &TWO_GAPS));
    assert!(rt; does_all(rt.alloc(), &FOLLOWED));
}

/// Numbers that are refused after COUNT 0 was handed up and COUNT 2 is stored.
const REFUSED: [(u32, UmError); 4] = [
    (0, UmError::Late { count: 0 }),
    (2, UmError::Duplicate { count: 2 }),
    (1025, UmError::Ahead { count: 1025 }),
    (4000, UmError::NoCount),
];

/// Why an entity doesn't take a number, if it is the reason.
fn is_refused(alloc: Global, rx: &mut UmRx, number: u32, error: UmError) -> bool {
    match rx.take(alloc, number, &[1]) {
        Ok(_) => false,
        Err(reason) => reason == error,
    }
}

#[test]
fn refusals(rt: HostRuntime) -> Result<(), Fail> {
    let alloc = rt.alloc();
    let mut rx = UmRx::new(alloc, SnBits::Len12, 1000)?;
    assert!(rt;
        hands_up(alloc, &mut rx, (Some(0), &[0])) && hands_up(alloc, &mut rx, (Some(2), &[]))
    );
    for &(number, error) in &REFUSED {
        assert!(rt; is_refused(alloc, &mut rx, number, error));
    }
    assert!(rt; rx.deliv() == 1 && rx.next() == 3 && rx.stored() == 1);
    Ok(())
}
