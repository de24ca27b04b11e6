//! Lines written by hand: events, what is wrong with each of their words, and lines of a transcript with their text.

use gnb_types::names::{BearerId, Dir, Gnb, NodeId, UeId};
use gnb_types::octets::{Memory, Octets};
use gnb_types::reasons::{CauseName, DropReason, HeldReason, RefuseReason};
use scenario_text::event::TextReason;
use scenario_text::line::{Item, Link, Message, OutLine};
use scenario_text::print::print_line;
use scenario_text::read::{TextError, is_skipped, read_event};
use std::alloc::Global;
use std::process::Abort;

/// Plans: lines with a wrong word, and the reason of the first.
const PLANS: [(&str, TextReason); 21] = [
    ("Static u1 A 1 1 12 1 64", TextReason::Word),
    ("static", TextReason::Word),
    ("static u17 A 1 1 12 1 64", TextReason::Name),
    ("static u1 C 1 1 12 1 64", TextReason::Name),
    ("static u1 A 3 1 12 1 64", TextReason::Number),
    ("static u1 A 1 0 12 1 64", TextReason::Number),
    ("static u1 A 1 1 13 1 64", TextReason::Number),
    ("static u1 A 1 1 12 9 64", TextReason::Number),
    ("static u1 A 1 1 12 1 3", TextReason::Number),
    ("static u1 A 1 1 12 1 4097", TextReason::Number),
    ("static u1 A 1 1 12 1 064", TextReason::Number),
    ("static u1 A 1 1 12 1", TextReason::Word),
    ("static u1 A 1 1 12 1 64 1", TextReason::Extra),
    ("attach u0 A 1 1 12 1 64", TextReason::Name),
    ("attach u1 a 1 1 12 1 64", TextReason::Name),
    ("attach u1 A 01 1 12 1 64", TextReason::Number),
    ("attach u1 A 1 +1 12 1 64", TextReason::Number),
    ("attach u1 A 1 1 012 1 64", TextReason::Number),
    ("attach u1 A 1 1 12 0 64", TextReason::Number),
    ("attach u1 A 1 1 12 1 x", TextReason::Number),
    ("attach u1 A 1 1 12 1 64 ", TextReason::Extra),
];

/// Offers and radios: lines with a wrong word, and the reason of the first.
const RADIOS: [(&str, TextReason); 26] = [
    ("offer", TextReason::Word),
    ("offer u17 b1 dl 45", TextReason::Name),
    ("offer u01 b1 dl 45", TextReason::Name),
    ("offer u1 b9 dl 45", TextReason::Name),
    ("offer u1 b0 dl 45", TextReason::Name),
    ("offer u1 b1 DL 45", TextReason::Word),
    ("offer u1 b1 45", TextReason::Word),
    ("offer u1 b1 dl 4", TextReason::Hex),
    ("offer u1 b1 dl 4G", TextReason::Hex),
    ("offer u1 b1 dl 454", TextReason::Hex),
    ("offer u1 b1 dl ", TextReason::Hex),
    ("offer u1 b1 dl", TextReason::Word),
    ("offer u1 b1 dl 45 ", TextReason::Extra),
    ("offer  u1 b1 dl 45", TextReason::Name),
    ("offer u17 b9 xl 4", TextReason::Name),
    ("air x b1 dl", TextReason::Name),
    ("air u1 u1 dl", TextReason::Name),
    ("air u1 b1 d", TextReason::Word),
    ("air u1 b1", TextReason::Word),
    ("air u1 b1 dl dl", TextReason::Extra),
    ("ack x b1 dl", TextReason::Name),
    ("ack u1 u1 dl", TextReason::Name),
    ("ack u1 b1 d", TextReason::Word),
    ("ack u1 b1", TextReason::Word),
    ("ack u1 b1 dl dl", TextReason::Extra),
    ("air u1 b1 dl\r", TextReason::Word),
];

/// Tunnels and messages: lines with a wrong word, and the reason of the first.
const LINKS: [(&str, TextReason); 25] = [
    ("get", TextReason::Word),
    ("get A.up1", TextReason::Number),
    ("get A.up3/1", TextReason::Name),
    ("get C.up1/1", TextReason::Name),
    ("get /1", TextReason::Name),
    ("get A.up1/0", TextReason::Number),
    ("get A.up1/01", TextReason::Number),
    ("get A.up1/4294967296", TextReason::Number),
    ("get A.up1/1/1", TextReason::Number),
    ("get A.up1/", TextReason::Number),
    ("get A.up1/1 1", TextReason::Extra),
    ("give 5", TextReason::Number),
    ("give #0", TextReason::Number),
    ("give #", TextReason::Number),
    ("give #01", TextReason::Number),
    ("give #4294967296", TextReason::Number),
    ("give", TextReason::Word),
    ("give #1 2", TextReason::Extra),
    ("lose", TextReason::Word),
    ("lose #", TextReason::Number),
    ("lose #A.du1/2", TextReason::Number),
    ("lose A.du1", TextReason::Number),
    ("lose 3", TextReason::Name),
    ("lose A.du3/2", TextReason::Name),
    ("lose #3 4", TextReason::Extra),
];

/// Terminals: lines with a wrong word, and the reason of the first.
const UES: [(&str, TextReason); 29] = [
    ("poll u1", TextReason::Word),
    ("poll b2 b2", TextReason::Name),
    ("poll u1 b", TextReason::Name),
    ("poll u1 b2 dl", TextReason::Extra),
    ("ask u1", TextReason::Word),
    ("ask b2 b2", TextReason::Name),
    ("ask u1 b", TextReason::Name),
    ("ask u1 b2 dl", TextReason::Extra),
    ("fail", TextReason::Word),
    ("fail 3", TextReason::Name),
    ("fail u3 b1", TextReason::Extra),
    ("arrive", TextReason::Word),
    ("arrive 3", TextReason::Name),
    ("arrive u3 b1", TextReason::Extra),
    ("return", TextReason::Word),
    ("return 3", TextReason::Name),
    ("return u3 b1", TextReason::Extra),
    ("cancel", TextReason::Word),
    ("cancel 3", TextReason::Name),
    ("cancel u3 b1", TextReason::Extra),
    ("release", TextReason::Word),
    ("release 3", TextReason::Name),
    ("release u3 b1", TextReason::Extra),
    ("handover u B 1 2", TextReason::Name),
    ("handover u1 D 1 2", TextReason::Name),
    ("handover u1 B 3 2", TextReason::Number),
    ("handover u1 B 1 2x", TextReason::Number),
    ("handover u1 B 1", TextReason::Word),
    ("handover u1 B 1 2 12", TextReason::Extra),
];

/// The rest: lines with a wrong word, and the reason of the first.
const OTHERS: [(&str, TextReason); 27] = [
    ("start ", TextReason::Extra),
    ("start u1", TextReason::Extra),
    ("START", TextReason::Word),
    ("pump ", TextReason::Extra),
    ("pump u1", TextReason::Extra),
    ("PUMP", TextReason::Word),
    ("tick ", TextReason::Extra),
    ("tick u1", TextReason::Extra),
    ("TICK", TextReason::Word),
    ("settle ", TextReason::Extra),
    ("settle u1", TextReason::Extra),
    ("SETTLE", TextReason::Word),
    ("inject", TextReason::Word),
    ("inject A.du A.cp 00", TextReason::Name),
    ("inject A.du1 A.up 00", TextReason::Name),
    ("inject A.du1 A.cp", TextReason::Word),
    ("inject A.du1 A.cp 0", TextReason::Hex),
    ("inject A.du1 A.cp 00 ", TextReason::Extra),
    ("inject A.up1/0 00", TextReason::Number),
    ("inject A.up1/3 0x", TextReason::Hex),
    ("inject A.up1/3", TextReason::Word),
    ("inject A.du1/1 A.cp 00", TextReason::Hex),
    ("", TextReason::Word),
    ("jump", TextReason::Word),
    (" air u1 b1 dl", TextReason::Word),
    ("module builtin", TextReason::Word),
    ("; a remark", TextReason::Word),
];

fn is_refused(alloc: Global, line: &str, reason: TextReason) -> bool {
    match read_event(alloc, line.as_bytes()) {
        Ok(event) => {
            drop(event);
            false
        }
        Err(error) => error == TextError::Refused(reason),
    }
}

/// Each of these lines is refused for its reason.
fn are_refused(rt: &impl Abort, alloc: Global, lines: &[(&str, TextReason)]) {
    for &(line, reason) in lines {
        assert!(rt; is_refused(alloc, line, reason), "{line}");
    }
}

#[test]
fn wrong_lines(rt: HostRuntime) {
    are_refused(&rt, rt.alloc(), &PLANS);
    are_refused(&rt, rt.alloc(), &RADIOS);
    are_refused(&rt, rt.alloc(), &LINKS);
    are_refused(&rt, rt.alloc(), &UES);
    are_refused(&rt, rt.alloc(), &OTHERS);
}

/// Events that are read, and how their line shows them again.
const EVENTS: [(&str, &str); 32] = [
    ("static u1 A 1 1 12 1 64", "> static u1 A 1 1 12 1 64"),
    ("attach u16 B 2 2 18 8 4096", "> attach u16 B 2 2 18 8 4096"),
    ("tick", "> tick"),
    ("offer u16 b8 ul 00aBcDeF", "> offer u16 b8 ul 00ABCDEF"),
    ("get core/7", "> get core/7"),
    ("air u2 b8 ul", "> air u2 b8 ul"),
    ("give #1", "> give #1"),
    ("lose A.du1/2", "> lose A.du1/2"),
    ("fail u3", "> fail u3"),
    ("cancel u3", "> cancel u3"),
    ("inject A.du1 A.cp 0aF0", "> inject A.du1 A.cp 0AF0"),
    ("static u16 B 2 2 18 8 4096", "> static u16 B 2 2 18 8 4096"),
    ("start", "> start"),
    ("settle", "> settle"),
    ("get A.up1/1", "> get A.up1/1"),
    ("get u16/10", "> get u16/10"),
    ("ack u1 b1 dl", "> ack u1 b1 dl"),
    ("give #4294967295", "> give #4294967295"),
    ("poll u1 b2", "> poll u1 b2"),
    ("arrive u3", "> arrive u3"),
    ("release u3", "> release u3"),
    ("inject A.up1/3 00", "> inject A.up1/3 00"),
    ("attach u1 A 1 1 12 1 64", "> attach u1 A 1 1 12 1 64"),
    ("pump", "> pump"),
    ("offer u1 b1 dl 45", "> offer u1 b1 dl 45"),
    ("get B.du2/4294967295", "> get B.du2/4294967295"),
    ("air u1 b1 dl", "> air u1 b1 dl"),
    ("ack u2 b8 ul", "> ack u2 b8 ul"),
    ("lose #3", "> lose #3"),
    ("ask u1 b2", "> ask u1 b2"),
    ("return u3", "> return u3"),
    ("handover u1 B 1 2", "> handover u1 B 1 2"),
];

/// Whether a line of a transcript has this text.
fn has_text(alloc: Global, line: &OutLine, text: &str) -> bool {
    match print_line(alloc, line) {
        Ok(shown) => shown.as_slice() == text.as_bytes(),
        Err(_) => false,
    }
}

/// The same, of a line that isn't needed any more.
fn shows(alloc: Global, line: OutLine, text: &str) -> bool {
    let is_text = has_text(alloc, &line, text);
    drop(line);
    is_text
}

/// Whether a line is read, and its event has this text.
fn is_shown(alloc: Global, line: &str, text: &str) -> bool {
    match read_event(alloc, line.as_bytes()) {
        Ok(event) => shows(alloc, OutLine::Happens { event }, text),
        Err(_) => false,
    }
}

#[test]
fn events(rt: HostRuntime) {
    for &(line, text) in &EVENTS {
        assert!(rt; is_shown(rt.alloc(), line, text), "{line}");
    }
    assert!(rt; is_skipped(b"") && is_skipped(b"; air u1 b1 dl") && !is_skipped(b" ;"));
}

const UP: Link = Link::Tunnel {
    end: NodeId::CuUp(Gnb::A, 1),
    teid: 1,
};

const CP: NodeId = NodeId::CuCp(Gnb::A);

const RADIO: Link = Link::Radio {
    ue: UeId(1),
    bearer: BearerId(1),
    dir: Dir::Dl,
    epoch: 1,
};

fn item(alloc: Global, count: Option<u32>, bytes: &[u8]) -> Result<Item, Memory> {
    Ok(Item {
        ue: UeId(1),
        bearer: BearerId(1),
        dir: Dir::Dl,
        count,
        bytes: Octets::from_slice(alloc, bytes)?,
    })
}

fn shows_put(alloc: Global, item: Item, text: &str) -> bool {
    shows(alloc, OutLine::Put { link: UP, item }, text)
}

fn shows_got(alloc: Global, item: Item, text: &str) -> bool {
    shows(alloc, OutLine::Got { link: RADIO, item }, text)
}

fn shows_packet(alloc: Global, packet: Octets, text: &str) -> bool {
    let line = OutLine::Deliver {
        ue: UeId(1),
        bearer: BearerId(2),
        dir: Dir::Ul,
        count: 0,
        packet,
    };
    shows(alloc, line, text)
}

/// Lines that show an item or a packet.
#[test]
fn items(rt: HostRuntime) -> Result<(), Memory> {
    let alloc = rt.alloc();
    let n3 = item(alloc, None, &[0x30, 0xff, 0, 1, 0, 0, 0, 1, 0x45])?;
    assert!(rt; shows_put(alloc, n3, "put A.up1/1 u1 b1 dl - 30FF00010000000145"));
    let pdu = item(alloc, Some(0), &[0x80, 0, 0x45])?;
    assert!(rt; shows_got(alloc, pdu, "got r/u1/b1/dl/1 u1 b1 dl 0 800045"));
    let packet = Octets::from_slice(alloc, &[0x0a])?;
    assert!(rt; shows_packet(alloc, packet, "deliver u1 b2 ul 0 0A"));
    Ok(())
}

fn setup(alloc: Global, ue: u8) -> Result<Message, Memory> {
    Ok(Message {
        number: 12,
        from: NodeId::CuCp(Gnb::A),
        to: NodeId::Du(Gnb::A, 1),
        ue,
        bytes: Octets::from_slice(alloc, &[0x00, 0x2f])?,
    })
}

fn shows_put_message(alloc: Global, message: Message, text: &str) -> bool {
    shows(alloc, OutLine::PutMessage { message }, text)
}

fn shows_got_message(alloc: Global, message: Message, text: &str) -> bool {
    shows(alloc, OutLine::GotMessage { message }, text)
}

/// Lines that show a message.
#[test]
fn messages(rt: HostRuntime) -> Result<(), Memory> {
    let alloc = rt.alloc();
    let message = setup(alloc, 0)?;
    assert!(rt; shows_put_message(alloc, message, "put #12 A.cp A.du1 u0 002F"));
    let message = setup(alloc, 16)?;
    assert!(rt; shows_got_message(alloc, message, "got #12 A.cp A.du1 u16 002F"));
    assert!(rt; shows(alloc, OutLine::LostMessage { message: 3 }, "lost #3 1"));
    Ok(())
}

/// Lines of each other kind, and their texts.
const OTHER_LINES: [(OutLine, &str); 14] = [
    (
        OutLine::Lost {
            link: RADIO,
            items: 2,
        },
        "lost r/u1/b1/dl/1 2",
    ),
    (OutLine::Lost { link: UP, items: 1 }, "lost A.up1/1 1"),
    (
        OutLine::Drop {
            node: CP,
            reason: DropReason::Criticality,
        },
        "drop A.cp Criticality",
    ),
    (
        OutLine::Drop {
            node: NodeId::Ue(1),
            reason: DropReason::Duplicate,
        },
        "drop u1 Duplicate",
    ),
    (
        OutLine::Held {
            link: UP,
            reason: HeldReason::Early,
        },
        "held A.up1/1 Early",
    ),
    (
        OutLine::Failed {
            node: CP,
            ue: UeId(1),
            cause: CauseName::Timeout,
        },
        "failed A.cp u1 timeout",
    ),
    (
        OutLine::Quiet {
            ue: UeId(1),
            bearer: BearerId(1),
            downlink: 1,
            uplink: 0,
        },
        "quiet u1 b1 1 0",
    ),
    (
        OutLine::Busy {
            ue: UeId(1),
            bearer: BearerId(1),
        },
        "busy u1 b1",
    ),
    (OutLine::Settled { rounds: 2 }, "settled 2"),
    (OutLine::Unsettled { rounds: 100 }, "unsettled 100"),
    (
        OutLine::Refused {
            reason: RefuseReason::NotAllowed,
        },
        "refused NotAllowed",
    ),
    (
        OutLine::Outstanding {
            ue: UeId(1),
            bearer: BearerId(1),
            dir: Dir::Ul,
            span: 2049,
            window: 2048,
        },
        "outstanding u1 b1 ul 2049 2048",
    ),
    (OutLine::End { events: 5 }, "end 5"),
    (
        OutLine::Stop {
            code: 4,
            place: 1,
            reason: 1,
        },
        "stop 4 1 1",
    ),
];

#[test]
fn other_lines(rt: HostRuntime) {
    for (line, text) in &OTHER_LINES {
        assert!(rt; has_text(rt.alloc(), line, text), "{text}");
    }
}
