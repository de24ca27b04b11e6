//! Worked octets of each interface.

use gnb_types::names::{Gnb, NodeId, UeId};
use gnb_types::reasons::DropReason;
use message_codec::ProfileCodec;
use message_types::Token;
use std::alloc::Global;
use std::process::Abort;
use std::test::Fail;
use unit_messages::{Message, MessageCodec};

struct Row {
    from: NodeId,
    to: NodeId,
    octets: &'static [u8],
}

const CP: NodeId = NodeId::CuCp(Gnb::A);

const UP: NodeId = NodeId::CuUp(Gnb::A, 1);

const DU: NodeId = NodeId::Du(Gnb::A, 1);

const TERMINAL: NodeId = NodeId::Ue(1);

const ROWS: [Row; 9] = [
    // F1 Setup Request of A.du1, and back a DL RRC Message Transfer and UE Context Release Complete with the greatest numbers.
    Row {
        from: DU,
        to: CP,
        octets: &[
            0x00, 0x01, 0x00, 0x14, 0x00, 0x00, 0x02, 0x00, 0x02, 0x00, 0x02, 0x00, 0x07, 0x00,
            0x11, 0x00, 0x07, 0x02, 0x00, 0x41, 0x2e, 0x64, 0x75, 0x31,
        ],
    },
    Row {
        from: CP,
        to: DU,
        octets: &[
            0x00, 0x05, 0x00, 0x10, 0x00, 0x00, 0x02, 0x00, 0x01, 0x00, 0x01, 0x00, 0x00, 0x07,
            0x00, 0x04, 0x03, 0x20, 0x00, 0x01,
        ],
    },
    Row {
        from: DU,
        to: CP,
        octets: &[
            0x20, 0x04, 0x00, 0x11, 0x00, 0x00, 0x02, 0x00, 0x01, 0x00, 0x01, 0xf0, 0x00, 0x02,
            0x00, 0x05, 0xc0, 0xff, 0xff, 0xff, 0xff,
        ],
    },
    // Bearer Context Setup Request, and Bearer Context Release Complete.
    Row {
        from: CP,
        to: UP,
        octets: &[
            0x00, 0x02, 0x00, 0x23, 0x00, 0x00, 0x06, 0x00, 0x01, 0x00, 0x01, 0x00, 0x00, 0x02,
            0x00, 0x02, 0x00, 0x02, 0x00, 0x04, 0x00, 0x01, 0x20, 0x00, 0x09, 0x00, 0x01, 0x00,
            0x00, 0x0a, 0x00, 0x02, 0x00, 0x3c, 0x00, 0x12, 0x00, 0x01, 0x00,
        ],
    },
    Row {
        from: UP,
        to: CP,
        octets: &[
            0x20, 0x04, 0x00, 0x0e, 0x00, 0x00, 0x02, 0x00, 0x01, 0x00, 0x01, 0x00, 0x00, 0x02,
            0x00, 0x02, 0x00, 0x01,
        ],
    },
    // Handover Cancel.
    Row {
        from: CP,
        to: NodeId::CuCp(Gnb::B),
        octets: &[
            0x00, 0x03, 0x00, 0x0f, 0x00, 0x00, 0x02, 0x00, 0x01, 0x00, 0x01, 0x10, 0x00, 0x02,
            0x00, 0x03, 0x40, 0x01, 0x2c,
        ],
    },
    // Path Switch Acknowledge.
    Row {
        from: NodeId::Core,
        to: CP,
        octets: &[
            0x20, 0x01, 0x00, 0x0e, 0x00, 0x00, 0x02, 0x00, 0x01, 0x00, 0x01, 0x00, 0x00, 0x02,
            0x00, 0x02, 0x00, 0x01,
        ],
    },
    // A terminal is told to access A.du2, and says that it arrived.
    Row {
        from: DU,
        to: TERMINAL,
        octets: &[0x00, 0x00, 0x01, 0x40],
    },
    Row {
        from: TERMINAL,
        to: DU,
        octets: &[0x20, 0x00, 0x01],
    },
];

fn has_octets(alloc: Global, codec: &ProfileCodec, message: &Message, octets: &[u8]) -> bool {
    match codec.encode(alloc, message) {
        Ok(spelled) => spelled.as_slice() == octets,
        Err(_) => false,
    }
}

/// A message is read there, and it has these octets.
fn is_spelled_again(alloc: Global, codec: &ProfileCodec, row: &Row) -> bool {
    match codec.read(alloc, row.from, row.to, row.octets) {
        Ok(Ok(message)) => has_octets(alloc, codec, &message, row.octets),
        _ => false,
    }
}

#[test]
fn messages_are_read_and_spelled(rt: HostRuntime) -> Result<(), Fail> {
    let alloc = rt.alloc();
    let codec = ProfileCodec::new(alloc)?;
    for row in &ROWS {
        assert!(rt; is_spelled_again(alloc, &codec, row));
    }
    Ok(())
}

struct Dropped {
    from: NodeId,
    to: NodeId,
    octets: &'static [u8],
    reason: DropReason,
}

const DROPPED: [Dropped; 4] = [
    // Octets that are cut off; a procedure 9 that isn't known; an information element 99 to be rejected; a terminal and a CU-CP.
    Dropped {
        from: DU,
        to: CP,
        octets: &[0x00, 0x01, 0x00],
        reason: DropReason::Undecodable,
    },
    Dropped {
        from: DU,
        to: CP,
        octets: &[0x00, 0x09, 0x40, 0x01, 0xaa],
        reason: DropReason::Criticality,
    },
    Dropped {
        from: DU,
        to: CP,
        octets: &[
            0x00, 0x06, 0x00, 0x15, 0x00, 0x00, 0x03, 0x00, 0x01, 0x00, 0x01, 0x00, 0x00, 0x07,
            0x00, 0x04, 0x03, 0x40, 0x00, 0x02, 0x00, 0x63, 0x00, 0x01, 0xaa,
        ],
        reason: DropReason::Criticality,
    },
    Dropped {
        from: TERMINAL,
        to: CP,
        octets: &[0x20, 0x00, 0x01],
        reason: DropReason::Unexpected,
    },
];

fn is_dropped(alloc: Global, codec: &ProfileCodec, row: &Dropped) -> bool {
    match codec.read(alloc, row.from, row.to, row.octets) {
        Ok(Err(reason)) => reason == row.reason,
        _ => false,
    }
}

#[test]
fn other_octets_are_dropped(rt: HostRuntime) -> Result<(), Fail> {
    let alloc = rt.alloc();
    let codec = ProfileCodec::new(alloc)?;
    for row in &DROPPED {
        assert!(rt; is_dropped(alloc, &codec, row));
    }
    Ok(())
}

fn is_token_in(
    alloc: Global,
    codec: &ProfileCodec,
    container: &[u8],
    token: Option<Token>,
) -> bool {
    match codec.read_token(alloc, container) {
        Ok(read) => read == token,
        Err(_) => false,
    }
}

/// A terminal is one of 1 to 16: another one's token has no octets.
#[test]
fn tokens_are_read_and_spelled(rt: HostRuntime) -> Result<(), Fail> {
    let alloc = rt.alloc();
    let codec = ProfileCodec::new(alloc)?;
    let accepted = Token::Accepted {
        ue: UeId(1),
        epoch: 2,
    };
    let stranger = Token::Accepted {
        ue: UeId(17),
        epoch: 2,
    };
    assert!(rt; is_token_in(alloc, &codec, &[0x60, 0x00, 0x02], Some(accepted)));
    assert!(rt; is_token_in(alloc, &codec, &[0x60], None));
    assert!(rt; has_octets(alloc, &codec, &Message::Rrc(accepted), &[0x60, 0x00, 0x02]));
    assert!(rt; has_octets(alloc, &codec, &Message::Rrc(stranger), &[]));
    Ok(())
}
