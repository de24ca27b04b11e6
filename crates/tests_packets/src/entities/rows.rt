//! COUNTs where their numbers wrap, and near the last COUNT.

use gnb_types::names::SnBits::{self, Len12, Len18};

/// Two COUNTs in a row, the numbers that stand for them, and the PDUs of the octet 7 under these COUNTs.
#[derive(Drop)]
pub struct Row {
    pub sn: SnBits,
    pub counts: [u32; 2],
    pub numbers: [u32; 2],
    pub pdus: [&'static [u8]; 2],
}

/// By hand: the number is the low 12 or 18 bits of the COUNT, after a first bit of 1 and reserved zeros.
#[rattlefmt::skip]
pub const ROWS: [Row; 6] = [
    Row { sn: Len12, counts: [0, 1], numbers: [0, 1], pdus: [b"\x80\x00\x07", b"\x80\x01\x07"] },
    Row { sn: Len12, counts: [4_095, 4_096], numbers: [4_095, 0], pdus: [b"\x8F\xFF\x07", b"\x80\x00\x07"] },
    Row { sn: Len12, counts: [8_191, 8_192], numbers: [4_095, 0], pdus: [b"\x8F\xFF\x07", b"\x80\x00\x07"] },
    Row { sn: Len12, counts: [4_294_967_293, 4_294_967_294], numbers: [4_093, 4_094], pdus: [b"\x8F\xFD\x07", b"\x8F\xFE\x07"] },
    Row { sn: Len18, counts: [262_143, 262_144], numbers: [262_143, 0], pdus: [b"\x83\xFF\xFF\x07", b"\x80\x00\x00\x07"] },
    Row { sn: Len18, counts: [4_294_967_293, 4_294_967_294], numbers: [262_141, 262_142], pdus: [b"\x83\xFF\xFD\x07", b"\x83\xFF\xFE\x07"] },
];
