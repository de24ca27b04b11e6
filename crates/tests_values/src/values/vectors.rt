//! Tables of spellings that others worked out, and of octets that spell nothing.

use aper::Reason;

/// The name of a type, the octets of a value of it in hex, and how the value is shown.
pub type Row = (&'static [u8], &'static str, &'static str);

/// The name of a type, octets in hex, the first wrong bit, the reason, and the way to it.
pub type Refusal = (&'static [u8], &'static str, u64, Reason, &'static [u8]);

/// The types of the tables.
pub const TYPES: &[u8] = b"Vectors DEFINITIONS AUTOMATIC TAGS ::= BEGIN\n\
Truth ::= BOOLEAN\n\
Pair ::= SEQUENCE {a BOOLEAN, b INTEGER (0..255)}\n\
Packed ::= SEQUENCE {a BOOLEAN, b INTEGER (0..254)}\n\
Large ::= INTEGER (0..65536)\n\
Larger ::= INTEGER (0..68719476735)\n\
Text ::= PrintableString (SIZE (1..150, ...))\n\
Nothing ::= SEQUENCE {}\n\
Colour ::= ENUMERATED {a, b, ...}\n\
Small ::= INTEGER (0..10, ...)\n\
Truths ::= SEQUENCE OF BOOLEAN\n\
Either ::= CHOICE {a BOOLEAN, b INTEGER (0..255), ...}\n\
Elements ::= ProtocolIE-Container {{Rows}}\n\
Rows PROTOCOL-IES ::= {{ID 1 CRITICALITY reject TYPE BOOLEAN PRESENCE mandatory}, ...}\n\
Wide ::= ProtocolIE-Container {{WideRows}}\n\
WideRows PROTOCOL-IES ::= {{ID 1 CRITICALITY reject TYPE INTEGER (0..65535) PRESENCE mandatory}, ...}\n\
Coloured ::= ProtocolIE-Container {{ColouredRows}}\n\
ColouredRows PROTOCOL-IES ::= {{ID 1 CRITICALITY reject TYPE Three PRESENCE mandatory}, ...}\n\
Holder ::= SEQUENCE {flag BOOLEAN, elements Coloured}\n\
Named ::= SEQUENCE {a BOOLEAN, ..., b BOOLEAN}\n\
Unnamed ::= SEQUENCE {a BOOLEAN, ...}\n\
Groups ::= SEQUENCE {a INTEGER (250..253), b BOOLEAN, c CHOICE {d BOOLEAN, ..., e BOOLEAN}, i OCTET STRING OPTIONAL, j PrintableString OPTIONAL, ...}\n\
Employee ::= INTEGER (0..9999, ...)\n\
Few ::= INTEGER (-5..10)\n\
Octet ::= INTEGER (0..255)\n\
Word ::= INTEGER (-32768..32767)\n\
Signed ::= INTEGER (-9223372036854775808..9223372036854775807)\n\
Unsigned ::= INTEGER (0..18446744073709551615)\n\
One ::= INTEGER (5..5)\n\
Three ::= ENUMERATED {a, b, c}\n\
Some-Bits ::= BIT STRING (SIZE (1..4))\n\
Sixteen ::= BIT STRING (SIZE (16))\n\
Any-Bits ::= BIT STRING\n\
Two-Octets ::= OCTET STRING (SIZE (2))\n\
Few-Octets ::= OCTET STRING (SIZE (1..2, ...))\n\
Any-Octets ::= OCTET STRING\n\
Word-Text ::= PrintableString (SIZE (1..3))\n\
Options ::= SEQUENCE {a BOOLEAN OPTIONAL, b Octet OPTIONAL}\n\
Third ::= CHOICE {a BOOLEAN, b BOOLEAN, c Octet}\n\
Some-Truths ::= SEQUENCE (SIZE (1..2)) OF Options\n\
Listed ::= SEQUENCE {list SEQUENCE (SIZE (1..3)) OF INTEGER (0..200), flag BOOLEAN, pairs SEQUENCE (SIZE (1..2)) OF Pair OPTIONAL}\n\
Ordered ::= ProtocolIE-Container {{OrderedRows}}\n\
OrderedRows PROTOCOL-IES ::= {{ID 1 CRITICALITY reject TYPE BOOLEAN PRESENCE mandatory} | {ID 2 CRITICALITY ignore TYPE Octet PRESENCE optional}, ...}\n\
Message ::= Protocol-PDU {{Procedures}}\n\
Procedures ELEMENTARY-PROCEDURE ::= {{INITIATING MESSAGE Truth SUCCESSFUL OUTCOME Pair UNSUCCESSFUL OUTCOME Octet PROCEDURE CODE 0 CRITICALITY reject} | {INITIATING MESSAGE Truth PROCEDURE CODE 255 CRITICALITY reject}, ...}\n\
END\n";

/// Worked spellings; the last two are of ITU-T X.691: its example A.4, whose extension addition group is an addition
/// without a name here, and a number of A.3.
pub const WORKED: [Row; 22] = [
    (b"Truth", "80", "Bool(true)"),
    (
        b"Pair",
        "80C8",
        "Seq { root: [Some(Bool(true)), Some(Int(200))], additions: [] }",
    ),
    (
        b"Packed",
        "E400",
        "Seq { root: [Some(Bool(true)), Some(Int(200))], additions: [] }",
    ),
    (b"Large", "0000", "Int(0)"),
    (b"Large", "80010000", "Int(65536)"),
    (b"Larger", "0001", "Int(1)"),
    (b"Larger", "800FFFFFFFFF", "Int(68719476735)"),
    (
        b"Text",
        "0100647531",
        "Text(Items { items: [100, 117, 49] })",
    ),
    (b"Nothing", "00", "Seq { root: [], additions: [] }"),
    (b"Colour", "40", "Enum(1)"),
    (b"Colour", "82", "Enum(4)"),
    (b"Small", "28", "Int(5)"),
    (b"Small", "8002012C", "Int(300)"),
    (b"Truths", "0280", "List([Bool(true), Bool(false)])"),
    (b"Either", "4007", "Choice(1, Int(7))"),
    (
        b"Either",
        "8101AA",
        "Choice(3, Raw(Items { items: [170] }))",
    ),
    (
        b"Elements",
        "00010001000180",
        "Ies([Element { id: 1, criticality: 0, body: Bool(true) }])",
    ),
    (
        b"Named",
        "C0400180",
        "Seq { root: [Some(Bool(true))], additions: [Some(Bool(true))] }",
    ),
    (
        b"Unnamed",
        "C0400180",
        "Seq { root: [Some(Bool(true))], additions: [Some(Raw(Items { items: [128] }))] }",
    ),
    (
        b"Unnamed",
        "C0400181",
        "Seq { root: [Some(Bool(true))], additions: [Some(Raw(Items { items: [129] }))] }",
    ),
    (
        b"Groups",
        "9E000180010291A4",
        "Seq { root: [Some(Int(253)), Some(Bool(true)), Some(Choice(1, Bool(true))), None, None], \
         additions: [Some(Raw(Items { items: [145, 164] }))] }",
    ),
    (b"Employee", "000033", "Int(51)"),
];

/// Truth values, numbers and names: the least and the greatest of each type, and past its root.
pub const NUMBERS: [Row; 18] = [
    (b"Truth", "00", "Bool(false)"),
    (b"Few", "00", "Int(-5)"),
    (b"Few", "F0", "Int(10)"),
    (b"Octet", "00", "Int(0)"),
    (b"Octet", "FF", "Int(255)"),
    (b"Word", "0000", "Int(-32768)"),
    (b"Word", "FFFF", "Int(32767)"),
    (b"Signed", "0000", "Int(-9223372036854775808)"),
    (b"Signed", "E0FFFFFFFFFFFFFFFF", "Int(9223372036854775807)"),
    (b"Unsigned", "0000", "Int(0)"),
    (
        b"Unsigned",
        "E0FFFFFFFFFFFFFFFF",
        "Int(18446744073709551615)",
    ),
    (b"One", "00", "Int(5)"),
    (
        b"Small",
        "80088000000000000000",
        "Int(-9223372036854775808)",
    ),
    (b"Small", "80087FFFFFFFFFFFFFFF", "Int(9223372036854775807)"),
    (b"Three", "00", "Enum(0)"),
    (b"Three", "80", "Enum(2)"),
    (b"Colour", "00", "Enum(0)"),
    (b"Colour", "BF", "Enum(65)"),
];

/// Strings: the shortest and the longest of each type, and past its size.
pub const STRINGS: [Row; 17] = [
    (b"Some-Bits", "0000", "Bits(Items { items: [false] })"),
    (
        b"Some-Bits",
        "C0F0",
        "Bits(Items { items: [true, true, true, true] })",
    ),
    (
        b"Sixteen",
        "0000",
        "Bits(Items { items: [false, false, false, false, false, false, false, false, false, false, \
         false, false, false, false, false, false] })",
    ),
    (
        b"Sixteen",
        "FFFF",
        "Bits(Items { items: [true, true, true, true, true, true, true, true, true, true, true, \
         true, true, true, true, true] })",
    ),
    (b"Any-Bits", "00", "Bits(Items { items: [] })"),
    (
        b"Any-Bits",
        "09FF80",
        "Bits(Items { items: [true, true, true, true, true, true, true, true, true] })",
    ),
    (b"Two-Octets", "0000", "Octets(Items { items: [0, 0] })"),
    (b"Two-Octets", "FFFF", "Octets(Items { items: [255, 255] })"),
    (b"Few-Octets", "0000", "Octets(Items { items: [0] })"),
    (
        b"Few-Octets",
        "40FFFF",
        "Octets(Items { items: [255, 255] })",
    ),
    (b"Few-Octets", "8000", "Octets(Items { items: [] })"),
    (
        b"Few-Octets",
        "8003010203",
        "Octets(Items { items: [1, 2, 3] })",
    ),
    (b"Any-Octets", "00", "Octets(Items { items: [] })"),
    (
        b"Any-Octets",
        "02FFFF",
        "Octets(Items { items: [255, 255] })",
    ),
    (b"Word-Text", "0020", "Text(Items { items: [32] })"),
    (
        b"Word-Text",
        "807A7A7A",
        "Text(Items { items: [122, 122, 122] })",
    ),
    (b"Text", "8000", "Text(Items { items: [] })"),
];

/// Types with types inside: with nothing that may be absent, and with all.
pub const STRUCTURES: [Row; 18] = [
    (
        b"Options",
        "00",
        "Seq { root: [None, None], additions: [] }",
    ),
    (
        b"Options",
        "E0FF",
        "Seq { root: [Some(Bool(true)), Some(Int(255))], additions: [] }",
    ),
    (b"Third", "00", "Choice(0, Bool(false))"),
    (b"Third", "80FF", "Choice(2, Int(255))"),
    (
        b"Either",
        "BF01FF",
        "Choice(65, Raw(Items { items: [255] }))",
    ),
    (b"Truths", "00", "List([])"),
    (
        b"Truths",
        "03A0",
        "List([Bool(true), Bool(false), Bool(true)])",
    ),
    (
        b"Some-Truths",
        "00",
        "List([Seq { root: [None, None], additions: [] }])",
    ),
    (
        b"Some-Truths",
        "F0FF4007",
        "List([Seq { root: [Some(Bool(true)), Some(Int(255))], additions: [] }, Seq { root: [None, \
         Some(Int(7))], additions: [] }])",
    ),
    (
        b"Listed",
        "20B910",
        "Seq { root: [Some(List([Int(5), Int(200)])), Some(Bool(true)), None], additions: [] }",
    ),
    (
        b"Listed",
        "8AB4FF",
        "Seq { root: [Some(List([Int(85)])), Some(Bool(true)), Some(List([Seq { root: \
         [Some(Bool(true)), Some(Int(255))], additions: [] }]))], additions: [] }",
    ),
    (
        b"Elements",
        "000200010001800002400107",
        "Ies([Element { id: 1, criticality: 0, body: Bool(true) }, Element { id: 2, criticality: 1, \
         body: Raw(Items { items: [7] }) }])",
    ),
    (
        b"Ordered",
        "00020001000180FFFF8001AA",
        "Ies([Element { id: 1, criticality: 0, body: Bool(true) }, Element { id: 65535, \
         criticality: 2, body: Raw(Items { items: [170] }) }])",
    ),
    (
        b"Holder",
        "8000010001000140",
        "Seq { root: [Some(Bool(true)), Some(Ies([Element { id: 1, criticality: 0, body: Enum(1) }]))], \
         additions: [] }",
    ),
    (
        b"Message",
        "0000000180",
        "Pdu { outcome: 0, code: 0, criticality: 0, body: Bool(true) }",
    ),
    (
        b"Message",
        "2000400280FF",
        "Pdu { outcome: 1, code: 0, criticality: 1, body: Seq { root: [Some(Bool(true)), \
         Some(Int(255))], additions: [] } }",
    ),
    (
        b"Message",
        "40FF8001AA",
        "Pdu { outcome: 2, code: 255, criticality: 2, body: Raw(Items { items: [170] }) }",
    ),
    (
        b"Message",
        "BF01FF",
        "Pdu { outcome: 66, code: 0, criticality: 0, body: Raw(Items { items: [255] }) }",
    ),
];

/// Tokens and messages of the profile.
pub const MESSAGES: [Row; 11] = [
    (
        b"RrcToken",
        "200001",
        "Choice(1, Seq { root: [Some(Int(1)), Some(Int(1))], additions: [] })",
    ),
    (
        b"RrcToken",
        "400002",
        "Choice(2, Seq { root: [Some(Int(1)), Some(Int(2))], additions: [] })",
    ),
    (
        b"RrcToken",
        "600002",
        "Choice(3, Seq { root: [Some(Int(1)), Some(Int(2))], additions: [] })",
    ),
    (
        b"RrcToken",
        "00000140",
        "Choice(0, Seq { root: [Some(Int(1)), Some(Int(1)), Some(Enum(0)), Some(Int(2))], \
         additions: [] })",
    ),
    (
        b"F1AP-PDU",
        "0006001000000200010001000007000403400002",
        "Pdu { outcome: 0, code: 6, criticality: 0, body: Seq { root: [Some(Ies([Element { id: 1, \
         criticality: 0, body: Int(1) }, Element { id: 7, criticality: 0, body: Octets(Items { \
         items: [64, 0, 2] }) }]))], additions: [] } }",
    ),
    (
        b"F1AP-PDU",
        "0004000E0000020001000100000200020001",
        "Pdu { outcome: 0, code: 4, criticality: 0, body: Seq { root: [Some(Ies([Element { id: 1, \
         criticality: 0, body: Int(1) }, Element { id: 2, criticality: 0, body: Int(1) }]))], \
         additions: [] } }",
    ),
    (
        b"F1AP-PDU",
        "0004001100000200010001F000020005C0FFFFFFFF",
        "Pdu { outcome: 0, code: 4, criticality: 0, body: Seq { root: [Some(Ies([Element { id: 1, \
         criticality: 0, body: Int(16) }, Element { id: 2, criticality: 0, body: Int(4294967295) \
         }]))], additions: [] } }",
    ),
    (
        b"F1AP-PDU",
        "00010014000002000200020001001100070200412E647531",
        "Pdu { outcome: 0, code: 1, criticality: 0, body: Seq { root: [Some(Ies([Element { id: 2, \
         criticality: 0, body: Int(1) }, Element { id: 17, criticality: 0, body: Text(Items { \
         items: [65, 46, 100, 117, 49] }) }]))], additions: [] } }",
    ),
    (
        b"F1AP-PDU",
        "000600150000030001000100000700040340000200634001AA",
        "Pdu { outcome: 0, code: 6, criticality: 0, body: Seq { root: [Some(Ies([Element { id: 1, \
         criticality: 0, body: Int(1) }, Element { id: 7, criticality: 0, body: Octets(Items { \
         items: [64, 0, 2] }) }, Element { id: 99, criticality: 1, body: Raw(Items { items: [170] \
         }) }]))], additions: [] } }",
    ),
    (
        b"F1AP-PDU",
        "000200250000060001000100000200020001000300020001000500030000020009000100000C000100",
        "Pdu { outcome: 0, code: 2, criticality: 0, body: Seq { root: [Some(Ies([Element { id: 1, \
         criticality: 0, body: Int(1) }, Element { id: 2, criticality: 0, body: Int(1) }, Element { \
         id: 3, criticality: 0, body: Int(1) }, Element { id: 5, criticality: 0, body: List([Seq { \
         root: [Some(Int(1)), Some(Int(2))], additions: [] }]) }, Element { id: 9, criticality: 0, \
         body: Enum(0) }, Element { id: 12, criticality: 0, body: Seq { root: [Some(Enum(0)), \
         Some(Int(1))], additions: [] } }]))], additions: [] } }",
    ),
    (
        b"F1AP-PDU",
        "20020015000003000100010000020002000100060003000001",
        "Pdu { outcome: 1, code: 2, criticality: 0, body: Seq { root: [Some(Ies([Element { id: 1, \
         criticality: 0, body: Int(1) }, Element { id: 2, criticality: 0, body: Int(1) }, Element { \
         id: 6, criticality: 0, body: List([Seq { root: [Some(Int(1)), Some(Int(1))], additions: [] \
         }]) }]))], additions: [] } }",
    ),
];

/// A refusal for each reason but the one that takes more than 131,072 octets, and for each kind of step.
pub const REFUSED: [Refusal; 36] = [
    (b"Truth", "81", 1, Reason::Padding, b"-"),
    (b"Large", "400000", 8, Reason::NotMinimal, b"-"),
    (b"Nothing", "", 0, Reason::Truncated, b"-"),
    (b"Elements", "0000", 0, Reason::Required, b"-"),
    (b"Elements", "0001000100028000", 56, Reason::Tail, b"#1"),
    (b"Wide", "00010001000180", 48, Reason::Overrun, b"#1"),
    (b"Elements", "000100010000", 40, Reason::Length, b"-"),
    (b"Elements", "00010001000181", 49, Reason::Padding, b"#1"),
    (b"Coloured", "000100010001C0", 48, Reason::Index, b"#1"),
    (b"Holder", "800000", 8, Reason::Required, b"elements"),
    (b"Holder", "80000100010000", 48, Reason::Length, b"elements"),
    (
        b"Holder",
        "80000100010001C0",
        56,
        Reason::Index,
        b"elements.#1",
    ),
    (
        b"Ordered",
        "0002000100018000024001",
        88,
        Reason::Truncated,
        b"#2",
    ),
    (
        b"Ordered",
        "00020001000180FFFF8003AA",
        88,
        Reason::Truncated,
        b"#65535",
    ),
    (b"Named", "C0400181", 25, Reason::Padding, b"b"),
    (b"Truth", "8000", 8, Reason::Tail, b"-"),
    (b"Packed", "FF80", 1, Reason::Range, b"b"),
    (b"Three", "C0", 0, Reason::Index, b"-"),
    (b"Small", "800900", 8, Reason::Length, b"-"),
    (b"Small", "80010A", 16, Reason::NotMinimal, b"-"),
    (b"Text", "01002A", 16, Reason::Character, b"-"),
    (b"Unnamed", "C000", 9, Reason::EmptyAdditions, b"-"),
    (b"Ordered", "00020002400107", 16, Reason::Required, b"-"),
    (
        b"Ordered",
        "000300010001800002400107",
        96,
        Reason::Truncated,
        b"-",
    ),
    (
        b"Ordered",
        "0003000100018000024001070001000180",
        96,
        Reason::Order,
        b"-",
    ),
    (b"Truths", "03B0", 11, Reason::Padding, b"-"),
    (b"Either", "8102AA", 16, Reason::Truncated, b"-"),
    (
        b"Message",
        "0000000181",
        33,
        Reason::Padding,
        b"initiatingMessage",
    ),
    (
        b"Message",
        "2000400280",
        40,
        Reason::Truncated,
        b"successfulOutcome.b",
    ),
    (
        b"Message",
        "40004001",
        32,
        Reason::Truncated,
        b"unsuccessfulOutcome",
    ),
    (b"Groups", "9E000181010291A4", 25, Reason::Padding, b"c.e"),
    (b"Third", "C0", 0, Reason::Index, b"-"),
    (b"Some-Truths", "F0FF6007", 18, Reason::Padding, b"[1].b"),
    (b"Listed", "60", 1, Reason::Length, b"list"),
    (b"Listed", "20B920", 11, Reason::Range, b"list.[1]"),
    (b"Listed", "20B91C", 20, Reason::Padding, b"-"),
];
