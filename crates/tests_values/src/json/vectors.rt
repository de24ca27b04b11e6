//! A table of values as octets and as JSON, as another reading of the specification has them.

/// The name of a type, the octets of a value of it in hex, and its JSON text.
pub type Row = (&'static [u8], &'static [u8], &'static [u8]);

/// The types of the table.
pub const TYPES: &[u8] = b"M DEFINITIONS AUTOMATIC TAGS ::= BEGIN\n\
Truth ::= BOOLEAN\n\
Number ::= INTEGER (-5..10, ...)\n\
Unsigned ::= INTEGER (0..18446744073709551615)\n\
Signed ::= INTEGER (-9223372036854775808..9223372036854775807)\n\
Colour ::= ENUMERATED {red, green, ..., blue}\n\
Bits ::= BIT STRING (SIZE (1..40, ...))\n\
Octets ::= OCTET STRING (SIZE (1..40, ...))\n\
Text ::= PrintableString (SIZE (1..40, ...))\n\
Plain ::= SEQUENCE {b INTEGER (0..255) OPTIONAL, a BOOLEAN, zz Colour OPTIONAL}\n\
Open ::= SEQUENCE {b BOOLEAN, a BOOLEAN OPTIONAL, ..., c INTEGER (0..7), d BOOLEAN}\n\
Either ::= CHOICE {x BOOLEAN, y Colour, ..., z BIT STRING (SIZE (2))}\n\
List ::= SEQUENCE (SIZE (1..4, ...)) OF Plain\n\
Elements ::= ProtocolIE-Container {{Rows}}\n\
Rows PROTOCOL-IES ::= {{ID 1 CRITICALITY reject TYPE Truth PRESENCE mandatory} | {ID 4 CRITICALITY ignore TYPE Colour PRESENCE optional}, ...}\n\
Request ::= SEQUENCE {ies Elements, ...}\n\
Message ::= Protocol-PDU {{Procedures}}\n\
Procedures ELEMENTARY-PROCEDURE ::= {{INITIATING MESSAGE Request SUCCESSFUL OUTCOME Plain PROCEDURE CODE 7 CRITICALITY reject}, ...}\n\
END\n";

/// Values of each form of type.
pub const SHOWN: [Row; 32] = [
    (b"Truth", b"80", b"true"),
    (b"Truth", b"00", b"false"),
    (b"Number", b"00", b"-5"),
    (b"Number", b"78", b"10"),
    (b"Number", b"80010B", b"11"),
    (b"Number", b"80088000000000000000", b"-9223372036854775808"),
    (b"Unsigned", b"E0FFFFFFFFFFFFFFFF", b"18446744073709551615"),
    (b"Signed", b"0000", b"-9223372036854775808"),
    (b"Signed", b"E0FFFFFFFFFFFFFFFF", b"9223372036854775807"),
    (b"Colour", b"00", b"\"red\""),
    (b"Colour", b"40", b"\"green\""),
    (b"Colour", b"80", b"\"blue\""),
    (b"Bits", b"0080", b"\"1\""),
    (b"Bits", b"0660", b"\"0110\""),
    (
        b"Bits",
        b"802AAAAAAAAAAA80",
        b"\"101010101010101010101010101010101010101010\"",
    ),
    (b"Octets", b"8000", b"\"\""),
    (b"Octets", b"04ABCD0F", b"\"ABCD0F\""),
    (b"Text", b"0644552031", b"\"DU 1\""),
    (
        b"Text",
        b"3469742773202831292C20322B33203D20352F313F202D20613A7A2E",
        b"\"it's (1), 2+3 = 5/1? - a:z.\"",
    ),
    (b"Plain", b"20", b"{\"a\":true}"),
    (b"Plain", b"80C800", b"{\"a\":false,\"b\":200}"),
    (
        b"Plain",
        b"C000C000",
        b"{\"a\":true,\"b\":0,\"zz\":\"blue\"}",
    ),
    (b"Open", b"20", b"{\"b\":true}"),
    (b"Either", b"20", b"{\"x\":true}"),
    (b"List", b"8000", b"[]"),
    (
        b"List",
        b"270100",
        b"[{\"a\":true},{\"a\":false,\"b\":1,\"zz\":\"red\"}]",
    ),
    (
        b"Elements",
        b"00010001000180",
        b"[{\"criticality\":\"reject\",\"id\":1,\"value\":true}]",
    ),
    (
        b"Elements",
        b"000400098001AA00010001000004400140FFFF40020102",
        b"[{\"criticality\":\"notify\",\"id\":9,\"raw\":\"AA\"},{\"criticality\":\"reject\",\"id\":1,\"value\":false},{\"criticality\":\"ignore\",\"id\":4,\"value\":\"green\"},{\"criticality\":\"ignore\",\"id\":65535,\"raw\":\"0102\"}]",
    ),
    (
        b"Message",
        b"000700080000010001000180",
        b"{\"initiatingMessage\":{\"criticality\":\"reject\",\"procedureCode\":7,\"value\":{\"ies\":[{\"criticality\":\"reject\",\"id\":1,\"value\":true}]}}}",
    ),
    (
        b"Message",
        b"20074003800380",
        b"{\"successfulOutcome\":{\"criticality\":\"ignore\",\"procedureCode\":7,\"value\":{\"a\":true,\"b\":3}}}",
    ),
    (
        b"Message",
        b"4007800100",
        b"{\"unsuccessfulOutcome\":{\"criticality\":\"notify\",\"procedureCode\":7,\"raw\":\"00\"}}",
    ),
    (
        b"Message",
        b"000800020102",
        b"{\"initiatingMessage\":{\"criticality\":\"reject\",\"procedureCode\":8,\"raw\":\"0102\"}}",
    ),
];

/// Values with what has no name, or comes after the extension marker of a type.
pub const EXTENDED: [Row; 12] = [
    (b"Colour", b"81", b"{\"unknown\":0}"),
    (b"Colour", b"BF", b"{\"unknown\":62}"),
    (
        b"Open",
        b"E01001A0",
        b"{\"...\":[5],\"a\":false,\"b\":true}",
    ),
    (
        b"Open",
        b"A098018001AB",
        b"{\"...\":[null,true,\"AB\"],\"b\":true}",
    ),
    (
        b"Open",
        b"80C4020102",
        b"{\"...\":[null,null,null,\"0102\"],\"b\":false}",
    ),
    (b"Open", b"807001000100", b"{\"...\":[0,false],\"b\":false}"),
    (b"Either", b"6100", b"{\"y\":{\"unknown\":3}}"),
    (b"Either", b"800180", b"{\"z\":\"10\"}"),
    (b"Either", b"8101AB", b"{\"...\":[0,\"AB\"]}"),
    (b"Either", b"BF02ABCD", b"{\"...\":[62,\"ABCD\"]}"),
    (b"Message", b"800100", b"{\"...\":[0,\"00\"]}"),
    (b"Message", b"BF01FF", b"{\"...\":[63,\"FF\"]}"),
];
