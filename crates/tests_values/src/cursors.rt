//! Fields of ITU-T X.691 that are right, and wrong ones.

ghost use Rattle.std.specs.Prelude.{◌<◌, ◌≤◌, length, IsTrue};
ghost use Rattle.aper_cursor.specs.Questions.{IsAskable};

use aper_cursor::{Cursor, Extent, Question, Range, Role};
use aper_defs::Reason;
use asn1_syntax::assignments::{Criticality, IeRow, Presence};
use asn1_syntax::types::{Size, TypeId};
use std::alloc::Global;

fn is_askable(question: &Question) -> bool
    ensures { IsTrue result → IsAskable question.now }
{
    match question {
        Question::Constrained { width, .. } => *width <= 64,
        Question::Digits { count, .. } => 1 <= *count && *count <= 8,
        Question::Signed { count, .. } => 1 <= *count && *count <= 8,
        Question::AdditionBits(count) => *count <= 64,
        Question::Extent(Extent::Part { before, .. }) => *before < 1 << 32,
        _ => true,
    }
}

/// The first answer of octets.
fn first(alloc: Global, octets: &[u8], question: Question) -> Result<u64, Reason>
    requires short { length octets.now < 100 }
    requires askable { IsAskable question }
{
    Cursor::new(alloc, octets).ask(question)
}

const ROW: IeRow = IeRow {
    id: 1,
    criticality: Criticality::Reject,
    definition: TypeId { number: 0 },
    presence: Presence::Mandatory,
};

/// The first is mandatory, and so is the third.
const KNOWN: [IeRow; 3] = [
    ROW,
    IeRow {
        id: 2,
        presence: Presence::Optional,
        ..ROW
    },
    IeRow { id: 3, ..ROW },
];

fn id<'m>(known: &'m [IeRow], left: &'m [IeRow], after: u64) -> Question<'m>
    ensures { IsAskable result }
{
    Question::IeId { known, left, after }
}

/// Numbers of so many octets up to 70,000.
const TWO_DIGITS: Question<'static> = Question::Digits {
    count: 2,
    most: 70_000,
};

const THREE_DIGITS: Question<'static> = Question::Digits {
    count: 3,
    most: 70_000,
};

/// Numbers outside the range from 0 to 10.
const ONE_SIGNED: Question<'static> = Question::Signed {
    count: 1,
    range: Range { low: 0, high: 10 },
};

const TWO_SIGNED: Question<'static> = Question::Signed {
    count: 2,
    range: Range { low: 0, high: 10 },
};

const TWO_TO_FOUR: Size = Size {
    low: 2,
    high: 4,
    extensible: true,
};

const WHOLE: Question<'static> = Question::Extent(Extent::Whole {
    least: 0,
    most: 16383,
    outside: None,
});

const WHOLE_OUTSIDE: Question<'static> = Question::Extent(Extent::Whole {
    least: 0,
    most: 16383,
    outside: Some(TWO_TO_FOUR),
});

/// A part after one of so many units.
const PART_AFTER_16384: Question<'static> = Question::Extent(Extent::Part {
    before: 0,
    previous: 16384,
    outside: None,
});

const PART_AFTER_65536: Question<'static> = Question::Extent(Extent::Part {
    before: 0,
    previous: 65536,
    outside: None,
});

/// Octets, what is asked, and the answer.
const FIELDS: [(&[u8], Question<'static>, Result<u64, Reason>); 26] = [
    (&[0x80], Question::Flag, Ok(1)),
    (&[], Question::Flag, Err(Reason::Truncated)),
    (
        &[0x60],
        Question::Constrained {
            role: Role::Value,
            width: 3,
            most: 6,
        },
        Ok(3),
    ),
    (
        &[0xe0],
        Question::Constrained {
            role: Role::Value,
            width: 3,
            most: 6,
        },
        Err(Reason::Range),
    ),
    (
        &[0xc0],
        Question::Constrained {
            role: Role::Index,
            width: 2,
            most: 2,
        },
        Err(Reason::Index),
    ),
    (
        &[0xff],
        Question::Constrained {
            role: Role::Length,
            width: 8,
            most: 254,
        },
        Err(Reason::Length),
    ),
    (&[0x01, 0x11, 0x70], THREE_DIGITS, Ok(70_000)),
    (&[0x00, 0x80], TWO_DIGITS, Err(Reason::NotMinimal)),
    (&[0x01, 0x11, 0x71], THREE_DIGITS, Err(Reason::Range)),
    (&[0xff], ONE_SIGNED, Ok(255)),
    (&[0x0a], ONE_SIGNED, Err(Reason::NotMinimal)),
    (&[0x00, 0x0b], TWO_SIGNED, Err(Reason::NotMinimal)),
    (&[0x7e], Question::Small(Role::Index), Ok(63)),
    (&[0x80], Question::Small(Role::Index), Err(Reason::Index)),
    (&[0x7f], WHOLE, Ok(127)),
    (&[0x80, 0x80], WHOLE, Ok(128)),
    (&[0x80, 0x7f], WHOLE, Err(Reason::NotMinimal)),
    (&[0xc1], WHOLE, Err(Reason::Length)),
    (&[0x03], WHOLE_OUTSIDE, Err(Reason::NotMinimal)),
    (&[0xc4], PART_AFTER_65536, Ok(65536)),
    (&[0xc5], PART_AFTER_65536, Err(Reason::Length)),
    (&[0xc1], PART_AFTER_16384, Err(Reason::NotMinimal)),
    (
        &[0x00],
        Question::AdditionBits(3),
        Err(Reason::EmptyAdditions),
    ),
    (b"A", Question::Character, Ok(65)),
    (b"*", Question::Character, Err(Reason::Character)),
    (&[0x00, 0x01], Question::IeCount(2), Err(Reason::Required)),
];

fn is_answered(
    alloc: Global,
    octets: &[u8],
    question: Question,
    answer: Result<u64, Reason>,
) -> bool {
    octets.len() < 100 && is_askable(&question) && first(alloc, octets, question) == answer
}

#[test]
fn fields(rt: HostRuntime) {
    for &(octets, question, answer) in &FIELDS {
        assert!(rt;
            is_answered(rt.alloc(), octets, question, answer),
            "{octets:?}"
        );
    }
}

/// What the id among rows of which these are left, with so many elements after it, is answered by.
fn id_among(alloc: Global, octets: &[u8; 2], left: &[IeRow], after: u64) -> Result<u64, Reason> {
    first(alloc, octets, id(&KNOWN, left, after))
}

#[test]
fn ids(rt: HostRuntime) {
    let (alloc, last) = (rt.alloc(), &KNOWN[2..]);
    assert!(rt; id_among(alloc, &[0x00, 0x02], &KNOWN, 1) == Err(Reason::Required));
    assert!(rt; id_among(alloc, &[0x00, 0x01], last, 1) == Err(Reason::Order));
    assert!(rt; id_among(alloc, &[0x00, 0x03], last, 0) == Ok(3));
    assert!(rt; id_among(alloc, &[0x00, 0x09], last, 0) == Err(Reason::Required));
    assert!(rt; id_among(alloc, &[0x00, 0x09], last, 1) == Ok(9));
}

/// An open type of two octets with a flag, whose pad isn't zeros.
fn is_padded(cursor: &mut Cursor) -> bool {
    cursor.opening() == Ok(2)
        && cursor.ask(Question::Flag) == Ok(1)
        && cursor.ask(Question::Pad) == Err(Reason::Padding)
        && cursor.closing() == Err(Reason::Padding)
        && cursor.end() == Err(Reason::Tail)
}

/// A number of two octets passes the end of the open type, of which one is left.
fn is_overrun(cursor: &mut Cursor) -> bool {
    let question = Question::Constrained {
        role: Role::Value,
        width: 16,
        most: 9,
    };
    cursor.ask(question) == Err(Reason::Overrun) && cursor.place() == 9
}

/// An open type of an octet of zeros.
fn is_empty(cursor: &mut Cursor) -> bool {
    cursor.opening() == Ok(1)
        && cursor.closing() == Ok(1)
        && cursor.end() == Ok(0)
        && cursor.is_at_end()
}

/// Pads, and the end of an open type.
#[test]
fn open_types(rt: HostRuntime) {
    let mut padded = Cursor::new(rt.alloc(), &[0x02, 0xc0, 0x00]);
    assert!(rt; is_padded(&mut padded));
    assert!(rt; is_overrun(&mut padded));
    let mut empty = Cursor::new(rt.alloc(), &[0x01, 0x00]);
    assert!(rt; is_empty(&mut empty));
}
