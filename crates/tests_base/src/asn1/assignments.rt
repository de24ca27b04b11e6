//! A module with an assignment of each kind, its parts written out by hand.

use asn1_syntax::assignments::*;
use asn1_syntax::types::TypeId;
use std::process::Abort;

const TEXT: &[u8] = b"M DEFINITIONS AUTOMATIC TAGS ::= BEGIN\n\
A ::= SEQUENCE OF BOOLEAN\n\
S PROTOCOL-IES ::= {{ID 7 CRITICALITY notify TYPE A PRESENCE optional} |\n\
{ID 3 CRITICALITY ignore TYPE BOOLEAN PRESENCE mandatory}, ...}\n\
P ELEMENTARY-PROCEDURE ::= {{INITIATING MESSAGE A UNSUCCESSFUL OUTCOME B PROCEDURE CODE 255 CRITICALITY reject}, ...}\n\
END and no more";

/// The name of each assignment, its place, whether it is a type's, and how many types stand before its end.
const ASSIGNMENTS: [(&[u8], usize, bool, usize); 3] = [
    (b"A", 39, true, 2),
    (b"S", 65, false, 4),
    (b"P", 202, false, 6),
];

/// The first row of the set `S`.
const ROW: IeRow = IeRow {
    id: 7,
    criticality: Criticality::Notify,
    definition: TypeId { number: 2 },
    presence: Presence::Optional,
};

/// The procedure of the set `P`.
const PROCEDURE: ProcedureRow = ProcedureRow {
    initiating: TypeId { number: 4 },
    successful: None,
    unsuccessful: Some(TypeId { number: 5 }),
    code: 255,
    criticality: Criticality::Reject,
};

fn is_placed(assignment: &Assignment, expected: &(&[u8], usize, bool, usize)) -> bool {
    let (name, place, is_type, end) = expected;
    assignment.name.as_slice() == *name
        && assignment.place == *place
        && assignment.is_type() == *is_type
        && assignment.end == *end
}

fn first_row(assignment: &Assignment) -> Option<&IeRow> {
    match &assignment.body {
        Body::IeSet(rows) => rows.as_slice().first(),
        _ => None,
    }
}

fn first_procedure(assignment: &Assignment) -> Option<&ProcedureRow> {
    match &assignment.body {
        Body::ProcedureSet(rows) => rows.as_slice().first(),
        _ => None,
    }
}

fn are_as_written(rt: &impl Abort, assignments: &[Assignment]) {
    assert!(rt; assignments.len() == 3);
    for (assignment, expected) in assignments.iter().zip(&ASSIGNMENTS) {
        assert!(rt; is_placed(assignment, expected));
    }
    if let [_, set, procedures] = assignments {
        assert!(rt; first_row(set) == Some(&ROW));
        assert!(rt; first_procedure(procedures) == Some(&PROCEDURE));
    }
}

fn is_as_written(rt: &impl Abort, syntax: &Syntax) {
    assert!(rt; syntax.name.as_slice() == b"M".as_slice());
    assert!(rt; syntax.end == 323 && syntax.nodes.len() == 6);
    are_as_written(rt, syntax.assignments.as_slice());
}

#[test]
fn assignments_of_each_kind(rt: HostRuntime) {
    match read_syntax(rt.alloc(), TEXT) {
        Ok(syntax) => is_as_written(&rt, &syntax),
        Err(_) => assert!(rt; false),
    }
}
