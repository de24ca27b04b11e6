//! The words of a transcript that say why something did not happen.

ghost use Rattle.std.specs.Prelude.{Some};
ghost use Rattle.gnb_types.specs.Reasons.{drop_text, held_text, cause_text, refuse_text};

use std::fmt;

/// Why a unit ignores its input.
#[derive(Clone, Copy, PartialEq, Eq)]
pub enum DropReason {
    Undecodable,
    Criticality,
    NoContext,
    NoTunnel,
    Stale,
    Busy,
    Duplicate,
    Gap,
    Unexpected,
}

impl fmt::Display for DropReason {
    ghost output = { λ x. Some (drop_text x) };

    fn fmt<W: fmt::Write>(&self, f: &mut fmt::Formatter<W>) -> fmt::Result {
        let word = match self {
            DropReason::Undecodable => "Undecodable",
            DropReason::Criticality => "Criticality",
            DropReason::NoContext => "NoContext",
            DropReason::NoTunnel => "NoTunnel",
            DropReason::Stale => "Stale",
            DropReason::Busy => "Busy",
            DropReason::Duplicate => "Duplicate",
            DropReason::Gap => "Gap",
            DropReason::Unexpected => "Unexpected",
        };
        f.write_str(word)
    }
}

/// Why an item stays at the head of its link.
#[derive(Clone, Copy, PartialEq, Eq)]
pub enum HeldReason {
    Quota,
    Ahead,
    NoStatus,
    NotArrived,
    Early,
}

impl fmt::Display for HeldReason {
    ghost output = { λ x. Some (held_text x) };

    fn fmt<W: fmt::Write>(&self, f: &mut fmt::Formatter<W>) -> fmt::Result {
        let word = match self {
            HeldReason::Quota => "Quota",
            HeldReason::Ahead => "Ahead",
            HeldReason::NoStatus => "NoStatus",
            HeldReason::NotArrived => "NotArrived",
            HeldReason::Early => "Early",
        };
        f.write_str(word)
    }
}

/// Why a procedure ended without success.
#[derive(Clone, Copy, PartialEq, Eq)]
pub enum CauseName {
    Quota,
    Busy,
    Unit,
    Timeout,
}

impl fmt::Display for CauseName {
    ghost output = { λ x. Some (cause_text x) };

    fn fmt<W: fmt::Write>(&self, f: &mut fmt::Formatter<W>) -> fmt::Result {
        let word = match self {
            CauseName::Quota => "quota",
            CauseName::Busy => "busy",
            CauseName::Unit => "unit",
            CauseName::Timeout => "timeout",
        };
        f.write_str(word)
    }
}

/// Why an event can't apply.
#[derive(Clone, Copy, PartialEq, Eq)]
pub enum RefuseReason {
    Attached,
    NotStarted,
    NoBearer,
    NoPath,
    Size,
    Quota,
    NoSuch,
    Empty,
    NoRadio,
    NotAllowed,
    NoUe,
    NotAccessing,
    NoHome,
    Busy,
    Same,
    TooLate,
    NoLink,
    Decodable,
}

impl fmt::Display for RefuseReason {
    ghost output = { λ x. Some (refuse_text x) };

    fn fmt<W: fmt::Write>(&self, f: &mut fmt::Formatter<W>) -> fmt::Result {
        let word = match self {
            RefuseReason::Attached => "Attached",
            RefuseReason::NotStarted => "NotStarted",
            RefuseReason::NoBearer => "NoBearer",
            RefuseReason::NoPath => "NoPath",
            RefuseReason::Size => "Size",
            RefuseReason::Quota => "Quota",
            RefuseReason::NoSuch => "NoSuch",
            RefuseReason::Empty => "Empty",
            RefuseReason::NoRadio => "NoRadio",
            RefuseReason::NotAllowed => "NotAllowed",
            RefuseReason::NoUe => "NoUe",
            RefuseReason::NotAccessing => "NotAccessing",
            RefuseReason::NoHome => "NoHome",
            RefuseReason::Busy => "Busy",
            RefuseReason::Same => "Same",
            RefuseReason::TooLate => "TooLate",
            RefuseReason::NoLink => "NoLink",
            RefuseReason::Decodable => "Decodable",
        };
        f.write_str(word)
    }
}
