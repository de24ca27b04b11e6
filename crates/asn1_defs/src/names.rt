//! What names stand for.

/// What a name may stand for.
#[derive(Clone, Copy, PartialEq, Eq)]
pub enum Kind {
    Type,
    IeSet,
    ProcedureSet,
}
