//! Lines and columns of a text.

ghost use Rattle.std.specs.Prelude.{◌≡◌, ◌+◌, ◌≤◌, take, length};
ghost use Rattle.asn1_defs.specs.Positions.{line_after, column_after};

/// The line and the column behind these octets, both from 1. Columns count octets.
pub fn position_after(front: &[u8]) -> (u64, u64)
    ensures line { result.0 ≡ line_after front.now }
    ensures column { result.1 ≡ column_after front.now }
{
    let mut line: u64 = 1;
    let mut column: u64 = 1;
    for c in front {
        if *c == b'\n' {
            line += 1;
            column = 1;
        } else {
            column += 1;
        }
    }
    (line, column)
}
