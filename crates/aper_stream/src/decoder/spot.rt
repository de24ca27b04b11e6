//! Where a decoder has come to, between two pieces.

ghost use Rattle.std.specs.Prelude.{◌≡◌, ◌*◌, ◌≤◌, OnOk, length};
ghost use Rattle.aper_stream.specs.decoder.inside.Reading.{cursor_at, IsSpotInside};

use aper_cursor::{Cursor, Span};
use gnb_types::items::Memory;

/// The first bit of what comes next, and the open types around it, the innermost last.
#[derive(Drop)]
pub struct Spot {
    pub place: u64,
    pub spans: Vec<Span>,
}

impl Spot {
    /// Where a cursor is.
    pub fn move_to(&mut self, cursor: &Cursor) -> Result<(), Memory>
        ensures same { OnOk result (cursor.now ≡ cursor_at self.new cursor.now.octets) }
        ensures inside { OnOk result (IsSpotInside (length cursor.now.octets) self.new) }
    {
        cursor.put_spans(&mut self.spans)?;
        self.place = cursor.place();
        Ok(())
    }
}
