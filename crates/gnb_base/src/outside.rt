//! The outside of the program: where its input comes from, and where its output goes.
//!
//! A source or a sink may report its bytes, as one in memory does, or not, as standard input. Each counts its faults:
//! a call that answers `Failed`, and no other, moves that count.

ghost use Rattle.std.specs.Prelude.{◌≡◌, ◌<◌, length, IfOk, is_err};
ghost use Rattle.std.specs.Io.{ReadsAtMost, WritesAtMost};
ghost use Rattle.std.specs.Io.KnownBytes.{ReadConsumes, WriteAppends};
ghost use Rattle.gnb_base.specs.Outside.{SourceAt, SinkAt, CountsFaults, one_more};

/// A read or a write that did not succeed.
#[derive(Clone, Copy, Debug, PartialEq, Eq)]
pub struct Failed;

/// Where bytes come from.
pub trait Source {
    /// The bytes not yet read, how many reads failed and were made, and whether the last one failed.
    ghost at: { Self → SourceAt };

    /// Fills a front of `buf`, and answers how many bytes; 0 for a buffer that isn't empty only at the end.
    fn read(&mut self, buf: &mut [u8]) -> Result<usize, Failed>
        ensures bound { ReadsAtMost result buf.new }
        ensures bytes { ReadConsumes (at self.old).left (at self.new).left result buf.new }
        ensures faults { CountsFaults (at self.old).faults (at self.new).faults result }
        ensures calls { (at self.new).calls ≡ one_more (at self.old).calls }
        ensures failed { (at self.new).failed ≡ is_err result };
}

/// Where bytes go.
pub trait Sink {
    /// The bytes taken, how many writes failed, and whether the last one did.
    ghost at: { Self → SinkAt };

    /// Takes a front of `piece`, and answers how many bytes; never 0 for a piece that isn't empty.
    fn write(&mut self, piece: &[u8]) -> Result<usize, Failed>
        ensures bound { WritesAtMost result piece.now }
        ensures some { IfOk result (λ n. 0 < length piece.now → 0 < n) }
        ensures bytes { WriteAppends (at self.old).held (at self.new).held result piece.now }
        ensures faults { CountsFaults (at self.old).faults (at self.new).faults result }
        ensures failed { (at self.new).failed ≡ is_err result };
}
