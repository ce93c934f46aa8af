//! A part of NOR flash, as its maker's code reaches it.

ghost use Rattle.std.specs.Prelude.{◌≡◌, ℕ, ◌+◌, ◌*◌, ◌≤◌, List, length, replicate, OnOk};
ghost use Rattle.flash_session.specs.Contents.{SameOutside, Put, Follows, Gives};
ghost use Rattle.sample_nor_flash.specs.Cells.{OnlyFalls};

use flash_session::Failed;

// sample
/// A part of NOR flash: bytes in sectors of 4,096, which an erase sets to ff, and of which a
/// program clears bits. What returned Ok outlasts a stop.
pub trait Nor {
    /// The contents that it may have. What a part does not tell of itself, no content has: then the
    /// clauses on it say nothing.
    ghost holds: { Self → List ℕ → Type 0 };

    /// How many bytes it has.
    ghost room: { Self → ℕ };

    /// How many bytes it has; it never changes.
    fn size(&self) -> u32
        ensures { result ≡ room self.now };

    /// Fills `buf` with the bytes from a place on.
    fn read(&mut self, at: u32, buf: &mut [u8]) -> Result<(), Failed>
        requires { at + length buf.old ≤ room self.old }
        ensures told { OnOk result (Gives (holds self.new) at buf.new) }
        ensures stays { (c : List ℕ) → holds self.new c → holds self.old c }
        ensures size { room self.new ≡ room self.old };

    /// Clears bits until the piece stands there; no bit has to rise for it. After a failure, and
    /// where it is stopped, any of its bits may be cleared or not.
    fn program(&mut self, at: u32, piece: &[u8]) -> Result<(), Failed>
        requires within { at + length piece.now ≤ room self.old }
        requires falls { (c : List ℕ) → holds self.old c → OnlyFalls c at piece.now }
        ensures put { OnOk result (Follows (Put at piece.now) (holds self.old) (holds self.new)) }
        ensures outside { Follows (SameOutside at (length piece.now)) (holds self.old)
            (holds self.new) }
        ensures size { room self.new ≡ room self.old };

    /// Sets all bytes of a sector to ff. After a failure, and where it is stopped, any bytes may
    /// stand in that sector.
    fn erase(&mut self, sector: u32) -> Result<(), Failed>
        requires within { 4096 * sector + 4096 ≤ room self.old }
        ensures put { OnOk result (Follows (Put (4096 * sector) (replicate 4096 255))
            (holds self.old) (holds self.new)) }
        ensures outside { Follows (SameOutside (4096 * sector) 4096) (holds self.old)
            (holds self.new) }
        ensures size { room self.new ≡ room self.old };
}
// end of sample
