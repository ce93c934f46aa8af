//! A flash: bytes by place, which a sync makes outlast a stop.

ghost use Rattle.std.specs.Prelude.{◌≡◌, ℕ, ◌+◌, ◌^◌, ◌<◌, ◌≤◌, Bool, length, replicate, OnOk, is_err};
ghost use Rattle.flash_session.specs.Contents.{SameOutside, Same, Put, Follows, Gives};
ghost use Rattle.flash_session.specs.Seen.{FlashSeen, IsKept};
ghost use Rattle.flash_session.specs.Serving.{FlashServes, FlashReads};

use thiserror::Error;

/// A call of the flash failed.
#[derive(Clone, Copy, Debug, PartialEq, Eq, Error)]
#[error("a call of the flash failed")]
pub struct Failed;

/// Bytes by place. Between two syncs a stop may leave any bytes where something was written; after a sync it leaves what a read
/// gives. Where a flash tells nothing, no content is held, and the clauses about contents say nothing.
pub trait Flash {
    /// What a flash tells: what a read gives, what a stop may leave, and how often a call has failed.
    ghost seen: { Self → FlashSeen };

    /// What a flash tells of a call that takes so many steps, from what it was before to what it is after: whether the call
    /// failed.
    ghost tells: { Self → Self → (steps : ℕ) → (failed : Bool) → Type 0 };

    /// Returns how many bytes it has; this never changes.
    fn size(&self) -> u32
        ensures { result ≡ (seen self.now).room };

    /// Fills `buf` with the bytes from a place on.
    fn read(&mut self, at: u32, buf: &mut [u8]) -> Result<(), Failed>
        requires { at + length buf.old ≤ (seen self.old).room }
        ensures reads { FlashReads (λ done holds. Gives holds at buf.new) (seen self.old)
            (seen self.new) result }
        ensures told { tells self.old self.new 0 (is_err result) };

    /// Writes the piece from a place on. Until a sync, and after a failure, any bytes may be there.
    fn write(&mut self, at: u32, piece: &[u8]) -> Result<(), Failed>
        requires { at + length piece.now ≤ (seen self.old).room }
        ensures written { OnOk result
            (Follows (Put at piece.now) (seen self.old).holds (seen self.new).holds) }
        ensures serves { FlashServes (SameOutside at (length piece.now)) (seen self.old)
            (seen self.new) result }
        ensures told { tells self.old self.new (length piece.now) (is_err result) };

    /// Writes `n` zeros from a place on. Until a sync, and after a failure, any bytes may be there.
    fn fill(&mut self, at: u32, n: u32) -> Result<(), Failed>
        requires { at + n ≤ (seen self.old).room }
        ensures written { OnOk result
            (Follows (Put at (replicate n 0)) (seen self.old).holds (seen self.new).holds) }
        ensures serves { FlashServes (SameOutside at n) (seen self.old) (seen self.new) result }
        ensures told { tells self.old self.new n (is_err result) };

    /// Makes what a read gives outlast a stop.
    fn sync(&mut self) -> Result<(), Failed>
        ensures durable { OnOk result (IsKept (seen self.new)) }
        ensures serves { FlashServes Same (seen self.old) (seen self.new) result }
        ensures told { tells self.old self.new 1 (is_err result) };

    /// Places are numbers of 32 bits.
    ghost small: { (f : Self) → (seen f).room < 2 ^ 32 };
}
