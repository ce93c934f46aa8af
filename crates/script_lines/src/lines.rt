//! The lines of a source.

ghost use Rattle.std.specs.Prelude.{◌≡◌, false, None, IfSome, All};
ghost use Rattle.std.specs.List.{position};
ghost use Rattle.script_lines.specs.Lines.{is_feed};
ghost use Rattle.script_lines.specs.HeldLines.{IsLastFeed};

use memchr::{memchr, memrchr};

/// The place of the first line feed; one that comes first needs no search.
pub(crate) fn line_feed(bytes: &[u8]) -> Option<usize>
    ensures { result ≡ position is_feed bytes.now }
{
    match bytes {
        [b'\n', ..] => Some(0),
        _ => memchr(b'\n', bytes),
    }
}

/// The place of the last line feed.
pub(crate) fn last_feed(bytes: &[u8]) -> Option<usize>
    ensures some { IfSome result (λ end. IsLastFeed bytes.now end) }
    ensures none { result ≡ None → All (λ b. is_feed b ≡ false) bytes.now }
{
    memrchr(b'\n', bytes)
}
