//! What holds of every number and of every row of a command table, whatever bytes stand around it.

ghost use Rattle.std.specs.Prelude.{◌≡◌, ℕ, ◌+◌, ◌*◌, ◌^◌, ◌<◌, List, [], ◌++◌, length, IsTrue, false};
ghost use Rattle.wire_base.specs.Numbers.{number_at, number_bytes};
ghost use Rattle.wire_base.specs.Rows.{Row, Lies, PartsFit, spelling, is_well_formed, takes_rest};
ghost use Rattle.wire_base.specs.WorkedNumbers.{WorkedNumbers};

/// A number that is put at a place is read back from there.
pub fn number_put_is_number_read()
    ensures { (width n : ℕ) (before after : List ℕ) → n < 2 ^ (8 * width)
        → number_at (before ++ number_bytes width n ++ after) (length before) width ≡ n }
{}

/// A command that was written is at its place, whatever follows; nothing may follow one that takes the rest.
pub fn row_written_lies()
    ensures { (row : Row) (before after : List ℕ)
        → IsTrue (is_well_formed row.parts) → PartsFit row.parts → row.cid < 256
        → (IsTrue (takes_rest row.parts) → after ≡ [])
        → Lies row (before ++ spelling row ++ after)
        (length before) (length before + length (spelling row)) }
{}

/// A command that doesn't take the rest is still at its place when more bytes are put after it.
pub fn row_lies_before_more()
    ensures { (row : Row) (bytes more : List ℕ) (at next : ℕ) → takes_rest row.parts ≡ false
        → Lies row bytes at next → Lies row (bytes ++ more) at next }
{}

/// Numbers, fields, a row and numbered items, worked out.
pub fn worked_numbers()
    ensures { WorkedNumbers }
{}
