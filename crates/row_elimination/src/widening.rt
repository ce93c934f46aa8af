//! Vectors as long as a file needs, in memory that was taken before.

ghost use Rattle.std.specs.Prelude.{◌≡◌, ℕ, ◌-◌, ◌<◌, ◌≤◌, ◌++◌, length, get_or, replicate, vec_capacity};
ghost use Rattle.row_arena.specs.Rows.{line_in};

use crate::columns::{Column, PackedColumn};
use row_arena::clear_bits;

/// Widens to at least so many items; there is memory for them.
pub fn widen<T: Copy>(items: &mut Vec<T>, n: usize, new: T)
    requires { n ≤ vec_capacity items.old }
    ensures enough { n ≤ length items.new.items }
    ensures value { items.new.items
        ≡ items.old.items ++ replicate (n - length items.old.items) new }
    ensures capacity { vec_capacity items.old ≤ vec_capacity items.new }
{
    if items.len() < n {
        items.resize(n, new).unwrap();
    }
}

/// Makes so many columns, of which nothing is kept; there is memory for them.
pub fn free_all(columns: &mut Vec<PackedColumn>, n: usize)
    requires { n ≤ vec_capacity columns.old }
    ensures free { columns.new.items ≡ replicate n Column.Free }
    ensures capacity { vec_capacity columns.old ≤ vec_capacity columns.new }
{
    columns.clear();
    columns.resize(n, PackedColumn::new(Column::Free)).unwrap();
}

/// Makes so many slots, none of which is in use; there is memory for them.
pub fn spare_all(spare: &mut Vec<u16>, rows: u16)
    requires { rows ≤ vec_capacity spare.old }
    ensures enough { rows ≤ length spare.new.items }
    ensures each { (i : ℕ) → i < rows → get_or spare.new.items i 0 ≡ i }
    ensures capacity { vec_capacity spare.old ≤ vec_capacity spare.new }
{
    widen(spare, rows as usize, 0);
    count_up(spare, rows);
}

/// Makes at least so many words without any column; there is memory for them.
pub fn forget(known: &mut Vec<u64>, words: usize)
    requires { words ≤ vec_capacity known.old }
    ensures enough { words ≤ length known.new.items }
    ensures none { line_in known.new.items ≡ 0 }
    ensures capacity { vec_capacity known.old ≤ vec_capacity known.new }
{
    widen(known, words, 0);
    clear_bits(known);
}

/// Writes its own place to each of so many items; those after them are not used.
fn count_up(spare: &mut [u16], rows: u16)
    requires { rows ≤ length spare.old }
    ensures { (i : ℕ) → i < rows → get_or spare.new i 0 ≡ i }
{
    for i in 0..rows {
        spare[i as usize] = i;
    }
}
