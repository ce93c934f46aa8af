//! What is kept of a column, as a value and in two bytes.

ghost use Rattle.std.specs.Prelude.{◌≡◌, ℕ, ◌≤◌};
ghost use Rattle.row_elimination.specs.PackedColumns.{last_slot};

use std::marker::Model;

/// What is kept of a column.
#[derive(Clone, Copy)]
pub enum Column {
    /// Nothing.
    Free,
    /// Its piece, at its place in the area.
    Piece,
    /// The row that it leads, in this slot.
    Row(u16),
}

/// A column in two bytes. A contract sees it as a `Column`.
#[derive(Clone, Copy)]
pub struct PackedColumn {
    code: u16,
}

impl Model for PackedColumn {
    ghost use Rattle.row_elimination.specs.declared.columns.Column.{Column};

    ghost Value = { Column };

    ghost use Rattle.row_elimination.specs.PackedColumns.{column_in, code_in, packed, packed_back};

    ghost view = { λ c. column_in c.code };

    ghost inverse = { λ column. packed (code_in column) };

    ghost inverse_ok = { λ c holds. packed_back c };
}

impl PackedColumn {
    /// Packs a column, whose slot is at most 65,533.
    pub fn new(column: Column) -> PackedColumn
        requires { (slot : ℕ) → column ≡ Column.Row slot → slot ≤ last_slot }
        ensures { result ≡ column }
    {
        match column {
            Column::Free => PackedColumn { code: 0 },
            Column::Piece => PackedColumn { code: 1 },
            Column::Row(slot) => PackedColumn { code: slot + 2 },
        }
    }

    /// Returns what is kept.
    pub fn column(&self) -> Column
        ensures same { result ≡ self.now }
        ensures fits { (slot : ℕ) → result ≡ Column.Row slot → slot ≤ last_slot }
    {
        if self.code == 0 {
            Column::Free
        } else if self.code == 1 {
            Column::Piece
        } else {
            Column::Row(self.code - 2)
        }
    }
}
