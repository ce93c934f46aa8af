//! Where a range is in the part: its header at the end of a sector, its gates in the next six, its
//! records after them.

ghost use Rattle.std.specs.Prelude.{◌≡◌, ◌+◌, ◌*◌, ◌≤◌};
ghost use Rattle.flash_session.specs.Layout.{gates_place, gates_size, records_place};

/// Bytes that an erase sets to ff.
pub const SECTOR: u32 = 4096;

/// Where a range begins in its first sector, which has the 64 bytes of its header; its gates begin
/// in the next sector.
pub const FIRST: u32 = 4032;

/// The gates of records and of tallies, counted from the range's first byte.
pub const GATES: u32 = 64;

/// How many bytes they have.
pub const GATES_SIZE: u32 = 24_576;

/// The shortest range: its records begin there.
pub const RECORDS: u32 = 24_640;

/// The sectors of header and gates.
pub const FIXED: u32 = 7;

/// Header, gates and records share no sector.
pub fn parts_fill_sectors()
    ensures gates { FIRST + gates_place ≡ SECTOR }
    ensures size { gates_size ≡ 6 * SECTOR }
    ensures records { FIRST + records_place ≡ FIXED * SECTOR }
    ensures same { (GATES ≡ gates_place) × (GATES_SIZE ≡ gates_size) × (RECORDS ≡ records_place) }
{}

/// Returns the sectors of a range of `span` bytes: those of its header, gates and records, a spare
/// one, and the journal's.
pub fn sectors_of(span: u32) -> u32
    ensures { 9 ≤ result }
{
    FIXED + span.saturating_sub(RECORDS).div_ceil(SECTOR) + 2
}
