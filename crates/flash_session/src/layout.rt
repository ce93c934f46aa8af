//! The places of a session's parts in its range, counted from the range's first byte (this project's profile).

ghost use Rattle.std.specs.Prelude.{◌≡◌, ◌+◌, ◌*◌, ◌≤◌};
ghost use Rattle.frag_model.specs.Limits.{max_pieces};
ghost use Rattle.flash_session.specs.Layout.{open_gate, body_place, body_size, gates_place, most_records};
ghost use Rattle.flash_session.specs.Layout.{tallies_place, most_tallies, gates_size, records_place};

/// A gate that is open; any other byte is a closed gate. The header's gate is the first byte.
pub const OPEN: u8 = 0xa5;

/// Where the body of the setup begins.
pub const BODY: u32 = 1;

/// Where the gates of records begin.
pub const RECORD_GATES: u32 = 64;

/// Where the gates of fragments that are only counted begin.
pub const TALLY_GATES: u32 = 8257;

/// How many of these gates there are.
pub const MAX_TALLIES: u16 = 16_383;

/// Where the records begin.
pub const RECORDS: u32 = 24_640;

/// How many bytes the gates of records and of tallies have.
pub const GATES: u32 = RECORDS - RECORD_GATES;

/// The numbers of the code are those of the definitions. There are gates for the records of the most pieces, and each part ends
/// no later than the next one begins.
pub fn parts_lie_side_by_side()
    ensures gate { OPEN ≡ open_gate }
    ensures places { (BODY ≡ body_place) × (RECORD_GATES ≡ gates_place)
        × (TALLY_GATES ≡ tallies_place)
        × (RECORDS ≡ records_place) }
    ensures counts { (MAX_TALLIES ≡ most_tallies) × (GATES ≡ gates_size)
        × (2 * max_pieces + 1 ≡ most_records) }
    ensures apart { (body_place + body_size ≤ gates_place)
        × (gates_place + most_records ≡ tallies_place)
        × (tallies_place + most_tallies ≡ records_place)
        × (gates_place + gates_size ≡ records_place) }
{}
