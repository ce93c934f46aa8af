//! Laws about the definitions, each the contract of a function with an empty body.

ghost use Rattle.session_store.specs.WorkedPlaces.{WorkedRanges, WorkedRooms};
ghost use Rattle.session_store.specs.RowsDecide.{RowsDecide};

/// Where four sessions are in a flash, and which setups there is room for, worked out.
pub fn worked_places()
    ensures ranges { WorkedRanges }
    ensures rooms { WorkedRooms }
{}

/// Sessions of the least size for the rows that are kept refuse what the largest do.
pub fn rows_decide()
    ensures { RowsDecide }
{}
