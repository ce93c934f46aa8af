//! A law about the definitions, as the contract of a function with an empty body.

ghost use Rattle.fuota_c.specs.WorkedFields.{AreTaken, AreTold};

/// Each field that C hands over, or is handed, is what it says, and each value has the number of the header.
pub fn worked_fields()
    ensures taken { AreTaken }
    ensures told { AreTold }
{}
