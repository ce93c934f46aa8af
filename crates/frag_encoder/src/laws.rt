//! Laws about the definitions, each the contract of a function with an empty body.

ghost use Rattle.frag_encoder.specs.Laws.{FragmentsAreTheFiles};
ghost use Rattle.frag_encoder.specs.WorkedFiles.{WorkedFiles, WorkedSizes};

/// The fragments of a file are those of one block: the block fits whatever is heard of them, and what is recovered from it is the
/// file.
pub fn fragments_are_the_files()
    ensures { FragmentsAreTheFiles }
{}

/// Files cut into pieces, their fragments, and the sizes that are refused, worked out.
pub fn worked_files()
    ensures files { WorkedFiles }
    ensures sizes { WorkedSizes }
{}
