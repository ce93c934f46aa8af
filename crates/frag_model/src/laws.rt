//! Laws about the definitions, each the contract of a function with an empty body.

ghost use Rattle.frag_model.specs.NewsLaw.{OldFragmentsAddNothing};
ghost use Rattle.frag_model.specs.Laws.{ExactlyOneVerdict, OneBlockIsOneFile, FullGainIsUniqueness, GainIsBounded, EnoughRowsForTheUnheard, EveryLineHasEnoughDraws, WorkedValues};

/// For each list of heard fragments exactly one verdict is right: the one that `verdict` gives.
pub fn exactly_one_verdict()
    ensures { ExactlyOneVerdict }
{}

/// Where the padding is shorter than a piece, only one block fits exactly where only one file fits.
pub fn one_block_is_one_file()
    ensures { OneBlockIsOneFile }
{}

/// Where some block fits, gain is full exactly where only one block fits.
pub fn full_gain_is_uniqueness()
    ensures { FullGainIsUniqueness }
{}

/// Gain is at most the number of pieces, and at least the pieces that came uncoded.
pub fn gain_is_bounded()
    ensures { GainIsBounded }
{}

/// As many rows as there are pieces not yet heard at the first coded fragment are enough.
pub fn enough_rows_for_the_unheard()
    ensures { EnoughRowsForTheUnheard }
{}

/// Fragments that change neither gain nor direct nor the verdict can be left out of a list.
pub fn old_fragments_add_nothing()
    ensures { OldFragmentsAddNothing }
{}

/// Every line finds its columns within 25 states for each.
pub fn every_line_has_enough_draws()
    ensures { EveryLineHasEnoughDraws }
{}

/// The definitions give the worked values of lines, draws, gain and direct.
pub fn worked_values()
    ensures { WorkedValues }
{}
