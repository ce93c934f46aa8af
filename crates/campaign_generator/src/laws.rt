//! Laws about the definitions, each as the contract of a function with an empty body.

ghost use Rattle.campaign_generator.specs.Forms.{AllLinesSpellForms};
ghost use Rattle.campaign_generator.specs.ImageFile.{AreImageFiles};
ghost use Rattle.campaign_generator.specs.WorkedSeed.{IsWorkedSeed, IsWorkedScript};

/// The image of every seed is an image file, with hardware version 1, the seed's firmware version and its length.
pub fn image_files()
    ensures { AreImageFiles }
{}

/// Seed 0 draws 15470 first: its image has 7,327 bytes in 115 fragments, and its script sends 291 payloads. What is skipped, and
/// lines of scripts, are worked out.
pub fn worked_seed()
    ensures seed { IsWorkedSeed }
    ensures script { IsWorkedScript }
{}

/// The lines of the script of every seed spell its forms, one each; each has at most 60 bytes, and there are at most 4,524.
pub fn lines_are_forms()
    ensures { AllLinesSpellForms }
{}
