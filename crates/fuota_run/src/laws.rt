//! Laws about the definitions, each the contract of a function with an empty body.

ghost use Rattle.fuota_run.specs.Answer.{HasAnAnswer, HasOneAnswer};
ghost use Rattle.fuota_run.specs.Forms.{NamesAreWords, OtherCountsAreNone, WordsAreForms};
ghost use Rattle.fuota_run.specs.WorkedAnswers.{AreAnswers, AreInOrder};
ghost use Rattle.fuota_run.specs.Headline.{IsCaptureAnswered, IsRecoveryAnswered, IsReplayAnswered, IsReportAnswered, IsSeedAnswered};
ghost use Rattle.fuota_run.specs.PairHeadline.{AreTwoCampaigns, AreTwoApart, IsPairAnswered};

/// For any image and any accepted script, the answer is the report of that campaign, which is that of the headline of
/// `campaign_laws`.
pub fn report_is_answered()
    ensures { IsReportAnswered }
{}

/// For any image and any accepted script, `recover` answers the file where the device has one, which is the image where the
/// script is honest, and else why the device has none.
pub fn recovery_is_answered()
    ensures { IsRecoveryAnswered }
{}

/// For any payloads that are replayed to their end, the answer is the text of the law `replay_is_decided_at_first` of
/// `payload_replay`.
pub fn replay_is_answered()
    ensures { IsReplayAnswered }
{}

/// For any capture whose lines are all accepted, the answer is its text: what each object says and, where all go down on port
/// 201, at its end the answer to a replay of their payloads.
pub fn capture_is_answered()
    ensures { IsCaptureAnswered }
{}

/// For any seed, its campaign is accepted line by line, and the answer is its summary: as many devices are updated as have the
/// file.
pub fn seeds_are_summed_up()
    ensures { IsSeedAnswered }
{}

/// For any two images and any accepted script, the answer is the report of both campaigns. Each is the campaign that its own
/// image, and what the lines say to it, define; so the laws of `pair_laws` hold for its devices and their sessions.
pub fn pair_is_answered()
    ensures answered { IsPairAnswered }
    ensures each { AreTwoCampaigns }
    ensures apart { AreTwoApart }
{}

/// Words have one answer over the files that are held: one status, and one text.
pub fn run_has_one_answer()
    ensures once { HasOneAnswer }
    ensures always { HasAnAnswer }
{}

/// A keyword and its names, which do not begin with a dash, are that form.
pub fn words_are_forms()
    ensures { WordsAreForms }
{}

/// A keyword with fewer names than its form has, or with more, is no form.
pub fn other_counts_are_no_forms()
    ensures { OtherCountsAreNone }
{}

/// The names of the files that are asked for are among the words, and a run needs no other files.
pub fn names_are_words()
    ensures { NamesAreWords }
{}

/// Answers, worked out: the number of each status, and what is written with it; and of two images and a script, the answer is for
/// the first that is refused.
pub fn worked_answers()
    ensures answers { AreAnswers }
    ensures order { AreInOrder }
{}
