//! Laws about the definitions, each the contract of a function with an empty body.

ghost use Rattle.exchange_laws.specs.EachUpdating.{EachAnswersUpdate};
ghost use Rattle.exchange_laws.specs.Moving.{ExchangesMove};
ghost use Rattle.exchange_laws.specs.OnceAtServer.{MovesOnceAtServer};
ghost use Rattle.exchange_laws.specs.WorkedExchange.{WorkedExchange};
ghost use Rattle.exchange_laws.specs.WorkedStages.{WorkedStages};
ghost use Rattle.exchange_laws.specs.Updating.{ExchangesMoveOn, AnswersUpdate};

/// Where a server asks a device that it reaches, and the uplink that the device makes comes to the server, the stage after it is
/// what the device's answer makes of the stage before. For each of the eight requests a device that suits it is led to the
/// stage that follows.
#[tactic(auto, using(crate::proofs::Moving::moving))]
pub fn an_exchange_moves_on()
    ensures { ExchangesMove }
{}

/// For any image and any accepted honest script: where a device that suits is asked, hears that request later and its uplink comes
/// to the server later still, it is at a later stage then, whatever other lines lie between; and at the one that follows, where
/// the uplink found the stage that was asked at.
#[tactic(auto, using(crate::proofs::Exchanging::exchanges_move_on))]
pub fn an_exchange_moves_a_campaign_on()
    ensures { ExchangesMoveOn }
{}

/// For any image and any accepted honest script: a device that suits, and that answers eight requests so, six where the plan has
/// no group, is updated and runs the image. Any other lines may lie before and between, and it must have its file whole where its
/// status is asked for.
pub fn a_device_that_answers_is_updated()
    ensures { AnswersUpdate }
{}

/// The same of each of two campaigns that share a script, for any two images and any accepted script: a device of either that suits
/// its plan, and that answers what its server asks, is updated and runs that campaign's image.
pub fn each_device_that_answers_is_updated()
    ensures { EachAnswersUpdate }
{}

/// For any server and any uplink that a device makes: where it has moved the device's stage, it moves no stage when it comes again,
/// whatever calls of the server come between. A device whose version is asked for first must not run the image's version then: the
/// same words would tell it at the check.
pub fn an_uplink_moves_a_server_once()
    ensures { MovesOnceAtServer }
{}

/// An exchange worked out: of two requests and two answers the second ones, with other lines between.
pub fn worked_exchange()
    ensures { WorkedExchange }
{}

/// The first stages of a campaign worked out, line by line; what follows each request, and how many exchanges a plan has.
pub fn worked_stages()
    ensures { WorkedStages }
{}
