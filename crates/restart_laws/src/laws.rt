//! Laws about the definitions, each the contract of a function with an empty body.

ghost use Rattle.restart_laws.specs.Steps.{RestartsChangeNothing};

/// For any device whose sessions are held in flash, and any of its calls, power among them: restarts, wherever they come between,
/// change neither what the calls answer nor the record after them. That a device that is saved can be restored is a clause of
/// `Device::save`.
#[tactic(auto, using(crate::proofs::Steps::restarts_change_nothing))]
pub fn restarts_change_nothing()
    ensures { RestartsChangeNothing }
{}
