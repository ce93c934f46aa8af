//! Laws about the definitions, each the contract of a function with an empty body.

ghost use Rattle.std.specs.Prelude.{◌≡◌, ℕ, ◌/◌, ◌%◌, ◌^◌, ◌<◌, ℤ, pos, ◌+ℤ◌, ◌*ℤ◌, FitsSigned};
ghost use Rattle.std.specs.Int.{w32};
ghost use Rattle.clock_sync.specs.Clock.{Clock, device_time, device_millis, correction_of, after_answer};
ghost use Rattle.clock_sync.specs.Clock.{IsCongruent, IsCorrection, IsCorrected};
ghost use Rattle.clock_sync.specs.WorkedClocks.{WorkedClocks};

/// The correction that is answered is the one number that brings the device's time to the server's.
pub fn correction_is_the_one()
    ensures exact { (server device : ℕ) → server < 2 ^ 32 → device < 2 ^ 32
        → IsCorrection server device (correction_of server device) }
    ensures unique { (server device : ℕ) (c d : ℤ)
        → IsCorrection server device c → IsCorrection server device d → c ≡ d }
{}

/// A clock that takes the correction of a moment shows the server's time of that moment.
pub fn correction_mends_the_clock()
    ensures { (server t : ℕ) (old new : Clock) (c : ℤ)
        → IsCorrection server (device_time old t) c → IsCorrected old c new
        → device_time new t ≡ server % 2 ^ 32 }
{}

/// The milliseconds are those of the seconds.
pub fn millis_are_of_the_seconds()
    ensures { (clock : Clock) (t : ℕ) → device_millis clock t / 1000 ≡ device_time clock t }
{}

/// Numbers have one remainder exactly where they differ by a multiple.
pub fn congruent_by_a_multiple()
    ensures multiple { (x y : ℤ) → IsCongruent (2 ^ 32) x y
        → (k : ℤ) × (x ≡ y +ℤ k *ℤ pos (2 ^ 32)) }
    ensures congruent { (x y k : ℤ) → x ≡ y +ℤ k *ℤ pos (2 ^ 32) → IsCongruent (2 ^ 32) x y }
{}

/// An answer with the clock's token corrects it.
pub fn an_answer_corrects()
    ensures { (correction : ℤ) (clock : Clock) → FitsSigned w32 correction → clock.offset < 2 ^ 32
        → IsCorrected clock correction (after_answer correction clock.token clock) }
{}

/// Times and corrections of clocks, worked out.
pub fn worked_clocks()
    ensures { WorkedClocks }
{}
