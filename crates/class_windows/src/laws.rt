//! Laws about the definitions, each the contract of a function with an empty body.

ghost use Rattle.std.specs.Prelude.{◌≡◌, ◌↔◌, ◌<◌, ◌*◌, ◌^◌, ℕ, IsTrue, Some};
ghost use Rattle.class_windows.specs.Windows.{IsAfterUplink, IsRunning, IsInSlot, IsPinged};
ghost use Rattle.class_windows.specs.Open.{is_after_uplink, is_running, is_in_slot, is_open_a, is_open_b, is_open_c};
ghost use Rattle.class_windows.specs.WorkedWindows.{WorkedWindows, WorkedSlots, WorkedAnswers};

/// Each test of a window is true exactly where the moment is in its interval.
pub fn window_tests()
    ensures after_uplink { (due t : ℕ) → IsTrue (is_after_uplink due t) ↔ IsAfterUplink due t }
    ensures running { (start duration ms : ℕ) → start < 2 ^ 32 → duration < 2 ^ 32
        → IsTrue (is_running start duration ms) ↔ IsRunning start duration ms }
    ensures in_slot { (offset period ms : ℕ) → 0 < period → IsTrue (is_in_slot offset period ms)
        ↔ IsInSlot offset period ms }
{}

/// So each class is open exactly in the intervals of `specs/Windows.antt`.
pub fn classes_hear_in_their_intervals()
    ensures class_a { (due t : ℕ) → IsTrue (is_open_a (Some due) t) ↔ IsAfterUplink due t }
    ensures class_c { (time timeout ms : ℕ) → time < 2 ^ 32 → timeout < 16
        → IsTrue (is_open_c time timeout ms) ↔ IsRunning time (2 ^ timeout) ms }
    ensures class_b { (time periodicity timeout ms addr : ℕ) → time < 2 ^ 32 → timeout < 16
        → IsTrue (is_open_b time periodicity timeout ms addr)
        ↔ IsPinged time periodicity timeout ms addr }
{}

/// Windows, slots and answers, worked out.
pub fn worked_windows()
    ensures windows { WorkedWindows }
    ensures slots { WorkedSlots }
    ensures answers { WorkedAnswers }
{}
