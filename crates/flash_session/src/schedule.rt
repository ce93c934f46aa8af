//! Calls counted from 1, and the numbers of those that fail.

ghost use Rattle.std.specs.Prelude.{◌≡◌, ◌≤◌, ◌||◌, ◌==◌, false};
ghost use Rattle.std.specs.List.{list_any};
ghost use Rattle.std.specs.Bool.{OnTrue, OnFalse};
ghost use Rattle.flash_session.specs.Contents.{HasRisen};
ghost use Rattle.flash_session.specs.Flashes.{next_call};

#[derive(Debug, Drop)]
pub struct Schedule {
    pub fails: Vec<u64>,
    pub calls: u64,
    pub faults: u64,
}

impl Schedule {
    pub fn new(fails: Vec<u64>) -> Self
        ensures fails { result.fails.items ≡ fails.items }
        ensures start { (result.calls ≡ 0) × (result.faults ≡ 0) }
    {
        Schedule {
            fails,
            calls: 0,
            faults: 0,
        }
    }

    /// Counts a call, and a fault where it is listed or `full`; says whether it fails.
    pub fn fails_now(&mut self, full: bool) -> bool
        ensures exact { result ≡
            (full || list_any (λ n. n == next_call self.old.calls) self.old.fails.items) }
        ensures calls { self.new.calls ≡ next_call self.old.calls }
        ensures fails { self.new.fails.items ≡ self.old.fails.items }
        ensures risen { OnTrue result (HasRisen self.old.faults self.new.faults) }
        ensures room { OnFalse result (full ≡ false) }
        ensures same { OnFalse result (self.new.faults ≡ self.old.faults) }
        ensures kept { self.old.faults ≤ self.new.faults }
    {
        self.calls = self.calls.saturating_add(1);
        let fails = full || self.fails.contains(&self.calls);
        if fails {
            self.faults = self.faults.saturating_add(1);
        }
        fails
    }
}
