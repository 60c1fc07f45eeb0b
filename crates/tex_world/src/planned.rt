//! Counts calls, of which one can be planned to fail.
ghost use Rattle.std.specs.Prelude.{◌≡◌, ◌↔◌, ◌+◌, min, Option, Some, None, IsTrue};
ghost use Rattle.tex_world.specs.Counts.{last_count, RisesByOne};

/// The number of the call that will fail, counted from 1, and the numbers of calls and failures so
/// far.
#[derive(Drop)]
pub struct Planned {
    pub fail: Option<u64>,
    pub calls: u64,
    pub faults: u64,
}

impl Planned {
    ghost use Rattle.tex_world.specs.Memory.{IsPlanned};

    /// No calls so far.
    pub fn new(fail: Option<u64>) -> Self
        ensures fail { result.fail ≡ fail }
        ensures calls { result.calls ≡ 0 }
        ensures faults { result.faults ≡ 0 }
    {
        Planned {
            fail,
            calls: 0,
            faults: 0,
        }
    }

    /// Counts a call and says whether it is the one that fails. The failure itself is counted by
    /// `failed`.
    pub fn fails(&mut self) -> bool
        ensures value { IsTrue result ↔ IsPlanned self.old }
        ensures calls { self.new.calls ≡ min (self.old.calls + 1) last_count }
        ensures fail { self.new.fail ≡ self.old.fail }
        ensures faults { self.new.faults ≡ self.old.faults }
    {
        let before = self.calls;
        self.calls = before.saturating_add(1);
        match self.fail {
            Some(n) => n > before && n - before == 1,
            None => false,
        }
    }

    /// Counts a failure.
    pub fn failed(&mut self)
        ensures faults { RisesByOne self.old.faults self.new.faults }
        ensures calls { self.new.calls ≡ self.old.calls }
        ensures fail { self.new.fail ≡ self.old.fail }
    {
        self.faults = self.faults.saturating_add(1);
    }
}
