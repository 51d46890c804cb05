//! Which calls of a form are to fail.
ghost use Rattle.std.specs.Prelude.{◌≡◌, ◌≤◌, ◌+◌, ◌-◌, ◌^◌, min, if◌then◌else◌, nat_eq};
ghost use Rattle.std.specs.List.{list_any};
ghost use Rattle.lb_files.specs.Forms.{one_more};

use lb_base::NumberList;

/// Counts the calls of a form from 0, and those that failed. Both counts stop at the last number.
#[derive(Drop)]
pub(super) struct Calls {
    failing: NumberList,
    made: u64,
    pub(super) faults: u64,
}

impl Calls {
    pub(super) fn new(failing: NumberList) -> Calls
        ensures failing { result.failing ≡ failing }
        ensures made { result.made ≡ 0 }
        ensures faults { result.faults ≡ 0 }
    {
        Calls {
            failing,
            made: 0,
            faults: 0,
        }
    }

    /// Counts a call. Is it one of those that are to fail?
    pub(super) fn is_to_fail(&mut self) -> bool
        ensures which { result ≡ list_any (λ n. nat_eq n self.old.made) self.old.failing }
        ensures made { self.new.made ≡ one_more self.old.made }
        ensures failing { self.new.failing ≡ self.old.failing }
        ensures faults { self.new.faults ≡ self.old.faults }
    {
        let number = self.made;
        self.made = number.saturating_add(1);
        self.failing.as_slice().contains(&number)
    }

    pub(super) fn count_fault(&mut self)
        ensures one { self.new.faults ≡ one_more self.old.faults }
        ensures later { self.old.faults ≤ self.new.faults }
    {
        self.faults = self.faults.saturating_add(1);
    }
}
