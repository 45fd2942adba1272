ghost use Rattle.std.specs.Prelude.{◌≡◌, List, [], ◌∷◌, ◌++◌, OnErr, OnOk};
ghost use Rattle.mt_fault_terms.specs.Faults.{FileFault};
ghost use Rattle.mt_fault_sink.specs.Seen.{fault_seen};

use crate::fault::Fault;

/// A sink takes no more faults. It knows why.
#[derive(Clone, Copy, Debug)]
pub struct Stop;

/// What takes the faults of a file one after another.
pub trait FaultSink {
    /// Whether it can take a fault.
    ghost takes: { Self → Type 0 };

    /// Between two of its states it took these faults.
    ghost told: { Self → Self → List FileFault → Type 0 };

    /// Between two of its states it took these faults but for the last, at which it stopped.
    ghost stopped: { Self → Self → List FileFault → Type 0 };

    /// Takes the next fault: that of the record with this number, which is 0 if the fault is at no record. The error
    /// ends the search.
    fn put(&mut self, number: u64, fault: &Fault<'_>) -> Result<(), Stop>
        requires { takes self.old }
        ensures takes { OnOk result (takes self.new) }
        ensures told { OnOk result (told self.old self.new ((number, fault_seen fault.now) ∷ [])) }
        ensures stopped { OnErr result (stopped self.old self.new ((number, fault_seen fault.now) ∷ [])) };

    /// Between a state and itself it took nothing.
    ghost told_none: { (s : Self) → told s s [] };

    /// What it took in two steps, it took in all.
    ghost told_more: { (a b c : Self) (some more : List FileFault)
        → told a b some → told b c more → told a c (some ++ more) };

    /// It may stop after some faults.
    ghost stopped_after: { (a b c : Self) (some more : List FileFault)
        → told a b some → stopped b c more → stopped a c (some ++ more) };
}
