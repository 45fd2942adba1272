ghost use Rattle.std.specs.Prelude.{◌≡◌, ◌||◌, nat_lt};

use mt_terms::Limits;

/// Whether there are more applicants, programs or couples than the limits allow.
pub fn are_over(limits: &Limits, applicants: usize, programs: usize, couples: usize) -> bool
    ensures { result
        ≡ (nat_lt limits.now.applicants applicants || nat_lt limits.now.programs programs
        || nat_lt limits.now.couples couples) }
{
    let many_applicants = applicants > limits.applicants as usize;
    let many_programs = programs > limits.programs as usize;
    let many_couples = couples > limits.couples as usize;
    many_applicants || many_programs || many_couples
}
