ghost use Rattle.mt_faults.specs.Names.{AreNamed};
ghost use Rattle.mt_faults.specs.Seen.{parts_seen};

use crate::parts::{Form, Parts};
use crate::placed::Placed;
use mt_ids::Kind;

/// The fields of a record that name what it registers or withdraws, of each kind. Some of them may be no ids.
#[derive(Clone, Copy)]
pub(crate) struct Names<'a> {
    pub(crate) programs: Placed<'a>,
    pub(crate) singles: Placed<'a>,
    pub(crate) couples: Placed<'a>,
    /// The applicants, members of couples included.
    pub(crate) applicants: Placed<'a>,
    pub(crate) withdrawn_programs: Placed<'a>,
    pub(crate) withdrawn_singles: Placed<'a>,
    pub(crate) withdrawn_couples: Placed<'a>,
}

/// What a record names.
pub(crate) fn names_of<'a>(parts: &Parts<'a>) -> Names<'a>
    ensures { AreNamed (parts_seen parts.now) result }
{
    let none = parts.names.first(0);
    let own = parts.names.first(1);
    let nothing = Names {
        programs: none,
        singles: none,
        couples: none,
        applicants: none,
        withdrawn_programs: none,
        withdrawn_singles: none,
        withdrawn_couples: none,
    };
    match parts.form {
        Form::Registers(Kind::Program) => Names {
            programs: own,
            ..nothing
        },
        Form::Registers(Kind::Applicant) => Names {
            singles: own,
            applicants: own,
            ..nothing
        },
        Form::Registers(Kind::Couple) => Names {
            couples: own,
            applicants: parts.names.tail(),
            ..nothing
        },
        Form::Withdraws(Kind::Program) => Names {
            withdrawn_programs: parts.names,
            ..nothing
        },
        Form::Withdraws(Kind::Applicant) => Names {
            withdrawn_singles: parts.names,
            ..nothing
        },
        Form::Withdraws(Kind::Couple) => Names {
            withdrawn_couples: parts.names,
            ..nothing
        },
        Form::Unknown => nothing,
    }
}
