//! The lists of records, one after another. Those of programs and applicants stay where they are.
ghost use Rattle.std.specs.Prelude.{◌≡◌, ◌++◌, ◌∷◌, [], map, IfOk, OnOk};
ghost use Rattle.mt_numbered.specs.IdLists.{ids_in, list_seen};
ghost use Rattle.mt_numbering.specs.Numbered.{applicant_lists};
ghost use Rattle.mt_numbering.specs.Reading.{lists_of_applicants, lists_of_couples, lists_of_programs};
ghost use Rattle.mt_numbering.specs.Withdrawals.{stays_after};
ghost use Rattle.mt_pair_lists.specs.Pairs.{pair_list_seen};
ghost use Rattle.mt_records.specs.Records.{record_seen};

use crate::withdrawals::stays;
use mt_ids::Kinds;
use mt_lists::Fields;
use mt_records::{Pairs, Record, push};
use std::alloc::{AllocError, Global};

/// Adds a list to be read, of these fields or of none.
fn push_list<'r, 'a>(
    lists: &mut Vec<(Option<&'r Fields<'a>>, bool)>,
    fields: Option<&'r Fields<'a>>,
    kept: bool,
) -> Result<(), AllocError>
    ensures { OnOk result (map list_seen lists.new.items
        ≡ map list_seen lists.old.items ++ (kept, ids_in fields.entry) ∷ []) }
{
    push(lists, (fields, kept))
}

/// Adds the lists of ids of a record's applicants: a couple's two members have none.
fn push_applicant_lists<'r, 'a>(
    lists: &mut Vec<(Option<&'r Fields<'a>>, bool)>,
    withdrawn: &Kinds<'_>,
    one: &'r Record<'a>,
) -> Result<(), AllocError>
    ensures { OnOk result (map list_seen lists.new.items ≡ map list_seen lists.old.items
        ++ applicant_lists (stays_after withdrawn.now) (record_seen one.entry.now ∷ [])) }
{
    let kept = stays(withdrawn, one);
    match one {
        Record::Applicant { list, .. } => push_list(lists, Some(list), kept)?,
        Record::Couple { .. } => {
            push_list(lists, None, kept)?;
            push_list(lists, None, kept)?;
        }
        Record::Program { .. } | Record::Withdraw { .. } => {}
    }
    Ok(())
}

/// The lists of records, of which those of withdrawn ones aren't kept.
#[derive(Clone, Copy)]
pub(crate) struct RecordLists<'r, 'a> {
    pub(crate) withdrawn: &'r Kinds<'a>,
    pub(crate) records: &'r [Record<'a>],
}

impl<'r, 'a> RecordLists<'r, 'a> {
    /// The lists of programs.
    pub(crate) fn program_lists(
        &self,
        alloc: Global,
    ) -> Result<Vec<(Option<&'r Fields<'a>>, bool)>, AllocError>
        ensures { IfOk result (λ lists. map list_seen lists.items ≡ lists_of_programs self.now) }
    {
        let mut lists = Vec::with_capacity(alloc, self.records.len())?;
        for one in self.records {
            if let Record::Program { list, .. } = one {
                push_list(&mut lists, Some(list), stays(self.withdrawn, one))?;
            }
        }
        Ok(lists)
    }

    /// The lists of applicants.
    pub(crate) fn applicant_lists(
        &self,
        alloc: Global,
    ) -> Result<Vec<(Option<&'r Fields<'a>>, bool)>, AllocError>
        ensures { IfOk result (λ lists. map list_seen lists.items ≡ lists_of_applicants self.now) }
    {
        let mut lists = Vec::with_capacity(alloc, self.records.len())?;
        for one in self.records {
            push_applicant_lists(&mut lists, self.withdrawn, one)?;
        }
        Ok(lists)
    }

    /// The lists of couples.
    pub(crate) fn couple_lists(&self, alloc: Global) -> Result<Vec<(Pairs<'a>, bool)>, AllocError>
        ensures { IfOk result (λ lists. map pair_list_seen lists.items ≡ lists_of_couples self.now) }
    {
        let mut lists = Vec::new(alloc);
        for one in self.records {
            if let Record::Couple { fields, .. } = one {
                let pairs = fields.pairs();
                let kept = stays(self.withdrawn, one);
                push(&mut lists, (pairs, kept))?;
            }
        }
        Ok(lists)
    }
}
