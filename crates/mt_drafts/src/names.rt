//! The ids of records, side by side.
ghost use Rattle.std.specs.Prelude.{◌≡◌, ◌++◌, [], OnOk, IfOk};
ghost use Rattle.mt_records.specs.Records.{record_seen, all_seen};
ghost use Rattle.mt_drafts.specs.Names.{AreNames, AddsAllNames, AddsNames};

use mt_market::FlatLists;
use mt_records::Record;
use std::alloc::{AllocError, Global};

/// The ids of records, those of a kind side by side. A couple registers its first and then its second member among the
/// applicants.
#[derive(Drop)]
pub struct NameLists {
    pub programs: FlatLists<u8>,
    pub applicants: FlatLists<u8>,
    pub couples: FlatLists<u8>,
    /// For each applicant whether it is a single.
    pub singles: Vec<bool>,
}

/// Adds other ids at the end.
fn append(ids: &mut FlatLists<u8>, others: &FlatLists<u8>) -> Result<(), AllocError>
    ensures { OnOk result (ids.new ≡ ids.old ++ others.now) }
{
    for number in 0..others.len() {
        ids.push_list(others.list(number))?;
    }
    Ok(())
}

impl NameLists {
    /// No ids.
    pub(crate) fn new(alloc: Global) -> Self
        ensures { AreNames [] result }
    {
        NameLists {
            programs: FlatLists::new(alloc),
            applicants: FlatLists::new(alloc),
            couples: FlatLists::new(alloc),
            singles: Vec::new(alloc),
        }
    }

    /// Adds the ids that a record registers.
    pub(crate) fn push(&mut self, record: &Record<'_>) -> Result<(), AllocError>
        ensures { OnOk result (AddsNames self.old self.new (record_seen «record».now)) }
    {
        match record {
            Record::Program { id, .. } => self.programs.push_list(*id)?,
            Record::Applicant { id, .. } => {
                self.applicants.push_list(*id)?;
                self.singles.push(true)?;
            }
            Record::Couple { id, fields } => {
                let (first, second) = fields.members();
                self.couples.push_list(*id)?;
                self.applicants.push_list(first)?;
                self.applicants.push_list(second)?;
                self.singles.push(false)?;
                self.singles.push(false)?;
            }
            Record::Withdraw { .. } => {}
        }
        Ok(())
    }

    /// Adds the ids that other records register.
    pub(crate) fn append(&mut self, others: &NameLists) -> Result<(), AllocError>
        ensures { OnOk result (AddsAllNames self.old self.new others.now) }
    {
        append(&mut self.programs, &others.programs)?;
        append(&mut self.applicants, &others.applicants)?;
        append(&mut self.couples, &others.couples)?;
        self.singles.extend_from_slice(&others.singles)
    }

    /// The ids of the programs, the applicants and the couples of records.
    pub fn of(alloc: Global, records: &[Record<'_>]) -> Result<Self, AllocError>
        ensures { IfOk result (AreNames (all_seen records.now)) }
    {
        let mut names = NameLists::new(alloc);
        for one in records {
            names.push(one)?;
        }
        Ok(names)
    }
}
