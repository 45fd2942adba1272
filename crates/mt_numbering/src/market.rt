//! The market of rows without a fault. All records are split, all ids numbered, and each entry is looked up once. Then
//! it is known whether any record has a fault. The passes over the records find which one, and what it is.
ghost use Rattle.std.specs.Prelude.{◌≡◌, true, false, length, IfOk};
ghost use Rattle.mt_lists.specs.Rows.{rows_left};
ghost use Rattle.mt_draft_laws.specs.Faultless.{faultless_market, is_faultless};
ghost use Rattle.mt_terms.specs.Registration.Accepted.{IsRegistration};
ghost use Rattle.mt_terms.specs.Registration.Numbering.{registered};
ghost use Rattle.mt_terms.specs.Registration.Passes.{are_too_many};
ghost use Rattle.mt_drafts.specs.Drafts.{drafted, with_fields, AreDrafts};
ghost use Rattle.mt_drafts.specs.Names.{AreNames};
ghost use Rattle.mt_numbering.specs.Markets.{AcceptsRegistrations, AreEntries, GivesMarket, Remains};
ghost use Rattle.mt_records.specs.Records.{all_seen};
ghost use Rattle.mt_numbering.specs.Numbered.{registered_by_all};
ghost use Rattle.mt_records.specs.Limits.{AreBounded};

use crate::entries::read_entries;
use crate::tables::{agents, quotas};
use crate::withdrawals::{are_registered, retain_staying, withdrawing, withdrawn};
use mt_drafts::{Drafts, NameLists, drafts_of};
use mt_lists::RowsIter;
use mt_market::{ByApplicants, ByPrograms, Roster, Tables};
use mt_records::{Record, Rules};
use std::alloc::{AllocError, Global};
use std::thread::Threads;

/// What the records that remain say by their own numbers, if all records have no fault among them. Those that don't
/// remain are taken out.
fn remaining_entries<R: Threads + Sync>(
    rt: &R,
    alloc: Global,
    rules: &Rules,
    names: &NameLists,
    records: &mut Vec<Record<'_>>,
) -> Result<Option<(ByApplicants, ByPrograms)>, AllocError>
    requires limits { AreBounded rules.now.limits }
    requires names { AreNames (all_seen records.old.items) names.now }
    requires few { are_too_many rules.now.limits (all_seen records.old.items) ≡ false }
    ensures { IfOk result
        (Remains rules.now (all_seen records.old.items) (all_seen records.new.items)) }
{
    let withdrawing = withdrawing(names, records);
    let Some(withdrawn) = withdrawn(alloc, withdrawing)? else {
        return Ok(None);
    };
    let read = read_entries(rt, alloc, names, rules.half_pairs, &withdrawn, records)?;
    let Some((ids, entries)) = read else {
        return Ok(None);
    };
    if !are_registered(&ids, &names.singles, withdrawing) {
        return Ok(None);
    }
    if !withdrawing.is_empty() {
        retain_staying(&withdrawn, records);
    }
    Ok(Some(entries))
}

/// The names of the records that remain. If none of the records is withdrawn, these are the names of all.
fn remaining_names(
    alloc: Global,
    names: NameLists,
    count: usize,
    remaining: &[Record<'_>],
) -> Result<NameLists, AllocError>
    requires { length remaining.now ≡ count → AreNames (all_seen remaining.now) names }
    ensures { IfOk result (AreNames (all_seen remaining.now)) }
{
    if remaining.len() == count {
        Ok(names)
    } else {
        NameLists::of(alloc, remaining)
    }
}

/// The market of records none of which is withdrawn.
fn make_roster(
    alloc: Global,
    records: &[Record<'_>],
    names: NameLists,
    by_applicants: ByApplicants,
    by_programs: ByPrograms,
) -> Result<Roster, AllocError>
    requires market { IsRegistration (registered_by_all (all_seen records.now)) }
    requires entries { AreEntries (all_seen records.now) (by_applicants, by_programs) }
    requires names { AreNames (all_seen records.now) names }
    ensures { IfOk result (λ roster. roster ≡ registered_by_all (all_seen records.now)) }
{
    let quotas = quotas(alloc, records)?;
    let agents = agents(alloc, names.applicants.len(), &by_applicants.members)?;
    Ok(Roster::new(Tables {
        quotas,
        agents,
        by_applicants,
        by_programs,
        program_ids: names.programs,
        applicant_ids: names.applicants,
        couple_ids: names.couples,
    }))
}

/// The market of drafts, if they have no fault among them.
fn market_of_drafts<R: Threads + Sync>(
    rt: &R,
    alloc: Global,
    rules: &Rules,
    drafts: Drafts<'_>,
) -> Result<Option<Roster>, AllocError>
    requires limits { AreBounded rules.now.limits }
    requires drafts { AreDrafts drafts }
    requires few { are_too_many rules.now.limits (drafted drafts) ≡ false }
    requires accepted { is_faultless rules.now (drafted drafts) ≡ true
        → IsRegistration (registered (drafted drafts)) }
    ensures { IfOk result (GivesMarket rules.now (drafted drafts.entry)) }
{
    let Drafts {
        mut records,
        names,
        entries: _,
    } = drafts;
    let count = records.len();
    let read = remaining_entries(rt, alloc, rules, &names, &mut records)?;
    let Some((by_applicants, by_programs)) = read else {
        return Ok(None);
    };
    let names = remaining_names(alloc, names, count, &records)?;
    let roster = make_roster(alloc, &records, names, by_applicants, by_programs)?;
    Ok(Some(roster))
}

/// The market of rows, if they have no fault.
pub fn faultless_market<R: Threads + Sync>(
    rt: &R,
    alloc: Global,
    rules: &Rules,
    rows: RowsIter<'_>,
) -> Result<Option<Roster>, AllocError>
    requires limits { AreBounded rules.now.limits }
    requires accepted { AcceptsRegistrations rules.now (with_fields (rows_left rows)) }
    ensures { IfOk result
        (λ found. found ≡ faultless_market rules.now (with_fields (rows_left rows.entry))) }
{
    match drafts_of(rt, alloc, rules, rows)? {
        Some(drafts) => market_of_drafts(rt, alloc, rules, drafts),
        None => Ok(None),
    }
}
