//! What the lists of records say by new numbers.
ghost use Rattle.std.specs.Prelude.{◌≡◌, filter, filter_map, IfOk};
ghost use Rattle.mt_id_lists.specs.Reading.{ids_read, ids_stand, ReadsAll};
ghost use Rattle.mt_records.specs.Records.{all_seen};
ghost use Rattle.mt_terms.specs.Registration.Records.{OfProgram};
ghost use Rattle.mt_terms.specs.Registration.Rows.{applicant_ids, ids_of};
ghost use Rattle.mt_numbering.specs.Reading.{lists_of_applicants, lists_of_couples, lists_of_programs, members_by};
ghost use Rattle.mt_pair_lists.specs.Pairs.{pairs_read, pairs_stand_in};
ghost use Rattle.mt_drafts.specs.Names.{AreNames};
ghost use Rattle.mt_numbering.specs.Markets.{GivesEntries};
ghost use Rattle.mt_numbering.specs.Sides.{GivesByApplicants, GivesByPrograms, IsTableOf};
ghost use Rattle.mt_numbering.specs.Withdrawals.{stays_after, HaveFewApplicants, HaveFewPrograms};

use crate::listed::RecordLists;
use crate::withdrawals::{numbered_applicants, numbered_programs, stays};
use mt_drafts::NameLists;
use mt_id_lists::read_lists;
use mt_ids::{IdTable, Kinds};
use mt_market::{ByApplicants, ByPrograms, ChunkedLists};
use mt_numbered::{Numbered, read_id_lists};
use mt_pair_lists::PairReader;
use mt_records::Record;
use mt_terms::{AppNo, ProgNo};
use rayon::current_num_threads;
use std::alloc::{AllocError, Global};
use std::thread::{Threads, join};

/// The fewest records that are worth a thread.
const FEWEST: usize = 4096;

/// The programs' lists by numbers, if each names applicants alone, and none twice.
fn rankings<R: Threads + Sync>(
    rt: &R,
    alloc: Global,
    applicants: &Numbered<'_, AppNo>,
    listed: &RecordLists<'_, '_>,
) -> Result<Option<ChunkedLists<AppNo>>, AllocError>
    ensures { IfOk result (ReadsAll (ids_stand applicants.now) (ids_read applicants.now)
        (lists_of_programs listed.now)) }
{
    let lists = listed.program_lists(alloc)?;
    read_id_lists(rt, alloc, applicants, lists)
}

/// The applicants' lists by numbers, if each names programs alone, and none twice.
fn choices<R: Threads + Sync>(
    rt: &R,
    alloc: Global,
    programs: &Numbered<'_, ProgNo>,
    listed: &RecordLists<'_, '_>,
) -> Result<Option<ChunkedLists<ProgNo>>, AllocError>
    ensures { IfOk result (ReadsAll (ids_stand programs.now) (ids_read programs.now)
        (lists_of_applicants listed.now)) }
{
    let lists = listed.applicant_lists(alloc)?;
    read_lists(rt, alloc, programs, lists)
}

/// The couples' lists by numbers, if each pair is allowed and names programs alone, and no list has one twice.
fn pairs<R: Threads + Sync>(
    rt: &R,
    alloc: Global,
    reader: &PairReader<'_, '_>,
    listed: &RecordLists<'_, '_>,
) -> Result<Option<ChunkedLists<(Option<ProgNo>, Option<ProgNo>)>>, AllocError>
    ensures { IfOk result (ReadsAll (pairs_stand_in reader.now.half_pairs reader.now.programs.now)
        (pairs_read reader.now.programs.now)
        (lists_of_couples listed.now)) }
{
    let lists = listed.couple_lists(alloc)?;
    read_lists(rt, alloc, reader, lists)
}

/// The members of the couples that remain. Those have new numbers, as their couple remains.
fn members(
    alloc: Global,
    applicants: &Numbered<'_, AppNo>,
    withdrawn: &Kinds<'_>,
    records: &[Record<'_>],
) -> Result<Vec<(AppNo, AppNo)>, AllocError>
    ensures { IfOk result (λ members. members.items ≡ filter_map (members_by applicants.now)
        (filter (stays_after withdrawn.now) (all_seen records.now))) }
{
    let mut members = Vec::new(alloc);
    for one in records {
        if let Record::Couple { fields, .. } = one {
            if stays(withdrawn, one) {
                let (first, second) = fields.members();
                let first = applicants.number(first);
                let second = applicants.number(second);
                if let (Some(first), Some(second)) = (first, second) {
                    members.push((first, second))?;
                }
            }
        }
    }
    Ok(members)
}

/// What records say by applicants, if no two applicants have one id and each program's list stands.
fn applicants_side<'n, R: Threads + Sync>(
    rt: &R,
    alloc: Global,
    names: &'n NameLists,
    listed: &RecordLists<'_, '_>,
) -> Result<Option<(IdTable<'n>, ByApplicants)>, AllocError>
    requires names { names.now.applicants ≡ applicant_ids (all_seen listed.now.records.now) }
    requires few { HaveFewApplicants (all_seen listed.now.records.now) }
    ensures { IfOk result (GivesByApplicants (stays_after listed.now.withdrawn.now)
        (all_seen listed.now.records.now)) }
{
    // Most of the time goes into finding ids. Those that a look-up fetches are nearer side by side than in the rows.
    let Some(ids) = IdTable::of(alloc, &names.applicants)? else {
        return Ok(None);
    };
    let applicants = numbered_applicants(alloc, ids, listed.withdrawn, listed.records)?;
    let members = members(alloc, &applicants, listed.withdrawn, listed.records)?;
    let Some(rankings) = rankings(rt, alloc, &applicants, listed)? else {
        return Ok(None);
    };
    let by_applicants = ByApplicants { rankings, members };
    Ok(Some((applicants.into_ids(), by_applicants)))
}

/// What records say by programs, if no two programs have one id, and each applicant's list and each pair stands.
fn programs_side<'n, R: Threads + Sync>(
    rt: &R,
    alloc: Global,
    names: &'n NameLists,
    half_pairs: bool,
    listed: &RecordLists<'_, '_>,
) -> Result<Option<(IdTable<'n>, ByPrograms)>, AllocError>
    requires names { names.now.programs ≡ ids_of OfProgram (all_seen listed.now.records.now) }
    requires few { HaveFewPrograms (all_seen listed.now.records.now) }
    ensures { IfOk result (GivesByPrograms half_pairs (stays_after listed.now.withdrawn.now)
        (all_seen listed.now.records.now)) }
{
    let Some(ids) = IdTable::of(alloc, &names.programs)? else {
        return Ok(None);
    };
    let programs = numbered_programs(alloc, ids, listed.withdrawn, listed.records)?;
    let Some(lists) = choices(rt, alloc, &programs, listed)? else {
        return Ok(None);
    };
    let reader = PairReader {
        programs: &programs,
        half_pairs,
    };
    let Some(pairs) = pairs(rt, alloc, &reader, listed)? else {
        return Ok(None);
    };
    Ok(Some((programs.into_ids(), ByPrograms { lists, pairs })))
}

/// What records say by applicants, and what they say by programs, side by side.
fn both_sides<'n, R: Threads + Sync>(
    rt: &R,
    alloc: Global,
    names: &'n NameLists,
    half_pairs: bool,
    listed: &RecordLists<'_, '_>,
) -> (
    Result<Option<(IdTable<'n>, ByApplicants)>, AllocError>,
    Result<Option<(IdTable<'n>, ByPrograms)>, AllocError>,
)
    requires applicants { names.now.applicants ≡ applicant_ids (all_seen listed.now.records.now) }
    requires programs { names.now.programs ≡ ids_of OfProgram (all_seen listed.now.records.now) }
    requires few_applicants { HaveFewApplicants (all_seen listed.now.records.now) }
    requires few_programs { HaveFewPrograms (all_seen listed.now.records.now) }
    ensures applicants { IfOk result.0 (GivesByApplicants (stays_after listed.now.withdrawn.now)
        (all_seen listed.now.records.now)) }
    ensures programs { IfOk result.1 (GivesByPrograms half_pairs (stays_after listed.now.withdrawn.now)
        (all_seen listed.now.records.now)) }
{
    let one = || -> Result<Option<(IdTable<'_>, ByApplicants)>, AllocError>
        requires { (names.now.applicants ≡ applicant_ids (all_seen listed.now.records.now))
            × HaveFewApplicants (all_seen listed.now.records.now) }
        ensures { IfOk result (GivesByApplicants (stays_after listed.entry.now.withdrawn.now)
            (all_seen listed.entry.now.records.now)) }
    { applicants_side(rt, alloc, names, listed) };
    let other = || -> Result<Option<(IdTable<'_>, ByPrograms)>, AllocError>
        requires { (names.now.programs ≡ ids_of OfProgram (all_seen listed.now.records.now))
            × HaveFewPrograms (all_seen listed.now.records.now) }
        ensures { IfOk result (GivesByPrograms half_pairs (stays_after listed.entry.now.withdrawn.now)
            (all_seen listed.entry.now.records.now)) }
    { programs_side(rt, alloc, names, half_pairs, listed) };
    join(rt, one, other)
}

/// The table of the couples' ids, and what records say by applicants and by programs.
type ByKind<'n> = (
    Result<Option<IdTable<'n>>, AllocError>,
    (
        Result<Option<(IdTable<'n>, ByApplicants)>, AllocError>,
        Result<Option<(IdTable<'n>, ByPrograms)>, AllocError>,
    ),
);

/// The table of the couples' ids, if they differ, and what records say by applicants and by programs: side by side if
/// there are many records and more than one processor.
fn ids_and_sides<'n, R: Threads + Sync>(
    rt: &R,
    alloc: Global,
    names: &'n NameLists,
    half_pairs: bool,
    listed: &RecordLists<'_, '_>,
) -> ByKind<'n>
    requires applicants { names.now.applicants ≡ applicant_ids (all_seen listed.now.records.now) }
    requires programs { names.now.programs ≡ ids_of OfProgram (all_seen listed.now.records.now) }
    requires few_applicants { HaveFewApplicants (all_seen listed.now.records.now) }
    requires few_programs { HaveFewPrograms (all_seen listed.now.records.now) }
    ensures couples { IfOk result.0 (IsTableOf names.now.couples) }
    ensures applicants { IfOk result.1.0 (GivesByApplicants (stays_after listed.now.withdrawn.now)
        (all_seen listed.now.records.now)) }
    ensures programs { IfOk result.1.1 (GivesByPrograms half_pairs (stays_after listed.now.withdrawn.now)
        (all_seen listed.now.records.now)) }
{
    let couples = || -> Result<Option<IdTable<'_>>, AllocError>
        ensures { IfOk result (IsTableOf names.entry.now.couples) }
    { IdTable::of(alloc, &names.couples) };
    let both = || -> (
        Result<Option<(IdTable<'_>, ByApplicants)>, AllocError>,
        Result<Option<(IdTable<'_>, ByPrograms)>, AllocError>,
    )
        requires { (names.now.applicants ≡ applicant_ids (all_seen listed.now.records.now))
            × (names.now.programs ≡ ids_of OfProgram (all_seen listed.now.records.now))
            × HaveFewApplicants (all_seen listed.now.records.now)
            × HaveFewPrograms (all_seen listed.now.records.now) }
        ensures { IfOk result.0 (GivesByApplicants (stays_after listed.entry.now.withdrawn.now)
            (all_seen listed.entry.now.records.now))
            × IfOk result.1 (GivesByPrograms half_pairs (stays_after listed.entry.now.withdrawn.now)
            (all_seen listed.entry.now.records.now)) }
    { both_sides(rt, alloc, names, half_pairs, listed) };
    if listed.records.len() < FEWEST || current_num_threads(rt) == 1 {
        let couples = couples();
        // The table of programs is made first, as it is the smaller one, and is kept while the other lists are read.
        let programs = programs_side(rt, alloc, names, half_pairs, listed);
        (
            couples,
            (applicants_side(rt, alloc, names, listed), programs),
        )
    } else {
        // Linux may keep the first thread that a young process starts waiting on the processor of its starter. So the
        // couples' ids have that thread, as they are the fewest.
        join(rt, couples, both)
    }
}

/// The ids of each kind, and what the lists of records say by new numbers, if no id is registered twice and all lists
/// stand.
pub(crate) fn read_entries<'n, R: Threads + Sync>(
    rt: &R,
    alloc: Global,
    names: &'n NameLists,
    half_pairs: bool,
    withdrawn: &Kinds<'_>,
    records: &[Record<'_>],
) -> Result<Option<(Kinds<'n>, (ByApplicants, ByPrograms))>, AllocError>
    requires names { AreNames (all_seen records.now) names.now }
    requires few_applicants { HaveFewApplicants (all_seen records.now) }
    requires few_programs { HaveFewPrograms (all_seen records.now) }
    ensures { IfOk result (GivesEntries half_pairs (stays_after withdrawn.now) (all_seen records.now)) }
{
    let listed = RecordLists { withdrawn, records };
    let (couples, (by_applicants, by_programs)) = ids_and_sides(
        rt, alloc, names, half_pairs, &listed,
    );
    let Some(couples) = couples? else {
        return Ok(None);
    };
    let Some((applicants, by_applicants)) = by_applicants? else {
        return Ok(None);
    };
    let Some((programs, by_programs)) = by_programs? else {
        return Ok(None);
    };
    let ids = Kinds {
        programs,
        applicants,
        couples,
    };
    Ok(Some((ids, (by_applicants, by_programs))))
}
