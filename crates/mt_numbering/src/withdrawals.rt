//! What records withdraw, who stays, and the numbers of those that stay among themselves.
ghost use Rattle.std.specs.Prelude.{◌≡◌, ◌<◌, ◌+◌, ◌++◌, ◌∷◌, [], ◌^◌, false, length, filter, IfOk, OnOk, MatchOption, if◌then◌else◌};
ghost use Rattle.mt_draft_laws.specs.Staying.{new_numbers, program_flags, applicant_flags};
ghost use Rattle.mt_terms.specs.Registration.Ids.{has_id};
ghost use Rattle.std.specs.List.{list_any};
ghost use Rattle.mt_drafts.specs.Names.{AreNames};
ghost use Rattle.mt_records.specs.Records.{all_seen, record_seen};
ghost use Rattle.mt_numbering.specs.Registered.{is_registered};
ghost use Rattle.mt_numbering.specs.Withdrawals.{are_known, are_once, is_withdrawal, stays_after, withdrawn_ids, AreWithdrawn, HaveFewApplicants, HaveFewPrograms};
ghost use Rattle.mt_ids.specs.Kinds.{kind_seen};
ghost use Rattle.mt_ids.specs.Seeds.{seed_of};
ghost use Rattle.mt_terms.specs.Registration.Records.{OfProgram};
ghost use Rattle.mt_terms.specs.Registration.Rows.{applicant_ids, ids_of};

use mt_drafts::NameLists;
use mt_ids::{IdTable, Kind, Kinds, Seed, add_field};
use mt_numbered::Numbered;
use mt_records::{Record, push};
use mt_terms::{AppNo, ProgNo};
use std::alloc::{AllocError, Global};
use std::hash::DefaultHasher;

/// The seed of tables of what these records withdraw.
fn seed_of(records: &[Record<'_>]) -> Seed
    ensures { result ≡ seed_of (withdrawn_ids (all_seen records.now)) }
{
    let mut digest = DefaultHasher::new();
    for one in records {
        if let Record::Withdraw { id, .. } = one {
            add_field(&mut digest, id);
        }
    }
    Seed::of(&digest)
}

/// The records, or none of them if none withdraws. So those of most files aren't looked through for withdrawals.
pub(crate) fn withdrawing<'r, 'a>(names: &NameLists, records: &'r [Record<'a>]) -> &'r [Record<'a>]
    requires { AreNames (all_seen records.now) names.now }
    ensures { result.now ≡ (if list_any is_withdrawal (all_seen records.now) then records.now else []) }
{
    // A couple's record registers two applicants, and a withdrawal nothing.
    let agents = names.applicants.len() - names.couples.len();
    if records.len() - names.programs.len() == agents {
        &[]
    } else {
        records
    }
}

/// The ids that records withdraw, if none is withdrawn twice.
pub(crate) fn withdrawn<'a>(
    alloc: Global,
    records: &[Record<'a>],
) -> Result<Option<Kinds<'a>>, AllocError>
    ensures { IfOk result (λ found. MatchOption found (are_once (all_seen records.now) ≡ false)
        (AreWithdrawn (all_seen records.now))) }
{
    let mut withdrawn = Kinds::new(alloc, seed_of(records));
    for one in records {
        if let Record::Withdraw { kind, id } = one {
            if !withdrawn.add(*kind, id)? {
                return Ok(None);
            }
        }
    }
    Ok(Some(withdrawn))
}

/// Whether a program, a single or a couple has this id. `singles` says for each applicant whether it is a single.
fn is_registered(ids: &Kinds<'_>, singles: &[bool], kind: Kind, id: &[u8]) -> bool
    requires { length singles.now ≡ length ids.now.applicants }
    ensures { result ≡ is_registered ids.now singles.now (kind_seen kind) id.now }
{
    match kind {
        Kind::Program => ids.programs.contains(id),
        Kind::Applicant => match ids.applicants.number(id) {
            Some(number) => singles[number],
            None => false,
        },
        Kind::Couple => ids.couples.contains(id),
    }
}

/// Whether each id that records withdraw is registered.
pub(crate) fn are_registered(ids: &Kinds<'_>, singles: &[bool], records: &[Record<'_>]) -> bool
    requires { length singles.now ≡ length ids.now.applicants }
    ensures { result ≡ are_known (is_registered ids.now singles.now) (all_seen records.now) }
{
    for one in records {
        if let Record::Withdraw { kind, id } = one {
            if !is_registered(ids, singles, *kind, id) {
                return false;
            }
        }
    }
    true
}

/// Whether an id is one of these. If there are none, it isn't hashed.
fn is_among(ids: &IdTable<'_>, id: &[u8]) -> bool
    ensures { result ≡ has_id ids.now id.now }
{
    ids.len() > 0 && ids.contains(id)
}

/// Whether a record stays if these ids are withdrawn. A withdrawal itself doesn't.
pub(crate) fn stays(withdrawn: &Kinds<'_>, one: &Record<'_>) -> bool
    ensures { result ≡ stays_after withdrawn.now (record_seen one.now) }
{
    match one {
        Record::Program { id, .. } => !is_among(&withdrawn.programs, id),
        Record::Applicant { id, .. } => !is_among(&withdrawn.applicants, id),
        Record::Couple { id, .. } => !is_among(&withdrawn.couples, id),
        Record::Withdraw { .. } => false,
    }
}

/// Takes those records out that don't stay if these ids are withdrawn.
pub(crate) fn retain_staying(withdrawn: &Kinds<'_>, records: &mut Vec<Record<'_>>)
    ensures { all_seen records.new.items
        ≡ filter (stays_after withdrawn.now) (all_seen records.old.items) }
{
    records.retain(|one| stays(withdrawn, one));
}

/// For each program the number that it has among those that stay, if it stays.
fn program_numbers(
    alloc: Global,
    withdrawn: &Kinds<'_>,
    records: &[Record<'_>],
) -> Result<Vec<Option<ProgNo>>, AllocError>
    requires { HaveFewPrograms (all_seen records.now) }
    ensures { IfOk result (λ v. v.items
        ≡ new_numbers 0 (program_flags (stays_after withdrawn.now) (all_seen records.now))) }
{
    let mut numbers = Vec::with_capacity(alloc, records.len())?;
    let mut next = 0;
    for one in records {
        if let Record::Program { .. } = one {
            if stays(withdrawn, one) {
                numbers.push(Some(ProgNo(next)))?;
                next += 1;
            } else {
                numbers.push(None)?;
            }
        }
    }
    Ok(numbers)
}

/// Adds the next number if an applicant stays, or else that it has none.
fn push_number(
    numbers: &mut Vec<Option<AppNo>>,
    next: &mut u32,
    stays: bool,
) -> Result<(), AllocError>
    requires { next.old + 1 < 2 ^ 32 }
    ensures numbers { OnOk result
        (numbers.new.items ≡ numbers.old.items ++ new_numbers next.old (stays ∷ [])) }
    ensures next { OnOk result (next.new ≡ next.old + (if stays then 1 else 0)) }
{
    if stays {
        numbers.push(Some(AppNo(*next)))?;
        *next += 1;
    } else {
        numbers.push(None)?;
    }
    Ok(())
}

/// For each applicant the number that it has among those that stay, if it stays. A couple's two members stay or go
/// together.
fn applicant_numbers(
    alloc: Global,
    withdrawn: &Kinds<'_>,
    records: &[Record<'_>],
) -> Result<Vec<Option<AppNo>>, AllocError>
    requires { HaveFewApplicants (all_seen records.now) }
    ensures { IfOk result (λ v. v.items
        ≡ new_numbers 0 (applicant_flags (stays_after withdrawn.now) (all_seen records.now))) }
{
    let mut numbers = Vec::with_capacity(alloc, records.len())?;
    let mut next = 0;
    for one in records {
        let stays = stays(withdrawn, one);
        match one {
            Record::Applicant { .. } => push_number(&mut numbers, &mut next, stays)?,
            Record::Couple { .. } => {
                push_number(&mut numbers, &mut next, stays)?;
                push_number(&mut numbers, &mut next, stays)?;
            }
            Record::Program { .. } | Record::Withdraw { .. } => {}
        }
    }
    Ok(numbers)
}

/// The programs by their numbers among those that stay.
pub(crate) fn numbered_programs<'n>(
    alloc: Global,
    ids: IdTable<'n>,
    withdrawn: &Kinds<'_>,
    records: &[Record<'_>],
) -> Result<Numbered<'n, ProgNo>, AllocError>
    requires few { HaveFewPrograms (all_seen records.now) }
    requires ids { ids ≡ ids_of OfProgram (all_seen records.now) }
    ensures ids { IfOk result (λ n. n.ids ≡ ids.entry) }
    ensures numbers { IfOk result (λ n. n.numbers
        ≡ new_numbers 0 (program_flags (stays_after withdrawn.now) (all_seen records.now))) }
{
    if withdrawn.programs.len() == 0 {
        return Ok(Numbered::unchanged(ids));
    }
    let numbers = program_numbers(alloc, withdrawn, records)?;
    Ok(Numbered::new(ids, numbers))
}

/// The applicants by their numbers among those that stay.
pub(crate) fn numbered_applicants<'n>(
    alloc: Global,
    ids: IdTable<'n>,
    withdrawn: &Kinds<'_>,
    records: &[Record<'_>],
) -> Result<Numbered<'n, AppNo>, AllocError>
    requires few { HaveFewApplicants (all_seen records.now) }
    requires ids { ids ≡ applicant_ids (all_seen records.now) }
    ensures ids { IfOk result (λ n. n.ids ≡ ids.entry) }
    ensures numbers { IfOk result (λ n. n.numbers
        ≡ new_numbers 0 (applicant_flags (stays_after withdrawn.now) (all_seen records.now))) }
{
    if withdrawn.applicants.len() == 0 && withdrawn.couples.len() == 0 {
        return Ok(Numbered::unchanged(ids));
    }
    let numbers = applicant_numbers(alloc, withdrawn, records)?;
    Ok(Numbered::new(ids, numbers))
}
