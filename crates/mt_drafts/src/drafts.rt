//! The records of rows without a fault of their own. Whether one has a fault beside the others, or in its list, is not
//! yet known.
ghost use Rattle.std.specs.Prelude.{◌≡◌, ◌++◌, [], ◌∷◌, IfOk, IfSome, MatchOption, OnOk};
ghost use Rattle.mt_lists.specs.Rows.{rows_left};
ghost use Rattle.mt_records.specs.Records.{record_seen};
ghost use Rattle.mt_terms.specs.Registration.Passes.{are_too_many};
ghost use Rattle.mt_drafts.specs.Drafts.{drafted, AreDrafts, AreDraftsOf, AreOfBoth, HaveFault};

use crate::draft::draft_of;
use crate::names::NameLists;
use mt_lists::RowsIter;
use mt_records::{Record, Rules, are_over, push};
use mt_terms::Limits;
use rayon::current_num_threads;
use std::alloc::{AllocError, Global};
use std::thread::{Threads, join};

/// From how many bytes of lines on two threads make the records.
const FEWEST: usize = 1 << 22;

/// Records, with the ids that they register and the number of their entries.
#[derive(Drop)]
pub struct Drafts<'a> {
    pub records: Vec<Record<'a>>,
    pub names: NameLists,
    /// How many entries the records' lists have.
    pub entries: u64,
}

impl<'a> Drafts<'a> {
    /// No records.
    fn new(alloc: Global) -> Self
        ensures drafts { AreDrafts result }
        ensures records { drafted result ≡ [] }
    {
        Drafts {
            records: Vec::new(alloc),
            names: NameLists::new(alloc),
            entries: 0,
        }
    }

    /// Whether they have more than a version takes.
    fn are_too_many(&self, limits: &Limits) -> bool
        requires { AreDrafts self.now }
        ensures { result ≡ are_too_many limits.now (drafted self.now) }
    {
        let applicants = self.names.applicants.len();
        let programs = self.names.programs.len();
        let couples = self.names.couples.len();
        let has_many_entries = self.entries > u64::from(limits.entries);
        are_over(limits, applicants, programs, couples) || has_many_entries
    }

    /// Adds the records of others.
    fn append(&mut self, others: Drafts<'a>) -> Result<(), AllocError>
        requires { AreDrafts self.old × AreDrafts others }
        ensures drafts { OnOk result (AreDrafts self.new) }
        ensures records { OnOk result (drafted self.new ≡ drafted self.old ++ drafted others.entry) }
    {
        let Drafts {
            mut records,
            names,
            entries,
        } = others;
        self.names.append(&names)?;
        self.entries = self.entries.saturating_add(entries);
        self.records.append(&mut records)?;
        Ok(())
    }

    /// Adds a record.
    fn push(&mut self, next: Record<'a>) -> Result<(), AllocError>
        requires { AreDrafts self.old }
        ensures drafts { OnOk result (AreDrafts self.new) }
        ensures records { OnOk result
            (drafted self.new ≡ drafted self.old ++ record_seen next.entry ∷ []) }
    {
        self.names.push(&next)?;
        self.entries = self.entries.saturating_add(next.entry_count());
        push(&mut self.records, next)
    }
}

/// The records of rows, if none has a fault of its own, and they have no more than the version takes: one row after the
/// other.
fn drafts_in_turn<'a>(
    alloc: Global,
    rules: &Rules,
    rows: RowsIter<'a>,
) -> Result<Option<Drafts<'a>>, AllocError>
    ensures { IfOk result (λ read. MatchOption read (HaveFault rules.now (rows_left rows.entry))
        (AreDraftsOf rules.now (rows_left rows.entry))) }
{
    let mut drafts = Drafts::new(alloc);
    for row in rows {
        if !row.is_empty() {
            let Some(next) = draft_of(rules, row.fields()) else {
                return Ok(None);
            };
            drafts.push(next)?;
            if drafts.are_too_many(&rules.limits) {
                return Ok(None);
            }
        }
    }
    Ok(Some(drafts))
}

/// The records of rows in two parts, the one beside the other, if neither part has a fault of its own.
fn drafts_of_parts<'a, R: Threads + Sync>(
    rt: &R,
    alloc: Global,
    rules: &Rules,
    parts: (RowsIter<'a>, RowsIter<'a>),
) -> Result<Option<Drafts<'a>>, AllocError>
    ensures { IfOk result (λ read. IfSome read
        (AreOfBoth rules.now (rows_left parts.entry.0) (rows_left parts.entry.1))) }
{
    let one = || -> Result<Option<Drafts<'_>>, AllocError>
        ensures { IfOk result (λ read. IfSome read (AreDraftsOf rules.entry.now (rows_left parts.entry.0))) }
    { drafts_in_turn(alloc, rules, parts.0) };
    let other = || -> Result<Option<Drafts<'_>>, AllocError>
        ensures { IfOk result (λ read. IfSome read (AreDraftsOf rules.entry.now (rows_left parts.entry.1))) }
    { drafts_in_turn(alloc, rules, parts.1) };
    let (one, other) = join(rt, one, other);
    let (Some(mut drafts), Some(others)) = (one?, other?) else {
        return Ok(None);
    };
    drafts.append(others)?;
    Ok(Some(drafts))
}

/// The records of the rows of a long text, made by two threads, if these find no fault and there are two processors.
fn drafts_by_halves<'a, R: Threads + Sync>(
    rt: &R,
    alloc: Global,
    rules: &Rules,
    rows: RowsIter<'a>,
) -> Result<Option<Drafts<'a>>, AllocError>
    ensures { IfOk result (λ read. IfSome read (AreDraftsOf rules.now (rows_left rows.entry))) }
{
    let Some(parts) = rows.halves(FEWEST) else {
        return Ok(None);
    };
    if current_num_threads(rt) == 1 {
        return Ok(None);
    }
    // Linux may keep the first thread that a young process starts on the processor of its starter, which waits for it
    // there. So the first one has nothing to do.
    let nothing = || {};
    let made = || -> Result<Option<Drafts<'_>>, AllocError>
        ensures { IfOk result (λ read. IfSome read
            (AreOfBoth rules.entry.now (rows_left parts.entry.0) (rows_left parts.entry.1))) }
    { drafts_of_parts(rt, alloc, rules, parts) };
    let (_, made) = join(rt, nothing, made);
    let Some(drafts) = made? else {
        return Ok(None);
    };
    if drafts.are_too_many(&rules.limits) {
        return Ok(None);
    }
    Ok(Some(drafts))
}

/// The records of rows, if none has a fault of its own, and they have no more than the version takes.
pub fn drafts_of<'a, R: Threads + Sync>(
    rt: &R,
    alloc: Global,
    rules: &Rules,
    rows: RowsIter<'a>,
) -> Result<Option<Drafts<'a>>, AllocError>
    ensures { IfOk result (λ read. MatchOption read (HaveFault rules.now (rows_left rows.entry))
        (AreDraftsOf rules.now (rows_left rows.entry))) }
{
    match drafts_by_halves(rt, alloc, rules, rows)? {
        Some(drafts) => Ok(Some(drafts)),
        None => drafts_in_turn(alloc, rules, rows),
    }
}
