//! Copies of those columns of a market's tables that don't depend on its couples.
ghost use Rattle.std.specs.Prelude.{◌≡◌, map, length, IfOk};
ghost use Rattle.mt_terms.specs.Lists.{below};
ghost use Rattle.mt_reordered.specs.Copied.{quota_at, ranking_at};

use mt_market::{FlatLists, Roster};
use mt_terms::{AppNo, ProgNo};
use std::alloc::{AllocError, Global};

/// The programs' quotas.
pub(crate) fn quotas(alloc: Global, roster: &Roster) -> Result<Vec<u32>, AllocError>
    ensures { IfOk result (λ quotas.
        quotas.items ≡ map (quota_at roster.now.market) (below (length roster.now.market.programs))) }
{
    let mut quotas = Vec::with_capacity(alloc, roster.programs() as usize)?;
    for number in 0..roster.programs() {
        quotas.push(roster.quota(ProgNo(number)))?;
    }
    Ok(quotas)
}

/// The programs' rank order lists.
pub(crate) fn rankings(alloc: Global, roster: &Roster) -> Result<FlatLists<AppNo>, AllocError>
    ensures { IfOk result (λ lists.
        lists ≡ map (ranking_at roster.now.market) (below (length roster.now.market.programs))) }
{
    let mut lists = FlatLists::new(alloc);
    for number in 0..roster.programs() {
        lists.push_list(roster.program_list(ProgNo(number)))?;
    }
    Ok(lists)
}

/// The applicants' rank order lists.
pub(crate) fn single_lists(alloc: Global, roster: &Roster) -> Result<FlatLists<ProgNo>, AllocError>
    ensures { IfOk result (λ lists. lists ≡ roster.now.market.lists) }
{
    let mut lists = FlatLists::new(alloc);
    for number in 0..roster.applicants() {
        lists.push_list(roster.single_list(AppNo(number)))?;
    }
    Ok(lists)
}

/// The programs' ids.
pub(crate) fn program_ids(alloc: Global, roster: &Roster) -> Result<FlatLists<u8>, AllocError>
    ensures { IfOk result (λ ids. ids ≡ roster.now.names.programs) }
{
    let mut ids = FlatLists::new(alloc);
    for number in 0..roster.programs() {
        ids.push_list(roster.program_id(ProgNo(number)))?;
    }
    Ok(ids)
}

/// The applicants' ids.
pub(crate) fn applicant_ids(alloc: Global, roster: &Roster) -> Result<FlatLists<u8>, AllocError>
    ensures { IfOk result (λ ids. ids ≡ roster.now.names.applicants) }
{
    let mut ids = FlatLists::new(alloc);
    for number in 0..roster.applicants() {
        ids.push_list(roster.applicant_id(AppNo(number)))?;
    }
    Ok(ids)
}
