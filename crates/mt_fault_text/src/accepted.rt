ghost use Rattle.std.specs.Prelude.{◌≡◌, ◌≤◌, ◌+◌, ◌++◌, [], length, sum_by, OnErr, OnOk};
ghost use Rattle.mt_pages.specs.declared.page.TheConstants.{PAGE_LEN};
ghost use Rattle.mt_terms.specs.Market.{Partners, Program, applicants};
ghost use Rattle.mt_terms.specs.Registration.Accepted.{list_entries};
ghost use Rattle.mt_fault_text.specs.Text.{accepted_line};

use crate::front::push_number;
use crate::mutual::mutual_entries;
use mt_market::Roster;
use mt_pages::Page;
use mt_terms::{AppNo, CoupleNo, ProgNo};
use std::alloc::{AllocError, Global};
use std::thread::Threads;

/// How many entries the lists of all programs have.
fn program_entries(roster: &Roster) -> u64
    ensures count { result ≡ sum_by (λ p. length (Program.ranking p)) roster.now.market.programs }
    ensures few { result ≤ 8000000 }
{
    roster.is_of_a_file();
    let mut count = 0;
    for number in 0..roster.programs() {
        count += roster.program_list(ProgNo(number)).len() as u64;
    }
    count
}

/// How many entries the lists of all singles have.
fn single_entries(roster: &Roster) -> u64
    ensures count { result ≡ sum_by length roster.now.market.lists }
    ensures few { result ≤ 8000000 }
{
    roster.is_of_a_file();
    let mut count = 0;
    for number in 0..roster.applicants() {
        count += roster.single_list(AppNo(number)).len() as u64;
    }
    count
}

/// How many pairs the lists of all couples have.
fn pairs(roster: &Roster) -> u64
    ensures count { result ≡ sum_by (λ c. length (Partners.pairs c)) roster.now.market.couples }
    ensures few { result ≤ 8000000 }
{
    roster.is_of_a_file();
    let mut count = 0;
    for number in 0..roster.couples() {
        count += roster.couple_list(CoupleNo(number)).len() as u64;
    }
    count
}

/// How many entries all lists have. A pair counts as two.
pub(crate) fn list_entries(roster: &Roster) -> u64
    ensures { result ≡ list_entries roster.now.market }
{
    roster.is_of_a_file();
    program_entries(roster) + single_entries(roster) + 2 * pairs(roster)
}

/// Puts the line of an accepted market on an empty page. The result says how many entries are mutual. The error is
/// want of memory, and then the page stays empty.
pub(crate) fn push_accepted<T: Threads + Sync>(
    rt: &T,
    alloc: Global,
    roster: &Roster,
    page: &mut Page,
) -> Result<u64, AllocError>
    requires { page.old ≡ [] }
    ensures text { OnOk result (page.new ≡ accepted_line roster.now) }
    ensures kept { OnErr result (page.new ≡ []) }
{
    let mutual = mutual_entries(rt, alloc, roster)?;
    page.push(b"check,1,accepted");
    push_number(page, u64::from(roster.applicants()));
    push_number(page, u64::from(roster.programs()));
    push_number(page, u64::from(roster.couples()));
    push_number(page, list_entries(roster));
    push_number(page, mutual);
    page.push(b"\n");
    Ok(mutual)
}
