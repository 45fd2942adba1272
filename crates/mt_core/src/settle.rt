ghost use Rattle.std.specs.Prelude.{◌≡◌, ℕ, ◌+◌, ◌*◌, ◌≤◌, ◌<◌, IsTrue};
ghost use Rattle.mt_terms.specs.Market.{applicants, live_entries};
ghost use Rattle.mt_terms.specs.Floor.{IsRecorded, is_quiet};
ghost use Rattle.mt_terms.specs.Floor.{proposals_made};
ghost use Rattle.mt_ranks.specs.Ranked.{IsRanked, ranked_list};
ghost use Rattle.mt_core.specs.Floors.{floor_of, IsOpenedWith};
ghost use Rattle.mt_core.specs.Calls.{due_count_on, IsAfterAll, IsLedOn, IsOneStepOn, Settles, StaysLegal, StaysStrict};

use crate::floor::Floor;
use crate::step::{apply, notice, propose};
use mt_ranks::{PackedLive, Ranks};
use mt_terms::{AppNo, Event, Reply};

/// Makes the events in order, each if it is due by then, and says how many were.
pub fn run(floor: &mut Floor, ranks: &Ranks, events: &[Event]) -> u64
    requires opened { IsOpenedWith ranks.now.market floor.old }
    requires recorded { IsRecorded ranks.now.market (floor_of ranks.now.market floor.old) }
    ensures floor { IsAfterAll ranks.now.market floor.old floor.new events.now }
    ensures count { result ≡ due_count_on ranks.now.market floor.old events.now }
    ensures at_most { result ≤ 2 * live_entries ranks.now.market }
    ensures opened { IsOpenedWith ranks.now.market floor.new }
    ensures recorded { IsRecorded ranks.now.market (floor_of ranks.now.market floor.new) }
    ensures legal { StaysLegal ranks.now.market floor.old floor.new }
    ensures strict { StaysStrict ranks.now.market floor.old floor.new }
{
    let mut due = 0;
    for event in events {
        if apply(floor, ranks, *event) != Reply::NotDue {
            due += 1;
        }
    }
    due
}

/// The applicant learns whether it is held no longer, and then proposes if it doesn't stand.
fn go_on(floor: &mut Floor, ranks: &Ranks, list: &[PackedLive], applicant: AppNo) -> Reply
    requires opened { IsOpenedWith ranks.now.market floor.old }
    requires recorded { IsRecorded ranks.now.market (floor_of ranks.now.market floor.old) }
    requires ranked { IsRanked ranks.now }
    requires applicant { applicant < applicants ranks.now.market }
    requires list { list.now ≡ ranked_list ranks.now.market applicant }
    ensures step { IsOneStepOn ranks.now.market floor.old floor.new applicant result }
    ensures opened { IsOpenedWith ranks.now.market floor.new }
{
    notice(floor, ranks, applicant);
    propose(floor, ranks, list, applicant)
}

/// Makes the applicant's events, those of each applicant that it displaces, and so on. It settles one applicant at a
/// time, until none is due for the last of them (McVitie and Wilson 1971). The result is the number of proposals.
fn settle(floor: &mut Floor, ranks: &Ranks, first: AppNo) -> u64
    requires opened { IsOpenedWith ranks.now.market floor.old }
    requires recorded { IsRecorded ranks.now.market (floor_of ranks.now.market floor.old) }
    requires ranked { IsRanked ranks.now }
    requires first { first < applicants ranks.now.market }
    ensures reached { IsLedOn ranks.now.market floor.old floor.new result }
    ensures settled { Settles ranks.now.market floor.old floor.new first }
    ensures opened { IsOpenedWith ranks.now.market floor.new }
    ensures recorded { IsRecorded ranks.now.market (floor_of ranks.now.market floor.new) }
{
    let mut proposals = 0;
    let mut applicant = first;
    let mut list = ranks.live(first);
    loop {
        match go_on(floor, ranks, list, applicant) {
            Reply::Kept => return proposals + 1,
            Reply::KeptInstead(displaced) => {
                applicant = displaced;
                list = ranks.live(displaced);
            }
            Reply::Refused => {}
            Reply::Noticed | Reply::NotDue => return proposals,
        }
        proposals += 1;
    }
}

/// Makes due events until none is left, and says how many of them were proposals.
pub fn finish(floor: &mut Floor, ranks: &Ranks) -> u64
    requires opened { IsOpenedWith ranks.now.market floor.old }
    requires recorded { IsRecorded ranks.now.market (floor_of ranks.now.market floor.old) }
    ensures quiet { let m = ranks.now.market in IsTrue (is_quiet m (floor_of m floor.new)) }
    ensures reached { IsLedOn ranks.now.market floor.old floor.new result }
    ensures rises { let m = ranks.now.market in
        proposals_made m (floor_of m floor.new) ≡ proposals_made m (floor_of m floor.old) + result }
    ensures at_most { result ≤ live_entries ranks.now.market }
    ensures opened { IsOpenedWith ranks.now.market floor.new }
    ensures recorded { IsRecorded ranks.now.market (floor_of ranks.now.market floor.new) }
    ensures legal { StaysLegal ranks.now.market floor.old floor.new }
    ensures strict { StaysStrict ranks.now.market floor.old floor.new }
{
    let mut proposals = 0;
    for applicant in 0..ranks.applicants() {
        proposals += settle(floor, ranks, AppNo(applicant));
    }
    proposals
}
