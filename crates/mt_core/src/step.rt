ghost use Rattle.std.specs.Prelude.{◌≡◌, ◌<◌, length};
ghost use Rattle.mt_terms.specs.Market.{Market, applicants, program_of};
ghost use Rattle.mt_terms.specs.Floor.{last_proposed_to, is_held_by, IsRecorded, reply_of};
ghost use Rattle.mt_ranks.specs.Ranked.{IsRanked, ranked_list};
ghost use Rattle.mt_core.specs.Calls.{is_due_on, IsAfter, StaysLegal, StaysStrict};
ghost use Rattle.mt_core.specs.Ends.{NamesDisplaced};
ghost use Rattle.mt_core.specs.Entries.{entry_of, live_entry, next_in};
ghost use Rattle.mt_core.specs.Floors.{floor_of, IsOpenedWith};
ghost use Rattle.mt_hold.specs.Replies.{reply_from, IsAnswerOn};

use crate::floor::{Floor, made};
use mt_hold::Taken;
use mt_ranks::{Live, PackedLive, Ranks};
use mt_terms::{AppNo, Event, ProgNo, Reply};

/// The entry at a place of the applicant's live list.
fn entry_at(ranks: &Ranks, applicant: AppNo, place: u32) -> Option<Live>
    requires ranked { IsRanked ranks.now }
    requires applicant { applicant < applicants ranks.now.market }
    ensures { result ≡ live_entry ranks.now.market applicant place }
{
    let entry = ranks.live(applicant).get(place as usize)?;
    Some(entry.unpacked())
}

/// The entry that the applicant proposed to last.
pub(crate) fn last_proposed_to(floor: &Floor, ranks: &Ranks, applicant: AppNo) -> Option<Live>
    requires opened { IsOpenedWith ranks.now.market floor.now }
    requires ranked { IsRanked ranks.now }
    requires applicant { applicant < applicants ranks.now.market }
    ensures { let m = ranks.now.market in
        result ≡ entry_of m applicant (last_proposed_to m (floor_of m floor.now) applicant) }
{
    let place = made(floor, applicant).checked_sub(1)?;
    entry_at(ranks, applicant, place)
}

/// The entry of its live list that the applicant would propose to next: none while it stands.
fn next_entry(floor: &Floor, list: &[PackedLive], applicant: AppNo) -> Option<Live>
    requires made { applicant < length floor.now.made }
    requires standing { applicant < length floor.now.standing }
    ensures { (m : Market) → result ≡ next_in m floor.now list.now applicant }
{
    if floor.stands(applicant) {
        return None;
    }
    let entry = list.get(made(floor, applicant) as usize)?;
    Some(entry.unpacked())
}

/// Whether the program that the applicant proposed to last holds it.
pub(crate) fn is_held(floor: &Floor, ranks: &Ranks, applicant: AppNo) -> bool
    requires opened { IsOpenedWith ranks.now.market floor.now }
    requires ranked { IsRanked ranks.now }
    requires applicant { applicant < applicants ranks.now.market }
    ensures { let m = ranks.now.market in let f = floor_of m floor.now in
        result ≡ is_held_by m f applicant (last_proposed_to m f applicant) }
{
    match last_proposed_to(floor, ranks, applicant) {
        Some(entry) => floor.holds(entry.program, entry.rank),
        None => false,
    }
}

/// Whether the applicant stands and the program that it proposed to last holds it no longer.
fn is_dropped(floor: &Floor, ranks: &Ranks, applicant: AppNo) -> bool
    requires opened { IsOpenedWith ranks.now.market floor.now }
    requires recorded { IsRecorded ranks.now.market (floor_of ranks.now.market floor.now) }
    requires ranked { IsRanked ranks.now }
    requires applicant { applicant < applicants ranks.now.market }
    ensures { result ≡ is_due_on ranks.now.market floor.now (Event.Notice applicant) }
{
    if !floor.stands(applicant) {
        return false;
    }
    match last_proposed_to(floor, ranks, applicant) {
        Some(entry) => !floor.keeps(entry.program, entry.rank),
        None => true,
    }
}

/// The applicant learns that it is held no longer, if that is so.
pub(crate) fn notice(floor: &mut Floor, ranks: &Ranks, applicant: AppNo) -> Reply
    requires opened { IsOpenedWith ranks.now.market floor.old }
    requires recorded { IsRecorded ranks.now.market (floor_of ranks.now.market floor.old) }
    requires ranked { IsRanked ranks.now }
    requires applicant { applicant < applicants ranks.now.market }
    ensures floor { IsAfter ranks.now.market floor.old floor.new (Event.Notice applicant) }
    ensures reply { let m = ranks.now.market in
        result ≡ reply_of m (floor_of m floor.old) (Event.Notice applicant) }
    ensures not_due { result ≡ Reply.NotDue → floor.new ≡ floor.old }
    ensures opened { IsOpenedWith ranks.now.market floor.new }
{
    if !is_dropped(floor, ranks, applicant) {
        return Reply::NotDue;
    }
    floor.set_standing(applicant, false);
    Reply::Noticed
}

/// The reply to a proposal to the program, by the answer of its holding.
fn reply_at(ranks: &Ranks, program: ProgNo, taken: Taken) -> Reply
    requires program { program < length ranks.now.market.programs }
    requires rank { IsAnswerOn (program_of ranks.now.market program).ranking taken }
    ensures { result ≡ reply_from (program_of ranks.now.market program).ranking taken }
{
    match taken {
        Taken::Kept => Reply::Kept,
        Taken::KeptInstead(rank) => Reply::KeptInstead(ranks.by_rank(program)[rank as usize]),
        Taken::Refused => Reply::Refused,
    }
}

/// The applicant proposes to the next program on its live list, if there is one.
pub(crate) fn propose(
    floor: &mut Floor,
    ranks: &Ranks,
    list: &[PackedLive],
    applicant: AppNo,
) -> Reply
    requires opened { IsOpenedWith ranks.now.market floor.old }
    requires recorded { IsRecorded ranks.now.market (floor_of ranks.now.market floor.old) }
    requires ranked { IsRanked ranks.now }
    requires applicant { applicant < applicants ranks.now.market }
    requires list { list.now ≡ ranked_list ranks.now.market applicant }
    ensures floor { IsAfter ranks.now.market floor.old floor.new (Event.Propose applicant) }
    ensures reply { let m = ranks.now.market in
        result ≡ reply_of m (floor_of m floor.old) (Event.Propose applicant) }
    ensures not_due { result ≡ Reply.NotDue → floor.new ≡ floor.old }

    // At most one applicant was displaced, the one that the reply names.
    ensures displaced { let m = ranks.now.market in
        NamesDisplaced m (floor_of m floor.old) (floor_of m floor.new) result }
    ensures opened { IsOpenedWith ranks.now.market floor.new }
{
    let Some(entry) = next_entry(floor, list, applicant) else {
        return Reply::NotDue;
    };
    let taken = floor.enter(applicant, entry.program, entry.rank);
    reply_at(ranks, entry.program, taken)
}

/// Makes the event, if it is due, and gives the reply to it. An event that isn't due changes nothing. The floor was
/// opened with these rank tables, and events alone have changed it.
pub fn apply(floor: &mut Floor, ranks: &Ranks, event: Event) -> Reply
    requires opened { IsOpenedWith ranks.now.market floor.old }
    requires recorded { IsRecorded ranks.now.market (floor_of ranks.now.market floor.old) }
    ensures floor { IsAfter ranks.now.market floor.old floor.new event }
    ensures reply { let m = ranks.now.market in result ≡ reply_of m (floor_of m floor.old) event }
    ensures not_due { result ≡ Reply.NotDue → floor.new ≡ floor.old }
    ensures opened { IsOpenedWith ranks.now.market floor.new }
    ensures recorded { IsRecorded ranks.now.market (floor_of ranks.now.market floor.new) }
    ensures legal { StaysLegal ranks.now.market floor.old floor.new }
    ensures strict { StaysStrict ranks.now.market floor.old floor.new }
{
    let applicants = ranks.applicants();
    match event {
        Event::Propose(applicant) if applicant.0 < applicants => {
            propose(floor, ranks, ranks.live(applicant), applicant)
        }
        Event::Notice(applicant) if applicant.0 < applicants => notice(floor, ranks, applicant),
        _ => Reply::NotDue,
    }
}
