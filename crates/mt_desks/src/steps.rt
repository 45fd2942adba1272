ghost use Rattle.std.specs.Prelude.{◌≡◌, ◌<◌, ◌==◌, ◌||◌, ℕ, if◌then◌else◌, true};
ghost use Rattle.mt_terms.specs.Floor.{Floor};
ghost use Rattle.mt_desks.specs.Parts.{one_more, received_at};
ghost use Rattle.mt_desks.specs.Steps.{IsDue, IsInStep, HasParts, IsAsApply, Shows, reply_of_step, stepped};

use crate::desk::Desk;
use crate::door::Door;
use crate::entries::entry_at;
use crate::name::HallName;
use crate::pass::Pass;
use crate::till::Till;
use mt_ranks::Ranks;
use mt_terms::Reply;
use std::sync::{Mutex, Wait};

/// The applicant, which believes that it is held, gets a notice if the program of its last entry doesn't hold it.
fn notice<K: HallName>(desk: &mut Desk<K>, door: &mut Door<K>, ranks: &Ranks) -> Reply
    requires ranks { ranks.now ≡ K.ranked }
    requires due { IsDue K.ranked.market desk.old door.old }
    requires stands { desk.old.standing ≡ true }
    ensures desk { desk.new ≡ stepped K.ranked.market desk.old door.new }
    ensures door { door.new.program ≡ door.old.program }
    ensures received { (b : ℕ) → received_at K.ranked.market door.new b
        ≡ ((b == desk.old.applicant) || received_at K.ranked.market door.old b) }
    ensures reply { result ≡ reply_of_step K.ranked.market desk.old door.old }
    ensures proposed { 0 < desk.old.made }
    ensures excluded { Shows K.ranked.market desk.old.applicant door.old.program result }
{
    let applicant = desk.applicant;
    let entry = entry_at(ranks, applicant, desk.made - 1);
    if door.meet(ranks, applicant, entry.rank) == Reply::Refused {
        desk.standing = false;
        Reply::Noticed
    } else {
        Reply::NotDue
    }
}

/// Makes one event of the desk's applicant on lent parts of one hall. The event is a proposal if the applicant isn't
/// standing, and a notice if it is standing and isn't held. The door is that of the entry that the event is about:
/// the next one, or the last one of an applicant that is standing. On every floor that has these parts, with the door
/// in step, the event is what `apply` of `mt_core` makes of them. A door that is out of step first receives the
/// applicant that is standing.
pub fn step<K: HallName, R: Wait>(
    rt: &R,
    desk: &mut Desk<K>,
    door: &mut Door<K>,
    pass: &mut Pass<K>,
    ranks: &Ranks,
    till: &Mutex<Till<K>>,
) -> Reply
    requires ranks { ranks.now ≡ K.ranked }
    requires due { IsDue K.ranked.market desk.old door.old }
    ensures desk { desk.new ≡ stepped K.ranked.market desk.old door.new }
    ensures door { door.new.program ≡ door.old.program }
    ensures received { (b : ℕ) → received_at K.ranked.market door.new b
        ≡ ((b == desk.old.applicant) || received_at K.ranked.market door.old b) }
    ensures pass { pass.new ≡ (if desk.old.standing then pass.old
        else one_more pass.old door.old.program desk.old.applicant) }
    ensures reply { result ≡ reply_of_step K.ranked.market desk.old door.old }
    ensures excluded { Shows K.ranked.market desk.old.applicant door.old.program result }
    ensures as_apply { (f : Floor) → HasParts K.ranked.market desk.old door.old f
        → IsInStep K.ranked.market desk.old door.old
        → IsAsApply K.ranked.market desk.old desk.new door.new f result }
{
    if desk.standing() {
        return notice(desk, door, ranks);
    }

    // It doesn't stand, so it proposes to the program of its next live entry.
    let applicant = desk.applicant;
    let entry = entry_at(ranks, applicant, desk.made);
    pass.count(rt, till, &mut desk.credits, entry.program, applicant);
    desk.made += 1;
    let reply = door.meet(ranks, applicant, entry.rank);
    desk.standing = reply != Reply::Refused;
    reply
}
