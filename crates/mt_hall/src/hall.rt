ghost use Rattle.std.specs.Prelude.{◌≡◌, ◌≢◌, ◌↔◌, ◌+◌, ◌<◌, ◌≤◌, All, IfOk, IsTrue, ℕ, false, if◌then◌else◌, length, vec_len};
ghost use Rattle.mt_terms.specs.Lists.{has};
ghost use Rattle.mt_terms.specs.Market.{Market, applicants, live};
ghost use Rattle.mt_terms.specs.Floor.{opening};
ghost use Rattle.mt_core.specs.Floors.{floor_of, IsOpenedWith};
ghost use Rattle.mt_hall.specs.Answers.{Tells, is_of_proposal, pass_after};
ghost use Rattle.mt_desks.specs.Singles.{is_single};
ghost use Rattle.mt_desks.specs.Openings.{unused_pass};
ghost use Rattle.mt_desks.specs.Parts.{one_more};
ghost use Rattle.mt_desks.specs.Steps.{Shows};

use crate::answer::Answer;
use crate::audit::Row;
use mt_core::Floor;
use mt_desks::{
    Desk, Door, HallName, Pass, Till, deal_out, entry_at, is_single, live_len, open_doors, step,
};
use mt_ranks::Ranks;
use mt_terms::{AppNo, ProgNo, Reply};
use std::alloc::{AllocError, Global};
use std::sync::ledger::Blank;
use std::sync::{Mutex, Wait};

/// The floor behind locks: each applicant's desk and each program's door has a lock of its own, and so has the till
/// of all credits. A thread locks one desk, and then the door of one of that applicant's live entries. For the move
/// of one credit it then locks the till. It never holds two desks or two doors.
pub struct Hall<'a, K: HallName> {
    pub(crate) desks: Vec<Mutex<Desk<K>>>,
    pub(crate) doors: Vec<Mutex<Door<K>>>,
    pub(crate) till: Mutex<Till<K>>,
    pub(crate) ranks: &'a Ranks<'a>,
    // What the audit fills.
    pub(crate) floor: Floor,
    pub(crate) rows: Vec<Row>,
    ghost one_desk_each: { vec_len desks ≡ applicants K.ranked.market },
    ghost one_door_each: { vec_len doors ≡ length K.ranked.market.programs },
    ghost its_ranks: { ranks.now ≡ K.ranked },
    ghost opened: { IsOpenedWith K.ranked.market floor },
    ghost opening: { floor_of K.ranked.market floor ≡ opening },
    ghost one_row_each: { vec_len rows ≡ applicants K.ranked.market },
}

impl<'a, K: HallName> Hall<'a, K> {
    /// A hall over these rank tables, in which nobody has proposed, and a pass for each worker. It takes all the
    /// memory that `step`, `advance` and `close` will ever use, and its one error is that there isn't enough. The
    /// blank has one part for each applicant and each worker.
    pub fn open(
        alloc: Global,
        ranks: &'a Ranks<'a>,
        workers: u32,
        blank: Blank,
    ) -> Result<(Hall<'a, K>, Vec<Pass<K>>), AllocError>
        requires ranks { ranks.now ≡ K.ranked }
        requires name { blank.name ≡ K.name }
        requires parts { (blank.parts ≡ K.parts)
            × (K.parts ≡ applicants K.ranked.market + workers) }
        requires workers { (1 ≤ workers) × (workers ≤ 64) }
        ensures passes { IfOk result (λ opened. vec_len opened.1 ≡ workers) }
        ensures unused { IfOk result
            (λ opened. All (λ pass. pass ≡ unused_pass K.ranked.market) opened.1.items) }
    {
        let applicants = ranks.applicants();
        let floor = Floor::open(alloc, ranks)?;
        let rows = vec![in alloc; Row {
            made: 0,
            standing: false
        }; applicants as usize]?;
        let doors = open_doors::<K>(alloc, ranks)?;
        let (till, desks, passes) = deal_out::<K>(alloc, ranks, workers, blank)?;
        let hall = Hall {
            desks,
            doors,
            till: Mutex::new(till),
            ranks,
            floor,
            rows,
        };
        Ok((hall, passes))
    }

    // No clause can say which lock it is: a lock is seen as nothing, and a door's number only while it is locked. So
    // `advance` compares the number of the door that it has locked.
    /// The lock of the program's door.
    pub fn door(&self, program: ProgNo) -> &Mutex<Door<K>>
        requires { program < length K.ranked.market.programs }
    {
        &self.doors[program.index()]
    }

    // If a locked part bears another number than its place, nothing is known of the applicant.
    fn unknown(&self, applicant: AppNo) -> Answer
        requires { applicant < applicants K.ranked.market }
        ensures tells { Tells K.ranked.market applicant result }
        ensures known { result ≢ Answer.Stranger }
        ensures pass { (s : _) → pass_after s applicant result ≡ s }
    {
        if live_len(self.ranks, applicant) == 0 {
            return Answer::Out;
        }
        let first = entry_at(self.ranks, applicant, 0);
        Answer::At {
            place: first.program,
        }
    }

    /// Makes one event of the applicant with the pass, or none if none is due. The answer says what the event did.
    /// The pass was opened with this hall.
    pub fn advance<R: Wait>(&self, rt: &R, applicant: AppNo, pass: &mut Pass<K>) -> Answer
        ensures tells { Tells K.ranked.market applicant result }
        ensures stranger { (result ≡ Answer.Stranger) ↔ (is_single K.ranked applicant ≡ false) }
        ensures pass { pass.new ≡ pass_after pass.old applicant result }
    {
        if !is_single(self.ranks, applicant) {
            return Answer::Stranger;
        }
        let entries = live_len(self.ranks, applicant);
        let mut desk = self.desks[applicant.index()].lock(rt);
        if desk.applicant() != applicant {
            return self.unknown(applicant);
        }
        let made = desk.made();
        let standing = desk.standing();
        if !standing && made == entries {
            return Answer::Out;
        }
        let place = if standing { made - 1 } else { made };
        let program = entry_at(self.ranks, applicant, place).program;
        let mut door = pass.lock(rt, &self.doors[program.index()]);
        if door.program() != program {
            return self.unknown(applicant);
        }
        let reply = step(rt, &mut desk, &mut door, pass, self.ranks, &self.till);
        answer_to(program, reply)
    }
}

// The answer to a call whose one event had this reply of the program.
fn answer_to(program: ProgNo, reply: Reply) -> Answer
    ensures tells { (m : Market) (a : ℕ) → IsTrue (has (live m a) program)
        → Shows m a program reply → Tells m a result }
    ensures known { result ≢ Answer.Stranger }
    ensures pass { (s : _) (a : ℕ) → pass_after s a result
        ≡ (if is_of_proposal reply then one_more s program a else s) }
{
    match reply {
        Reply::Kept => Answer::Moved {
            to: program,
            kept: true,
            displaced: None,
        },
        Reply::KeptInstead(other) => Answer::Moved {
            to: program,
            kept: true,
            displaced: Some(other),
        },
        Reply::Refused => Answer::Moved {
            to: program,
            kept: false,
            displaced: None,
        },
        Reply::Noticed => Answer::Told { by: program },
        Reply::NotDue => Answer::At { place: program },
    }
}
