ghost use Rattle.std.specs.Prelude.{◌≡◌, ◌↔◌, ◌+◌, ◌<◌, ◌^◌, ℕ, false, length, IfOk, IsTrue, IsFalse, slice_index, slice_index_or};
ghost use Rattle.mt_terms.specs.Lists.{count_below};
ghost use Rattle.mt_terms.specs.Market.{Market, applicants};
ghost use Rattle.mt_terms.specs.Floor.{opening, IsRecorded, IsStrict};
ghost use Rattle.mt_terms.specs.WellFormed.{IsWellFormed};
ghost use Rattle.mt_hold.specs.Holding.{ranks, has_received, held, receive};
ghost use Rattle.mt_core.specs.Desks.{with_desk, MayHave};
ghost use Rattle.mt_core.specs.Floors.{hold_of, all_opened, entered, floor_of, IsOpenedWith, with_standing};

use mt_hold::{Hold, Taken};
use mt_ranks::Ranks;
use mt_terms::{AppNo, ProgNo};
use std::alloc::{AllocError, Global};
use std::marker::Model;

/// How far deferred acceptance has come (Gale and Shapley 1962; McVitie and Wilson 1971). It has the number of
/// proposals that each applicant has made along its live list, and whether the applicant believes that the last of
/// them is held. It has what each program holds. A floor belongs to the rank tables that it was opened with.
pub struct Floor {
    made: Vec<u32>,
    standing: Vec<bool>,
    holds: Vec<Hold>,
}

impl Drop for Floor {
    fn drop(self) {
        let Floor {
            made: _,
            standing: _,
            holds: _,
        } = self;
    }
}

impl Model for Floor {
    ghost use Rattle.mt_core.specs.Floors.{Tables};

    ghost Value = { Tables };

    ghost use Rattle.mt_core.specs.FloorsView.{tables_in};

    ghost view = { tables_in };
}

// For each program a holding that has received nothing.
fn opened_holds(alloc: Global, ranks: &Ranks) -> Result<Vec<Hold>, AllocError>
    ensures { IfOk result (λ holds. holds.items ≡ all_opened ranks.now.market) }
{
    let mut holds = Vec::with_capacity(alloc, ranks.programs() as usize)?;
    for program in 0..ranks.programs() {
        let program = ProgNo(program);
        let list_len = ranks.by_rank(program).len() as u32;
        holds.push(Hold::open(alloc, ranks.quota(program), list_len)?)?;
    }
    Ok(holds)
}

impl Floor {
    /// The opening floor: no proposal is made, nobody stands, and no program has received anybody. It takes all the
    /// memory that the events will ever use, and its one error is that there isn't enough.
    pub fn open(alloc: Global, ranks: &Ranks) -> Result<Floor, AllocError>
        ensures opened { IfOk result (λ floor. IsOpenedWith ranks.now.market floor) }
        ensures opening { IfOk result (λ floor. floor_of ranks.now.market floor ≡ opening) }
        ensures strict { let m = ranks.now.market in IfOk result (λ f. IsStrict m (floor_of m f)) }
    {
        let applicants = ranks.applicants() as usize;
        let made = vec![in alloc; 0; applicants]?;
        let standing = vec![in alloc; false; applicants]?;
        let holds = opened_holds(alloc, ranks)?;
        Ok(Floor {
            made,
            standing,
            holds,
        })
    }

    /// Whether the applicant stands: it believes that the program to which it proposed last holds it.
    pub(crate) fn stands(&self, applicant: AppNo) -> bool
        requires { applicant < length self.now.standing }
        ensures { result ≡ slice_index_or self.now.standing applicant false }
    {
        self.standing[applicant.index()]
    }

    /// Whether the program holds the rank.
    pub(crate) fn holds(&self, program: ProgNo, rank: u32) -> bool
        requires { program < length self.now.holds }
        ensures { result ≡ held (hold_of self.now program) rank }
    {
        self.holds[program.index()].holds(rank)
    }

    /// Whether the program holds the rank, from which it has received a proposal.
    pub(crate) fn keeps(&self, program: ProgNo, rank: u32) -> bool
        requires program { program < length self.now.holds }
        requires on_list { rank < ranks (hold_of self.now program) }
        requires received { IsTrue (has_received (hold_of self.now program) rank) }
        ensures { result ≡ held (hold_of self.now program) rank }
    {
        self.holds[program.index()].keeps(rank)
    }

    /// The applicant proposes to the program, on whose list it has this rank.
    pub(crate) fn enter(&mut self, applicant: AppNo, program: ProgNo, rank: u32) -> Taken
        requires made { applicant < length self.old.made }
        requires standing { applicant < length self.old.standing }
        requires program { program < length self.old.holds }
        requires fits { slice_index self.old.made applicant + 1 < 2 ^ 32 }
        requires on_list { rank < ranks (hold_of self.old program) }
        requires first_time { IsFalse (has_received (hold_of self.old program) rank) }
        ensures tables { self.new ≡ entered self.old applicant program rank }
        ensures refused { let h = receive (hold_of self.old program) rank in
            (result ≡ Taken.Refused) ↔ IsFalse (held h rank) }
        ensures dropped { let h = receive (hold_of self.old program) rank in
            (other : ℕ) → (result ≡ Taken.KeptInstead other)
            ↔ (IsTrue (held (hold_of self.old program) other) × IsFalse (held h other)) }
    {
        let taken = self.holds[program.index()].propose(rank);
        self.made[applicant.index()] += 1;
        self.standing[applicant.index()] = taken != Taken::Refused;
        taken
    }

    /// Writes the desk of an applicant that has proposed to nobody: `made` proposals, each of them received, and
    /// whether the applicant believes that the last one is held. The rest stays as it is. It takes no memory. The
    /// floor needn't be legal after it.
    pub fn put_desk(&mut self, ranks: &Ranks, applicant: AppNo, made: u32, standing: bool)
        requires opened { IsOpenedWith ranks.now.market self.old }
        requires recorded { IsRecorded ranks.now.market (floor_of ranks.now.market self.old) }
        requires applicant { applicant < applicants ranks.now.market }
        requires none_made { (floor_of ranks.now.market self.old).made applicant ≡ 0 }
        requires desk { MayHave ranks.now.market applicant made standing }
        ensures floor { let m = ranks.now.market in
            floor_of m self.new ≡ with_desk m (floor_of m self.old) applicant made standing }
        ensures opened { IsOpenedWith ranks.now.market self.new }
        ensures recorded { IsRecorded ranks.now.market (floor_of ranks.now.market self.new) }
    {
        ranks.applicants();
        for place in 0..made {
            let entry = ranks.live(applicant)[place as usize].unpacked();
            self.enter(applicant, entry.program, entry.rank);
        }
        self.set_standing(applicant, standing);
    }

    /// Sets whether the applicant stands.
    pub(crate) fn set_standing(&mut self, applicant: AppNo, standing: bool)
        requires { applicant < length self.old.standing }
        ensures { self.new ≡ with_standing self.old applicant standing }
    {
        self.standing[applicant.index()] = standing;
    }
}

/// How many programs the applicant has proposed to.
pub fn made(floor: &Floor, applicant: AppNo) -> u32
    requires { applicant < length floor.now.made }
    ensures { (m : Market) → result ≡ (floor_of m floor.now).made applicant }
{
    floor.made[applicant.index()]
}

/// How many applicants the program has received a proposal from.
pub fn received(floor: &Floor, program: ProgNo) -> u32
    requires { program < length floor.now.holds }
    ensures { (m : Market) → IsWellFormed m → IsOpenedWith m floor.now
        → result ≡ count_below ((floor_of m floor.now).received program) (applicants m) }
{
    floor.holds[program.index()].count()
}
