ghost use Rattle.std.specs.Prelude.{◌≡◌, IfOk};
ghost use Rattle.mt_order_laws.specs.Reordered.{reordered_registered, set_aside_registered, IsOrderOfSome};
ghost use Rattle.mt_reordered.specs.Copied.{HaveAllButCouples};

use crate::copies::{applicant_ids, program_ids, quotas, rankings, single_lists};
use crate::couples::{
    agents, all_couples, couple_ids, members, pairs, pairs_unless_aside, renumbered_agents,
};
use mt_market::{ByApplicants, ByPrograms, ChunkedLists, FlatLists, Roster, Tables};
use mt_terms::{Agent, AppNo, CoupleNo, ProgNo};
use std::alloc::{AllocError, Global};

/// Those columns of a market's tables that depend on its couples.
#[derive(Drop)]
struct CoupleTables {
    agents: Vec<Agent>,
    members: Vec<(AppNo, AppNo)>,
    pairs: FlatLists<(Option<ProgNo>, Option<ProgNo>)>,
    ids: FlatLists<u8>,
}

/// The tables of a market with these couples in place of its own.
fn with_couples(alloc: Global, roster: &Roster, couples: CoupleTables) -> Result<Tables, AllocError>
    ensures others { IfOk result (HaveAllButCouples roster.now) }
    ensures agents { IfOk result (λ t. t.agents.items ≡ couples.agents.items) }
    ensures members { IfOk result (λ t. t.by_applicants.members.items ≡ couples.members.items) }
    ensures pairs { IfOk result (λ t. t.by_programs.pairs ≡ couples.pairs) }
    ensures ids { IfOk result (λ t. t.couple_ids ≡ couples.ids) }
{
    Ok(Tables {
        quotas: quotas(alloc, roster)?,
        agents: couples.agents,
        by_applicants: ByApplicants {
            rankings: ChunkedLists::of(alloc, rankings(alloc, roster)?)?,
            members: couples.members,
        },
        by_programs: ByPrograms {
            lists: ChunkedLists::of(alloc, single_lists(alloc, roster)?)?,
            pairs: ChunkedLists::of(alloc, couples.pairs)?,
        },
        program_ids: program_ids(alloc, roster)?,
        applicant_ids: applicant_ids(alloc, roster)?,
        couple_ids: couples.ids,
    })
}

/// The market with only the couples of this order, in the order. The members of the other couples are applicants that
/// want nothing. The only error is want of memory.
pub fn reordered(alloc: Global, roster: &Roster, order: &[CoupleNo]) -> Result<Roster, AllocError>
    requires { IsOrderOfSome roster.now.market order.now }
    ensures { IfOk result (λ r. r ≡ reordered_registered order.now roster.now) }
{
    roster.is_of_a_file();
    let agents = renumbered_agents(alloc, roster, order)?;
    let members = members(alloc, roster, order)?;
    let pairs = pairs(alloc, roster, order)?;
    let ids = couple_ids(alloc, roster, order)?;
    let couples = CoupleTables {
        agents,
        members,
        pairs,
        ids,
    };
    let tables = with_couples(alloc, roster, couples)?;
    Ok(Roster::new(tables))
}

/// The market in which these couples are set aside: they want nothing. A number that no couple has sets none aside. The
/// only error is want of memory.
pub fn set_aside(alloc: Global, roster: &Roster, aside: &[CoupleNo]) -> Result<Roster, AllocError>
    ensures { IfOk result (λ r. r ≡ set_aside_registered aside.now roster.now) }
{
    roster.is_of_a_file();
    let all = all_couples(alloc, roster.couples())?;
    let order = all.as_slice();
    let agents = agents(alloc, roster)?;
    let members = members(alloc, roster, order)?;
    let pairs = pairs_unless_aside(alloc, roster, aside)?;
    let ids = couple_ids(alloc, roster, order)?;
    let couples = CoupleTables {
        agents,
        members,
        pairs,
        ids,
    };
    let tables = with_couples(alloc, roster, couples)?;
    Ok(Roster::new(tables))
}
