ghost use Rattle.std.specs.Prelude.{◌≡◌, ◌<◌, IfOk};
ghost use Rattle.mt_terms.specs.Market.{agents, applicants, leads};

use mt_market::Roster;
use mt_terms::{Agent, AppNo};
use std::alloc::{AllocError, Global};

/// Whether an applicant is a single, or the first member of its couple.
fn leads(roster: &Roster, applicant: AppNo) -> bool
    requires { applicant < applicants roster.now.market }
    ensures { result ≡ leads roster.now.market applicant }
{
    match roster.agent_of(applicant) {
        Agent::Single(_) => true,
        Agent::Couple(couple) => roster.members(couple).0 == applicant,
    }
}

/// All agents of the market, in the order of registration.
pub fn all_agents(alloc: Global, roster: &Roster) -> Result<Vec<Agent>, AllocError>
    ensures { IfOk result (λ v. v.items ≡ agents roster.now.market) }
{
    let mut agents = Vec::new(alloc);
    for number in 0..roster.applicants() {
        let applicant = AppNo(number);
        if leads(roster, applicant) {
            agents.push(roster.agent_of(applicant))?;
        }
    }
    Ok(agents)
}
