//! The quotas of programs, and the agents of applicants.
ghost use Rattle.std.specs.Prelude.{◌≡◌, ◌<◌, ◌^◌, [], map, filter_map, length, All, IfOk, slice_set};
ghost use Rattle.mt_terms.specs.Lists.{below};
ghost use Rattle.mt_terms.specs.Market.{agent_from};
ghost use Rattle.mt_records.specs.Records.{all_seen};
ghost use Rattle.mt_numbering.specs.Numbered.{quota_in, bare_couples};

use mt_records::Record;
use mt_terms::{Agent, AppNo, CoupleNo};
use std::alloc::{AllocError, Global};

/// The programs' quotas.
pub(crate) fn quotas(alloc: Global, records: &[Record<'_>]) -> Result<Vec<u32>, AllocError>
    ensures { IfOk result (λ quotas. quotas.items ≡ filter_map quota_in (all_seen records.now)) }
{
    let mut quotas = Vec::new(alloc);
    for one in records {
        if let Record::Program { quota, .. } = one {
            quotas.push(*quota)?;
        }
    }
    Ok(quotas)
}

/// A list of `count` applicants, each of them a single.
fn singles(alloc: Global, count: usize) -> Result<Vec<Agent>, AllocError>
    requires { count < 2 ^ 32 }
    ensures { IfOk result (λ agents. agents.items ≡ map (agent_from [] 0) (below count)) }
{
    let mut agents = Vec::with_capacity(alloc, count)?;
    for number in 0..count {
        agents.push(Agent::Single(AppNo(number as u32)))?;
    }
    Ok(agents)
}

/// Makes two applicants the members of a couple.
fn join(agents: &mut [Agent], first: AppNo, second: AppNo, couple: CoupleNo)
    requires first_within { first < length agents.old }
    requires second_within { second < length agents.old }
    ensures { agents.new
        ≡ slice_set (slice_set agents.old first (Agent.Couple couple)) second (Agent.Couple couple) }
{
    agents[first.index()] = Agent::Couple(couple);
    agents[second.index()] = Agent::Couple(couple);
}

/// The agent of each applicant, by the couples' members.
pub(crate) fn agents(
    alloc: Global,
    count: usize,
    members: &[(AppNo, AppNo)],
) -> Result<Vec<Agent>, AllocError>
    requires few { count < 2 ^ 32 }
    requires few_couples { length members.now < 2 ^ 32 }
    requires within { All (λ m. (m.0 < count) × (m.1 < count)) members.now }
    ensures { IfOk result
        (λ agents. agents.items ≡ map (agent_from (bare_couples members.now) 0) (below count)) }
{
    let mut agents = singles(alloc, count)?;
    // From the last couple down, so that an applicant's first couple stays.
    for number in (0..members.len()).rev() {
        let (first, second) = members[number];
        join(&mut agents, first, second, CoupleNo(number as u32));
    }
    Ok(agents)
}
