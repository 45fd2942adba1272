//! The couples' rounds, and the best match of the singles. The work list is a vector of agents, and each question is asked
//! of the whole match.
use super::market::{agent_of, members, pairs, place_of, posts, ranking, wishes};
use super::tables::is_plain_single;
use super::taken::first_taken;
use mt_roster::Roster;
use mt_terms::{Agent, AppNo, CoupleNo, ProgNo};
use std::alloc::{AllocError, Global};

// The match between two rounds, and the agents that wait, the one that waits longest first.
#[derive(Drop)]
struct Work {
    places: Vec<Option<ProgNo>>,
    waiting: Vec<Agent>,
}

// Where the option at this position of the agent's list sends its members.
fn option_at(
    alloc: Global,
    roster: &Roster,
    agent: &Agent,
    option: u32,
) -> Result<Vec<(AppNo, Option<ProgNo>)>, AllocError> {
    let mut sent = Vec::new(alloc);
    match agent {
        Agent::Single(single) => {
            if let Some(program) = wishes(roster, *single).get(option as usize) {
                sent.push((*single, Some(*program)))?;
            }
        }
        Agent::Couple(couple) => {
            let pair = pairs(roster, *couple).get(option as usize);
            if let (Some((first, second)), Some(pair)) = (members(roster, *couple), pair) {
                sent.push((first, pair.0))?;
                sent.push((second, pair.1))?;
            }
        }
    }
    Ok(sent)
}

fn put(places: &mut Vec<Option<ProgNo>>, applicant: AppNo, place: Option<ProgNo>) {
    if let Some(slot) = places.get_mut(applicant.index()) {
        *slot = place;
    }
}

// The applicant goes out, and with a member its whole couple.
fn take_out(roster: &Roster, places: &mut Vec<Option<ProgNo>>, applicant: AppNo) {
    put(places, applicant, None);
    if let Agent::Couple(couple) = agent_of(roster, applicant) {
        if let Some((first, second)) = members(roster, couple) {
            put(places, first, None);
            put(places, second, None);
        }
    }
}

// Those seated at the program beyond its posts, by its list.
fn push_displaced_at(
    roster: &Roster,
    seated: &[Option<ProgNo>],
    program: ProgNo,
    displaced: &mut Vec<(ProgNo, AppNo)>,
) -> Result<(), AllocError> {
    let mut above = 0u32;
    for listed in ranking(roster, program) {
        if place_of(seated, *listed) == Some(program) {
            if above >= posts(roster, program) {
                displaced.push((program, *listed))?;
            }
            above = above.saturating_add(1);
        }
    }
    Ok(())
}

// Who is displaced once all who are sent are seated, by the programs that they are sent to.
fn displaced_by(
    alloc: Global,
    roster: &Roster,
    seated: &[Option<ProgNo>],
    sent: &[(AppNo, Option<ProgNo>)],
) -> Result<Vec<(ProgNo, AppNo)>, AllocError> {
    let mut displaced = Vec::new(alloc);
    for (_, place) in sent {
        if let Some(program) = *place {
            push_displaced_at(roster, seated, program, &mut displaced)?;
        }
    }
    Ok(displaced)
}

// Whether somebody was at the program, isn't there now, and wasn't displaced there.
fn is_left(
    roster: &Roster,
    before: &[Option<ProgNo>],
    after: &[Option<ProgNo>],
    displaced: &[(ProgNo, AppNo)],
    program: ProgNo,
) -> bool {
    for number in 0..roster.applicants() {
        let applicant = AppNo(number);
        let has_gone = place_of(before, applicant) == Some(program)
            && place_of(after, applicant) != Some(program);
        if has_gone && !displaced.contains(&(program, applicant)) {
            return true;
        }
    }
    false
}

fn join(waiting: &mut Vec<Agent>, agent: Agent) -> Result<(), AllocError> {
    if !waiting.contains(&agent) {
        waiting.push(agent)?;
    }
    Ok(())
}

// The agent joins if it has entered and has a better option that would be taken.
fn join_if_it_blocks(
    roster: &Roster,
    entered: u32,
    work: &mut Work,
    agent: &Agent,
) -> Result<(), AllocError> {
    let has_entered = match agent {
        Agent::Single(_) => true,
        Agent::Couple(couple) => couple.0 < entered,
    };
    if has_entered && first_taken(roster, work.places.as_slice(), agent).is_some() {
        join(&mut work.waiting, *agent)?;
    }
    Ok(())
}

fn join_of_list(
    roster: &Roster,
    entered: u32,
    work: &mut Work,
    program: ProgNo,
) -> Result<(), AllocError> {
    for listed in ranking(roster, program) {
        join_if_it_blocks(roster, entered, work, &agent_of(roster, *listed))?;
    }
    Ok(())
}

fn join_of_left_programs(
    roster: &Roster,
    entered: u32,
    work: &mut Work,
    before: &[Option<ProgNo>],
    displaced: &[(ProgNo, AppNo)],
) -> Result<(), AllocError> {
    for number in 0..roster.programs() {
        let program = ProgNo(number);
        if is_left(roster, before, work.places.as_slice(), displaced, program) {
            join_of_list(roster, entered, work, program)?;
        }
    }
    Ok(())
}

// All programs choose before anybody is taken out.
fn move_to(
    alloc: Global,
    roster: &Roster,
    places: &mut Vec<Option<ProgNo>>,
    sent: &[(AppNo, Option<ProgNo>)],
) -> Result<Vec<(ProgNo, AppNo)>, AllocError> {
    for (member, place) in sent {
        put(places, *member, *place);
    }
    let displaced = displaced_by(alloc, roster, places.as_slice(), sent)?;
    for (_, applicant) in &displaced {
        take_out(roster, places, *applicant);
    }
    Ok(displaced)
}

// One round, for the agent that waited longest.
fn round(
    alloc: Global,
    roster: &Roster,
    entered: u32,
    work: &mut Work,
    agent: &Agent,
) -> Result<(), AllocError> {
    let Some(option) = first_taken(roster, work.places.as_slice(), agent) else {
        return Ok(());
    };
    let sent = option_at(alloc, roster, agent, option)?;
    let before = Vec::from_slice(alloc, work.places.as_slice())?;
    let displaced = move_to(alloc, roster, &mut work.places, &sent)?;
    for (_, applicant) in &displaced {
        join(&mut work.waiting, agent_of(roster, *applicant))?;
    }
    join_if_it_blocks(roster, entered, work, agent)?;
    join_of_left_programs(roster, entered, work, &before, &displaced)
}

// How many rounds there are in all once nobody waits, if `made` were made before. It is none if the budget is spent
// first.
fn settle(
    alloc: Global,
    roster: &Roster,
    entered: u32,
    work: &mut Work,
    made: u32,
    budget: u32,
) -> Result<Option<u32>, AllocError> {
    for rounds in made..budget {
        if work.waiting.is_empty() {
            return Ok(Some(rounds));
        }
        let agent = work.waiting.remove(0);
        round(alloc, roster, entered, work, &agent)?;
    }
    Ok(if work.waiting.is_empty() {
        Some(budget)
    } else {
        None
    })
}

/// The match once every couple has entered, and how many rounds that took. It is none if the budget is spent first.
pub(crate) fn plain_entered(
    alloc: Global,
    roster: &Roster,
    singles: &[Option<ProgNo>],
    budget: u32,
) -> Result<Option<(Vec<Option<ProgNo>>, u32)>, AllocError> {
    let mut work = Work {
        places: Vec::from_slice(alloc, singles)?,
        waiting: Vec::new(alloc),
    };
    let mut made = 0u32;
    for number in 0..roster.couples() {
        work.waiting.push(Agent::Couple(CoupleNo(number)))?;
        let entered = number.saturating_add(1);
        match settle(alloc, roster, entered, &mut work, made, budget)? {
            Some(rounds) => made = rounds,
            None => return Ok(None),
        }
    }
    Ok(Some((work.places, made)))
}

/// The best match of the singles: from nobody placed each of them waits, and takes its first option that would be taken.
pub(crate) fn plain_singles(
    alloc: Global,
    roster: &Roster,
) -> Result<Vec<Option<ProgNo>>, AllocError> {
    let mut work = Work {
        places: Vec::new(alloc),
        waiting: Vec::new(alloc),
    };
    for number in 0..roster.applicants() {
        work.places.push(None)?;
        let applicant = AppNo(number);
        if is_plain_single(roster, applicant) {
            work.waiting.push(Agent::Single(applicant))?;
        }
    }
    settle(alloc, roster, 0, &mut work, 0, u32::MAX)?;
    Ok(work.places)
}
