//! Those columns of a market's tables that depend on its couples, by an order of some of them.
ghost use Rattle.std.specs.Prelude.{◌≡◌, ◌<◌, ◌^◌, ◌++◌, ◌∷◌, [], true, map, length, slice_set, All, IfOk, OnOk, if◌then◌else◌};
ghost use Rattle.mt_terms.specs.Lists.{has, below};
ghost use Rattle.mt_terms.specs.Market.{agent_of, applicants};
ghost use Rattle.mt_terms.specs.Text.{name_of};
ghost use Rattle.mt_reordered.specs.Copied.{agent_by_place, members_at, pairs_at, pairs_unless_aside, place_from, renumbered, renumbered_agent};

use mt_market::{FlatLists, Roster};
use mt_terms::{Agent, AppNo, CoupleNo, ProgNo};
use std::alloc::{AllocError, Global};

/// The couples below `couples`, in the order of registration. The only error is want of memory.
pub fn all_couples(alloc: Global, couples: u32) -> Result<Vec<CoupleNo>, AllocError>
    ensures { IfOk result (λ order. order.items ≡ below couples) }
{
    let mut order = Vec::with_capacity(alloc, couples as usize)?;
    for number in 0..couples {
        order.push(CoupleNo(number))?;
    }
    Ok(order)
}

/// The members of the couples of an order.
pub(crate) fn members(
    alloc: Global,
    roster: &Roster,
    order: &[CoupleNo],
) -> Result<Vec<(AppNo, AppNo)>, AllocError>
    requires { All (λ c. c < length roster.now.market.couples) order.now }
    ensures { IfOk result (λ members. members.items ≡ map (members_at roster.now.market) order.now) }
{
    let mut members = Vec::with_capacity(alloc, order.len())?;
    for couple in order {
        members.push(roster.members(*couple))?;
    }
    Ok(members)
}

/// The pairs of the couples of an order.
pub(crate) fn pairs(
    alloc: Global,
    roster: &Roster,
    order: &[CoupleNo],
) -> Result<FlatLists<(Option<ProgNo>, Option<ProgNo>)>, AllocError>
    requires { All (λ c. c < length roster.now.market.couples) order.now }
    ensures { IfOk result (λ pairs. pairs ≡ map (pairs_at roster.now.market) order.now) }
{
    let mut pairs = FlatLists::new(alloc);
    for couple in order {
        pairs.push_list(roster.couple_list(*couple))?;
    }
    Ok(pairs)
}

/// The ids of the couples of an order.
pub(crate) fn couple_ids(
    alloc: Global,
    roster: &Roster,
    order: &[CoupleNo],
) -> Result<FlatLists<u8>, AllocError>
    requires { All (λ c. c < length roster.now.market.couples) order.now }
    ensures { IfOk result (λ ids. ids ≡ map (name_of roster.now.names.couples) order.now) }
{
    let mut ids = FlatLists::new(alloc);
    for couple in order {
        ids.push_list(roster.couple_id(*couple))?;
    }
    Ok(ids)
}

/// Marks a couple, if there is a flag for it.
fn mark(flags: &mut [bool], couple: CoupleNo)
    ensures { flags.new ≡ slice_set flags.old couple true }
{
    if couple.index() < flags.len() {
        flags[couple.index()] = true;
    }
}

/// For each couple below `couples` whether it is on a list.
fn flags(alloc: Global, couples: u32, list: &[CoupleNo]) -> Result<Vec<bool>, AllocError>
    ensures { IfOk result (λ flags. flags.items ≡ map (has list.now) (below couples)) }
{
    let mut flags = Vec::from_elem(alloc, false, couples as usize)?;
    for couple in list {
        mark(&mut flags, *couple);
    }
    Ok(flags)
}

/// Adds the pairs of a couple, or none if it is set aside. The error is want of memory.
fn push_pairs(
    pairs: &mut FlatLists<(Option<ProgNo>, Option<ProgNo>)>,
    roster: &Roster,
    couple: CoupleNo,
    is_aside: bool,
) -> Result<(), AllocError>
    requires { couple < length roster.now.market.couples }
    ensures { OnOk result (pairs.new
        ≡ pairs.old ++ (if is_aside then [] else pairs_at roster.now.market couple) ∷ []) }
{
    if is_aside {
        pairs.begin()
    } else {
        pairs.push_list(roster.couple_list(couple))
    }
}

/// The pairs of all couples in the order of registration, without those of couples that are set aside.
pub(crate) fn pairs_unless_aside(
    alloc: Global,
    roster: &Roster,
    aside: &[CoupleNo],
) -> Result<FlatLists<(Option<ProgNo>, Option<ProgNo>)>, AllocError>
    ensures { IfOk result (λ pairs.
        pairs ≡ map (pairs_unless_aside aside.now roster.now.market) (below (length roster.now.market.couples))) }
{
    let is_aside = flags(alloc, roster.couples(), aside)?;
    let mut pairs = FlatLists::new(alloc);
    for number in 0..roster.couples() {
        push_pairs(
            &mut pairs,
            roster,
            CoupleNo(number),
            is_aside[number as usize],
        )?;
    }
    Ok(pairs)
}

/// Notes the place of a couple.
fn note(places: &mut [Option<CoupleNo>], couple: CoupleNo, place: u32)
    requires { couple < length places.old }
    ensures { places.new ≡ slice_set places.old couple (Some place) }
{
    places[couple.index()] = Some(CoupleNo(place));
}

/// For each couple below `couples` its place in an order, if it has one.
fn places(
    alloc: Global,
    couples: u32,
    order: &[CoupleNo],
) -> Result<Vec<Option<CoupleNo>>, AllocError>
    requires few { length order.now < 2 ^ 32 }
    requires within { All (λ c. c < couples) order.now }
    ensures { IfOk result (λ places. places.items ≡ map (place_from order.now 0) (below couples)) }
{
    let mut places = Vec::from_elem(alloc, None, couples as usize)?;
    // From the last place down, so that a couple's first place stays.
    for place in (0..order.len()).rev() {
        note(&mut places, order[place], place as u32);
    }
    Ok(places)
}

/// The agent of an applicant, by its couple's place in an order, if there is one.
fn agent_by_place(applicant: AppNo, place: Option<CoupleNo>) -> Agent
    ensures { result ≡ agent_by_place applicant place }
{
    match place {
        Some(place) => Agent::Couple(place),
        None => Agent::Single(applicant),
    }
}

/// The agent of an applicant, by its agent and the couples' places in an order.
fn renumbered(places: &[Option<CoupleNo>], applicant: AppNo, agent: Agent) -> Agent
    ensures { result ≡ renumbered places.now applicant agent }
{
    match agent {
        Agent::Single(_) => Agent::Single(applicant),
        Agent::Couple(couple) => {
            agent_by_place(applicant, places.get(couple.index()).copied().flatten())
        }
    }
}

/// The agent of each applicant, once the couples of an order are numbered by it.
pub(crate) fn renumbered_agents(
    alloc: Global,
    roster: &Roster,
    order: &[CoupleNo],
) -> Result<Vec<Agent>, AllocError>
    requires few { length order.now < 2 ^ 32 }
    requires within { All (λ c. c < length roster.now.market.couples) order.now }
    ensures { IfOk result (λ agents.
        agents.items ≡ map (renumbered_agent roster.now.market order.now) (below (applicants roster.now.market))) }
{
    let places = places(alloc, roster.couples(), order)?;
    let mut agents = Vec::with_capacity(alloc, roster.applicants() as usize)?;
    for number in 0..roster.applicants() {
        let applicant = AppNo(number);
        agents.push(renumbered(&places, applicant, roster.agent_of(applicant)))?;
    }
    Ok(agents)
}

/// The agent of each applicant.
pub(crate) fn agents(alloc: Global, roster: &Roster) -> Result<Vec<Agent>, AllocError>
    ensures { IfOk result (λ agents.
        agents.items ≡ map (agent_of roster.now.market) (below (applicants roster.now.market))) }
{
    let mut agents = Vec::with_capacity(alloc, roster.applicants() as usize)?;
    for number in 0..roster.applicants() {
        agents.push(roster.agent_of(AppNo(number)))?;
    }
    Ok(agents)
}
