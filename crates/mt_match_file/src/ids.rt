ghost use Rattle.std.specs.Prelude.{◌≡◌, ◌<◌, position, bytes_eq, IfOk};
ghost use Rattle.mt_terms.specs.Registration.Accepted.{IsRegistration};
ghost use Rattle.mt_match_file.specs.Agents.{agent_named};
ghost use Rattle.mt_match_file.specs.Submitted.{place_named};
ghost use Rattle.mt_ids.specs.Seeds.{seed_of};

use mt_ids::{IdTable, Seed, add_field, is_dash};
use mt_market::Roster;
use mt_terms::{Agent, AppNo, CoupleNo, ProgNo};
use std::alloc::{AllocError, Global};
use std::hash::DefaultHasher;

/// The seed of a table of the programs' ids.
fn programs_seed(roster: &Roster) -> Seed
    ensures { result ≡ seed_of roster.now.names.programs }
{
    let mut digest = DefaultHasher::new();
    for number in 0..roster.programs() {
        add_field(&mut digest, roster.program_id(ProgNo(number)));
    }
    Seed::of(&digest)
}

/// The seed of a table of the applicants' ids.
fn applicants_seed(roster: &Roster) -> Seed
    ensures { result ≡ seed_of roster.now.names.applicants }
{
    let mut digest = DefaultHasher::new();
    for number in 0..roster.applicants() {
        add_field(&mut digest, roster.applicant_id(AppNo(number)));
    }
    Seed::of(&digest)
}

/// The seed of a table of the couples' ids.
fn couples_seed(roster: &Roster) -> Seed
    ensures { result ≡ seed_of roster.now.names.couples }
{
    let mut digest = DefaultHasher::new();
    for number in 0..roster.couples() {
        add_field(&mut digest, roster.couple_id(CoupleNo(number)));
    }
    Seed::of(&digest)
}

/// The ids of the programs of a market, in order of registration. The error is want of memory.
fn program_ids(alloc: Global, roster: &Roster) -> Result<IdTable<'_>, AllocError>
    ensures { IfOk result (λ table. table ≡ roster.entry.now.names.programs) }
{
    let mut table = IdTable::with_capacity(
        alloc,
        roster.programs() as usize,
        programs_seed(roster),
    )?;
    for number in 0..roster.programs() {
        table.push(roster.program_id(ProgNo(number)))?;
    }
    Ok(table)
}

/// The ids of the applicants of a market, in order of registration. The error is want of memory.
fn applicant_ids(alloc: Global, roster: &Roster) -> Result<IdTable<'_>, AllocError>
    ensures { IfOk result (λ table. table ≡ roster.entry.now.names.applicants) }
{
    let mut table = IdTable::with_capacity(
        alloc,
        roster.applicants() as usize,
        applicants_seed(roster),
    )?;
    for number in 0..roster.applicants() {
        table.push(roster.applicant_id(AppNo(number)))?;
    }
    Ok(table)
}

/// The ids of the couples of a market, in order of registration. The error is want of memory.
fn couple_ids(alloc: Global, roster: &Roster) -> Result<IdTable<'_>, AllocError>
    ensures { IfOk result (λ table. table ≡ roster.entry.now.names.couples) }
{
    let mut table = IdTable::with_capacity(alloc, roster.couples() as usize, couples_seed(roster))?;
    for number in 0..roster.couples() {
        table.push(roster.couple_id(CoupleNo(number)))?;
    }
    Ok(table)
}

/// A market with its ids, by which its programs, applicants and couples are found.
pub(crate) struct Ids<'a> {
    roster: &'a Roster,
    programs: IdTable<'a>,
    applicants: IdTable<'a>,
    couples: IdTable<'a>,
    pub ghost of_a_file: { IsRegistration roster.now },
    pub ghost of_programs: { programs ≡ roster.now.names.programs },
    pub ghost of_applicants: { applicants ≡ roster.now.names.applicants },
    pub ghost of_couples: { couples ≡ roster.now.names.couples },
}

impl Drop for Ids<'_> {
    fn drop(self) {
        let Ids {
            roster: _,
            programs: _,
            applicants: _,
            couples: _,
        } = self;
    }
}

impl<'a> Ids<'a> {
    ghost use Rattle.mt_match_file.specs.View.{market_of};

    /// The ids of a market.
    pub(crate) fn of(alloc: Global, roster: &'a Roster) -> Result<Self, AllocError>
        ensures { IfOk result (λ ids. market_of ids ≡ roster.entry.now) }
    {
        roster.is_of_a_file();
        Ok(Ids {
            roster,
            programs: program_ids(alloc, roster)?,
            applicants: applicant_ids(alloc, roster)?,
            couples: couple_ids(alloc, roster)?,
        })
    }

    /// The market.
    pub(crate) fn roster(&self) -> &'a Roster
        ensures { result.now ≡ market_of self.now }
    {
        self.roster
    }

    /// The applicant with an id.
    pub(crate) fn applicant(&self, id: &[u8]) -> Option<AppNo>
        ensures { result ≡ position (bytes_eq id.now) (market_of self.now).names.applicants }
    {
        let number = self.applicants.number(id)?;
        Some(AppNo(number as u32))
    }

    /// The program with an id.
    pub(crate) fn program(&self, id: &[u8]) -> Option<ProgNo>
        ensures { result ≡ position (bytes_eq id.now) (market_of self.now).names.programs }
    {
        let number = self.programs.number(id)?;
        Some(ProgNo(number as u32))
    }

    /// The couple with an id.
    pub(crate) fn couple(&self, id: &[u8]) -> Option<CoupleNo>
        ensures { result ≡ position (bytes_eq id.now) (market_of self.now).names.couples }
    {
        let number = self.couples.number(id)?;
        Some(CoupleNo(number as u32))
    }

    /// The agent with an id: that of the applicant with it, or else the couple with it.
    pub(crate) fn agent(&self, id: &[u8]) -> Option<Agent>
        ensures { result ≡ agent_named (market_of self.now) id.now }
    {
        match self.applicant(id) {
            Some(applicant) => Some(self.roster.agent_of(applicant)),
            None => self.couple(id).map(Agent::Couple),
        }
    }

    /// The place that a field names: a program by its id, or none by `-`.
    pub(crate) fn place(&self, field: &[u8]) -> Option<Option<ProgNo>>
        ensures { result ≡ place_named (market_of self.now).names.programs field.now }
    {
        if is_dash(field) {
            return Some(None);
        }
        let program = self.program(field)?;
        Some(Some(program))
    }
}
