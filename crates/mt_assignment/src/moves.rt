ghost use Rattle.std.specs.Prelude.{◌≡◌, ◌<◌, IfOk, OnOk};
ghost use Rattle.mt_terms.specs.Market.{applicants};
ghost use Rattle.mt_terms.specs.declared.numbers.Agent.{Agent};
ghost use Rattle.mt_terms.specs.Rounds.{displaced, programs_sent_to};
ghost use Rattle.mt_stage_tables.specs.Programs.{Adds};
ghost use Rattle.mt_assignment.specs.Assigned.{AreApplicantsOf, AreProgramsOf, AreSent, AreSentToLists};
ghost use Rattle.mt_assignment.specs.Moves.{any_kept, displaced_by, is_kept, left_by, moved, movers_leave, seated, without_agents, IsTaking};

use crate::assignment::Assignment;
use mt_stage_tables::ProgramSet;
use mt_terms::{Agent, AppNo, ProgNo};
use std::alloc::{AllocError, Global};

/// What a move changes besides the places of the agent that moves.
#[derive(Drop)]
pub struct Moved {
    /// The applicants that are displaced: by the option's programs in order, and in a program by its list.
    pub displaced: Vec<AppNo>,
    /// The programs that somebody left without being displaced there, by number.
    pub left: Vec<ProgNo>,
}

impl<'a> Assignment<'a> {
    /// Sends each applicant to its place.
    pub(crate) fn send(&mut self, sent: &[(AppNo, Option<ProgNo>)]) -> Result<(), AllocError>
        requires sent { AreSent self.old.market sent.now }
        requires programs { AreProgramsOf self.old.market (programs_sent_to sent.now) }
        requires listed { AreSentToLists self.old.market sent.now }
        ensures { OnOk result (self.new ≡ seated self.old sent.now) }
    {
        for (applicant, place) in sent {
            self.unplace(*applicant);
            if let Some(program) = place {
                self.put(*applicant, *program)?;
            }
        }
        Ok(())
    }

    /// The applicants that the programs of a placement don't choose: by its programs in order, and in a
    /// program by its list.
    pub(crate) fn displaced(
        &self,
        alloc: Global,
        sent: &[(AppNo, Option<ProgNo>)],
    ) -> Result<Vec<AppNo>, AllocError>
        requires { AreProgramsOf self.now.market (programs_sent_to sent.now) }
        ensures { IfOk result (λ v. v.items ≡ displaced self.now.market self.now.places sent.now) }
    {
        let mut displaced = Vec::new(alloc);
        for (_, place) in sent {
            if let Some(program) = place {
                self.add_displaced(*program, &mut displaced)?;
            }
        }
        Ok(displaced)
    }

    /// Unplaces all members of the agents of these applicants.
    pub(crate) fn take_out(&mut self, displaced: &[AppNo])
        requires { AreApplicantsOf self.old.market displaced.now }
        ensures { self.new ≡ without_agents self.old displaced.now }
    {
        for applicant in displaced {
            match self.agent_of(*applicant) {
                Agent::Single(single) => self.unplace(single),
                Agent::Couple(couple) => {
                    let (first, second) = self.members(couple);
                    self.unplace(first);
                    self.unplace(second);
                }
            }
        }
    }

    /// Adds the programs that are left by applicants which are sent elsewhere.
    pub(crate) fn add_left_by_movers(
        &self,
        sent: &[(AppNo, Option<ProgNo>)],
        left: &mut ProgramSet,
    ) -> Result<(), AllocError>
        ensures { OnOk result (Adds left.old left.new (movers_leave self.now sent.now)) }
    {
        for seat in sent {
            let place = self.place(seat.0);
            if let Some(program) = place {
                if seat.1 != place {
                    left.insert(program)?;
                }
            }
        }
        Ok(())
    }

    /// Adds the program where the applicant is, if the program chooses it.
    fn add_kept(&self, applicant: AppNo, left: &mut ProgramSet) -> Result<(), AllocError>
        requires { applicant < applicants self.now.market }
        ensures { OnOk result (Adds left.old left.new (is_kept self.now applicant)) }
    {
        if let Some(program) = self.place(applicant) {
            if self.is_kept(program, applicant) {
                left.insert(program)?;
            }
        }
        Ok(())
    }

    /// Adds the programs that members of the agents of these applicants are at, if they are chosen there.
    pub(crate) fn add_left_by_partners(
        &self,
        displaced: &[AppNo],
        left: &mut ProgramSet,
    ) -> Result<(), AllocError>
        requires { AreApplicantsOf self.now.market displaced.now }
        ensures { OnOk result (Adds left.old left.new (any_kept self.now displaced.now)) }
    {
        for applicant in displaced {
            match self.agent_of(*applicant) {
                Agent::Single(single) => self.add_kept(single, left)?,
                Agent::Couple(couple) => {
                    let (first, second) = self.members(couple);
                    self.add_kept(first, left)?;
                    self.add_kept(second, left)?;
                }
            }
        }
        Ok(())
    }

    /// Sends each applicant to its place, as an agent's option says that would be taken. It takes out the agents of
    /// those that are displaced by it (Roth and Peranson 1999). The error is want of memory, and some may have been
    /// sent then.
    pub fn move_to(
        &mut self,
        alloc: Global,
        sent: &[(AppNo, Option<ProgNo>)],
    ) -> Result<Moved, AllocError>
        requires { (g : Agent) × IsTaking self.old.market self.old.places g sent.now }
        ensures places { OnOk result (self.new ≡ moved self.old sent.now) }
        ensures displaced { IfOk result (λ r. r.displaced.items ≡ displaced_by self.old sent.now) }
        ensures left { IfOk result (λ r. r.left.items ≡ left_by self.old sent.now) }
    {
        let mut left = ProgramSet::new(alloc);
        self.add_left_by_movers(sent, &mut left)?;
        self.send(sent)?;
        let displaced = self.displaced(alloc, sent)?;
        self.add_left_by_partners(&displaced, &mut left)?;
        self.take_out(&displaced);
        Ok(Moved {
            displaced,
            left: left.into_vec(),
        })
    }
}
