ghost use Rattle.std.specs.Prelude.{◌≡◌, ◌++◌, [], IfNone, IfOk, IfSome, OnOk, length};
ghost use Rattle.mt_terms.specs.Rounds.{is_on, joined};
ghost use Rattle.mt_stage_tables.specs.Flags.{flagged, is_flagged, no_flags};
ghost use Rattle.mt_stage_tables.specs.Waiting.{nobody, waiting_first, with_agents, IsKnown, IsWithin};

use mt_terms::Agent;
use std::alloc::{AllocError, Global};
use std::collections::VecDeque;
use std::marker::Model;

/// A flag for each applicant and for each couple.
struct AgentFlags {
    applicants: Vec<bool>,
    couples: Vec<bool>,
}

impl Drop for AgentFlags {
    fn drop(self) {
        let AgentFlags {
            applicants: _,
            couples: _,
        } = self;
    }
}

impl Model for AgentFlags {
    ghost use Rattle.mt_stage_tables.specs.Flags.{Flags};

    ghost Value = { Flags };

    ghost use Rattle.mt_stage_tables.specs.View.{flags_in};

    ghost view = { flags_in };
}

impl AgentFlags {
    /// Flags of which none is set. The error is want of memory.
    fn new(alloc: Global, applicants: u32, couples: u32) -> Result<Self, AllocError>
        ensures { IfOk result (λ f. f ≡ no_flags applicants couples) }
    {
        Ok(AgentFlags {
            applicants: vec![in alloc; false; applicants as usize]?,
            couples: vec![in alloc; false; couples as usize]?,
        })
    }

    /// Whether the agent's flag is set. An agent without a flag counts as one whose flag isn't set.
    fn get(&self, agent: &Agent) -> bool
        ensures { result ≡ is_flagged self.now agent.now }
    {
        let flag = match agent {
            Agent::Single(applicant) => self.applicants.get(applicant.index()),
            Agent::Couple(couple) => self.couples.get(couple.index()),
        };
        flag.copied().unwrap_or(false)
    }

    /// Sets or clears the agent's flag.
    fn set(&mut self, agent: &Agent, flag: bool)
        requires { IsWithin (length self.old.applicants) (length self.old.couples) agent.now }
        ensures { self.new ≡ flagged self.old agent.now flag }
    {
        match agent {
            Agent::Single(applicant) => self.applicants[applicant.index()] = flag,
            Agent::Couple(couple) => self.couples[couple.index()] = flag,
        }
    }
}

/// The agents that are to be rechecked, first in first out, each at most once.
///
/// A file's author chooses who waits, and could make a search of the queue slow. So each agent has a flag that says whether
/// it waits. The queue grows as agents join, since few wait mostly.
pub struct WorkList {
    /// The agents that wait, in order.
    agents: VecDeque<Agent>,
    /// Which agents wait.
    flags: AgentFlags,
}

impl Drop for WorkList {
    fn drop(self) {
        let WorkList {
            agents: _,
            flags: _,
        } = self;
    }
}

impl Model for WorkList {
    ghost use Rattle.mt_stage_tables.specs.Waiting.{waiting_first, Waiting};

    ghost Value = { Waiting };

    ghost use Rattle.mt_stage_tables.specs.View.{waiting_in, IsWorkList};

    ghost view = { waiting_in };

    ghost invariant = { λ w. IsWorkList w.flags w.agents.items };
}

impl WorkList {
    /// An empty work list for this many applicants and couples. The error is want of memory.
    pub fn new(alloc: Global, applicants: u32, couples: u32) -> Result<Self, AllocError>
        ensures { IfOk result (λ w. w ≡ nobody applicants couples) }
    {
        Ok(WorkList {
            agents: VecDeque::new(alloc),
            flags: AgentFlags::new(alloc, applicants, couples)?,
        })
    }

    /// Whether the agent waits.
    pub fn is_waiting(&self, agent: &Agent) -> bool
        ensures { result ≡ is_on self.now.agents agent.now }
    {
        self.flags.get(agent)
    }

    /// The agents that wait, in order, in two parts.
    pub fn parts(&self) -> (&[Agent], &[Agent])
        ensures { self.now.agents ≡ result.0.now ++ result.1.now }
    {
        self.agents.as_slices()
    }

    /// Takes the agent at the front. There is none if nobody waits.
    pub fn take(&mut self) -> Option<Agent>
        ensures taken { IfSome result (λ g. self.old ≡ waiting_first g self.new) }
        ensures empty { IfNone result (self.old.agents ≡ []) }
        ensures still_empty { IfNone result (self.new ≡ self.old) }
    {
        let agent = self.agents.pop_front()?;
        self.flags.set(&agent, false);
        Some(agent)
    }

    /// Puts the agent at the end, unless it waits already. The error is want of memory.
    pub fn join(&mut self, agent: Agent) -> Result<(), AllocError>
        requires { IsKnown self.old agent }
        ensures { OnOk result (self.new ≡ with_agents self.old (joined self.old.agents agent)) }
    {
        if !self.is_waiting(&agent) {
            self.agents.push_back(agent)?;
            self.flags.set(&agent, true);
        }
        Ok(())
    }
}
