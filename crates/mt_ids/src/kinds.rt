ghost use Rattle.std.specs.Prelude.{◌≡◌, true, false, not, [], OnOk, IfOk};
ghost use Rattle.mt_terms.specs.Registration.Ids.{has_id};
ghost use Rattle.mt_ids.specs.Kinds.{ids_in, kind_seen, AddsId};

use crate::id_table::IdTable;
use crate::seed::Seed;
use std::alloc::{AllocError, Global};

/// What is registered under an id of its own.
#[derive(Clone, Copy, PartialEq, Eq)]
pub enum Kind {
    Program,
    Applicant,
    Couple,
}

/// Ids of each kind.
pub struct Kinds<'a> {
    pub programs: IdTable<'a>,
    pub applicants: IdTable<'a>,
    pub couples: IdTable<'a>,
}

impl Drop for Kinds<'_> {
    fn drop(self) {
        let Kinds {
            programs: _,
            applicants: _,
            couples: _,
        } = self;
    }
}

impl<'a> Kinds<'a> {
    /// No ids. The tables will hash by this seed.
    pub fn new(alloc: Global, seed: Seed) -> Self
        ensures programs { result.programs ≡ [] }
        ensures applicants { result.applicants ≡ [] }
        ensures couples { result.couples ≡ [] }
    {
        Kinds {
            programs: IdTable::new(alloc, seed),
            applicants: IdTable::new(alloc, seed),
            couples: IdTable::new(alloc, seed),
        }
    }

    /// The ids of a kind.
    pub fn of(&self, kind: Kind) -> &IdTable<'a>
        ensures { result.now ≡ ids_in self.now (kind_seen kind) }
    {
        match kind {
            Kind::Program => &self.programs,
            Kind::Applicant => &self.applicants,
            Kind::Couple => &self.couples,
        }
    }

    /// Adds an id, if it is none of its kind, and says whether it did so. The error is want of memory.
    pub fn add(&mut self, kind: Kind, id: &'a [u8]) -> Result<bool, AllocError>
        ensures added { IfOk result
            (λ added. added ≡ not (has_id (ids_in self.old (kind_seen kind)) id.now)) }
        ensures ids { IfOk result
            (λ added. added ≡ true → AddsId self.old self.new (kind_seen kind) id.now) }
    {
        match kind {
            Kind::Program => self.programs.add(id),
            Kind::Applicant => self.applicants.add(id),
            Kind::Couple => self.couples.add(id),
        }
    }

    /// Adds an id that is none of its kind. The error is want of memory.
    pub fn push(&mut self, kind: Kind, id: &'a [u8]) -> Result<(), AllocError>
        requires { has_id (ids_in self.old (kind_seen kind)) id.now ≡ false }
        ensures { OnOk result (AddsId self.old self.new (kind_seen kind) id.now) }
    {
        match kind {
            Kind::Program => self.programs.push(id),
            Kind::Applicant => self.applicants.push(id),
            Kind::Couple => self.couples.push(id),
        }
    }
}
