ghost use Rattle.std.specs.Prelude.{◌≡◌, ◌==◌, [], OnOk};
ghost use Rattle.std.specs.List.Sorted.{IsStrictlySortedBy};
ghost use Rattle.std.specs.Ordering.{nat_cmp};
ghost use Rattle.mt_stage_tables.specs.Programs.{Adds};

use mt_terms::ProgNo;
use std::alloc::{AllocError, Global};
use std::marker::Model;

/// A few programs, by number, each once.
#[derive(Drop)]
pub struct ProgramSet {
    programs: Vec<ProgNo>,
}

impl Model for ProgramSet {
    ghost use Rattle.std.specs.Prelude.{List, ℕ};

    ghost Value = { List ℕ };

    ghost use Rattle.mt_stage_tables.specs.View.{programs_in, AreInOrder};

    ghost view = { programs_in };

    ghost invariant = { AreInOrder };
}

impl ProgramSet {
    /// No programs.
    pub fn new(alloc: Global) -> Self
        ensures { result ≡ [] }
    {
        ProgramSet {
            programs: Vec::new(alloc),
        }
    }

    /// Adds a program, unless it is there.
    pub fn insert(&mut self, program: ProgNo) -> Result<(), AllocError>
        ensures { OnOk result (Adds self.old self.new (λ p. program == p)) }
    {
        if self.programs.contains(&program) {
            return Ok(());
        }
        let place = self.programs.partition_point(|other| other.0 < program.0);
        self.programs.insert(place, program)?;
        Ok(())
    }

    /// The programs by number.
    pub fn into_vec(self) -> Vec<ProgNo>
        ensures programs { result.items ≡ self }
        ensures sorted { IsStrictlySortedBy nat_cmp result.items }
    {
        self.programs
    }
}
