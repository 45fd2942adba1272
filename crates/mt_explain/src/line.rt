ghost use Rattle.std.specs.Prelude.{◌≡◌};
ghost use Rattle.mt_explain.specs.Lines.{why};

use mt_terms::{AppNo, ProgNo};
use mt_verify::Prospect;

/// Why a program would take a member that an option sends there, or wouldn't.
#[derive(Clone, Copy, Debug, PartialEq, Eq)]
pub enum Why {
    /// The program doesn't list the member.
    Unlisted,
    /// As many as the program has posts, or more, are placed there and ahead of the member.
    Full,
    /// The program has a post for the member.
    Open,
}

/// What is said of one place that an option names.
#[derive(Clone, Copy, Debug, PartialEq, Eq)]
pub struct Line {
    /// The option's place on the agent's list, from 0.
    pub option: u32,
    /// The program that the option names.
    pub program: ProgNo,
    /// The applicant that would go there.
    pub member: AppNo,
    /// How many posts the program has.
    pub quota: u32,
    /// The member's rank there and how many are ahead, once the agent's members are where the option sends them. None
    /// if the program doesn't list the member.
    pub prospect: Option<Prospect>,
}

impl Line {
    /// Why the program would take the member, or wouldn't.
    pub fn why(&self) -> Why
        ensures { result ≡ why self.now.quota self.now.prospect }
    {
        match self.prospect {
            None => Why::Unlisted,
            Some(prospect) if prospect.ahead < self.quota => Why::Open,
            Some(_) => Why::Full,
        }
    }
}
