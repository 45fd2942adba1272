ghost use Rattle.std.specs.Prelude.{◌≡◌};
ghost use Rattle.mt_desks.specs.Parts.{IsDesk};

use crate::name::HallName;
use mt_tally::DeskShare;
use mt_terms::AppNo;
use std::marker::Model;

/// The desk of an applicant. It has how many proposals the applicant has made, and whether the applicant believes
/// that the last one is held. It has a credit for each live entry that is left.
pub struct Desk<K: HallName> {
    pub(crate) applicant: AppNo,
    pub(crate) made: u32,
    pub(crate) standing: bool,
    pub(crate) credits: DeskShare<K>,
}

impl<K: HallName> Model for Desk<K> {
    ghost use Rattle.mt_desks.specs.Parts.{DeskView, IsDesk};

    ghost Value = { DeskView };

    ghost view = { λ d. record {
      applicant = d.applicant;
      made = d.made;
      standing = d.standing;
      credits = d.credits;
    } };

    ghost invariant = { λ d. IsDesk K.ranked.market (record {
      applicant = d.applicant;
      made = d.made;
      standing = d.standing;
      credits = d.credits;
    }) };
}

impl<K: HallName> Desk<K> {
    /// Whose desk it is.
    pub fn applicant(&self) -> AppNo
        ensures { result ≡ self.now.applicant }
    {
        self.applicant
    }

    /// How many programs of its live list the applicant has proposed to.
    pub fn made(&self) -> u32
        ensures made { result ≡ self.now.made }
        ensures keeps { IsDesk K.ranked.market self.now }
    {
        self.made
    }

    /// Whether the applicant stands: it believes that the program to which it proposed last holds it.
    pub fn standing(&self) -> bool
        ensures { result ≡ self.now.standing }
    {
        self.standing
    }

    /// Ends the desk, and gives its share of credits.
    pub fn into_credits(self) -> DeskShare<K>
        ensures { result ≡ self.credits }
    {
        let Desk {
            applicant: _,
            made: _,
            standing: _,
            credits,
        } = self;
        credits
    }
}
