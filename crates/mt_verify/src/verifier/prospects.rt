ghost use Rattle.std.specs.Prelude.{◌≡◌, ◌≢◌, ◌<◌, length, Some};
ghost use Rattle.mt_terms.specs.Market.{applicants};
ghost use Rattle.mt_terms.specs.Matching.{couple_placement, send, single_placement};
ghost use Rattle.mt_verify.specs.Prospects.{prospect};
ghost use Rattle.mt_verify.specs.View.{judged};

use crate::prospect::Prospect;
use crate::verifier::Verifier;
use mt_terms::{AppNo, ProgNo};

impl Verifier<'_> {
    /// How a single would fare at a program that it is sent to, or none if the program doesn't list it.
    pub(crate) fn single_prospect(&self, applicant: AppNo, program: ProgNo) -> Option<Prospect>
        requires applicant { applicant < applicants (judged self.now).registered.market }
        requires program { program < length (judged self.now).registered.market.programs }
        ensures { let j = judged self.now in
            result ≡ prospect j.registered.market (send (single_placement applicant program) j.places) program applicant }
    {
        let rank = self.rank(program, applicant)?;
        let ahead = self.count_above(program, rank) as u32;
        Some(Prospect { rank, ahead })
    }

    /// How a couple's member would fare at a program that it is sent to, its partner sent to a place of its own. None
    /// if the program doesn't list the member.
    pub(crate) fn member_prospect(
        &self,
        member: AppNo,
        program: ProgNo,
        partner: AppNo,
        partner_place: Option<ProgNo>,
    ) -> Option<Prospect>
        requires member { member < applicants (judged self.now).registered.market }
        requires program { program < length (judged self.now).registered.market.programs }
        requires partner { partner < applicants (judged self.now).registered.market }
        requires apart { member ≢ partner }
        ensures { let j = judged self.now in let sent = couple_placement member partner (Some program, partner_place) in
            result ≡ prospect j.registered.market (send sent j.places) program member }
    {
        let rank = self.rank(program, member)?;
        let ahead = self.count_above_moved(program, rank, partner, partner_place) as u32;
        Some(Prospect { rank, ahead })
    }
}
