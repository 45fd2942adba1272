ghost use Rattle.mt_round_laws.specs.Rounds.{FirstCoupleWaits, NextCoupleWaits, LastListIsStable, RoundKeeps, RoundFits, StageIsStable, StageFits};

/// After the best match of the singles, the first couple waits in the state that a round keeps.
pub fn first_couple_waits()
    ensures { FirstCoupleWaits }
{}

/// Once the list of a couple is empty, the next couple waits in that state.
pub fn next_couple_waits()
    ensures { NextCoupleWaits }
{}

/// Once the list of the last couple is empty, the match is stable.
pub fn last_list_is_stable()
    ensures { LastListIsStable }
{}

/// A round keeps its state. The match fits, and the work list has agents of the market that have entered. No couple
/// that has not entered is placed. No entered agent that is not on the work list blocks.
pub fn round_keeps()
    ensures { RoundKeeps }
{}

/// From any match that fits, a round keeps a match that fits, and a work list of agents of the market.
pub fn round_fits()
    ensures { RoundFits }
{}

/// Whatever a stage ends in, from the best match of the singles, is stable.
pub fn stage_is_stable()
    ensures { StageIsStable }
{}

/// Whatever a stage ends in, from any match that fits, fits.
pub fn stage_fits()
    ensures { StageFits }
{}
