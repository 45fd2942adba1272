//! Laws of the definitions: each is the contract of a function that does nothing.

pub use mt_applicant_laws::{
    longer_list_keeps_best, more_posts_hurt_none, none_gains_by_another_list,
    shorter_list_hurts_no_other,
};
pub use mt_budget_laws::{
    premises_of_rounds, returning_in_examples, returning_never_ends, returning_stage_never_ends,
    stage_rounds,
};
pub use mt_file_laws::{
    accepted_is_registration, fault_codes, fault_ids, refusal_is_one_record, versions_agree,
};
pub use mt_floor_laws::{
    best_exists, due_at_most, due_proposals_are_made, event_due, event_keeps_legal,
    event_keeps_recorded, event_keeps_strict, event_not_due, events_keep_legal,
    events_keep_recorded, events_keep_strict, legal_best, legal_from_passed, live_market_agrees,
    made_at_most, opening_is_strict, order_free, quiet_counts, quiet_is_reached, result_of_floor,
    rural, strict_best,
};
pub use mt_round_laws::{
    first_couple_waits, last_list_is_stable, next_couple_waits, round_fits, round_keeps,
    stage_fits, stage_is_stable,
};
pub use mt_stability_laws::{
    best_is_at_least, best_is_unique, choice_in_words, chosen_for_two_posts, excluded_in_chain,
    exclusion, exclusion_by_quota, growing_choice, half_pair_taken, never_twice_at_one,
    none_comes_back, pair_taken, same_program_taken, single_taken, stability_of_singles,
    taken_in_examples, well_formed_test,
};
pub use mt_verdict_laws::{stability_by_pairs, stable_verdict, verdict_in_words};
