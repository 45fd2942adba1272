//! What the definitions give on small markets. Each function does nothing. Its contract is the example.

mod events;
mod registration;
mod rounds;
mod stability;
mod text;

pub use events::proposals_in_two_orders;
pub use registration::{
    names_that_nobody_registers, records_that_cannot_be_read, records_that_do_not_go_together,
    registered_files, withdrawn_rows,
};
pub use rounds::{
    rounds_of_half_pair, rounds_of_own_seat, rounds_of_partner, rounds_of_same_program,
    rounds_of_three_couples, rounds_of_unstable,
};
pub use stability::{
    all_well_formed, closed_program, couple_shut_out, crossed_wishes, none_stable, one_sided,
    own_seat, rejection_chain, single_between, two_posts,
};
pub use text::{crossed_text, refusal_lines, single_between_text, two_posts_text};
