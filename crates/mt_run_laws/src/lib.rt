//! What a run answers to bytes, and laws of that answer: each is the contract of a function that does nothing.
#![tactic(auto)]

mod laws;

pub use laws::{
    one_answer, one_answer_in, one_way_is_answer, program_optimal_is_no_answer,
    published_in_is_stable, published_is_no_refusal, published_is_stable, refusal_is_one_record,
};
