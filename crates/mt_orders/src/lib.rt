//! The couples enter in other orders, one after another, or without some that are set aside.
#![tactic(auto)]

mod fewest;
mod laws;
mod numbered;
mod tried;
mod without;

pub use fewest::enter_aside_in_orders;
pub use laws::{fewest_in_words, one_order_aside, ranks_in_any_order};
pub use numbered::order_of;
pub use tried::{Tries, enter_in_orders};
pub use without::Aside;
