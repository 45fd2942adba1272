//! Tests of what is between bytes and a market, and between a match and its text, by public calls alone.
#![tactic(auto)]

#[cfg(test)]
mod all_faults;
#[cfg(test)]
mod command_line;
#[cfg(test)]
mod expect;
#[cfg(test)]
mod id_tables;
#[cfg(test)]
mod lines;
#[cfg(test)]
mod reading;
#[cfg(test)]
mod registration;
#[cfg(test)]
mod seeds;
#[cfg(test)]
mod text;
#[cfg(test)]
mod writing;
