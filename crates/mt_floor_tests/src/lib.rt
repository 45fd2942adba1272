//! Tests of what matches the singles, from rank tables to workers, by public calls alone.
#![tactic(auto)]

#[cfg(test)]
mod crew;
#[cfg(test)]
mod dealing;
#[cfg(test)]
mod expect;
#[cfg(test)]
mod floor;
#[cfg(test)]
mod hall;
#[cfg(test)]
mod holding;
#[cfg(test)]
mod hundred;
#[cfg(test)]
mod parts;
#[cfg(test)]
mod tables;
