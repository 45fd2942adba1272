//! Tests of the judge, of the couples' rounds, of what threads share and of whole runs, by public calls alone.
#![tactic(auto)]

#[cfg(test)]
mod beside;
#[cfg(test)]
mod expect;
#[cfg(test)]
mod finding;
#[cfg(test)]
mod onward;
#[cfg(test)]
mod orders;
#[cfg(test)]
mod parallel;
#[cfg(test)]
mod plain;
#[cfg(test)]
mod rounds;
#[cfg(test)]
mod runs;
#[cfg(test)]
mod verdicts;
#[cfg(test)]
mod worked;
