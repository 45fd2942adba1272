//! Records whose lists are not yet looked up: `specs/` says which have no fault, and which stay after withdrawals.
#![tactic(auto)]
