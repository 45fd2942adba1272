//! Files with the text that is published for each, and their markets.

use mt_lists::{ListFault, records};
use mt_roster::{Roster, RosterError, roster};
use std::alloc::{AllocError, Global};
use std::thread::Threads;
use thiserror::Error;

/// Two programs with one post each, each of which wants the applicant who wants the other one more. Of the two
/// stable matches the applicants prefer this one.
pub const CROSSED: &[u8] = b"match,1\n\
    program,P1,1,a2,a1\n\
    program,P2,1,a1,a2\n\
    applicant,a1,P1,P2\n\
    applicant,a2,P2,P1\n";

pub const CROSSED_TEXT: &[u8] = b"match,1,published\n\
    applicant,a1,P1\n\
    applicant,a2,P2\n\
    program,P1,1,1,1\n\
    program,P2,1,1,1\n\
    totals,2,0,2,0\n";

/// A third applicant starts a chain of rejections, and ends without a place. The applicants a1, a2 and a3 have the
/// numbers 0, 1 and 2. The programs P1 and P2 have 0 and 1.
pub const CHAIN: &[u8] = b"match,1\n\
    program,P1,1,a2,a3,a1\n\
    program,P2,1,a1,a2\n\
    applicant,a1,P1,P2\n\
    applicant,a2,P2,P1\n\
    applicant,a3,P1\n";

pub const CHAIN_TEXT: &[u8] = b"match,1,published\n\
    applicant,a1,P2\n\
    applicant,a2,P1\n\
    applicant,a3,-\n\
    program,P1,1,1,3\n\
    program,P2,1,1,2\n\
    totals,3,1,2,0\n";

/// A couple wants both posts of a program, which wants the single between the members. The applicants s, a and b have
/// the numbers 0, 1 and 2.
pub const BETWEEN: &[u8] = b"match,1\n\
    program,x,2,a,s,b\n\
    applicant,s,x\n\
    couple,c,a,b,x,x\n";

pub const BETWEEN_TEXT: &[u8] = b"match,1,published\n\
    applicant,s,x\n\
    applicant,a,-\n\
    applicant,b,-\n\
    program,x,2,1,1\n\
    totals,3,2,2,1\n";

/// With whole pairs alone this market has no stable match. The couple ends with its first member placed and its
/// second one unplaced.
pub const HALF_PAIR: &[u8] = b"match,2\n\
    program,x,1,a,s\n\
    program,y,1,s,b\n\
    applicant,s,x,y\n\
    couple,c,a,b,x,y,x,-\n";

pub const HALF_PAIR_TEXT: &[u8] = b"match,1,published\n\
    applicant,s,y\n\
    applicant,a,x\n\
    applicant,b,-\n\
    program,x,1,1,1\n\
    program,y,1,1,0\n\
    totals,3,1,2,0\n";

/// The second couple makes do with its second pair until the third couple drives the first one out.
pub const THREE_COUPLES: &[u8] = b"match,1\n\
    program,p,1,d1,a1\n\
    program,q,1,a2\n\
    program,r,1,e1,d2\n\
    program,t,1,e2\n\
    program,u,1,a1\n\
    program,v,1,a2\n\
    couple,D,d1,d2,p,r\n\
    couple,A,a1,a2,p,q,u,v\n\
    couple,E,e1,e2,r,t\n";

pub const THREE_COUPLES_TEXT: &[u8] = b"match,1,published\n\
    applicant,d1,-\n\
    applicant,d2,-\n\
    applicant,a1,p\n\
    applicant,a2,q\n\
    applicant,e1,r\n\
    applicant,e2,t\n\
    program,p,1,1,0\n\
    program,q,1,1,0\n\
    program,r,1,1,0\n\
    program,t,1,1,0\n\
    program,u,1,0,0\n\
    program,v,1,0,0\n\
    totals,6,2,6,2\n";

/// A couple takes both posts of a program, and is driven out by another one, which leaves one of them to the single.
pub const TWO_COUPLES: &[u8] = b"match,1\n\
    program,x,2,c,e1,d,s\n\
    program,z,1,e2\n\
    applicant,s,x\n\
    couple,D,c,d,x,x\n\
    couple,E,e1,e2,x,z\n";

pub const TWO_COUPLES_TEXT: &[u8] = b"match,1,published\n\
    applicant,s,x\n\
    applicant,c,-\n\
    applicant,d,-\n\
    applicant,e1,x\n\
    applicant,e2,z\n\
    program,x,2,2,1\n\
    program,z,1,1,0\n\
    totals,5,2,3,0\n";

/// The text of the match in which the second couple is set aside.
pub const ONE_ASIDE_TEXT: &[u8] = b"match,2,published\n\
    applicant,s,-\n\
    applicant,c,x\n\
    applicant,d,x\n\
    applicant,e1,-\n\
    applicant,e2,-\n\
    program,x,2,2,1\n\
    program,z,1,0,0\n\
    aside,E\n\
    totals,5,3,3,1\n";

/// Why a file has no market: it has a fault, or memory was refused.
#[derive(Clone, Copy, Debug, PartialEq, Eq, Error)]
pub enum SampleError {
    #[error("a fault in a file that should have none")]
    Fault,
    #[error("out of memory")]
    Memory,
}

impl From<AllocError> for SampleError {
    fn from(_: AllocError) -> Self {
        SampleError::Memory
    }
}

/// The market of a file that has no fault.
pub fn roster_of<R: Threads + Sync>(
    rt: &R,
    alloc: Global,
    file: &[u8],
) -> Result<Roster, SampleError> {
    let rows = records(alloc, file).map_err(|error| match error {
        ListFault::TwoMarks => SampleError::Fault,
        ListFault::Memory => SampleError::Memory,
    })?;
    roster(rt, alloc, &rows).map_err(|error| match error {
        RosterError::Fault(_) => SampleError::Fault,
        RosterError::Memory => SampleError::Memory,
    })
}
