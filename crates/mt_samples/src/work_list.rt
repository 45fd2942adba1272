//! Small markets with the text that is published for each. Another order of the work list, or another choice of the
//! agents to look at again, gives another match or another number of rounds. `tests/cases/README.md` tells the
//! rounds.

/// Those displaced at q join by q's list, and not by their numbers.
pub const DISPLACED_BY_THE_LIST_OF_THEIR_PROGRAM: &[u8] = b"match,1\n\
    program,p,1,s,t\n\
    program,q,2,a1,a2,t,s\n\
    applicant,s,q,p\n\
    applicant,t,q,p\n\
    couple,A,a1,a2,q,q\n";

pub const DISPLACED_BY_THE_LIST_OF_THEIR_PROGRAM_TEXT: &[u8] = b"match,1,published\n\
    applicant,s,p\n\
    applicant,t,-\n\
    applicant,a1,q\n\
    applicant,a2,q\n\
    program,p,1,1,0\n\
    program,q,2,2,2\n\
    totals,4,1,3,0\n";

/// Those displaced join in the order of the pair, and not by the programs' numbers.
pub const DISPLACED_IN_THE_ORDER_OF_THE_PAIR: &[u8] = b"match,1\n\
    program,p,1,a2,t\n\
    program,q,1,a1,s\n\
    program,z,1,t,s\n\
    applicant,s,q,z\n\
    applicant,t,p,z\n\
    couple,A,a1,a2,q,p\n";

pub const DISPLACED_IN_THE_ORDER_OF_THE_PAIR_TEXT: &[u8] = b"match,1,published\n\
    applicant,s,-\n\
    applicant,t,z\n\
    applicant,a1,q\n\
    applicant,a2,p\n\
    program,p,1,1,1\n\
    program,q,1,1,1\n\
    program,z,1,1,0\n\
    totals,4,1,3,0\n";

/// Both members of A are displaced at once, and A joins once.
pub const COUPLE_DISPLACED_TWICE_JOINS_ONCE: &[u8] = b"match,1\n\
    program,p,1,b1,a1\n\
    program,q,1,b2,a2\n\
    couple,A,a1,a2,p,q\n\
    couple,B,b1,b2,p,q\n";

pub const COUPLE_DISPLACED_TWICE_JOINS_ONCE_TEXT: &[u8] = b"match,1,published\n\
    applicant,a1,-\n\
    applicant,a2,-\n\
    applicant,b1,p\n\
    applicant,b2,q\n\
    program,p,1,1,0\n\
    program,q,1,1,0\n\
    totals,4,2,2,0\n";

/// s is displaced beside a member of A, although A goes out.
pub const ALL_CHOOSE_BEFORE_ANYBODY_IS_TAKEN_OUT: &[u8] = b"match,1\n\
    program,p,1,b1,a1\n\
    program,q,2,a2,b2,s\n\
    applicant,s,q\n\
    couple,A,a1,a2,p,q\n\
    couple,B,b1,b2,p,q\n";

pub const ALL_CHOOSE_BEFORE_ANYBODY_IS_TAKEN_OUT_TEXT: &[u8] = b"match,1,published\n\
    applicant,s,q\n\
    applicant,a1,-\n\
    applicant,a2,-\n\
    applicant,b1,p\n\
    applicant,b2,q\n\
    program,p,1,1,0\n\
    program,q,2,2,1\n\
    totals,5,2,3,0\n";

/// Programs that were left are looked at by number.
pub const LEFT_PROGRAMS_BY_NUMBER: &[u8] = b"match,1\n\
    program,p,1,d2,s\n\
    program,t,1,a2,u\n\
    program,x,1,b1,a1\n\
    program,y,1,b2,d1\n\
    program,z,1,u,s\n\
    applicant,s,z,p\n\
    applicant,u,t,z\n\
    couple,D,d1,d2,y,p\n\
    couple,A,a1,a2,x,t\n\
    couple,B,b1,b2,x,y\n";

pub const LEFT_PROGRAMS_BY_NUMBER_TEXT: &[u8] = b"match,1,published\n\
    applicant,s,z\n\
    applicant,u,t\n\
    applicant,d1,-\n\
    applicant,d2,-\n\
    applicant,a1,-\n\
    applicant,a2,-\n\
    applicant,b1,x\n\
    applicant,b2,y\n\
    program,p,1,0,0\n\
    program,t,1,1,1\n\
    program,x,1,1,0\n\
    program,y,1,1,0\n\
    program,z,1,1,1\n\
    totals,8,4,5,1\n";

/// Those who want the post that was left join by its program's list.
pub const AGENTS_OF_A_LEFT_PROGRAM_BY_ITS_LIST: &[u8] = b"match,1\n\
    program,r,1,a2,t,s\n\
    program,x,1,b1,a1\n\
    program,y,1,b2\n\
    applicant,s,r\n\
    applicant,t,r\n\
    couple,A,a1,a2,x,r\n\
    couple,B,b1,b2,x,y\n";

pub const AGENTS_OF_A_LEFT_PROGRAM_BY_ITS_LIST_TEXT: &[u8] = b"match,1,published\n\
    applicant,s,-\n\
    applicant,t,r\n\
    applicant,a1,-\n\
    applicant,a2,-\n\
    applicant,b1,x\n\
    applicant,b2,y\n\
    program,r,1,1,2\n\
    program,x,1,1,0\n\
    program,y,1,1,0\n\
    totals,6,3,3,0\n";

/// C wants a post that is left before C enters.
pub const COUPLE_NOT_YET_ENTERED_IS_NOT_LOOKED_AT: &[u8] = b"match,1\n\
    program,r,1,a2,c1\n\
    program,w,1,c2\n\
    program,x,1,b1,a1\n\
    program,z,1,b2\n\
    couple,A,a1,a2,x,r\n\
    couple,B,b1,b2,x,z\n\
    couple,C,c1,c2,r,w\n";

pub const COUPLE_NOT_YET_ENTERED_IS_NOT_LOOKED_AT_TEXT: &[u8] = b"match,1,published\n\
    applicant,a1,-\n\
    applicant,a2,-\n\
    applicant,b1,x\n\
    applicant,b2,z\n\
    applicant,c1,r\n\
    applicant,c2,w\n\
    program,r,1,1,0\n\
    program,w,1,1,0\n\
    program,x,1,1,0\n\
    program,z,1,1,0\n\
    totals,6,2,4,0\n";

/// A member is displaced at q, so q isn't left, and its partner goes from r, which is.
pub const PROGRAM_OF_THE_DISPLACED_ALONE_IS_NOT_LEFT: &[u8] = b"match,1\n\
    program,p,1,b1\n\
    program,q,1,b2,a1,t\n\
    program,r,1,a2,s,t\n\
    applicant,s,r\n\
    applicant,t,q,r\n\
    couple,A,a1,a2,q,r\n\
    couple,B,b1,b2,p,q\n";

pub const PROGRAM_OF_THE_DISPLACED_ALONE_IS_NOT_LEFT_TEXT: &[u8] = b"match,1,published\n\
    applicant,s,r\n\
    applicant,t,-\n\
    applicant,a1,-\n\
    applicant,a2,-\n\
    applicant,b1,p\n\
    applicant,b2,q\n\
    program,p,1,1,0\n\
    program,q,1,1,1\n\
    program,r,1,1,1\n\
    totals,6,3,3,0\n";

/// The agent that moved joins after the one that it displaced.
pub const MOVER_AFTER_THE_DISPLACED: &[u8] = b"match,1\n\
    program,p,1,a2,s\n\
    program,q,1,s,a1\n\
    program,r,1,a1\n\
    applicant,s,p,q\n\
    couple,A,a1,a2,q,p,r,p\n";

pub const MOVER_AFTER_THE_DISPLACED_TEXT: &[u8] = b"match,1,published\n\
    applicant,s,q\n\
    applicant,a1,r\n\
    applicant,a2,p\n\
    program,p,1,1,1\n\
    program,q,1,1,0\n\
    program,r,1,1,0\n\
    totals,3,0,3,0\n";

/// The agent that moved joins before those who want the post that it left.
pub const MOVER_BEFORE_THOSE_OF_LEFT_PROGRAMS: &[u8] = b"match,2\n\
    program,p,1,b1,b2,a1\n\
    program,q,1,a2,s,b1\n\
    applicant,s,q\n\
    couple,A,a1,a2,p,q\n\
    couple,B,b1,b2,q,p,p,-\n";

pub const MOVER_BEFORE_THOSE_OF_LEFT_PROGRAMS_TEXT: &[u8] = b"match,1,published\n\
    applicant,s,q\n\
    applicant,a1,-\n\
    applicant,a2,-\n\
    applicant,b1,p\n\
    applicant,b2,-\n\
    program,p,1,1,0\n\
    program,q,1,1,1\n\
    totals,5,3,2,0\n";
