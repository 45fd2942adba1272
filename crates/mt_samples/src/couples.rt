//! Small markets with couples, with the text that is published for each.

/// The single prefers y, which prefers it to the second member.
pub const COUPLE_LACKS_A_SECOND_POST: &[u8] = b"match,1\n\
    program,x,1,a,s\n\
    program,y,1,s,b\n\
    applicant,s,y,x\n\
    couple,c,a,b,x,y\n";

pub const COUPLE_LACKS_A_SECOND_POST_TEXT: &[u8] = b"match,1,published\n\
    applicant,s,y\n\
    applicant,a,-\n\
    applicant,b,-\n\
    program,x,1,0,0\n\
    program,y,1,1,1\n\
    totals,3,2,2,1\n";

/// A couple wants both posts of a program, which wants both members more than the single.
pub const COUPLE_DISPLACES_A_SINGLE: &[u8] = b"match,1\n\
    program,x,2,a,b,s\n\
    applicant,s,x\n\
    couple,c,a,b,x,x\n";

pub const COUPLE_DISPLACES_A_SINGLE_TEXT: &[u8] = b"match,1,published\n\
    applicant,s,-\n\
    applicant,a,x\n\
    applicant,b,x\n\
    program,x,2,2,1\n\
    totals,3,1,2,0\n";

/// The single displaces b from y, and the couple then displaces the single from x, without end. The applicants s, a
/// and b have the numbers 0, 1 and 2. The programs x and y have 0 and 1.
pub const NO_STABLE_MATCH: &[u8] = b"match,1\n\
    program,x,1,a,s\n\
    program,y,1,s,b\n\
    applicant,s,x,y\n\
    couple,c,a,b,x,y\n";

/// The couple displaces the single from the post that is later open to its other member, without end.
pub const COUPLE_IN_ITS_OWN_WAY: &[u8] = b"match,1\n\
    program,w,1,a\n\
    program,x,1,a,s,b\n\
    program,y,1,b\n\
    applicant,s,x\n\
    couple,c,a,b,w,x,x,y\n";

/// The second couple wants most to have its first member at p, and its second one unplaced.
pub const MEMBER_GIVES_UP_ITS_PLACE: &[u8] = b"match,2\n\
    program,p,1,d1,a1\n\
    program,q,1,a2\n\
    program,r,1,e1,d2\n\
    program,t,1,e2\n\
    program,u,1,a1\n\
    program,v,1,a2\n\
    couple,D,d1,d2,p,r\n\
    couple,A,a1,a2,p,-,u,v\n\
    couple,E,e1,e2,r,t\n";

pub const MEMBER_GIVES_UP_ITS_PLACE_TEXT: &[u8] = b"match,1,published\n\
    applicant,d1,-\n\
    applicant,d2,-\n\
    applicant,a1,p\n\
    applicant,a2,-\n\
    applicant,e1,r\n\
    applicant,e2,t\n\
    program,p,1,1,0\n\
    program,q,1,0,0\n\
    program,r,1,1,0\n\
    program,t,1,1,0\n\
    program,u,1,0,0\n\
    program,v,1,0,0\n\
    totals,6,3,6,3\n";

/// A program, an applicant and a couple have one id.
pub const ONE_ID_IN_THREE_NAME_SPACES: &[u8] = b"match,1\n\
    program,i,1,i\n\
    applicant,i,i\n\
    couple,i,k,l,i,i\n";

pub const ONE_ID_IN_THREE_NAME_SPACES_TEXT: &[u8] = b"match,1,published\n\
    applicant,i,i\n\
    applicant,k,-\n\
    applicant,l,-\n\
    program,i,1,1,1\n\
    totals,3,2,1,0\n";
