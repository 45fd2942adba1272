//! Small markets with withdrawals, with the text that is published for each.

/// Of the crossed wishes those at P2 are left.
pub const PROGRAM_WITHDRAWN: &[u8] = b"match,2\n\
    program,P1,1,a2,a1\n\
    program,P2,1,a1,a2\n\
    applicant,a1,P1,P2\n\
    applicant,a2,P2,P1\n\
    withdraw,program,P1\n";

pub const PROGRAM_WITHDRAWN_TEXT: &[u8] = b"match,1,published\n\
    applicant,a1,P2\n\
    applicant,a2,-\n\
    program,P2,1,1,2\n\
    totals,2,1,1,0\n";

/// Without a1 there is no chain of rejections.
pub const APPLICANT_WITHDRAWN_BEFORE_IT_REGISTERS: &[u8] = b"match,2\n\
    withdraw,applicant,a1\n\
    program,P1,1,a2,a3,a1\n\
    program,P2,1,a1,a2\n\
    applicant,a1,P1,P2\n\
    applicant,a2,P2,P1\n\
    applicant,a3,P1\n";

pub const APPLICANT_WITHDRAWN_BEFORE_IT_REGISTERS_TEXT: &[u8] = b"match,1,published\n\
    applicant,a2,P2\n\
    applicant,a3,P1\n\
    program,P1,1,1,1\n\
    program,P2,1,1,1\n\
    totals,2,0,2,0\n";

/// Of a market without a stable match the single is left.
pub const COUPLE_WITHDRAWN: &[u8] = b"match,2\n\
    program,x,1,a,s\n\
    program,y,1,s,b\n\
    applicant,s,x,y\n\
    couple,c,a,b,x,y\n\
    withdraw,couple,c\n";

pub const COUPLE_WITHDRAWN_TEXT: &[u8] = b"match,1,published\n\
    applicant,s,x\n\
    program,x,1,1,1\n\
    program,y,1,0,0\n\
    totals,1,0,2,1\n";

/// The first pair of the second couple goes with its program, so in four rounds it keeps its second pair.
pub const PAIR_LEAVES_WITH_ITS_PROGRAM: &[u8] = b"match,2\n\
    program,p,1,d1,a1\n\
    program,q,1,a2\n\
    program,r,1,e1,d2\n\
    program,t,1,e2\n\
    program,u,1,a1\n\
    program,v,1,a2\n\
    couple,D,d1,d2,p,r\n\
    couple,A,a1,a2,p,q,u,v\n\
    couple,E,e1,e2,r,t\n\
    withdraw,program,q\n";

pub const PAIR_LEAVES_WITH_ITS_PROGRAM_TEXT: &[u8] = b"match,1,published\n\
    applicant,d1,-\n\
    applicant,d2,-\n\
    applicant,a1,u\n\
    applicant,a2,v\n\
    applicant,e1,r\n\
    applicant,e2,t\n\
    program,p,1,0,0\n\
    program,r,1,1,0\n\
    program,t,1,1,0\n\
    program,u,1,1,0\n\
    program,v,1,1,0\n\
    totals,6,2,5,1\n";
