//! Withdrawn rows: what is left has its numbers as if they had never been in the file.
use crate::registration::Fault;

// Withdrawn rows, and the market that is left.
pub(crate) const ACCEPTED: &[(&str, &str)] = &[
    // A program leaves all lists. Without P1 only P2 is left: it is program 0.
    (
        "match,2\nprogram,P1,1,a2,a1\nprogram,P2,1,a1,a2\napplicant,a1,P1,P2\napplicant,a2,P2,P1\nwithdraw,program,P1\n",
        "program P2 1: 0 1\napplicant a1 single 0: 0\napplicant a2 single 1: 0\n",
    ),
    (
        "match,2\nwithdraw,program,P1\nprogram,P1,1,a2,a1\nprogram,P2,1,a1,a2\napplicant,a1,P1,P2\napplicant,a2,P2,P1\n",
        "program P2 1: 0 1\napplicant a1 single 0: 0\napplicant a2 single 1: 0\n",
    ),
    // An applicant leaves all lists. Without a1 the applicants a2 and a3 are 0 and 1.
    (
        "match,2\nwithdraw,applicant,a1\nprogram,P1,1,a2,a3,a1\nprogram,P2,1,a1,a2\napplicant,a1,P1,P2\napplicant,a2,P2,P1\napplicant,a3,P1\n",
        "program P1 1: 0 1\nprogram P2 1: 0\napplicant a2 single 0: 1 0\napplicant a3 single 1: 0\n",
    ),
    // A withdrawn couple takes its members a and b with it. The couple d is 0 then, and its members e and f are 1 and 2.
    (
        "match,2\nprogram,x,1,a,s,e\nprogram,y,1,s,b,f\napplicant,s,x,y\ncouple,c,a,b,x,y\ncouple,d,e,f,x,y\nwithdraw,couple,c\n",
        "program x 1: 0 1\nprogram y 1: 0 2\napplicant s single 0: 0 1\napplicant e couple 0:\napplicant f couple 0:\ncouple d 1 2: 0 1,\n",
    ),
    // Of A's pairs those with q leave the list, whatever place the other member has: p,q and q,p and q,- and -,q.
    // What stays is p,- and u,v and -,v, with u as program 1 and v as program 2.
    (
        "match,2\nprogram,p,1,a1\nprogram,q,1,a2\nprogram,u,1,a1\nprogram,v,1,a2\ncouple,A,a1,a2,p,q,p,-,q,p,q,-,u,v,-,q,-,v\nwithdraw,program,q\n",
        "program p 1: 0\nprogram u 1: 0\nprogram v 1: 1\napplicant a1 couple 0:\napplicant a2 couple 0:\ncouple A 0 1: 0 -, 1 2, - 2,\n",
    ),
    // One id is withdrawn in each of the three name spaces, and only there.
    (
        "match,2\nprogram,i,1,j,i\nprogram,j,1,i\napplicant,i,j,i\napplicant,j,i\ncouple,i,k,l,j,i\nwithdraw,program,i\n",
        "program j 1: 0\napplicant i single 0: 0\napplicant j single 1:\napplicant k couple 0:\napplicant l couple 0:\ncouple i 2 3:\n",
    ),
    (
        "match,2\nprogram,i,1,j,i\nprogram,j,1,i\napplicant,i,j,i\napplicant,j,i\ncouple,i,k,l,j,i\nwithdraw,applicant,i\n",
        "program i 1: 0\nprogram j 1:\napplicant j single 0: 0\napplicant k couple 0:\napplicant l couple 0:\ncouple i 1 2: 1 0,\n",
    ),
    (
        "match,2\nprogram,i,1,j,i\nprogram,j,1,i\napplicant,i,j,i\napplicant,j,i\ncouple,i,k,l,j,i\nwithdraw,couple,i\n",
        "program i 1: 1 0\nprogram j 1: 0\napplicant i single 0: 1 0\napplicant j single 1: 0\n",
    ),
];

// Withdrawals have faults of their own, and what is withdrawn is still registered.
pub(crate) const REFUSED: &[(&str, Fault<'static>)] = &[
    // No row is withdrawn in version 1.
    ("match,1\nprogram,P,1\nwithdraw,program,P\n", (13, 3, "")),
    // The kind is judged before the number of fields, and that before the id.
    ("match,2\nprogram,P,1\nwithdraw,post,P\n", (13, 3, "")),
    ("match,2\nprogram,P,1\nwithdraw,post\n", (13, 3, "")),
    ("match,2\nwithdraw\n", (14, 2, "")),
    ("match,2\nprogram,P,1\nwithdraw,program\n", (14, 3, "")),
    ("match,2\nprogram,P,1\nwithdraw,program,P!,Q\n", (14, 3, "")),
    ("match,2\nprogram,P,1\nwithdraw,program,P!\n", (15, 3, "")),
    ("match,2\nprogram,P,1\nwithdraw,program,-\n", (15, 3, "")),
    // A withdrawn id is still taken.
    (
        "match,2\napplicant,a\nwithdraw,applicant,a\napplicant,a\n",
        (17, 4, "a"),
    ),
    (
        "match,2\nprogram,P,1\nwithdraw,program,P\nwithdraw,program,P\n",
        (18, 4, "P"),
    ),
    // Nothing is looked up before the first pass is over.
    (
        "match,2\nwithdraw,program,Q\nprogram,P,10000\n",
        (16, 3, "P"),
    ),
    (
        "match,2\nprogram,x,2,a,s,b\napplicant,s,x\ncouple,c,a,b,x,x\nwithdraw,applicant,a\n",
        (22, 5, "a"),
    ),
    ("match,2\nwithdraw,program,Q\n", (22, 2, "Q")),
    (
        "match,2\nprogram,c,1\ncouple,c,a,b\nwithdraw,applicant,c\n",
        (22, 4, "c"),
    ),
    // In the second pass the record decides before the code.
    ("match,2\nwithdraw,couple,c\nprogram,P,1,z\n", (22, 2, "c")),
    ("match,2\nprogram,P,1,z\nwithdraw,couple,c\n", (20, 2, "z")),
    // A row that is withdrawn may list and be listed, but must list registered ids.
    ("match,2\nprogram,P,1,z\nwithdraw,program,P\n", (20, 2, "z")),
];
