//! What the definition of a match's records gives on worked ones. Each function does nothing. Its contract is the
//! example.
ghost use Rattle.std.specs.Prelude.{◌≡◌, [], ◌∷◌, Some, None, Ok};
ghost use Rattle.mt_terms.specs.Examples.RegistrationText.{refused};
ghost use Rattle.mt_match_file.specs.Examples.{counted, places_alone, submitted_beside_couple, submitted_of};
ghost use Rattle.mt_match_file.specs.declared.submitted_match.Count.TheVariants as count;

/// Records may come in any order, with counts or without. One without a field is passed over.
pub fn matches_that_are_read()
    ensures published { submitted_of ("match,1,published" ∷ "applicant,a1,P1" ∷ "applicant,a2,P2"
        ∷ "program,P1,1,1,1" ∷ "program,P2,1,1,0" ∷ "totals,2,0,2,0" ∷ [])
        ≡ Ok (record {
          places = Some 0 ∷ Some 1 ∷ [];
          counts = counted 4 (count.Program 0 1 1) ∷ counted 5 (count.Program 1 1 1)
              ∷ counted 6 (count.Totals 2 0 2 0) ∷ [];
          aside = [];
        }) }
    ensures places_alone { submitted_of ("applicant,a2,-" ∷ "" ∷ "applicant,a1,P2" ∷ [])
        ≡ places_alone (Some 1 ∷ None ∷ []) }
{}

/// The fault is the first in the order of the records, and in one record the first by the order of the codes.
pub fn matches_that_cannot_be_read()
    ensures other_record { submitted_of ("" ∷ "couple,a1,P1" ∷ []) ≡ refused 50 2 "" }
    ensures refusal_line { submitted_of ("match,1,refused,41,BudgetSpent,0,-" ∷ [])
        ≡ refused 51 1 "" }
    ensures leading_zero { submitted_of ("program,P3,01,1,1" ∷ []) ≡ refused 51 1 "" }
    ensures no_such_applicant { submitted_of ("applicant,a3,P3" ∷ []) ≡ refused 52 1 "a3" }
    ensures no_id { submitted_of ("applicant,a=3,P3" ∷ []) ≡ refused 52 1 "" }
    ensures placed_twice { submitted_of ("applicant,a1,-" ∷ "applicant,a1,P3" ∷ [])
        ≡ refused 53 2 "a1" }
    ensures no_such_program { submitted_of ("applicant,a1,P3" ∷ []) ≡ refused 54 1 "P3" }
    ensures not_placed { submitted_of ("applicant,a1,P1" ∷ "totals,2,0,2,0" ∷ [])
        ≡ refused 55 0 "a2" }
{}

/// A record sets one couple of the market aside. It may stand before or after the other records.
pub fn matches_with_couples_set_aside()
    ensures aside { submitted_beside_couple ("match,2,published" ∷ "aside,c" ∷ "applicant,s,x"
        ∷ "applicant,a,-" ∷ "applicant,b,-" ∷ []) ≡ Ok (record {
          places = Some 0 ∷ None ∷ None ∷ [];
          counts = [];
          aside = 0 ∷ [];
        }) }
    ensures no_such_couple { submitted_beside_couple ("aside,s" ∷ []) ≡ refused 57 1 "s" }
    ensures aside_twice { submitted_beside_couple ("aside,c" ∷ "aside,c" ∷ [])
        ≡ refused 58 2 "c" }
    ensures two_ids { submitted_beside_couple ("aside,c,c" ∷ []) ≡ refused 51 1 "" }
    ensures other_version { submitted_beside_couple ("match,3,published" ∷ []) ≡ refused 51 1 "" }
{}
