//! Files of records, with the market that each registers or its first fault.
ghost use Rattle.std.specs.Prelude.{◌≡◌, List, [], ◌∷◌, ◌++◌, Ok};
ghost use Rattle.mt_terms.specs.Registration.{market_of};
ghost use Rattle.mt_terms.specs.declared.codes.TheConstants.{NO_VERSION, UNKNOWN_KIND, FIELD_COUNT, BAD_ID, BAD_QUOTA, DUPLICATE_ID, DUPLICATE_ENTRY, TOO_MANY, UNKNOWN_APPLICANT, UNKNOWN_PROGRAM, NOT_REGISTERED};
ghost use Rattle.mt_terms.specs.Examples.Markets.{crossed, half_pair, three_couples};
ghost use Rattle.mt_terms.specs.Examples.Registration.{crossed_file, padded_file, chain_file, chain_without_applicant, member_withdrawn_file, half_pair_file, unstable_file, unstable_without_couple, three_couples_file, program_withdrawn_file, program_withdrawn_registered, longest_id_file, longest_id_registered, each_member_alone, each_member_alone_file, one_name_withdrawn_file, one_name_registered, small, market_within, withdrawn_program_file, full_file, full};
ghost use Rattle.mt_terms.specs.Examples.RegistrationText.{file, file_1, file_2, named, refused};

/// Numbers go by the order of the records, and a couple registers its two members. A record without a field is passed
/// over but counted, and zeros may lead a quota. In version 2 one of the two ids of a pair may be `-`, and `x,-` is
/// another pair than `-,x`.
pub fn registered_files()
    ensures crossed { market_of (file_1 crossed_file) ≡ Ok (named crossed "P1,P2" "a1,a2" "") }
    ensures padded { market_of (file padded_file) ≡ Ok (named crossed "P1,P2" "a1,a2" "") }
    ensures three_couples { market_of (file_1 three_couples_file) ≡ Ok (named three_couples "p,q,r,t,u,v" "d1,d2,a1,a2,e1,e2" "D,A,E") }
    ensures half_pair { market_of (file_2 half_pair_file) ≡ Ok (named half_pair "x,y" "s,a,b" "c") }
    ensures each_member_alone { market_of (file_2 each_member_alone_file) ≡ Ok (named each_member_alone "x" "a,b" "c") }
    ensures longest_id { market_of (file_2 longest_id_file) ≡ Ok longest_id_registered }
{}

/// What a record is by itself. The first record that has a field names the version. Each kind has its own number of
/// fields. Ids have certain bytes alone, and a quota is one to four digits.
pub fn records_that_cannot_be_read()
    ensures third_version { market_of (file ("match,3" ∷ crossed_file)) ≡ refused NO_VERSION 1 "" }
    ensures kind_after_a_blank_record { market_of (file ("" ∷ "match,1" ∷ "" ∷ "post,P" ∷ [])) ≡ refused UNKNOWN_KIND 4 "" }
    ensures no_withdrawal_in_version_1 { market_of (file_1 (crossed_file ++ "withdraw,program,P1" ∷ [])) ≡ refused UNKNOWN_KIND 6 "" }
    ensures field_count_before_the_ids { market_of (file_1 ("couple,c,a,b,x!" ∷ [])) ≡ refused FIELD_COUNT 2 "" }
    ensures dash_in_a_list { market_of (file_2 ("applicant,a,-" ∷ [])) ≡ refused BAD_ID 2 "" }
    ensures pair_of_nothing { market_of (file_2 ("couple,c,a,b,-,-" ∷ [])) ≡ refused BAD_ID 2 "" }
    ensures half_a_pair_in_version_1 { market_of (file_1 ("couple,c,a,b,x,-" ∷ [])) ≡ refused BAD_ID 2 "" }
    ensures quota_of_five_digits { market_of (file_1 ("program,P,00001" ∷ [])) ≡ refused BAD_QUOTA 2 "P" }
{}

/// What a record is beside those before it. An id is registered once in its name space, no list has an entry twice,
/// and the counts have limits. What is withdrawn counts, and so does a `-` in a pair.
pub fn records_that_do_not_go_together()
    ensures applicant_after_a_member { market_of (file_1 ("couple,c,a,b" ∷ "applicant,a" ∷ [])) ≡ refused DUPLICATE_ID 3 "a" }
    ensures couple_of_one { market_of (file_1 ("couple,c,a,a" ∷ [])) ≡ refused DUPLICATE_ID 2 "a" }
    ensures own_id_first { market_of (file_1 ("couple,c,a,b" ∷ "couple,c,b,a" ∷ [])) ≡ refused DUPLICATE_ID 3 "c" }
    ensures pair_twice { market_of (file_1 ("couple,c,a,b,x,y,y,x,x,y" ∷ [])) ≡ refused DUPLICATE_ENTRY 2 "c" }
    ensures limits_reached { market_within small full_file ≡ Ok (named full "x,y" "s,a,b" "c") }
    ensures too_many_programs { market_within small ("program,p1,0" ∷ "program,p2,0" ∷ "program,p3,0" ∷ []) ≡ refused TOO_MANY 4 "p3" }
    ensures withdrawn_program_counts { market_within small withdrawn_program_file ≡ refused TOO_MANY 5 "p3" }
{}

/// What a record names is looked up once all records are registered, in the order of the records and of their fields.
/// A withdrawal names a record of its kind, so no member is withdrawn alone.
pub fn names_that_nobody_registers()
    ensures applicant { market_of (file_1 ("program,P,1,a,z,y" ∷ "applicant,a" ∷ [])) ≡ refused UNKNOWN_APPLICANT 2 "z" }
    ensures both_programs_of_a_pair { market_of (file_1 ("couple,c,a,b,z,y" ∷ [])) ≡ refused UNKNOWN_PROGRAM 2 "z" }
    ensures first_pass_before_it { market_of (file_1 ("applicant,a,Q" ∷ "program,P,1,b!" ∷ [])) ≡ refused BAD_ID 3 "" }
    ensures member_withdrawn_alone { market_of (file_2 member_withdrawn_file) ≡ refused NOT_REGISTERED 5 "a" }
{}

/// The withdrawn rows leave the market, their ids leave all lists, and the other rows move up. A withdrawn couple
/// takes its members along, and a pair that names a withdrawn program leaves its list. Programs, applicants and
/// couples are three name spaces.
pub fn withdrawn_rows()
    ensures applicant { market_of (file_2 ("withdraw,applicant,a1" ∷ chain_file)) ≡ Ok (named chain_without_applicant "P1,P2" "a2,a3" "") }
    ensures couple { market_of (file_2 (unstable_file ++ "withdraw,couple,c" ∷ [])) ≡ Ok (named unstable_without_couple "x,y" "s" "") }
    ensures program_of_a_pair { market_of (file_2 program_withdrawn_file) ≡ Ok program_withdrawn_registered }
    ensures one_of_three_of_one_name { market_of (file_2 one_name_withdrawn_file) ≡ Ok one_name_registered }
{}
