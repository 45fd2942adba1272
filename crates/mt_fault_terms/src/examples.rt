//! Files of records with all their faults.
ghost use Rattle.std.specs.Prelude.{◌≡◌, [], ◌∷◌};
ghost use Rattle.mt_terms.specs.declared.codes.TheConstants.{NO_VERSION, UNKNOWN_KIND, FIELD_COUNT, BAD_ID, BAD_QUOTA, DUPLICATE_ID, DUPLICATE_ENTRY, TOO_MANY};
ghost use Rattle.mt_terms.specs.Examples.Registration.{crossed_file, full_file, small};
ghost use Rattle.mt_terms.specs.Examples.RegistrationText.{file, file_1, file_2};
ghost use Rattle.mt_fault_terms.specs.OfFile.{faults_of};
ghost use Rattle.mt_fault_terms.specs.Examples.{found, faults_within, each_code_file, each_code, couple_at_fault, faults_of_couple, faults_of_program, registered_at_fault_file};

/// An accepted file has none. Without a version nothing else is a fault. Each record has its number, and one without a
/// field is counted.
pub fn faults_in_order()
    ensures accepted { faults_of (file_1 crossed_file) ≡ [] }
    ensures no_record { faults_of (file ("" ∷ [])) ≡ found 0 NO_VERSION 0 "" ∷ [] }
    ensures third_version { faults_of (file ("" ∷ "match,3" ∷ "post,P" ∷ [])) ≡ found 2 NO_VERSION 0 "" ∷ [] }
    ensures each_code { faults_of (file_2 each_code_file) ≡ each_code }
{}

/// A record has all its faults, in the order of their codes and then of its fields.
pub fn faults_of_one_record()
    ensures program { faults_of (file_1 ("program,p!,x,a!,b,b" ∷ [])) ≡ faults_of_program }
    ensures couple { faults_of (file_2 couple_at_fault) ≡ faults_of_couple }
    ensures half_a_pair_in_version_1 { faults_of (file_1 ("program,x,1" ∷ "couple,c,a,b,x,-" ∷ []))
        ≡ found 3 BAD_ID 6 "" ∷ [] }
    ensures withdrawal_in_version_1 { faults_of (file_1 ("withdraw,program,x" ∷ [])) ≡ found 2 UNKNOWN_KIND 1 "" ∷ [] }
    ensures withdrawal_of_no_kind { faults_of (file_2 ("withdraw,post,x" ∷ "withdraw" ∷ []))
        ≡ found 2 UNKNOWN_KIND 2 "" ∷ found 3 FIELD_COUNT 0 "" ∷ [] }
    ensures withdrawn_twice { faults_of (file_2 ("program,x,1" ∷ "withdraw,program,x" ∷ "withdraw,program,x" ∷ []))
        ≡ found 4 DUPLICATE_ENTRY 3 "x" ∷ [] }
{}

/// A record at fault registers its ids, so nobody who lists one of them is at fault. Registered twice, an id is at fault
/// once more.
pub fn ids_of_records_at_fault()
    ensures listed { faults_of (file_2 registered_at_fault_file)
        ≡ found 2 BAD_QUOTA 3 "p" ∷ found 4 FIELD_COUNT 0 "" ∷ [] }
    ensures again { faults_of (file_1 ("program,p" ∷ "program,p,1" ∷ []))
        ≡ found 2 FIELD_COUNT 0 "" ∷ found 3 DUPLICATE_ID 2 "p" ∷ [] }
{}

/// A limit is passed once, by the record that passes it. An id that is registered again counts again.
pub fn limits_passed()
    ensures reached { faults_within small full_file ≡ [] }
    ensures programs { faults_within small
        ("program,p1,0" ∷ "program,p2,0" ∷ "program,p3,0" ∷ "program,p4,0" ∷ [])
        ≡ found 4 TOO_MANY 0 "p3" ∷ [] }
    ensures members { faults_within small
        ("applicant,s" ∷ "couple,c,a,b" ∷ "couple,d,e,f" ∷ "applicant,g" ∷ [])
        ≡ found 4 TOO_MANY 0 "d" ∷ [] }
    ensures again { faults_within small ("program,p,0" ∷ "program,p,0" ∷ "program,p,0" ∷ [])
        ≡ found 3 DUPLICATE_ID 2 "p" ∷ found 4 DUPLICATE_ID 2 "p" ∷ found 4 TOO_MANY 0 "p" ∷ [] }
{}
