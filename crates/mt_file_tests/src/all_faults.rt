//! All faults of a file by example: the record, the code, the field and the id of each, in the order of the file.
use crate::expect::holds_for;
use mt_fault_sink::{Fault, FaultEnd, FaultSink, Stop};
use mt_faults::find_faults;
use mt_ids::{Seed, add_field};
use mt_lists::records;
use std::alloc::Global;
use std::hash::DefaultHasher;
use std::process::Abort;

/// Takes faults as text, a line each, until it has as many as it can.
#[derive(Drop)]
struct Lines {
    text: String,
    room: usize,
}

impl FaultSink for Lines {
    ghost takes = { λ _. Unit {0} };

    ghost told = { λ _ _ _. Unit {0} };

    ghost stopped = { λ _ _ _. Unit {0} };

    ghost told_none = { λ _. tt };

    ghost told_more = { λ _ _ _ _ _ _ _. tt };

    ghost stopped_after = { λ _ _ _ _ _ _ _. tt };

    fn put(&mut self, number: u64, fault: &Fault<'_>) -> Result<(), Stop> {
        if self.room == 0 {
            return Err(Stop);
        }
        self.room -= 1;
        let _ = write!(
            &mut self.text,
            "{number} {} {} {} ",
            fault.code, fault.field, fault.first
        );
        for byte in fault.id {
            let _ = self.text.push(char::from(*byte));
        }
        let _ = self.text.push('\n');
        Ok(())
    }
}

/// A seed of tables that depends on all bytes of a file.
fn seed_of(file: &[u8]) -> Seed {
    let mut digest = DefaultHasher::new();
    add_field(&mut digest, file);
    Seed::of(&digest)
}

/// The faults of a file as text, up to this many, and how the search ended.
fn told(alloc: Global, file: &[u8], room: usize) -> (String, Result<(), FaultEnd>) {
    let mut lines = Lines {
        text: String::new(alloc),
        room,
    };
    let end = match records(alloc, file) {
        Ok(rows) => find_faults(alloc, seed_of(file), &rows, &mut lines),
        Err(_) => Err(FaultEnd::Memory),
    };
    let Lines { text, room: _ } = lines;
    (text, end)
}

/// Files with their faults: record, code, field, the field where an entry stands first, and id.
const FILES: &[(&str, &str)] = &[
    // Without a version nothing else is at fault.
    ("", "0 12 0 0 \n"),
    (",,\n\n,\n", "0 12 0 0 \n"),
    (",\nmatch,3\npost,P\n", "2 12 0 0 \n"),
    ("match,1\n", ""),
    ("match,1\nprogram,P,1,a\napplicant,a,P\n", ""),
    // The kind of a record, and of a withdrawal.
    (
        "match,1\npost,P,1\n,,x\nwithdraw,program,P\n",
        "2 13 1 0 \n3 13 1 0 \n4 13 1 0 \n",
    ),
    (
        "match,2\nwithdraw\nwithdraw,post,P\n",
        "2 14 0 0 \n3 13 2 0 \n",
    ),
    // The number of fields. What is there is read all the same.
    (
        "match,1\nprogram\nprogram,P!\napplicant\ncouple,c,a\ncouple,d,e,f,P\n",
        "2 14 0 0 \n3 14 0 0 \n3 15 2 0 \n4 14 0 0 \n5 14 0 0 \n6 14 0 0 \n",
    ),
    // Fields that should be ids.
    (
        "match,2\nprogram,P,x,b!,,-\ncouple,-,a b,b,P!,-,-,-,P,-\nprogram,P2,1\n",
        "2 15 4 0 \n2 15 5 0 \n2 15 6 0 \n2 16 3 0 P\n3 15 2 0 \n3 15 3 0 \n3 15 5 0 \n3 15 7 0 \n3 15 8 0 \n",
    ),
    ("match,1\nprogram,P,1\ncouple,c,a,b,P,-\n", "3 15 6 0 \n"),
    // Ids that are registered already, also by a record at fault.
    (
        "match,1\nprogram,P,x\nprogram,P,1\napplicant,a\napplicant,a\ncouple,c,a,b\ncouple,c,d,d\n",
        "2 16 3 0 P\n3 17 2 0 P\n5 17 2 0 a\n6 17 3 0 a\n7 17 2 0 c\n7 17 4 0 d\n",
    ),
    // Entries and pairs that stand in their list before, and rows that are withdrawn twice.
    (
        "match,2\nprogram,P,1,a,b,a,a,b!,b!\nprogram,Q,1\napplicant,a\napplicant,b\n",
        "2 15 8 0 \n2 15 9 0 \n2 18 6 4 a\n2 18 7 4 a\n",
    ),
    (
        "match,2\nprogram,P,1\nprogram,Q,1\ncouple,c,a,b,P,Q,Q,P,P,Q,-,Q,P,-,-,Q,P,-\n",
        "4 18 9 5 P\n4 18 15 11 Q\n4 18 17 13 P\n",
    ),
    (
        "match,2\nprogram,P,1\nwithdraw,program,P\nwithdraw,program,P\nwithdraw,couple,P\nwithdraw,couple,P\n",
        "4 18 3 0 P\n5 22 3 0 P\n6 18 3 0 P\n6 22 3 0 P\n",
    ),
    // Ids that no record registers. A record at fault registers its ids.
    (
        "match,1\nprogram,P,x,z,a,y!,z\napplicant,a,P,Q\ncouple,c,d,e,P,R,S,P,Q\n",
        "2 15 6 0 \n2 16 3 0 P\n2 18 7 4 z\n2 20 4 0 z\n2 20 7 0 z\n3 21 4 0 Q\n4 14 0 0 \n4 21 6 0 R\n4 21 7 0 S\n",
    ),
    (
        "match,2\nwithdraw,applicant,b\ncouple,c,a,b\nwithdraw,applicant,d\nwithdraw,applicant,e\napplicant,e\n",
        "2 22 3 0 b\n4 22 3 0 d\n",
    ),
];

#[test]
fn files_and_all_their_faults(rt: HostRuntime) {
    for (file, faults) in FILES {
        let (text, end) = told(rt.alloc(), file.as_bytes(), 100);
        holds_for(
            &rt,
            end.is_ok() && text.as_str() == *faults,
            &(file, text.as_str()),
        );
    }
}

#[test]
fn a_sink_that_stops(rt: HostRuntime) {
    let file = "match,1\npost\npost\npost\n";
    let (text, end) = told(rt.alloc(), file.as_bytes(), 2);
    holds_for(&rt, end == Err(FaultEnd::Stopped), &end);
    holds_for(
        &rt,
        text.as_str() == "2 13 1 0 \n3 13 1 0 \n",
        &text.as_str(),
    );
}

/// A file with this many programs. The first is registered once more at the end.
fn programs(alloc: Global, count: u32) -> String {
    let mut text = String::new(alloc);
    let _ = text.push_str("match,1\n");
    for number in 0..count {
        let _ = write!(&mut text, "program,p{number},1\n");
    }
    let _ = text.push_str("program,p0,1\n");
    text
}

// A limit is at fault once, at the record that passes it. A second registration of an id counts too.
#[test]
fn more_programs_than_the_limit(rt: HostRuntime) {
    let file = programs(rt.alloc(), 20_002);
    let (text, end) = told(rt.alloc(), file.as_bytes(), 100);
    let faults = "20002 19 0 0 p20000\n20004 17 2 0 p0\n";
    holds_for(&rt, end.is_ok() && text.as_str() == faults, &text.as_str());
    let file = programs(rt.alloc(), 20_000);
    let (text, end) = told(rt.alloc(), file.as_bytes(), 100);
    let faults = "20002 17 2 0 p0\n20002 19 0 0 p0\n";
    holds_for(&rt, end.is_ok() && text.as_str() == faults, &text.as_str());
}
