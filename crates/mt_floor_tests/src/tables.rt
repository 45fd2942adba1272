//! The rank tables of two markets, by all readers.
ghost use Rattle.std.specs.Prelude.{◌≡◌, ◌<◌, length};

use crate::expect::{on_ranks, same_for};
use mt_ranks::{PackedLive, Ranks};
use mt_samples::markets::BETWEEN;
use mt_terms::{AppNo, ProgNo};
use std::process::Abort;
use std::test::Fail;

// What the readers should answer. By program: its quota, the numbers of the applicants that it lists, and the rank
// of each applicant. By applicant: its live list, as the programs' numbers and the ranks there, and whether it is
// a single.
#[derive(Drop)]
struct Expected<'a> {
    what: &'a str,
    quotas: &'a [u32],
    rankings: &'a [&'a [u32]],
    ranks: &'a [&'a [Option<u32>]],
    live: &'a [&'a [(u32, u32)]],
    singles: &'a [bool],
}

fn expect_count(rt: &impl Abort, count: u32, wanted: usize)
    ensures { count ≡ wanted }
{
    assert!(rt; count as usize == wanted);
}

fn expect_ranking(rt: &impl Abort, ranking: &[AppNo], of: &str, wanted: &[u32]) {
    assert!(rt; ranking.len() == wanted.len());
    for rank in 0..ranking.len() {
        let applicant = ranking[rank];
        same_for(rt, applicant.0, wanted[rank], of);
    }
}

fn expect_ranks(rt: &impl Abort, tables: &Ranks, of: &str, program: ProgNo, wanted: &[Option<u32>])
    requires { program < length tables.now.market.programs }
{
    assert!(rt; tables.applicants() as usize == wanted.len());
    for applicant in 0..tables.applicants() {
        let rank = tables.rank(program, AppNo(applicant));
        same_for(rt, rank, wanted[applicant as usize], of);
    }
}

fn expect_programs(rt: &impl Abort, tables: &Ranks, expected: &Expected<'_>) {
    let programs = tables.programs();
    expect_count(rt, programs, expected.quotas.len());
    expect_count(rt, programs, expected.rankings.len());
    expect_count(rt, programs, expected.ranks.len());
    for program in 0..programs {
        let number = program as usize;
        let program = ProgNo(program);
        let of = expected.what;
        same_for(rt, tables.quota(program), expected.quotas[number], of);
        let ranking = tables.by_rank(program);
        expect_ranking(rt, ranking, of, expected.rankings[number]);
        expect_ranks(rt, tables, of, program, expected.ranks[number]);
    }
}

fn expect_live(rt: &impl Abort, live: &[PackedLive], of: &str, expected: &[(u32, u32)]) {
    assert!(rt; live.len() == expected.len());
    for number in 0..live.len() {
        let entry = live[number].unpacked();
        same_for(rt, (entry.program.0, entry.rank), expected[number], of);
    }
}

// No number past the end is a single's.
fn expect_applicants(rt: &impl Abort, tables: &Ranks, expected: &Expected<'_>) {
    let applicants = tables.applicants();
    expect_count(rt, applicants, expected.live.len());
    expect_count(rt, applicants, expected.singles.len());
    for applicant in 0..applicants {
        let number = applicant as usize;
        let applicant = AppNo(applicant);
        expect_live(
            rt,
            tables.live(applicant),
            expected.what,
            expected.live[number],
        );
        let is_single = tables.is_single(applicant);
        same_for(rt, is_single, expected.singles[number], expected.what);
    }
    assert!(rt; !tables.is_single(AppNo(applicants)));
    assert!(rt; !tables.is_single(AppNo(u32::MAX)));
}

const TABLES: &[(&[u8], Expected<'static>)] = &[
    // The applicant a wants R, Q and P. R and P list it, as the second and as the third. Q doesn't, so the live list
    // is R and P.
    (
        b"match,1\nprogram,P,3,c,b,a\nprogram,Q,0,b\nprogram,R,20,c,a\napplicant,a,R,Q,P\napplicant,b\napplicant,c,Q,R,P\n",
        Expected {
            what: "entries that are not mutual",
            quotas: &[3, 0, 20],
            rankings: &[&[2, 1, 0], &[1], &[2, 0]],
            ranks: &[
                &[Some(2), Some(1), Some(0)],
                &[None, Some(0), None],
                &[Some(1), None, Some(0)],
            ],
            live: &[&[(2, 1), (0, 2)], &[], &[(2, 0), (0, 0)]],
            singles: &[true, true, true],
        },
    ),
    // Members have ranks and no live list. The single s is applicant 0, and the members a and b are 1 and 2. The program
    // wants a, s and b in this order.
    (
        BETWEEN,
        Expected {
            what: "members",
            quotas: &[2],
            rankings: &[&[1, 0, 2]],
            ranks: &[&[Some(1), Some(0), Some(2)]],
            live: &[&[(0, 1)], &[], &[]],
            singles: &[true, false, false],
        },
    ),
];

#[test]
fn readers_tell_the_tables(rt: HostRuntime) -> Result<(), Fail> {
    for (file, expected) in TABLES {
        on_ranks(&rt, rt.alloc(), file, |tables| {
            expect_programs(&rt, tables, expected);
            expect_applicants(&rt, tables, expected);
            Ok(())
        })?;
    }
    Ok(())
}
