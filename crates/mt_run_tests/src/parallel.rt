//! Rank tables and findings of a market that several threads share, beside the plain forms.
ghost use Rattle.std.specs.Prelude.{◌≡◌};
ghost use Rattle.mt_ranks.specs.Ranked.{ranked_of};

use crate::beside::{expect_finding_on_change, expect_findings, expect_tables};
use crate::finding::plain_finding;
use mt_ranks::Ranks;
use mt_roster::Roster;
use mt_samples::singles::singles;
use mt_samples::tables::with_ranks;
use std::alloc::{AllocError, Global};
use std::process::Abort;
use std::thread::Threads;

// Those whose number is the program's or one more, but for a multiple of the programs' count, from the last ones down.
fn push_every_so_many(
    file: &mut String,
    applicants: u32,
    programs: u32,
    program: u32,
) -> Result<(), AllocError> {
    let count = programs.max(1);
    let rounds = (applicants / count).saturating_add(1);
    for back in 0..rounds {
        let own = (rounds - 1 - back)
            .saturating_mul(count)
            .saturating_add(program);
        for applicant in own..own.saturating_add(2).min(applicants) {
            write!(file, ",a{applicant}")?;
        }
    }
    Ok(())
}

// The second of the three programs doesn't list the applicant.
fn push_wishes(file: &mut String, programs: u32, applicant: u32) -> Result<(), AllocError> {
    let count = programs.max(1);
    let own = applicant % count;
    let before = applicant.saturating_add(count - 1) % count;
    let other = applicant.saturating_add(5) % count;
    write!(file, "applicant,a{applicant},p{before},p{other},p{own}\n")
}

// Program p lists the applicants whose numbers are p or p + 1, up to a multiple of the programs' count, from the last
// ones down. It has posts for half of them. Of an applicant's three programs the second doesn't list it.
fn many_programs(alloc: Global, applicants: u32, programs: u32) -> Result<String, AllocError> {
    let mut file = String::from_str(alloc, "match,2\n")?;
    for program in 0..programs {
        let quota = applicants / programs.max(1);
        write!(file, "program,p{program},{quota}")?;
        push_every_so_many(&mut file, applicants, programs, program)?;
        file.push_str("\n")?;
    }
    for applicant in 0..applicants {
        push_wishes(&mut file, programs, applicant)?;
    }
    Ok(file)
}

// The match that places nobody, the best match, and that with the last applicant at the last program.
fn expect_plain_on<R: Abort + Threads + Sync>(
    rt: &R,
    alloc: Global,
    of: &str,
    roster: &Roster,
    ranks: &Ranks,
) -> Result<(), AllocError>
    requires { ranks.now ≡ ranked_of roster.now.market }
{
    expect_tables(rt, of, roster, ranks);
    expect_findings(rt, alloc, of, roster, ranks, 1)?;
    let best = singles(alloc, roster, ranks)?;
    let places = best.places.into_vec();
    expect_finding_on_change(rt, alloc, of, roster, ranks, places.as_slice())?;
    plain_finding(rt, alloc, of, roster, ranks, places)?;
    Ok(())
}

// More applicants than a block of the tables has, and more programs than one thread reads.
#[test]
fn do_many_programs_give_the_plain_answers(rt: HostRuntime) -> Result<(), AllocError> {
    let alloc = rt.alloc();
    let file = many_programs(alloc, 25_011, 530)?;
    let compared = with_ranks(
        &rt,
        alloc,
        file.as_bytes(),
        |roster: &Roster, ranks: &Ranks<'_>| -> Result<(), AllocError>
            requires { ranks.now ≡ ranked_of roster.now.market }
        { expect_plain_on(&rt, alloc, "many programs", roster, ranks) },
    );
    compared.expect(&rt, "many programs");
    Ok(())
}
