//! Markets of a hundred applicants and ten programs of five posts, where everybody ranks everybody.

use mt_terms::ProgNo;
use std::alloc::{AllocError, Global};

fn push_numbered(
    alloc: Global,
    file: &mut String,
    before: &str,
    number: u32,
    after: &str,
) -> Result<(), AllocError> {
    let text = format!(in alloc; "{before}{number}{after}")?;
    file.push_str(&text)
}

// The numbers below a count, each of them once: from the first on by steps, which end the row.
fn push_list(
    alloc: Global,
    file: &mut String,
    before: &str,
    count: u32,
    first: u32,
    step: u32,
) -> Result<(), AllocError> {
    for place in 0..count {
        let number = place.saturating_mul(step).saturating_add(first) % count;
        push_numbered(alloc, file, before, number, "")?;
    }
    file.push_str("\n")
}

// Who has an order of its own.
#[derive(Clone, Copy)]
pub(crate) enum Orders {
    // Each program and each applicant.
    Own,
    // Nobody: all programs want the last applicant most, and all applicants the first program.
    Common,
}

const STEPS: &[u32] = &[1, 3, 7, 9, 11, 13, 17, 19, 21, 23];

fn push_programs(alloc: Global, file: &mut String, orders: Orders) -> Result<(), AllocError> {
    for program in 0..10u32 {
        let (first, step) = match orders {
            Orders::Own => (program, STEPS[program as usize]),
            Orders::Common => (99, 99),
        };
        push_numbered(alloc, file, "program,p", program, ",5")?;
        push_list(alloc, file, ",a", 100, first, step)?;
    }
    Ok(())
}

fn push_applicants(alloc: Global, file: &mut String, orders: Orders) -> Result<(), AllocError> {
    for applicant in 0..100u32 {
        let (first, step) = match orders {
            Orders::Own => (applicant * 7, 3),
            Orders::Common => (0, 1),
        };
        push_numbered(alloc, file, "applicant,a", applicant, "")?;
        push_list(alloc, file, ",p", 10, first, step)?;
    }
    Ok(())
}

// The file of the market.
pub(crate) fn hundred(alloc: Global, orders: Orders) -> Result<String, AllocError> {
    let mut file = String::new(alloc);
    file.push_str("match,1\n")?;
    push_programs(alloc, &mut file, orders)?;
    push_applicants(alloc, &mut file, orders)?;
    Ok(file)
}

// In the common order the last applicant chooses first. So the last five have the first program, the five before them
// the second one, and the first fifty have none.
pub(crate) fn common_places(alloc: Global) -> Result<Vec<Option<ProgNo>>, AllocError> {
    let mut places = Vec::with_capacity(alloc, 100)?;
    for applicant in 0..100u32 {
        let before = 99 - applicant;
        places.push(if before < 50 {
            Some(ProgNo(before / 5))
        } else {
            None
        })?;
    }
    Ok(places)
}

// Everybody proposes to the first program. To each other program those applicants propose that no program before it
// holds.
pub(crate) fn common_proposals(alloc: Global) -> Result<Vec<u32>, AllocError> {
    let mut proposals = Vec::with_capacity(alloc, 10)?;
    for program in 0..10u32 {
        proposals.push(100 - 5 * program)?;
    }
    Ok(proposals)
}

// 100, 95 and so on to 55.
pub(crate) const ALL_COMMON_PROPOSALS: u128 = 775;
