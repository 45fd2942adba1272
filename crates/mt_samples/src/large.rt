//! Large markets, each made by a rule, with the text that is published for it.

use std::alloc::{AllocError, Global};

// `count` numbers from `first` on, each between these texts.
fn push_each(
    file: &mut String,
    before: &str,
    first: u32,
    count: u32,
    after: &str,
) -> Result<(), AllocError> {
    for number in first..first.saturating_add(count) {
        write!(file, "{before}{number}{after}")?;
    }
    Ok(())
}

/// A program with 1,000 posts lists 2,000 applicants, and wants the last one most. The error is want of memory.
pub fn one_program(alloc: Global) -> Result<String, AllocError> {
    let mut file = String::from_str(alloc, "match,1\nprogram,P,1000")?;
    for back in 0..2_000u32 {
        write!(file, ",a{}", 1_999 - back)?;
    }
    file.push_str("\n")?;
    push_each(&mut file, "applicant,a", 0, 2_000, ",P\n")?;
    Ok(file)
}

/// The last 1,000 have the posts. The error is want of memory.
pub fn one_program_text(alloc: Global) -> Result<String, AllocError> {
    let mut text = String::from_str(alloc, "match,1,published\n")?;
    push_each(&mut text, "applicant,a", 0, 1_000, ",-\n")?;
    push_each(&mut text, "applicant,a", 1_000, 1_000, ",P\n")?;
    text.push_str("program,P,1000,1000,2000\ntotals,2000,1000,1000,0\n")?;
    Ok(text)
}

/// Behind two couples 1,000 singles want the two posts of x. These are 1,005 rounds. D takes both posts from s1 and
/// s2, which aren't taken again. E takes x and z and displaces D, which isn't taken again. s1 takes the post that was
/// left. The 999 others aren't taken. The error is want of memory.
pub fn waiting_singles(alloc: Global) -> Result<String, AllocError> {
    let mut file = String::from_str(alloc, "match,1\nprogram,x,2,c,e1,d")?;
    push_each(&mut file, ",s", 1, 1_000, "")?;
    file.push_str("\nprogram,z,1,e2\n")?;
    push_each(&mut file, "applicant,s", 1, 1_000, ",x\n")?;
    file.push_str("couple,D,c,d,x,x\ncouple,E,e1,e2,x,z\n")?;
    Ok(file)
}

pub fn waiting_singles_text(alloc: Global) -> Result<String, AllocError> {
    let mut text = String::from_str(alloc, "match,1,published\napplicant,s1,x\n")?;
    push_each(&mut text, "applicant,s", 2, 999, ",-\n")?;
    text.push_str("applicant,c,-\napplicant,d,-\napplicant,e1,x\napplicant,e2,z\n")?;
    text.push_str("program,x,2,2,1000\nprogram,z,1,1,0\ntotals,1004,1001,3,0\n")?;
    Ok(text)
}
