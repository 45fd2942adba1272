ghost use Rattle.std.specs.Prelude.{◌≡◌, ◌++◌, ◌+◌, ◌<◌, ◌≤◌, ◌^◌, IfOk, OnOk, decimal};
ghost use Rattle.mt_report.specs.Drains.{contents_of, failures_of};
ghost use Rattle.mt_spent.specs.Spent.{couple_words, group, grouped, order_words, outcome, spent_line, SaysLine};

use mt_answer::Entering;
use mt_report::{Drain, put_all};
use std::alloc::{AllocError, Global};
use std::io::Write;

/// Adds a number.
fn push_number(line: &mut Vec<u8>, alloc: Global, number: u32) -> Result<(), AllocError>
    ensures { OnOk result (line.new.items ≡ line.old.items ++ decimal number) }
{
    let digits = format!(in alloc; "{number}")?;
    line.extend_from_slice(digits.as_bytes())
}

/// Adds a comma, and a number below 1,000 by three digits.
fn push_group(line: &mut Vec<u8>, number: u32) -> Result<(), AllocError>
    requires { number < 1000 }
    ensures { OnOk result (line.new.items ≡ line.old.items ++ group number) }
{
    line.push(b',')?;
    line.push(b'0' + (number / 100) as u8)?;
    line.push(b'0' + (number / 10 % 10) as u8)?;
    line.push(b'0' + (number % 10) as u8)?;
    Ok(())
}

/// Adds a number with a comma before each three digits but the first.
#[tactic(auto, unfolding(crate::specs::Spent::grouped))]
fn push_grouped(line: &mut Vec<u8>, alloc: Global, number: u32) -> Result<(), AllocError>
    ensures { OnOk result (line.new.items ≡ line.old.items ++ grouped number) }
{
    if number < 1000 {
        return push_number(line, alloc, number);
    }
    if number < 1_000_000 {
        push_number(line, alloc, number / 1000)?;
    } else if number < 1_000_000_000 {
        push_number(line, alloc, number / 1_000_000)?;
        push_group(line, number / 1000 % 1000)?;
    } else {
        push_number(line, alloc, number / 1_000_000_000)?;
        push_group(line, number / 1_000_000 % 1000)?;
        push_group(line, number / 1000 % 1000)?;
    }
    push_group(line, number % 1000)
}

/// Adds a number of rounds between two texts.
fn push_rounds(
    line: &mut Vec<u8>,
    alloc: Global,
    before: &[u8],
    rounds: u32,
    after: &[u8],
) -> Result<(), AllocError>
    ensures { OnOk result
        (line.new.items ≡ line.old.items ++ (before.now ++ (grouped rounds ++ after.now))) }
{
    line.extend_from_slice(before)?;
    push_grouped(line, alloc, rounds)?;
    line.extend_from_slice(after)
}

/// Adds what is said of the rounds: that no budget is enough, or how large the budget was.
#[tactic(auto, unfolding(crate::specs::Spent::outcome))]
fn push_outcome(
    line: &mut Vec<u8>,
    alloc: Global,
    entering: &Entering,
    budget: u32,
) -> Result<(), AllocError>
    ensures { OnOk result (line.new.items ≡ line.old.items ++ outcome entering.now budget) }
{
    if entering.comes_back {
        let after = b" rounds all was as before, so no budget is enough\n";
        push_rounds(line, alloc, b"; after ", entering.rounds, after)
    } else {
        push_rounds(
            line,
            alloc,
            b" when the budget of ",
            budget,
            b" rounds was spent\n",
        )
    }
}

/// What is said of the order, if several were tried.
fn order_words(orders: u32) -> &'static [u8]
    ensures { result.now ≡ order_words orders }
{
    if orders > 1 {
        b" in the order of registration"
    } else {
        b""
    }
}

/// Adds which couple was entering, and in which order.
fn push_couple(line: &mut Vec<u8>, id: &[u8], orders: u32) -> Result<(), AllocError>
    ensures { OnOk result (line.new.items ≡ line.old.items ++ couple_words id.now orders) }
{
    line.extend_from_slice(b"nrmatch: couple ")?;
    line.extend_from_slice(id)?;
    line.extend_from_slice(b" was entering")?;
    line.extend_from_slice(order_words(orders))?;
    Ok(())
}

/// The line that says which couple was entering, and why it ended.
#[tactic(auto, unfolding(crate::specs::Spent::spent_line))]
fn spent_line(
    alloc: Global,
    entering: &Entering,
    budget: u32,
    orders: u32,
) -> Result<Vec<u8>, AllocError>
    ensures { IfOk result (λ line. line.items ≡ spent_line entering.now budget orders) }
{
    let mut line = Vec::new(alloc);
    push_couple(&mut line, entering.id.as_bytes(), orders)?;
    push_outcome(&mut line, alloc, entering, budget)?;
    Ok(line)
}

/// Says on a writer which couple was entering when the budget was spent. If there is no memory for the line, it says
/// nothing. The writer fails once, at the most.
pub fn say_spent<W: Write>(
    drain: &mut Drain<W>,
    alloc: Global,
    entering: &Entering,
    budget: u32,
    orders: u32,
)
    requires { failures_of drain.old + 1 < 2 ^ 64 }
    ensures says { SaysLine (spent_line entering.now budget orders)
        (contents_of W.contents drain.old) (contents_of W.contents drain.new) }
    ensures failures { failures_of drain.new ≤ failures_of drain.old + 1 }
{
    if let Ok(line) = spent_line(alloc, entering, budget, orders) {
        put_all(drain, &line);
    }
}
