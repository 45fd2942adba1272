ghost use Rattle.std.specs.Prelude.{◌≡◌, ◌-◌, length, IfOk};
ghost use Rattle.mt_order_laws.specs.Orders.{generator_of, order_of, shuffled};

use mt_reordered::all_couples;
use mt_terms::CoupleNo;
use rand_core::utils::NextWord;
use rand_pcg::Pcg32;
use std::alloc::{AllocError, Global};

/// Shuffles an order (Fisher and Yates 1938, in Durstenfeld's form of 1964), by the generator PCG32 (O'Neill 2014) that
/// starts with the order's number.
fn shuffle(order: &mut [CoupleNo], number: u32)
    ensures { order.new ≡ shuffled (length order.old - 1) (generator_of number) order.old }
{
    let mut words = Pcg32::new(u64::from(number), 0);
    for last in (1..order.len()).rev() {
        let other = words.next_word() as usize % (last + 1);
        order.swap(last, other);
    }
}

/// The order of a number, from 1, of the couples below `couples`. Order 1 is that of registration, and each other one is
/// a shuffle of it. The only error is want of memory.
pub fn order_of(alloc: Global, number: u32, couples: u32) -> Result<Vec<CoupleNo>, AllocError>
    ensures { IfOk result (λ order. order.items ≡ order_of number couples) }
{
    let mut order = all_couples(alloc, couples)?;
    if number == 1 {
        return Ok(order);
    }
    shuffle(&mut order, number);
    Ok(order)
}
