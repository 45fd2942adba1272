ghost use Rattle.mt_terms.specs.Registration.Passes.{numbered_from};
ghost use Rattle.mt_records.specs.Bodies.{GivesBody};

use crate::rules::{Rules, rules_of};
use mt_lists::{Rows, RowsIter};

/// What follows the record that names a version: the rules of that version, and the rows. The first row has this
/// number.
#[derive(Clone, Copy)]
pub struct Body<'a> {
    pub rules: Rules,
    pub rows: RowsIter<'a>,
    pub first: u64,
}

/// What follows the record that names a version, which is the first with a field. The error is the number of a record
/// that names none, or 0 if no record has a field.
pub fn body_of<'a>(rows: &'a Rows<'_>) -> Result<Body<'a>, u64>
    ensures { GivesBody (numbered_from 1 rows.now) result }
{
    let mut rest = rows.iter();
    let mut number = 0;
    while let Some(row) = rest.next() {
        number += 1;
        if !row.is_empty() {
            return match rules_of(row.fields()) {
                Some(rules) => Ok(Body {
                    rules,
                    rows: rest,
                    first: number + 1,
                }),
                None => Err(number),
            };
        }
    }
    Err(0)
}
