ghost use Rattle.std.specs.Prelude.{◌≡◌};
ghost use Rattle.mt_lists.specs.Rows.{fields_left};
ghost use Rattle.mt_terms.specs.Registration.Records.{rules_of};

use mt_lists::Fields;
use mt_terms::{LIMITS, LIMITS_2, Limits};
use std::marker::Model;

/// What a version of the format allows.
#[derive(Clone, Copy)]
pub struct Rules {
    pub limits: Limits,
    /// Whether rows may be withdrawn.
    pub withdrawals: bool,
    /// Whether one of the two ids of a pair may be `-`.
    pub half_pairs: bool,
}

impl Model for Rules {
    ghost use Rattle.mt_terms.specs.Registration.Records.{Rules as Allowed};

    ghost Value = { Allowed };

    ghost view = { λ r. record { limits = r.limits; withdrawals = r.withdrawals; half_pairs = r.half_pairs } };

    ghost inverse = { λ v. record { limits = v.limits; withdrawals = v.withdrawals; half_pairs = v.half_pairs } };
}

/// The rules of version 1.
const VERSION_1: Rules = Rules {
    limits: LIMITS,
    withdrawals: false,
    half_pairs: false,
};

/// The rules of version 2.
const VERSION_2: Rules = Rules {
    limits: LIMITS_2,
    withdrawals: true,
    half_pairs: true,
};

/// The rules of the version that a record names, which is exactly `match`, `1` or `match`, `2`.
pub fn rules_of(all: Fields<'_>) -> Option<Rules>
    ensures { result ≡ rules_of (fields_left all.entry) }
{
    let mut fields = all;
    if fields.next()? != b"match".as_slice() {
        return None;
    }
    let number = fields.next()?;
    if fields.next().is_some() {
        return None;
    }
    if number == b"1".as_slice() {
        Some(VERSION_1)
    } else if number == b"2".as_slice() {
        Some(VERSION_2)
    } else {
        None
    }
}
