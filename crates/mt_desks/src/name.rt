use std::marker::Brand;
use std::sync::ledger::Ledger;

/// Names a hall: its ledger of credits, and the rank tables that all its parts speak of. A type that names a hall
/// names them once for all, so parts of one hall, lent to whatever threads, can't speak of different markets.
pub trait HallName: Ledger {
    ghost use Rattle.mt_ranks.specs.Ranked.{Ranked};

    ghost ranked: { Ranked };
}

impl HallName for Brand {
    ghost use Rattle.std.specs.Prelude.{[]};

    ghost ranked = { record { market = record { programs = []; lists = []; couples = [] }; singles = [] } };
}
