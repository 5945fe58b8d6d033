//! What standing at an arrival list says of a ledger's facts.
ghost use Rattle.std.specs.Prelude.{length};
ghost use Rattle.cube_core.specs.Arrival.{Arrivals, of_sources};
ghost use Rattle.cube_core.specs.Sources.{SurviveTogether};
ghost use Rattle.cube_ledger.specs.Ledger.{LedgerView, LedgerStandsAt, all_facts};

/// A ledger that stands at an arrival list has exactly the facts that survive together in what the list has of each
/// source, whatever the order in which the items of different sources came (this project's choice).
pub fn ledgers_have_the_survivors()
    ensures { (ledger : LedgerView) (arrivals : Arrivals) → LedgerStandsAt ledger arrivals →
        SurviveTogether ledger.schema (of_sources (length ledger.accounts) arrivals)
        (all_facts ledger.accounts) }
{}
