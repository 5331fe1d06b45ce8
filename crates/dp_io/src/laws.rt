// What follows of the definitions. Each law is the one clause of a function that does nothing.
ghost use Rattle.dp_io.specs.FetchLaws.{FaultsRiseWithFailed, ToldFetchIsDetermined};
ghost use Rattle.dp_io.specs.MemShelf.{EachHoldsItsLatest};

/// A fetch fails exactly where the count of faults rises, and that count never falls.
pub fn a_fetch_fails_where_the_faults_rise()
    ensures { FaultsRiseWithFailed }
{}

/// Where a shelf tells its contents, they determine what a fetch answers, want of memory aside.
pub fn a_told_fetch_is_determined()
    ensures { ToldFetchIsDetermined }
{}

/// In a shelf in memory a name holds what it was made to hold last, the empty text too, and every
/// other name what it held before.
pub fn a_name_holds_what_it_was_given_last()
    ensures { EachHoldsItsLatest }
{}
