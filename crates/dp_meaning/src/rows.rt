ghost use Rattle.dp_meaning.specs.MeaningLaws.{RepairedRowsAreCounted, RowsSumToTheirScales};

/// Every row of chances of a model that a file means sums to its scale.
pub fn rows_sum_to_their_scales()
    ensures { RowsSumToTheirScales }
{}

/// The count of repaired rows is the number of rows that are given with a sum that is not their scale.
#[tactic(auto, using(crate::proofs::RowLaws::repaired_rows))]
pub fn repaired_rows_are_counted()
    ensures { RepairedRowsAreCounted }
{}
