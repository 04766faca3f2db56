// The laws of the first rows by a key.

ghost use Rattle.vx_laws_topk.specs.TopLaws.{AllKeyedAreRows, BoundLosesNone, CountOfNone, OrderIsSorted, OrderIsStable, OrderKeepsRows};
ghost use Rattle.vx_laws_topk.specs.TopLaws.{TopIsOfAllRows, TopOfTop};

/// The rows in the order of their keys are the given rows; where the keys are null or of one plain type, none stands before an earlier one, and
/// tied ones are in their own order.
pub fn key_order_keeps_rows()
    ensures rows { OrderKeepsRows }
    ensures sorted { OrderIsSorted }
    ensures stable { OrderIsStable }
{}

/// The first of rows and of further rows are the first of the first of these rows and of the further ones.
pub fn top_of_top()
    ensures { TopOfTop }
{}

/// Where as many rows as are asked were found and the last of the first ones has a key that isn't null, no further row whose key doesn't stand
/// before that one is among the first.
pub fn bound_loses_none()
    ensures { BoundLosesNone }
{}

/// Over honest statistics of a table whose rows are values of its type, where the key is a column of a plain type and neither the filter nor the
/// projection compares with a slot, the rows of the answer are the first of all matching rows; these, without their keys, are all rows of the scan.
pub fn top_is_of_all_rows()
    ensures first { TopIsOfAllRows }
    ensures all { AllKeyedAreRows }
{}

/// Where no row is asked, all blocks are skipped and there is no row.
pub fn count_of_none_gives_none()
    ensures { CountOfNone }
{}
