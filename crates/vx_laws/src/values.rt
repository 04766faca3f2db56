// What the values of a strictly typed expression are, and of a chain of field accesses.

ghost use Rattle.vx_laws.specs.Values.{AccessesMeanTheirPath, FaultsArePlain, MeaningFits, MeaningFitsWithAnySlots};

/// At a row that fits the scope's type, but perhaps for faults in place of plain values, and with slots that fit,
/// a strictly typed expression means a value that fits its type but for such faults.
pub fn meaning_fits_the_type()
    ensures { MeaningFits }
{}

/// At such a row, with any slots, a strictly typed expression means a value that fits its type but for such faults and for nulls in place of
/// plain values: null in a slot makes null of a comparison, also where the type says that there is none.
pub fn meaning_fits_with_any_slots()
    ensures { MeaningFitsWithAnySlots }
{}

/// At such a row, with any slots, a strictly typed expression means a fault itself only where its type is plain: one of struct or list type never does.
pub fn faults_are_plain()
    ensures { FaultsArePlain }
{}

/// A chain of field accesses over the row means the value of its path at the row, whatever the row is.
pub fn accesses_mean_their_path()
    ensures { AccessesMeanTheirPath }
{}
