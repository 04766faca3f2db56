// The law of scans that do not break.

ghost use Rattle.vx_laws_scan.specs.Quiet.{QuietRowsHoldNoFault};

/// Where no phase of a scan breaks, and the table's rows are values of its type, no row of the kept blocks' answer holds a fault, at any depth.
pub fn quiet_rows_hold_no_fault()
    ensures { QuietRowsHoldNoFault }
{}
