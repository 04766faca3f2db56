// Where what an expression means holds no fault.

ghost use Rattle.vx_laws.specs.Faults.{NoBreakNoFault, NoNodeBreaksNoFault};

/// At a row of the scope's type at which no asked node of a strictly typed expression breaks, and with slots that fit,
/// what the expression means there holds no fault, at any depth.
pub fn no_break_no_fault()
    ensures { NoBreakNoFault }
{}

/// At such a row at which no node of the expression breaks, asked or not, by either cause,
/// what each of its nodes means there holds no fault, at any depth.
pub fn no_node_breaks_no_fault()
    ensures { NoNodeBreaksNoFault }
{}
