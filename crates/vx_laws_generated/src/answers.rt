// The laws of the scan of the generated table.

ghost use Rattle.vx_laws_generated.specs.GeneratedLaws.{NoGeneratedPhaseBreaks, GeneratedScansAnswerIds, GeneratedScansSkip, GeneratedLineIsOfNumbers};

/// No phase of the scan breaks.
pub fn no_generated_phase_breaks()
    ensures { NoGeneratedPhaseBreaks }
{}

/// The scan answers the numbers of the rows of the table's second half in which `v` is below 50, in order; these are all that match.
pub fn generated_scans_answer_ids()
    ensures { GeneratedScansAnswerIds }
{}

/// The scan skips the blocks that end in the first half, and those in which no `v` is below 50.
pub fn generated_scans_skip()
    ensures { GeneratedScansSkip }
{}

/// The line of the scan in plain numbers.
pub fn generated_line_is_of_numbers()
    ensures { GeneratedLineIsOfNumbers }
{}
