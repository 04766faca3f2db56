// Laws of what is explained: each is the contract of a function that does nothing.
ghost use Rattle.vx_laws_explaining.specs.ExplainingLaws.{EachBlockIsTold, NumberIsSkipped, PlansAreTyped, SkippedAreScans};
ghost use Rattle.vx_laws_explaining.specs.ExplainingLaws.{OneExplanationOfFile, OneExplanationOfFolder};

/// The blocks that are told as skipped are those that a scan of the statement's expressions skips, and no others; so many are told, and each block is told.
pub fn skipped_as_scans()
    ensures skipped { SkippedAreScans }
    ensures number { NumberIsSkipped }
    ensures each { EachBlockIsTold }
{}

/// The condition and the rows of a plan are typed over the rows of the table, and compare with no slot.
pub fn plans_are_typed()
    ensures { PlansAreTyped }
{}

/// A statement over a block file whose bytes are known is explained by one text; so is one over a folder, where it is known what stands there and what each
/// of its block files is.
pub fn one_explanation()
    ensures file { OneExplanationOfFile }
    ensures folder { OneExplanationOfFolder }
{}
