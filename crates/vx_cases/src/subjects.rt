// What a case may ask of its expressions.

/// A question about the expressions of a case.
#[derive(Clone, Copy)]
pub(crate) enum Subject {
    /// The tokens of the query.
    Tokens,
    /// The compact text of the expression that the query names, or its refusal.
    Read,
    /// The query that this expression is written as, or a refusal; and whether it is read as another expression.
    ReadAndWritten,
    /// The query that the projection is written as, or its refusal; and whether it is read as another expression.
    Written,
    /// The same of a comparison of the projection with a slot, exchanged.
    WrittenDynamic,
    /// The compact text of the projection.
    Compact,
    /// The bytes that the projection is written as.
    Bytes,
    /// The tree text of the projection.
    Tree,
    /// The names of the projection's children, each ended by `;`, or `none`.
    ChildNames,
    /// The projection's strict type.
    StrictType,
    /// The projection's looser type.
    LooseType,
    /// The projection's values over the first block.
    Values,
    /// The projection with comparisons that bound one value as ranges.
    Ranges,
    /// The simplified projection.
    Simplified,
    /// The projection, its row replaced by a pack of the row's fields.
    Replaced,
    /// The projection without selects.
    WithoutSelect,
    /// The projection without merges.
    WithoutMerge,
    /// The projection, simplified by types.
    SimplifiedTyped,
    /// The parts of the projection by the columns that it touches.
    Parts,
    /// The pruning expression of the filter.
    Pruning,
    /// The statistics that it needs.
    Required,
    /// The blocks that the filter rules out.
    RuledOut,
    /// The table that the input tells, or its refusal.
    Table,
    /// The scan of the table, or the refusal of the request.
    Scan,
    /// The scan of a store that doesn't tell the table.
    ScanUntold,
    /// The scans of a store that fails at each read in turn.
    ScanFailing,
    /// The exit status of the program by the words of the case over its request, and what it writes.
    Run,
}

/// The members of a case that hold an answer, each with its question.
pub(crate) const SUBJECTS: [(&str, Subject); 27] = [
    ("tokens", Subject::Tokens),
    ("read", Subject::Read),
    ("read_and_written", Subject::ReadAndWritten),
    ("written", Subject::Written),
    ("written_dynamic", Subject::WrittenDynamic),
    ("compact", Subject::Compact),
    ("bytes", Subject::Bytes),
    ("tree", Subject::Tree),
    ("child_names", Subject::ChildNames),
    ("strict_type", Subject::StrictType),
    ("loose_type", Subject::LooseType),
    ("values", Subject::Values),
    ("ranges", Subject::Ranges),
    ("simplified", Subject::Simplified),
    ("replaced", Subject::Replaced),
    ("without_select", Subject::WithoutSelect),
    ("without_merge", Subject::WithoutMerge),
    ("simplified_typed", Subject::SimplifiedTyped),
    ("parts", Subject::Parts),
    ("pruning", Subject::Pruning),
    ("required", Subject::Required),
    ("ruled_out", Subject::RuledOut),
    ("table", Subject::Table),
    ("scan", Subject::Scan),
    ("scan_untold", Subject::ScanUntold),
    ("scan_failing", Subject::ScanFailing),
    ("run", Subject::Run),
];
