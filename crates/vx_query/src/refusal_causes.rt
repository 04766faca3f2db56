// Which refusal a run tells: the row of each, both ways.
ghost use Rattle.std.specs.Prelude.{◌≡◌, ◌++◌, codes, None};
ghost use Rattle.vx_semantics.specs.Typing.{Refusal};
ghost use Rattle.vx_scan.specs.declared.errors.Side.{Side as ScannedSide};
ghost use Rattle.vx_scan.specs.declared.errors.Side.TheVariants.{Text};
ghost use Rattle.vx_scan.specs.declared.errors.ScanError.TheVariants as scans;
ghost use Rattle.vx_scan.specs.Scanning.{typing_error};
ghost use Rattle.vx_request.specs.Requests.{hex_bytes};
ghost use Rattle.vx_request.specs.declared.errors.Place.{Place};
ghost use Rattle.vx_request.specs.declared.errors.Side.{Side};
ghost use Rattle.vx_request.specs.declared.errors.TableRefusal.{TableRefusal};
ghost use Rattle.vx_query.specs.Refusals.{place_name, side_name, table_refusal_name, scanned_side_name, scan_refusal_name};
ghost use Rattle.vx_query.specs.RequestCauses.{IsTooLong, IsNoJson, IsMisformed, HasBadHex, HasBadTable};
ghost use Rattle.vx_query.specs.ExpressionCauses.{HoldsBadText, HoldsIllTyped, HoldsNoBoolean};
ghost use Rattle.vx_query.specs.Exactly.{RequestsEndSo, ExpressionsEndSo, WordsEndSo};
ghost use Rattle.vx_query.specs.Running.{WordIsRefused, reads_request, uses_expressions};

use crate::causes::wire_laws;

/// InputTooLong is told exactly where 16,777,217 bytes were taken of the input.
pub fn input_too_long_exactly()
    ensures { RequestsEndSo reads_request 3 (codes "InputTooLong") IsTooLong }
{}

/// BadJson is told exactly where an input that isn't too long is no text of JSON.
pub fn bad_json_exactly()
    ensures { RequestsEndSo reads_request 3 (codes "BadJson") IsNoJson }
{}

/// BadRequest is told with a place exactly where the value of the input isn't of a request's form there, and is before.
pub fn bad_request_exactly()
    ensures { (place : Place) → RequestsEndSo reads_request 3 (codes "BadRequest " ++ place_name place) (IsMisformed place) }
{}

/// BadHex is told with a side exactly where the text of this expression is no hexadecimal text, the filter's first; and with
/// `text` exactly where the word to be shown is none.
pub fn bad_hex_exactly()
    ensures request { (side : Side) → RequestsEndSo reads_request 3 (codes "BadHex " ++ side_name side) (HasBadHex side) }
    ensures word { WordsEndSo 3 (codes "BadHex text") (λ word. hex_bytes word ≡ None) }
{}

/// BadTable is told with a name exactly where this is the first thing that is wrong with the table of a request: a rule that
/// its columns and statistics break, a block that is no rectangle, or a cell that is no value of its column's type.
pub fn bad_table_exactly()
    ensures { (refusal : TableRefusal) → RequestsEndSo reads_request 3 (codes "BadTable " ++ table_refusal_name refusal) (HasBadTable refusal) }
{}

/// BadWire, TooDeep and TooManyNodes are told with a side exactly where the bytes of this expression are refused so, the
/// filter's first; and with `text` exactly where those of the word to be shown are.
pub fn wire_refusals_exactly()
    ensures bad_wire { (side : ScannedSide) → RequestsEndSo uses_expressions 4 (codes "BadWire " ++ scanned_side_name side) (HoldsBadText (scans.BadWire side)) }
    ensures too_deep { (side : ScannedSide) → RequestsEndSo uses_expressions 4 (codes "TooDeep " ++ scanned_side_name side) (HoldsBadText (scans.TooDeep side)) }
    ensures too_many_nodes { (side : ScannedSide) →
        RequestsEndSo uses_expressions 4 (codes "TooManyNodes " ++ scanned_side_name side) (HoldsBadText (scans.TooManyNodes side)) }
    ensures bad_wire_word { WordsEndSo 4 (codes "BadWire text") (λ word. WordIsRefused word (scans.BadWire Text)) }
    ensures too_deep_word { WordsEndSo 4 (codes "TooDeep text") (λ word. WordIsRefused word (scans.TooDeep Text)) }
    ensures too_many_nodes_word { WordsEndSo 4 (codes "TooManyNodes text") (λ word. WordIsRefused word (scans.TooManyNodes Text)) }
{
    wire_laws();
}

/// UnknownExpr, BadMetadata and WrongChildren are told with a side exactly where the tree that the bytes of this expression
/// spell is refused so, the filter's first; and with `text` exactly where that of the word to be shown is.
pub fn build_refusals_exactly()
    ensures unknown_expr { (side : ScannedSide) →
        RequestsEndSo uses_expressions 4 (codes "UnknownExpr " ++ scanned_side_name side) (HoldsBadText (scans.UnknownExpr side)) }
    ensures bad_metadata { (side : ScannedSide) →
        RequestsEndSo uses_expressions 4 (codes "BadMetadata " ++ scanned_side_name side) (HoldsBadText (scans.BadMetadata side)) }
    ensures wrong_children { (side : ScannedSide) →
        RequestsEndSo uses_expressions 4 (codes "WrongChildren " ++ scanned_side_name side) (HoldsBadText (scans.WrongChildren side)) }
    ensures unknown_expr_word { WordsEndSo 4 (codes "UnknownExpr text") (λ word. WordIsRefused word (scans.UnknownExpr Text)) }
    ensures bad_metadata_word { WordsEndSo 4 (codes "BadMetadata text") (λ word. WordIsRefused word (scans.BadMetadata Text)) }
    ensures wrong_children_word { WordsEndSo 4 (codes "WrongChildren text") (λ word. WordIsRefused word (scans.WrongChildren Text)) }
{
    wire_laws();
}

/// NotStruct, NullableSelect, UnknownField, DuplicateField and TypeMismatch are told with a side exactly where the strict
/// typing of this expression over the rows of the table refuses so; of the projection, where the filter is a boolean. With `top` they come behind the
/// key: where this is refused they aren't told.
pub fn typing_refusals_exactly()
    ensures { (side : ScannedSide) (r : Refusal) → ExpressionsEndSo 4 (scan_refusal_name (typing_error side r)) (HoldsIllTyped side r) }
{
    wire_laws();
}

/// FilterNotBool is told exactly where the filter has a strict type that isn't the boolean one; with `top` behind the key, likewise.
pub fn filter_not_bool_exactly()
    ensures { ExpressionsEndSo 4 (codes "FilterNotBool") HoldsNoBoolean }
{
    wire_laws();
}
