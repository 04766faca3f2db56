// What the exit status of a run tells of the argument `text`.
ghost use Rattle.std.specs.Prelude.{◌≡◌, ◌≢◌, codes, Option, Some, Err};
ghost use Rattle.vx_dtype.specs.Types.{Bytes};
ghost use Rattle.vx_scan.specs.Stores.{StoreSeen};
ghost use Rattle.vx_text.specs.Reading.{reading_of};
ghost use Rattle.vx_text.specs.declared.errors.TextError.{TextError};
ghost use Rattle.vx_text.specs.declared.errors.TextError.TheVariants.{TooLong};
ghost use Rattle.vx_query.specs.Causes.{IsNamed, IsLongQuery};
ghost use Rattle.vx_query.specs.Refusals.{text_refusal_name};
ghost use Rattle.vx_query.specs.Exactly.{QueriesEndSo};
ghost use Rattle.vx_query.specs.Running.{End, HasDeepType, IsRun, text_form};

/// 0 of the argument `text` with a query means that the query names an expression, whose bytes were written whole, two
/// hexadecimal digits for each.
pub fn text_is_named_exactly()
    ensures { (query : Bytes) (i i' o o' : End) (used : Option StoreSeen) → IsRun (Some (text_form query)) i i' o o' used 0 → IsNamed query i i' o o' used }
{}

/// A query is refused with BadToken, TooManyTokens, BadQuery or BadValue exactly where its reading is; with TooLong exactly
/// where it is too long itself, or a part of the expression that it names is; and with NotSerializable exactly where a type in
/// this expression is deeper than 64.
pub fn texts_say_why()
    ensures refused { (e : TextError) → e ≢ TooLong → QueriesEndSo 4 (text_refusal_name e) (λ query. reading_of query ≡ Err e) }
    ensures too_long { QueriesEndSo 4 (codes "TooLong") IsLongQuery }
    ensures not_serializable { QueriesEndSo 4 (codes "NotSerializable") HasDeepType }
{}
