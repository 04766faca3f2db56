// How a caller knows that an expression compares with no slot.

ghost use Rattle.vx_topk.specs.SlotLaws.{UnseenSlotsAreNone};

/// An expression of which [`DynamicExprUpdates`](vx_eval::DynamicExprUpdates) sees no slot compares with none, as
/// [`top_rows`](crate::top_rows) wants it of filter and projection.
pub fn unseen_slots_are_none()
    ensures { UnseenSlotsAreNone }
{}
