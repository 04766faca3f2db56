// Equality and hash of values: by their whole structure.
ghost use Rattle.std.specs.Prelude.{◌≡◌, Decides, fold, map};
ghost use Rattle.std.specs.Cmp.{on_per, on_equiv, partial_equiv_from_equiv};
ghost use Rattle.std.proofs.Common.{ap};
ghost use Rattle.vx_dtype.specs.Equal.{raw_eq, raws_eq};
ghost use Rattle.vx_dtype.specs.EqualLaws.{raw_eq_equiv, raw_decides};
ghost use Rattle.vx_dtype.specs.Feeds.{raw_feed, raws_feed};
ghost use Rattle.vx_dtype.specs.RawViews.{raw_view, raws_of};

use super::ScalarValue;
use std::hash::{Hash, Hasher};

#[cycle(same)]
#[tactic(auto, unfolding(crate::specs::Equal::raw_eq))]
fn same(left: &ScalarValue, right: &ScalarValue) -> bool
    ensures { result ≡ raw_eq (raw_view left.now) (raw_view right.now) }
{
    match (left, right) {
        (ScalarValue::Null, ScalarValue::Null) => true,
        (ScalarValue::Bool(b), ScalarValue::Bool(c)) => b == c,
        (ScalarValue::Int(i), ScalarValue::Int(j)) => i == j,
        (ScalarValue::Utf8(s), ScalarValue::Utf8(t)) => s == t,
        (ScalarValue::List(xs), ScalarValue::List(ys)) => same_values(xs, ys),
        (ScalarValue::Struct(xs), ScalarValue::Struct(ys)) => same_values(xs, ys),
        _ => false,
    }
}

#[cycle(same)]
#[tactic(auto, using(crate::proofs::RawLemmas::raws_eq_lengths), unfolding(crate::specs::Equal::raws_eq))]
fn same_values(left: &[ScalarValue], right: &[ScalarValue]) -> bool
    ensures { result ≡ raws_eq (raws_of (map raw_view left.now)) (raws_of (map raw_view right.now)) }
{
    if left.len() != right.len() {
        return false;
    }
    for i in 0..left.len() {
        if !same(&left[i], &right[i]) {
            return false;
        }
    }
    true
}

impl PartialEq for ScalarValue {
    ghost eq = { λ x y. raw_eq (raw_view x) (raw_view y) };

    ghost laws = { on_per raw_view (partial_equiv_from_equiv raw_eq_equiv) };

    #[tactic(auto, using(crate::specs::EqualLaws::raw_decides))]
    fn eq(&self, other: &ScalarValue) -> bool
        ensures gives { result ≡ raw_eq (raw_view self.now) (raw_view other.now) }
        ensures same { Decides result (raw_view self.now ≡ raw_view other.now) }
    {
        same(self, other)
    }
}

impl Eq for ScalarValue {
    ghost laws = { on_equiv raw_view raw_eq_equiv };
}

#[cycle(feed)]
#[tactic(auto, unfolding(crate::specs::Feeds::raw_feed))]
fn feed<H: Hasher>(value: &ScalarValue, state: &mut H)
    ensures { state.new ≡ fold H.write state.old (raw_feed (raw_view value.now)) }
{
    match value {
        ScalarValue::Null => state.write_u8(0),
        ScalarValue::Bool(b) => {
            state.write_u8(1);
            b.hash(state);
        }
        ScalarValue::Int(i) => {
            state.write_u8(2);
            i.hash(state);
        }
        ScalarValue::Utf8(text) => {
            state.write_u8(3);
            text.hash(state);
        }
        ScalarValue::List(items) => {
            state.write_u8(4);
            feed_values(items, state);
        }
        ScalarValue::Struct(fields) => {
            state.write_u8(5);
            feed_values(fields, state);
        }
    }
}

#[cycle(feed)]
#[tactic(auto, unfolding(crate::specs::Feeds::raws_feed))]
fn feed_values<H: Hasher>(values: &[ScalarValue], state: &mut H)
    ensures { state.new ≡ fold H.write state.old (raws_feed (raws_of (map raw_view values.now))) }
{
    for i in 0..values.len() {
        state.write_u8(1);
        feed(&values[i], state);
    }
    state.write_u8(0);
}

impl Hash for ScalarValue {
    ghost hash_input = { λ value. raw_feed (raw_view value) };

    ghost respects_eq = { λ x y e. ap raw_feed ((raw_decides (raw_view x) (raw_view y)).0 e) };

    fn hash<H: Hasher>(&self, state: &mut H) {
        feed(self, state);
    }
}
