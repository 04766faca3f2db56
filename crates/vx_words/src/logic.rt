// Kleene's logic on words of bits: whole vectors of words, and then the words that are left.
ghost use Rattle.std.specs.Prelude.{◌≡◌, ℕ, ◌+◌, ◌*◌, ◌<◌, ◌≤◌, length};
ghost use Rattle.vx_dtype.specs.Logic.{and3, or3, not3};
ghost use Rattle.vx_words.specs.Words.{val_of_words, AreBareUnderNull, Holds, KeepFirst, AreAsLong, AreConnected};
ghost use Rattle.vx_words.specs.Connectives.{connected3};

use std::simd::Simd;

/// How many words a vector has.
const LANES: usize = 4;

/// A connective of two sides.
#[derive(Clone, Copy, Debug)]
pub(crate) enum Connective {
    And,
    Or,
}

/// Whether both sides hold, place by place, by Kleene's logic: false beside anything is false, true beside true is true, all else is null. Each pair
/// of lists holds truths: the first has the bits of validity, the second those of the values.
pub fn and_words(lv: &[u64], lb: &[u64], rv: &[u64], rb: &[u64], ov: &mut [u64], ob: &mut [u64])
    requires { AreAsLong lv.now lb.now rv.now rb.now ov.old ob.old }
    ensures { AreConnected and3 lv.now lb.now rv.now rb.now ov.new ob.new }
{
    connect_words(Connective::And, lv, lb, rv, rb, ov, ob);
}

/// Whether one side holds, place by place, by Kleene's logic: true beside anything is true, false beside false is false, all else is null. Each pair
/// of lists holds truths: the first has the bits of validity, the second those of the values.
pub fn or_words(lv: &[u64], lb: &[u64], rv: &[u64], rb: &[u64], ov: &mut [u64], ob: &mut [u64])
    requires { AreAsLong lv.now lb.now rv.now rb.now ov.old ob.old }
    ensures { AreConnected or3 lv.now lb.now rv.now rb.now ov.new ob.new }
{
    connect_words(Connective::Or, lv, lb, rv, rb, ov, ob);
}

/// The two sides connected, place by place. Inlined, so that a caller that names the connective has loops for it alone.
#[inline(always)]
pub(crate) fn connect_words(
    connective: Connective,
    lv: &[u64],
    lb: &[u64],
    rv: &[u64],
    rb: &[u64],
    ov: &mut [u64],
    ob: &mut [u64],
)
    requires left { length lb.now ≡ length lv.now }
    requires right { (length rv.now ≡ length lv.now) × (length rb.now ≡ length lv.now) }
    requires out { (length ov.old ≡ length lv.now) × (length ob.old ≡ length lv.now) }
    ensures lengths { (length ov.new ≡ length lv.now) × (length ob.new ≡ length lv.now) }
    ensures truths { (i : ℕ) → i < 64 * length lv.now
        → val_of_words ov.new ob.new i ≡ connected3 connective (val_of_words lv.now lb.now i) (val_of_words rv.now rb.now i) }
    ensures bare { AreBareUnderNull ov.new ob.new }
{
    let vectors = lv.len() / LANES;
    'vectors: for j in 0..vectors {
        connect_at::<LANES>(connective, lv, lb, rv, rb, ov, ob, j * LANES);
    }
    'words: for k in vectors * LANES..lv.len() {
        connect_at::<1>(connective, lv, lb, rv, rb, ov, ob, k);
    }
}

/// The two sides connected at the places of the N words from word `k` on.
#[inline(always)]
fn connect_at<const N: usize>(
    connective: Connective,
    lv: &[u64],
    lb: &[u64],
    rv: &[u64],
    rb: &[u64],
    ov: &mut [u64],
    ob: &mut [u64],
    k: usize,
)
    requires left { (k + N ≤ length lv.now) × (length lb.now ≡ length lv.now) }
    requires right { (length rv.now ≡ length lv.now) × (length rb.now ≡ length lv.now) }
    requires out { (length ov.old ≡ length lv.now) × (length ob.old ≡ length lv.now) }
    ensures lengths { (length ov.new ≡ length lv.now) × (length ob.new ≡ length lv.now) }
    ensures before { KeepFirst k ov.old ov.new × KeepFirst k ob.old ob.new }
    ensures truths { (i : ℕ) → 64 * k ≤ i → i < 64 * (k + N)
        → Holds ov.new ob.new i (connected3 connective (val_of_words lv.now lb.now i) (val_of_words rv.now rb.now i)) }
{
    let lv = Simd::<u64, N>::from_slice(&lv[k..]);
    let lb = Simd::<u64, N>::from_slice(&lb[k..]);
    let rv = Simd::<u64, N>::from_slice(&rv[k..]);
    let rb = Simd::<u64, N>::from_slice(&rb[k..]);
    match connective {
        Connective::And => {
            let valid = (lv & rv) | (lv & !lb) | (rv & !rb);
            let values = lv & lb & rv & rb;
            valid.copy_to_slice(&mut ov[k..]);
            values.copy_to_slice(&mut ob[k..]);
        }
        Connective::Or => {
            let valid = (lv & rv) | (lv & lb) | (rv & rb);
            let values = (lv & lb) | (rv & rb);
            valid.copy_to_slice(&mut ov[k..]);
            values.copy_to_slice(&mut ob[k..]);
        }
    }
}

/// True and false exchanged, place by place; null stays. Each pair of lists holds truths: the first has the bits of validity, the second those of the values.
pub fn not_words(v: &[u64], b: &[u64], ov: &mut [u64], ob: &mut [u64])
    requires taken { length b.now ≡ length v.now }
    requires out { (length ov.old ≡ length v.now) × (length ob.old ≡ length v.now) }
    ensures lengths { (length ov.new ≡ length v.now) × (length ob.new ≡ length v.now) }
    ensures truths { (i : ℕ) → i < 64 * length v.now → val_of_words ov.new ob.new i ≡ not3 (val_of_words v.now b.now i) }
    ensures bare { AreBareUnderNull ov.new ob.new }
{
    let vectors = v.len() / LANES;
    'vectors: for j in 0..vectors {
        not_at::<LANES>(v, b, ov, ob, j * LANES);
    }
    'words: for k in vectors * LANES..v.len() {
        not_at::<1>(v, b, ov, ob, k);
    }
}

/// The negations at the places of the N words from word `k` on.
#[inline(always)]
fn not_at<const N: usize>(v: &[u64], b: &[u64], ov: &mut [u64], ob: &mut [u64], k: usize)
    requires taken { (k + N ≤ length v.now) × (length b.now ≡ length v.now) }
    requires out { (length ov.old ≡ length v.now) × (length ob.old ≡ length v.now) }
    ensures lengths { (length ov.new ≡ length v.now) × (length ob.new ≡ length v.now) }
    ensures before { KeepFirst k ov.old ov.new × KeepFirst k ob.old ob.new }
    ensures truths { (i : ℕ) → 64 * k ≤ i → i < 64 * (k + N) → Holds ov.new ob.new i (not3 (val_of_words v.now b.now i)) }
{
    let v = Simd::<u64, N>::from_slice(&v[k..]);
    let b = Simd::<u64, N>::from_slice(&b[k..]);
    let values = v & !b;
    v.copy_to_slice(&mut ov[k..]);
    values.copy_to_slice(&mut ob[k..]);
}
