// Total accessors of lent arrays, for the code of every crate above: what lies outside an array reads as 0, and nothing is put there.
#![tactic(auto)]

ghost use Rattle.std.specs.Prelude.{◌≡◌, ℕ, ◌+◌, ◌*◌, ◌<◌, ◌^◌, min, get_or, set, refl};
ghost use Rattle.std.proofs.Common.{rules};
ghost use Rattle.lists.specs.Spans.{zero_padded};
ghost use Rattle.arrays.specs.ArrayParts.{part_at, words_every};

// What an array holds as a number: a byte, or a number of two bytes.
pub trait Number: Copy {
    // what is read outside an array
    ghost nothing: { Self };

    // the number that stands there
    ghost value: { Self → ℕ };

    // the power of two that it is below
    ghost bound: { ℕ };

    fn zero() -> Self
        ensures { result ≡ nothing };

    fn number(self) -> usize
        ensures value { result ≡ value self }
        ensures upper_bound { result < bound };

    // outside an array stands 0, which is below the bound
    ghost nothing_is_0: { (value nothing ≡ 0) × (0 < bound) };
}

impl Number for u8 {
    ghost nothing = { 0 };

    ghost value = { λ x. x };

    ghost bound = { 2 ^ 8 };

    ghost nothing_is_0 = { (refl, Prim.search rules) };

    fn zero() -> Self {
        0u8
    }

    fn number(self) -> usize {
        usize::from(self)
    }
}

impl Number for u16 {
    ghost nothing = { 0 };

    ghost value = { λ x. x };

    ghost bound = { 2 ^ 16 };

    ghost nothing_is_0 = { (refl, Prim.search rules) };

    fn zero() -> Self {
        0u16
    }

    fn number(self) -> usize {
        usize::from(self)
    }
}

// What stands at i, as it stands.
pub fn at<T: Number>(a: &[T], i: usize) -> T
    ensures { result ≡ get_or a.now i T.nothing }
{
    a.get(i).copied().unwrap_or(T::zero())
}

// The number at i.
pub fn number_at<T: Number>(a: &[T], i: usize) -> usize
    ensures value { result ≡ T.value (get_or a.now i T.nothing) }
    ensures upper_bound { result < T.bound }
{
    at(a, i).number()
}

// The number of two bytes, little-endian, at i.
pub fn word_at(a: &[u8], i: usize) -> u16
    ensures { result ≡ get_or a.now i 0 + 256 * get_or a.now (i + 1) 0 }
{
    if i < a.len() {
        u16::from_le_bytes([a[i], at(a, i + 1)])
    } else {
        0
    }
}

// The first k numbers of two bytes from an index on, one every so many bytes, and zeros behind them; of more than there is room for, the first N.
pub fn words<const N: usize>(a: &[u8], from: usize, step: usize, k: usize) -> [u16; N]
    ensures { result ≡ zero_padded N (words_every a.now from step (min k N)) }
{
    let mut numbers = [0u16; N];
    for i in 0..k.min(N) {
        numbers[i] = word_at(a, from.saturating_add(step.saturating_mul(i)));
    }
    numbers
}

// Puts a number at an index; past the end there is nothing to put.
pub fn put<T: Number>(a: &mut [T], at: usize, x: T)
    ensures { a.new ≡ set a.old at x }
{
    if at < a.len() {
        a[at] = x;
    }
}

// The part of an array from an index on, of a size; empty where it does not fit.
#[tactic(auto, using(crate::proofs::Parts::part_of_rest, crate::proofs::Parts::part_past))]
pub fn part<'a>(a: &'a [u8], at: usize, size: usize) -> &'a [u8]
    ensures { result.now ≡ part_at a.now at size }
{
    match a.get(at..) {
        Some(rest) if size <= rest.len() => &rest[..size],
        _ => &[],
    }
}
