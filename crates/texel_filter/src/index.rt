//! Wraps: which texel an index beside a row or column means.
ghost use Rattle.std.specs.Prelude.{◌≡◌, ◌%◌, ◌<◌, ◌≤◌, pos, negsuc, IfSome};
ghost use Rattle.texel_filter.specs.WrapMode.{wrapped_index, index_there_and_back};

use crate::mode::Wrap;

/// The texel that an index means in a row or column of n texels, or none.
#[inline(always)]
pub fn wrap(mode: Wrap, i: i64, n: u32) -> Option<u32>
    requires { 1 ≤ n }
    ensures value { result ≡ wrapped_index mode i n }
    ensures inside { IfSome result (λ x. x < n) }
{
    if i < 0 {
        wrap_before(mode, -(i + 1) as u64, n)
    } else if i < i64::from(n) {
        Some(i as u32)
    } else {
        wrap_after(mode, i as u64, n)
    }
}

// The texel that index a means, which lies behind the row's last texel.
#[inline(never)]
#[tactic(auto, unfolding(crate::specs::WrapMode::wrapped_index))]
fn wrap_after(mode: Wrap, a: u64, n: u32) -> Option<u32>
    requires some { 1 ≤ n }
    requires behind { n ≤ a }
    ensures value { result ≡ wrapped_index mode (pos a) n }
    ensures inside { IfSome result (λ x. x < n) }
{
    match mode {
        Wrap::Black => None,
        Wrap::Clamp => Some(n - 1),
        Wrap::Periodic => Some((a % u64::from(n)) as u32),
        Wrap::Mirror => Some(there_and_back(a, n)),
    }
}

// The texel that index -(beyond + 1) means, which lies before the row's first texel.
#[inline(never)]
#[tactic(auto, unfolding(crate::specs::WrapMode::wrapped_index))]
fn wrap_before(mode: Wrap, beyond: u64, n: u32) -> Option<u32>
    requires { 1 ≤ n }
    ensures value { result ≡ wrapped_index mode (negsuc beyond) n }
    ensures inside { IfSome result (λ x. x < n) }
{
    match mode {
        Wrap::Black => None,
        Wrap::Clamp => Some(0),
        Wrap::Periodic => Some(n - 1 - remainder(beyond, n)),
        Wrap::Mirror => Some(there_and_back(beyond, n)),
    }
}

// a modulo n, without a division if a is below n.
#[inline]
fn remainder(a: u64, n: u32) -> u32
    requires { 1 ≤ n }
    ensures value { result ≡ a % n }
    ensures below { result < n }
{
    if a < u64::from(n) {
        a as u32
    } else {
        (a % u64::from(n)) as u32
    }
}

// The texel at place m, if the row is repeated and every second copy runs backwards.
#[inline]
#[tactic(auto, using(crate::proofs::WrapLemmas::there_inside))]
fn there_and_back(m: u64, n: u32) -> u32
    requires { 1 ≤ n }
    ensures value { result ≡ index_there_and_back m n }
    ensures below { result < n }
{
    if m < u64::from(n) {
        return m as u32;
    }
    let x = (m % u64::from(n)) as u32;
    if m / u64::from(n) % 2 == 0 {
        x
    } else {
        n - 1 - x
    }
}
