#![tactic(auto)]
// Sets of the numbers 0 to 63, each the digits of a u64: the Rust's BitSet. The contracts are by the definitions of
// specs/Bits.antt, and proofs/Laws.antt and proofs/Members.antt have their laws.
ghost use Rattle.std.specs.Prelude.{◌≡◌, ◌-◌, ◌^◌, ◌≤◌, ◌<◌};
ghost use Rattle.std.specs.Int.Bits.{bit_and, bit_or};
ghost use Rattle.std.specs.Iterator.{at_most};
ghost use Rattle.bitset.specs.Bits.{has, diff, size, is_sub, is_disjoint, Lowest, WithoutLowest, NextMember};

pub fn contains(s: u64, i: u32) -> bool
    requires { i < 64 }
    ensures { result ≡ has s i }
{
    (s >> i) % 2 == 1
}

pub fn single(i: u32) -> u64
    requires { i < 64 }
    ensures { result ≡ 2 ^ i }
{
    1 << i
}

pub fn insert(s: u64, i: u32) -> u64
    requires { i < 64 }
    ensures { result ≡ bit_or s (2 ^ i) }
{
    s | single(i)
}

pub fn union(s: u64, t: u64) -> u64
    ensures { result ≡ bit_or s t }
{
    s | t
}

pub fn common(s: u64, t: u64) -> u64
    ensures { result ≡ bit_and s t }
{
    s & t
}

pub fn difference(s: u64, t: u64) -> u64
    ensures { result ≡ diff s t }
{
    s & !t
}

pub fn is_subset(s: u64, t: u64) -> bool
    ensures { result ≡ is_sub s t }
{
    s & t == s
}

pub fn is_disjoint(s: u64, t: u64) -> bool
    ensures { result ≡ is_disjoint s t }
{
    s & t == 0
}

// size and lowest are one call of the library each: alike in form, and no common function would be plainer.
pub fn size(s: u64) -> u32
    ensures { result ≡ size s }
{
    u64::count_ones(s)
}

// The least member.
pub fn lowest(s: u64) -> u32
    requires { 0 < s }
    ensures { Lowest s result }
{
    u64::trailing_zeros(s)
}

pub fn without_lowest(s: u64) -> u64
    requires { 0 < s }
    ensures { WithoutLowest s result }
{
    s & (s - 1)
}

// The members of a set, ascending: those of rest are still to come.
#[derive(Drop)]
pub struct Iter {
    pub rest: u64,
}

pub fn ascending(s: u64) -> Iter
    ensures { result.rest ≡ s }
{
    Iter { rest: s }
}

impl Iterator for Iter {
    type Item = u32;

    ghost next_gives = { λ s i t. NextMember s.rest i t.rest };

    ghost remaining = { λ s. at_most (size s.rest) };

    fn next(&mut self) -> Option<u32> {
        let s = self.rest;
        if s == 0 {
            return None;
        }
        self.rest = without_lowest(s);
        Some(lowest(s))
    }
}

// The numbers below n.
pub fn first_n(n: u32) -> u64
    requires { n ≤ 64 }
    ensures { result ≡ 2 ^ n - 1 }
{
    if n < 64 { single(n) - 1 } else { !0 }
}
