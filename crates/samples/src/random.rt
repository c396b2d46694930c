//! Pseudo-random numbers: the same ones on every run.
ghost use Rattle.std.specs.Prelude.{◌≡◌, ◌<◌, ◌↔◌, ◌%◌, ◌^◌, bit_or, IsTrue};
ghost use Rattle.samples.specs.Numbers.{stepped, bits_of, word_of, remainder};

use std::marker::Model;

/// A xorshift generator.
#[derive(Debug, Drop)]
pub struct Random {
    state: u64,
}

/// A generator is seen as its state, which tells all numbers that come.
impl Model for Random {
    ghost use Rattle.std.specs.Prelude.{ℕ};

    ghost Value = { ℕ };

    ghost view = { λ r. r.state };
}

impl Random {
    /// A generator that starts from a number.
    pub fn new(start: u64) -> Random
        ensures { result ≡ bit_or start 1 }
    {
        Random { state: start | 1 }
    }

    /// The next 53 bits.
    pub fn bits(&mut self) -> u64
        ensures value { result ≡ bits_of self.new }
        ensures after { self.new ≡ stepped self.old }
    {
        let mut x = self.state;
        x ^= x.wrapping_shl(13);
        x ^= x.wrapping_shr(7);
        x ^= x.wrapping_shl(17);
        self.state = x;
        x.wrapping_shr(11)
    }

    /// The next number of 32 bits: the lower ones of the next 53.
    pub fn word(&mut self) -> u32
        ensures value { result ≡ word_of self.new }
        ensures after { self.new ≡ stepped self.old }
    {
        (self.bits() & 0xffff_ffff) as u32
    }

    // This and `below` take different bits, and each program keeps its stream of numbers: both stay.

    /// The next number below a bound, from 53 bits; 0 for bound 0.
    pub fn wide_below(&mut self, bound: u32) -> u32
        ensures below { 0 < bound → result < bound }
        ensures value { result ≡ remainder (bits_of self.new) bound }
        ensures after { self.new ≡ stepped self.old }
    {
        let bits = self.bits();
        if bound == 0 {
            0
        } else {
            (bits % u64::from(bound)) as u32
        }
    }

    /// The next number below a bound, from 32 bits; 0 for bound 0.
    pub fn below(&mut self, bound: u32) -> u32
        ensures below { 0 < bound → result < bound }
        ensures value { result ≡ remainder (word_of self.new) bound }
        ensures after { self.new ≡ stepped self.old }
    {
        let word = self.word();
        if bound == 0 { 0 } else { word % bound }
    }

    /// The next byte.
    pub fn byte(&mut self) -> u8
        ensures value { result ≡ word_of self.new % 2 ^ 8 }
        ensures after { self.new ≡ stepped self.old }
    {
        (self.word() & 0xff) as u8
    }

    /// A number of 16 bits: the lower ones of the next number below a bound.
    pub fn short(&mut self, bound: u32) -> u16
        ensures below { 0 < bound → result < bound }
        ensures value { result ≡ remainder (word_of self.new) bound % 2 ^ 16 }
        ensures after { self.new ≡ stepped self.old }
    {
        (self.below(bound) & 0xffff) as u16
    }

    /// A place in a list of so many, of which the lower 32 bits count; 0 for none.
    pub fn place(&mut self, bound: usize) -> usize
        ensures below { 0 < bound → result < bound }
        ensures value { result ≡ remainder (word_of self.new) (bound % 2 ^ 32) }
        ensures after { self.new ≡ stepped self.old }
    {
        self.below((bound & 0xffff_ffff) as u32) as usize
    }

    /// True once in so many times.
    pub fn once_in(&mut self, times: u32) -> bool
        ensures value { IsTrue result ↔ (remainder (word_of self.new) times ≡ 0) }
        ensures after { self.new ≡ stepped self.old }
    {
        self.below(times) == 0
    }
}
