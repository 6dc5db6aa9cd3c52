//! The words, their seeding and their renewal.

ghost use Rattle.std.specs.Prelude.{◌≡◌, ℕ, ◌<◌, ◌+◌, ◌*◌, ◌%◌, pos, ◌≤ℤ◌, ◌<ℤ◌, List, slice_index, length};
ghost use Rattle.std.specs.List.{All};
ghost use Rattle.mp_random.specs.Words.{difference, replaced, renewed, low_run, high_run, halved, neighbours, unsown, sown, seeded, advanced, current};
ghost use Rattle.mp_random.specs.declared.random.TheConstants.{WORDS, MODULUS};

use std::marker::Model;

/// How many words there are.
pub const WORDS: usize = 55;

/// Words are below this.
pub const MODULUS: u32 = 1 << 28;

/// The random words, and how many of them are left to be answered before the next renewal: the first so many, from
/// the last to the first.
#[derive(Drop)]
pub struct Random {
    words: [u32; WORDS],
    left: usize,
}

impl Model for Random {
    ghost use Rattle.std.specs.Prelude.{◌<◌, ℕ};
    ghost use Rattle.std.specs.List.{All};
    ghost use Rattle.mp_random.specs.Words.{RandomWords};
    ghost use Rattle.mp_random.specs.declared.random.TheConstants.{WORDS, MODULUS};

    ghost Value = { RandomWords };

    ghost view = { λ r. record { words = r.words; left = r.left } };

    ghost invariant = { λ r. (r.left < WORDS) × All (λ w. w < MODULUS) r.words };
}

impl Random {
    /// The words that a seed gives.
    pub fn seed(value: u32) -> Random
        ensures { result ≡ seeded value }
    {
        let mut words = sown_words(halved_seed(value));
        renew(&mut words);
        renew(&mut words);
        renew(&mut words);
        Random {
            words,
            left: WORDS - 1,
        }
    }

    /// The next word, from 0 to 2^28 - 1.
    pub fn next(&mut self) -> i32
        ensures words { self.new ≡ advanced self.old }
        ensures answer { result ≡ pos (current self.new) }
        ensures low { pos 0 ≤ℤ result }
        ensures high { result <ℤ pos MODULUS }
    {
        if self.left == 0 {
            renew(&mut self.words);
            self.left = WORDS - 1;
        } else {
            self.left -= 1;
        }
        self.words[self.left] as i32
    }
}

/// The seed, halved until it is below 2^28.
#[tactic(auto, using(crate::proofs::WordLemmas::halving))]
fn halved_seed(value: u32) -> u32
    ensures exact { result ≡ halved value }
    ensures small { result < MODULUS }
{
    let mut seed = value;
    while seed >= MODULUS {
        seed /= 2;
    }
    seed
}

/// `a - b`, and 2^28 more where that is negative.
fn difference(a: u32, b: u32) -> u32
    requires small_a { a < MODULUS }
    requires small_b { b < MODULUS }
    ensures exact { result ≡ difference a b }
    ensures small { result < MODULUS }
{
    if a < b { a + MODULUS - b } else { a - b }
}

fn unsown_words() -> [u32; WORDS]
    ensures exact { result ≡ unsown }
    ensures small { All (λ w. w < MODULUS) result }
{
    [0; WORDS]
}

/// The sequence that begins with `first` and 1, sown 21 places apart.
#[tactic(auto, using(crate::proofs::WordLemmas::sowing))]
fn sown_words(first: u32) -> [u32; WORDS]
    requires { first < MODULUS }
    ensures exact { result ≡ sown WORDS first }
    ensures small { All (λ w. w < MODULUS) result }
{
    let mut words = unsown_words();
    let mut older = first;
    let mut newer = 1;
    for n in 0..WORDS {
        words[21 * n % WORDS] = newer;
        let next = difference(older, newer);
        older = newer;
        newer = next;
    }
    words
}

/// Takes word `m` from word `k`.
fn replace(words: &mut [u32; WORDS], k: usize, m: usize)
    requires inside_k { k < WORDS }
    requires inside_m { m < WORDS }
    requires small { All (λ w. w < MODULUS) words.old }
    ensures exact { words.new ≡ replaced k m words.old }
    ensures still_small { All (λ w. w < MODULUS) words.new }
{
    words[k] = difference(words[k], words[m]);
}

/// Takes new words in the place of the old ones.
fn renew(words: &mut [u32; WORDS])
    requires { All (λ w. w < MODULUS) words.old }
    ensures exact { words.new ≡ renewed words.old }
    ensures small { All (λ w. w < MODULUS) words.new }
{
    run_low(words);
    run_high(words);
}

/// Takes from each of the first 24 words the word 31 places on.
#[tactic(auto, using(crate::proofs::WordLemmas::runs))]
fn run_low(words: &mut [u32; WORDS])
    requires { All (λ w. w < MODULUS) words.old }
    ensures exact { words.new ≡ low_run 24 words.old }
    ensures small { All (λ w. w < MODULUS) words.new }
{
    for n in 0..24 {
        replace(words, n, n + 31);
    }
}

/// Takes from each word from the 24th on the word 24 places before.
#[tactic(auto, using(crate::proofs::WordLemmas::runs))]
fn run_high(words: &mut [u32; WORDS])
    requires { All (λ w. w < MODULUS) words.old }
    ensures exact { words.new ≡ high_run 31 words.old }
    ensures small { All (λ w. w < MODULUS) words.new }
{
    for n in 0..31 {
        replace(words, n + 24, n);
    }
}
