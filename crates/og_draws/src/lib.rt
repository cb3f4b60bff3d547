//! Draws: which of the enabled choices a simulation makes next.
//!
//! A draw is a word of a generator modulo the number of choices. The generator is `Lcg64Xsh32` of
//! `rand_pcg` (PCG XSH RR 64/32: M. E. O'Neill, "PCG: A Family of Simple Fast Space-Efficient
//! Statistically Good Algorithms for Random Number Generation", 2014), seeded by one number. So the
//! number of a run settles each of its draws, on every machine.
//!
//! Nothing of the machine stands below; above stand the commands that draw. A draw takes no memory.
#![tactic(auto)]

ghost use Rattle.std.specs.Prelude.{◌≡◌, ◌<◌, ◌≤◌, ℕ, ◌+◌};
ghost use Rattle.og_draws.specs.Draws.{start, after, draw};

use rand_core::SeedableRng;
use rand_core::utils::NextWord;
use rand_pcg::Lcg64Xsh32;
use std::marker::Model;

/// The draws of a number, one after another.
#[derive(Drop)]
pub struct Draws {
    generator: Lcg64Xsh32,
}

impl Model for Draws {
    ghost use Rattle.rand_pcg.specs.Lcg.{Lcg};

    ghost Value = { Lcg };

    ghost view = { λ d. d.generator };
}

impl Draws {
    /// The draws of this number, from the first on.
    pub fn of_number(number: u64) -> Draws
        ensures { result ≡ start number }
    {
        Draws {
            generator: Lcg64Xsh32::seed_from_u64(number),
        }
    }

    /// The next draw among `count` choices: the index of one of them.
    pub fn next_choice(&mut self, count: u32) -> u32
        requires { 1 ≤ count }
        ensures drawn { (number k : ℕ) → self.old ≡ after number k → result ≡ draw number k count }
        ensures goes_on { (number k : ℕ) → self.old ≡ after number k → self.new ≡ after number (k + 1) }
        ensures in_range { result < count }
    {
        self.generator.next_word() % count
    }
}

#[cfg(test)]
mod tests {
    use super::*;

    // The first six words of the generator, computed from PCG's published constants by another
    // program, modulo several numbers of choices.
    #[test]
    fn words_of_numbers(rt: HostRuntime) {
        let table = [
            (
                0,
                [
                    298703107, 4236525527, 336081875, 1056616254, 1060453275, 1616833669,
                ],
            ),
            (
                1,
                [
                    866585574, 2109535214, 3403630417, 296513984, 4177522235, 689909480,
                ],
            ),
            (
                7,
                [
                    2442223337, 414063806, 2743600285, 3524868804, 2371632060, 1368306093,
                ],
            ),
            (
                u64::MAX,
                [
                    2553256318, 1362994822, 3759657484, 3366838333, 2323195082, 1040808896,
                ],
            ),
        ];
        for (number, words) in table {
            for count in [1, 2, 17, 541_041, u32::MAX] {
                let mut draws = Draws::of_number(number);
                for word in words {
                    assert_eq!(rt; draws.next_choice(count), word % count, "{number} {count}");
                }
            }
        }
    }
}
