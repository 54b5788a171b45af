//! Bits that come from a seed.
ghost use Rattle.std.specs.Prelude.{◌≡◌, ◌≤◌, []};
ghost use Rattle.std.specs.Bool.{OnFalse, OnTrue};
ghost use Rattle.choice_bits.specs.Seeded.{IsWithin, bits_left, seeded_bits};

use crate::bits::Bits;
use rand_chacha::ChaCha20Rng;
use rand_core::SeedableRng;
use rand_core::utils::NextWord;
use std::marker::Model;

// How many words of 32 bits a seed has.
const WORDS: u128 = 524_288;

/// The bits of a seed: those of the first 2^19 words of 32 bits that ChaCha20 (Bernstein, 2008) gives for it, each word from its
/// highest bit.
#[derive(Drop)]
pub struct ChaChaBits {
    generator: ChaCha20Rng,
    word: u32,
    // How many bits of the word are left, the lowest ones.
    unread: u32,
}

impl Model for ChaChaBits {
    ghost use Rattle.std.specs.Prelude.{Bool, List};
    ghost use Rattle.choice_bits.specs.Seeded.{IsWithin, bits_left};

    ghost Value = { List Bool };

    ghost view = { λ seeded. bits_left seeded.unread seeded.word seeded.generator };

    ghost invariant = { λ seeded. IsWithin seeded.unread seeded.generator };
}

impl ChaChaBits {
    /// The bits of this seed. The key has the 16 bytes of the seed, the lowest first, and then 16 zeros; the stream is number 0.
    pub fn new(seed: u128) -> ChaChaBits
        ensures bits { result ≡ seeded_bits seed }
    {
        let mut key = [0; 32];
        key[..16].copy_from_slice(&seed.to_le_bytes());
        ChaChaBits {
            generator: ChaCha20Rng::from_seed(key),
            word: 0,
            unread: 0,
        }
    }
}

// Goes on to the next word where no bit of the word is left. Whether a bit is there then.
fn refill(generator: &mut ChaCha20Rng, word: &mut u32, unread: &mut u32) -> bool
    requires { IsWithin unread.old generator.old }
    ensures within { IsWithin unread.new generator.new }
    ensures same { bits_left unread.new word.new generator.new ≡ bits_left unread.old word.old generator.old }
    ensures some { OnTrue result (1 ≤ unread.new) }
    ensures none { OnFalse result (bits_left unread.new word.new generator.new ≡ []) }
{
    if *unread > 0 {
        return true;
    }
    if generator.get_word_pos() >= WORDS {
        return false;
    }
    *word = generator.next_word();
    *unread = 32;
    true
}

impl Bits for ChaChaBits {
    ghost left = { λ bits. bits };

    fn take(&mut self) -> Option<bool> {
        if !refill(&mut self.generator, &mut self.word, &mut self.unread) {
            return None;
        }
        self.unread -= 1;
        Some((self.word >> self.unread) % 2 == 1)
    }
}
