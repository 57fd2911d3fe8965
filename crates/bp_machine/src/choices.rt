//! Choice bits of a seed.
ghost use Rattle.std.specs.Prelude.{◌≡◌, ◌+◌, ◌<◌, ℕ, IfOk};
ghost use Rattle.bp_machine.specs.declared.limits.TheConstants.{MAX_THREADS};
ghost use Rattle.bp_machine.specs.Histories.{IsAt, choice_bit, next_bit};

use rand_core::utils::NextWord;
use rand_pcg::Lcg64Xsh32;
use std::alloc::AllocError;
use std::marker::Model;

/// The stream of thread 0. Thread i has the stream whose number is greater by i.
const FIRST_STREAM: u64 = 54;

/// The last place of a bit in a word.
const LAST_PLACE: u32 = 31;

/// The choice bits of one thread, in order. With a seed, thread i draws from the PCG XSH RR 64/32
/// whose state starts at the seed, on stream 54 + i: 32 bits from each word, the lowest first.
#[derive(Drop)]
pub struct Choices {
    word: u32,
    place: u32,
    generator: Lcg64Xsh32,
}

impl Model for Choices {
    ghost use Rattle.std.specs.Prelude.{◌<◌};
    ghost use Rattle.bp_machine.specs.Histories.{ChoicesOf};

    ghost Value = { ChoicesOf };

    ghost view = { λ c. record { word = c.word; place = c.place; generator = c.generator } };

    ghost invariant = { λ c. c.place < 32 };
}

impl Choices {
    /// Makes the choices of a thread with this seed, before any is drawn.
    pub fn new(seed: u64, thread: u32) -> Choices
        requires { thread < MAX_THREADS }
        ensures { IsAt result seed thread 0 }
    {
        let mut generator = Lcg64Xsh32::new(seed, FIRST_STREAM + u64::from(thread));
        Choices {
            word: generator.next_word(),
            place: 0,
            generator,
        }
    }

    /// Returns a copy of these choices, from which the same number of bits were drawn.
    pub(crate) fn try_copy(&self) -> Result<Choices, AllocError>
        ensures { IfOk result (λ c. c ≡ self.now) }
    {
        Ok(Choices {
            word: self.word,
            place: self.place,
            generator: self.generator.clone()?,
        })
    }

    /// Returns the next bit without drawing it.
    pub(crate) fn peek(&self) -> bool
        ensures { result ≡ next_bit self.now }
    {
        (self.word >> self.place) & 1 == 1
    }

    /// Draws the next bit.
    pub fn next(&mut self) -> bool
        ensures bit { (seed thread n : ℕ)
            → IsAt self.old seed thread n
            → result ≡ choice_bit seed thread n }
        ensures after { (seed thread n : ℕ)
            → IsAt self.old seed thread n
            → IsAt self.new seed thread (n + 1) }
    {
        let bit = self.peek();
        if self.place == LAST_PLACE {
            self.word = self.generator.next_word();
            self.place = 0;
        } else {
            self.place += 1;
        }
        bit
    }
}
