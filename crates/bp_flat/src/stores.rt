//! The store that an instruction sees, and the bits in its words.
ghost use Rattle.std.specs.Prelude.{◌≡◌, ◌<◌, ◌≤◌, length};
ghost use Rattle.bp_flat.specs.declared.limits.TheConstants.{SLOTS};
ghost use Rattle.bp_flat.specs.Steps.{bits_from};
ghost use Rattle.bp_flat.specs.Steps as steps;
ghost use Rattle.bp_flat.specs.InstrEffects.{bits_of};

/// The bits of the globals, and of the locals of one frame: the bit of the slot k has the weight
/// 2 to the k.
#[derive(Clone, Copy, PartialEq, Eq)]
pub struct Store {
    pub globals: u128,
    pub locals: u128,
}

/// Returns the bit of a slot.
pub fn bit_at(word: u128, slot: u8) -> bool
    requires { slot < SLOTS }
    ensures { result ≡ bits_of word slot }
{
    // Looking in the half that has the bit takes 12 instructions, looking in the whole word 16.
    let half = if slot < 64 {
        word % (1 << 64)
    } else {
        word >> 64
    };
    ((half as u64) >> (slot % 64)) & 1 == 1
}

/// Returns the word with another bit at a slot.
pub fn with_bit(word: u128, slot: u8, bit: bool) -> u128
    requires { slot < SLOTS }
    ensures { bits_of result ≡ steps.with_bit (bits_of word) slot bit }
{
    let mask = 1 << slot;
    if bit { word | mask } else { word & !mask }
}

/// Returns the word with these bits from slot 0 on, then 0.
pub fn word_of(bits: &[bool]) -> u128
    requires { length bits.now ≤ SLOTS }
    ensures { bits_of result ≡ bits_from bits.now }
{
    let mut word = 0;
    for (i, bit) in bits.iter().enumerate() {
        word = with_bit(word, i as u8, *bit);
    }
    word
}
