ghost use Rattle.std.specs.Prelude.{◌≡◌};
ghost use Rattle.dt_bits.specs.Memory.{IsRising, listed};

use super::Word;

/// The value of the word with this address, or 0 where there is none, by halves.
pub fn find(words: &[Word], address: u128) -> u128
    requires { IsRising words.now }
    ensures { result ≡ listed words.now address }
{
    let mut low = 0;
    let mut high = words.len();
    while low < high {
        let middle = low + (high - low) / 2;
        let word = words[middle];
        if word.address == address {
            return word.value;
        }
        if word.address < address {
            low = middle + 1;
        } else {
            high = middle;
        }
    }
    0
}
