// Numbers in decimal, without leading zeros.
ghost use Rattle.text.specs.Fields.{ReadsNumber};

use super::fault::Fault;

// The digits of the largest number of 32 bits.
const MOST_DIGITS: usize = 10;

// The number of 32 bits that `word` writes, for a word of line `line`.
pub(crate) fn number(word: &[u8], line: u32) -> Result<u32, Fault>
    ensures { ReadsNumber word.now line result }
{
    let fault = Fault::ill_formed(line);
    if word.is_empty() || word.len() > MOST_DIGITS {
        return Err(fault);
    }
    if word[0] == b'0' && word.len() > 1 {
        return Err(fault);
    }
    // one pass: `str::from_utf8` and `parse` read a word several times, and a long one whole
    let mut n: u64 = 0;
    for b in word {
        if !b.is_ascii_digit() {
            return Err(fault);
        }
        n = n * 10 + u64::from(*b - b'0');
    }
    u32::try_from(n).map_err(|_| fault)
}
