ghost use Rattle.std.specs.Prelude.{◌≡◌, ℕ, ◌<◌, bit_xor};
ghost use Rattle.code.specs.Words.{codeword};

// The exclusive-or of the rows that the message's bits choose, bit j choosing row j.
// Words add as messages do.
pub fn word_of(rows: &[u64], message: u64) -> u64
    ensures value { result ≡ codeword rows.now message }
    ensures linear { (other : ℕ) → bit_xor result (codeword rows.now other) ≡ codeword rows.now (bit_xor message other) }
{
    sum_chosen(rows, message)
}

// `word_of` hands on to this, as public functions with a private one of the same contract do elsewhere: it then needs no
// proof file, and a must-fail edit in it is refused by a fact.
fn sum_chosen(rows: &[u64], message: u64) -> u64
    ensures value { result ≡ codeword rows.now message }
    ensures linear { (other : ℕ) → bit_xor result (codeword rows.now other) ≡ codeword rows.now (bit_xor message other) }
{
    let mut sum = 0;
    let mut rest = message;
    for row in rows {
        if rest % 2 == 1 {
            sum ^= *row;
        }
        rest /= 2;
    }
    sum
}
