//! Rows of bits in words: what is read and written of them.

ghost use Rattle.std.specs.Prelude.{◌≡◌, ◌&&◌, ℕ, ◌+◌, ◌*◌, ◌/◌, ◌^◌, ◌<◌, ◌≤◌, length, nat_eq, nat_lt, slice_index_or, true, false, MatchOption};
ghost use Rattle.std.specs.Int.{bit_at};
ghost use Rattle.pf_grid.specs.Internal.Words.{bit, held, row_words, turned};
ghost use Rattle.pf_grid.specs.GridPositions.{is_position};

/// How many words a row of this width takes.
pub(crate) fn row_words(width: usize) -> usize
    ensures { result ≡ row_words width }
{
    width / 64 + if width % 64 == 0 { 0 } else { 1 }
}

/// The bit `x` of the row `y`, where each row takes `per_row` words.
pub(crate) fn bit_of(words: &[u64], per_row: usize, x: usize, y: usize) -> bool
    requires word { x / 64 < per_row }
    requires inside { y * per_row + per_row ≤ length words.now }
    ensures { result ≡ bit words.now per_row x y }
{
    (words[y * per_row + x / 64] >> (x % 64)) & 1 == 1
}

/// Turns the bit `x` of the row `y`: a 0 becomes a 1, and a 1 a 0.
pub(crate) fn turn_bit(words: &mut [u64], per_row: usize, x: usize, y: usize)
    requires word { x / 64 < per_row }
    requires inside { y * per_row + per_row ≤ length words.old }
    ensures bits { (a b : ℕ) → a / 64 < per_row → bit words.new per_row a b ≡ turned (is_position (x, y) a b) (bit words.old per_row a b) }
{
    words[y * per_row + x / 64] ^= 1 << (x % 64);
}

/// Makes each word 0.
pub(crate) fn clear_words(words: &mut [u64])
    ensures { (k : ℕ) → k < length words.old → slice_index_or words.new k 0 ≡ 0 }
{
    for word in words.iter_mut() {
        *word = 0;
    }
}

/// The word, with each bit turned if `inverted`.
pub(crate) fn turned_if(inverted: bool, word: u64) -> u64
    ensures { (i : ℕ) → i < 64 → nat_eq (bit_at result i) 1 ≡ turned inverted (nat_eq (bit_at word i) 1) }
{
    if inverted { !word } else { word }
}

/// The word at this place of a row, with the bits past the width 0.
pub(crate) fn trimmed(word: u64, place: usize, width: usize) -> u64
    requires { place < row_words width }
    ensures { (i : ℕ) → i < 64 → nat_eq (bit_at result i) 1 ≡ (nat_lt (place * 64 + i) width && nat_eq (bit_at word i) 1) }
{
    let rest = width - place * 64;
    if rest < 64 {
        word & ((1 << rest) - 1)
    } else {
        word
    }
}

/// The first bit of the row `y` that is a 1, or a 0 if `inverted`, from the bit `x` on.
pub(crate) fn first_held(
    words: &[u64],
    per_row: usize,
    inverted: bool,
    x: usize,
    y: usize,
) -> Option<usize>
    requires inside { y * per_row + per_row ≤ length words.now }
    requires fits { per_row * 64 < 2 ^ 64 + 64 }
    ensures { MatchOption result
        ((i : ℕ) → x ≤ i → i / 64 < per_row → held words.now per_row inverted i y ≡ false)
        (λ i. (x ≤ i) × (i / 64 < per_row) × (held words.now per_row inverted i y ≡ true) × ((j : ℕ) → x ≤ j → j < i → held words.now per_row inverted j y ≡ false)) }
{
    let mut word = x / 64;
    let mut from = x % 64;
    while word < per_row {
        let bits = turned_if(inverted, words[y * per_row + word]);
        if let Some(place) = first_one_of(bits, from) {
            return Some(word * 64 + place);
        }
        word += 1;
        from = 0;
    }
    None
}

/// The first bit of a word that is a 1, from the bit `from` on.
fn first_one_of(word: u64, from: usize) -> Option<usize>
    requires { from < 64 }
    ensures { MatchOption result
        ((i : ℕ) → from ≤ i → i < 64 → nat_eq (bit_at word i) 1 ≡ false)
        (λ i. (from ≤ i) × (i < 64) × (nat_eq (bit_at word i) 1 ≡ true) × ((j : ℕ) → from ≤ j → j < i → nat_eq (bit_at word j) 1 ≡ false)) }
{
    let rest = word >> from;
    if rest == 0 {
        return None;
    }
    Some(from + rest.trailing_zeros() as usize)
}
