//! The key under which the codes of cells are hashed.
ghost use Rattle.std.specs.Prelude.{◌≡◌, ◌<◌};
ghost use Rattle.cube_cells.specs.CellKey.{drawn_pair, drawn_word, hash_of_sum, key_under, mixed, number_of, starting, taken};

use cube_core::HashKey;
use std::hash::{BuildHasher, Hasher};

/// Two words of a key, for the two codes that stand in one number.
#[derive(Clone, Copy)]
pub struct WordPair {
    low: u64,
    high: u64,
}

/// A hash of four numbers of two codes each, by the sum of products that Lemire and Kaser call Multilinear-HM.
///
/// Over words that are drawn, any two different keys get the same 32 bits with a probability of 2^-32, and the same lowest
/// so many of them, which choose the place in a table, with 2 to the power of minus so many.
#[derive(Clone, Copy)]
pub struct CellHasher {
    sum: u64,
    next: WordPair,
    second: WordPair,
    third: WordPair,
    last: WordPair,
}

impl CellHasher {
    // Takes a number of two codes in, and turns to the next words.
    #[inline(always)]
    fn take(&mut self, number: u64)
        ensures { self.new ≡ taken self.old number }
    {
        let pair = self.next;
        self.sum = self.sum.wrapping_add(product(pair, number));
        self.next = self.second;
        self.second = self.third;
        self.third = self.last;
        self.last = pair;
    }
}

// What a number of two codes adds to the sum.
#[inline(always)]
fn product(pair: WordPair, number: u64) -> u64
    ensures { result ≡ mixed pair number }
{
    let low = pair.low.wrapping_add(number % 4_294_967_296);
    let high = pair.high.wrapping_add(number / 4_294_967_296);
    low.wrapping_mul(high)
}

// The number that eight bytes are, the lowest first; 0 of other bytes, which no key of a cell writes.
fn number_of(bytes: &[u8]) -> u64
    ensures { result ≡ number_of bytes.now }
{
    if bytes.len() != 8 {
        return 0;
    }
    u64::from_le_bytes([
        bytes[0], bytes[1], bytes[2], bytes[3], bytes[4], bytes[5], bytes[6], bytes[7],
    ])
}

impl Hasher for CellHasher {
    ghost write = { λ hasher bytes. taken hasher (number_of bytes) };

    ghost finish = { λ hasher. hash_of_sum hasher.sum };

    #[inline(always)]
    fn finish(&self) -> u64 {
        self.sum / 4_294_967_296
    }

    fn write(&mut self, bytes: &[u8]) {
        self.take(number_of(bytes));
    }

    #[inline(always)]
    fn write_u64(&mut self, number: u64) {
        self.take(number);
    }
}

/// The key under which the codes of cells are hashed: nine words. Nothing that is answered or printed depends on it, only
/// time: whoever knows the words of a run can make up facts whose cells collide in its tables.
#[derive(Clone, Copy)]
pub struct CellKey {
    start: CellHasher,
}

impl CellKey {
    /// The key whose words are what SipHash makes of the numbers from 0 to 8 under the key of ids and texts.
    pub fn under(key: HashKey) -> CellKey
        ensures { result ≡ key_under key }
    {
        CellKey {
            start: CellHasher {
                sum: drawn_word(key, 0),
                next: drawn_pair(key, 1),
                second: drawn_pair(key, 3),
                third: drawn_pair(key, 5),
                last: drawn_pair(key, 7),
            },
        }
    }
}

// The words of a number and the next.
fn drawn_pair(key: HashKey, number: u64) -> WordPair
    requires { number < 8 }
    ensures { result ≡ drawn_pair key number }
{
    WordPair {
        low: drawn_word(key, number),
        high: drawn_word(key, number + 1),
    }
}

// What SipHash makes of a number under a key.
fn drawn_word(key: HashKey, number: u64) -> u64
    ensures { result ≡ drawn_word key number }
{
    key.hash_one(number)
}

impl BuildHasher for CellKey {
    type Hasher = CellHasher;

    ghost build_hasher = { starting };

    #[inline(always)]
    fn build_hasher(&self) -> CellHasher {
        self.start
    }
}
