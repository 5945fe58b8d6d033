//! The codes of a key: what the cells of a cube are found by.
ghost use Rattle.std.specs.Prelude.{◌≡◌, ◌≤◌, ◌<◌, ◌+◌, ◌*◌, ◌++◌, ◌∷◌, ◌%◌, ◌==◌, [], slice_index_or, if◌then◌else◌};
ghost use Rattle.cube_cells.specs.Coded.{is_total_code, total_codes};
ghost use Rattle.std.specs.Hash as fed;
ghost use Rattle.std.specs.Cmp.Lexicographic.{slice_cmp};
ghost use Rattle.std.specs.Ordering.{nat_cmp};
ghost use Rattle.std.specs.Cmp.Rules.{comparing, hashing};
ghost use Rattle.std.proofs.Common.{rules};
ghost use Rattle.cube_cells.specs.Codes.{all_code};
ghost use Rattle.cube_cells.specs.BottomUp.{all_at};
ghost use Rattle.cube_cells.specs.Levels.{mask_of_codes};
ghost use Rattle.cube_cells.specs.Walk.{key_in};

use std::cmp::Ordering;
use std::hash::{Hash, Hasher};

/// The code of ALL, in each place past the last dimension too.
pub const ALL: u32 = 4_294_967_295;

/// The code of a dimension's null.
pub const NULL: u32 = 4_294_967_294;

/// The code of a text that isn't in the dictionary: no cell has it.
pub const NONE: u32 = 4_294_967_293;

/// A code for each dimension: ALL, null, or the place of a text in the dimension's dictionary.
#[derive(Clone, Copy, Default, PartialEq, Eq)]
pub struct Codes {
    pub codes: [u32; 8],
}

impl Codes {
    /// The key that is ALL in each dimension.
    pub fn total() -> Codes
        ensures { result ≡ total_codes }
    {
        Codes { codes: [ALL; 8] }
    }

    /// Whether the key is ALL in each dimension.
    pub fn is_total(&self) -> bool
        ensures { result ≡ is_total_code self.now }
    {
        self.codes.iter().all(|code| *code == ALL)
    }

    /// The mask of their grouping set: the dimensions that aren't ALL.
    pub fn mask(&self) -> u8
        ensures { result ≡ mask_of_codes self.now.codes }
    {
        let codes = self.codes;
        let low = mask_of_four(codes[0], codes[1], codes[2], codes[3]);
        let high = mask_of_four(codes[4], codes[5], codes[6], codes[7]);
        low + 16 * high
    }

    /// These codes with ALL in a dimension.
    pub fn with_all(&self, dimension: usize) -> Codes
        requires { dimension < 8 }
        ensures { result ≡ all_at dimension self.now }
    {
        let mut codes = self.codes;
        codes[dimension] = ALL;
        Codes { codes }
    }

    /// How these codes stand to others: the first that differ decide.
    pub fn cmp(&self, other: &Codes) -> Ordering
        ensures { result ≡ slice_cmp nat_cmp self.now.codes other.now.codes }
    {
        self.codes.cmp(&other.codes)
    }

    /// These codes in the dimensions of a grouping set, and ALL in the others.
    pub fn kept(&self, set: u8) -> Codes
        ensures { result ≡ key_in self.now set }
    {
        let mut codes = self.codes;
        let mut rest = set;
        for code in codes.iter_mut() {
            *code = kept_code(rest, *code);
            rest /= 2;
        }
        Codes { codes }
    }
}

// The mask of four codes.
fn mask_of_four(first: u32, second: u32, third: u32, fourth: u32) -> u8
    ensures mask { result ≡ mask_of_codes (first ∷ second ∷ third ∷ fourth ∷ []) }
    ensures few { result < 16 }
{
    mask_bit(first) + 2 * mask_bit(second) + 4 * mask_bit(third) + 8 * mask_bit(fourth)
}

// 0 for the code of ALL, else 1.
fn mask_bit(code: u32) -> u8
    ensures bit { result ≡ (if code == all_code then 0 else 1) }
    ensures few { result ≤ 1 }
{
    if code == ALL { 0 } else { 1 }
}

// The code where the lowest bit of the set is there, else ALL.
fn kept_code(set: u8, code: u32) -> u32
    ensures { result ≡ (if set % 2 == 1 then code else all_code) }
{
    if set % 2 == 1 { code } else { ALL }
}

// Two codes in one number, so that fewer numbers are hashed.
fn pair(low: u32, high: u32) -> u64
    ensures { result ≡ low + high * 4294967296 }
{
    low as u64 + high as u64 * 4_294_967_296
}

impl Hash for Codes {
    ghost hash_input = { λ k.
        fed.u64 (slice_index_or k.codes 0 0 + slice_index_or k.codes 1 0 * 4294967296)
        ++ fed.u64 (slice_index_or k.codes 2 0 + slice_index_or k.codes 3 0 * 4294967296)
        ++ fed.u64 (slice_index_or k.codes 4 0 + slice_index_or k.codes 5 0 * 4294967296)
        ++ fed.u64 (slice_index_or k.codes 6 0 + slice_index_or k.codes 7 0 * 4294967296) };

    ghost respects_eq = { Prim.search (hashing, rules) };

    fn hash<H: Hasher>(&self, state: &mut H) {
        state.write_u64(pair(self.codes[0], self.codes[1]));
        state.write_u64(pair(self.codes[2], self.codes[3]));
        state.write_u64(pair(self.codes[4], self.codes[5]));
        state.write_u64(pair(self.codes[6], self.codes[7]));
    }
}
