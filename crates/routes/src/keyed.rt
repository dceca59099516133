//! A hasher with keys, for names that strangers choose.
//!
//! A name of up to eight bytes is one number, and costs one multiplication. Without the keys nobody can
//! tell which numbers collide: one is joined to the number before the multiplication, and the other is
//! what it is multiplied by.

ghost use Rattle.std.specs.Prelude.{◌≡◌};
ghost use Rattle.routes.specs.Keyed.{folded_multiply};

use std::hash::{BuildHasher, Hasher};
use std::io;
use std::random::RandomSource;

/// The keys that each hasher of a run begins with.
#[derive(Clone, Copy)]
pub struct Keys {
    state: u64,
    factor: u64,
}

impl Keys {
    /// Keys from the system, which nobody can foresee.
    pub fn new(source: &impl RandomSource) -> io::Result<Keys> {
        let mut bytes = [0; 16];
        source.fill_bytes(&mut bytes)?;
        let both = u128::from_le_bytes(bytes);
        Ok(Keys {
            state: (both & 0xFFFF_FFFF_FFFF_FFFF) as u64,
            // A factor of 0 would make all numbers collide.
            factor: (both >> 64) as u64 | 1,
        })
    }
}

impl BuildHasher for Keys {
    type Hasher = KeyedHasher;

    ghost build_hasher = { λ k. record { state = k.state; factor = k.factor } };

    fn build_hasher(&self) -> KeyedHasher {
        KeyedHasher {
            state: self.state,
            factor: self.factor,
        }
    }
}

/// The two halves of the product, joined.
fn folded_multiply(a: u64, b: u64) -> u64
    ensures { result ≡ folded_multiply a b }
{
    let product = a as u128 * b as u128;
    (product & 0xFFFF_FFFF_FFFF_FFFF) as u64 ^ (product >> 64) as u64
}

/// Multiplies the state, joined with each number that it is given, by the factor.
#[derive(Clone, Copy)]
pub struct KeyedHasher {
    state: u64,
    factor: u64,
}

impl Hasher for KeyedHasher {
    ghost use Rattle.routes.specs.Keyed.{state_after_bytes};

    ghost write = { λ h bytes. record h { state = state_after_bytes h.factor h.state bytes } };

    ghost finish = { λ h. h.state };

    fn finish(&self) -> u64 {
        self.state
    }

    fn write(&mut self, bytes: &[u8]) {
        if let [a, b, c, d, e, f, g, h] = bytes {
            let number = u64::from_le_bytes([*a, *b, *c, *d, *e, *f, *g, *h]);
            self.state = folded_multiply(self.state ^ number, self.factor);
            return;
        }
        let mut state = self.state;
        for byte in bytes {
            state = folded_multiply(state ^ u64::from(*byte), self.factor);
        }
        self.state = state;
    }
}
