//! A reflected cyclic redundancy check of 32 bits, sixteen bytes at a time, over a table that its polynomial gives.
#![tactic(auto)]

ghost use Rattle.std.specs.Prelude.{◌≡◌, ℕ, ◌+◌, ◌*◌, ◌≤◌, List, ◌++◌, length, take, drop};
ghost use Rattle.crc.specs.Crc.{steps, after_byte, after, sum_of, table_of};
ghost use Rattle.crc.specs.Laws.{packed, Linear, Joined};

/// A polynomial of 32 bits, its highest power in the lowest bit, with its table: sixteen rows of 256,
/// of which row `k` says what a byte adds that `k` zero bytes follow.
pub trait Polynomial {
    ghost poly: { ℕ };

    fn table() -> &'static [u32; 4096]
        ensures { result.now ≡ table_of poly };
}

// The register `w` after `k + 4` zero bytes.
fn four<P: Polynomial>(k: usize, w: u32) -> u32
    requires { k ≤ 12 }
    ensures { result ≡ steps P.Polynomial.poly (8 * (k + 4)) w }
{
    let t = P::table();
    t[(k + 3) * 256 + (w & 255) as usize]
        ^ t[(k + 2) * 256 + ((w >> 8) & 255) as usize]
        ^ t[(k + 1) * 256 + ((w >> 16) & 255) as usize]
        ^ t[k * 256 + (w >> 24) as usize]
}

// The four bytes from `i` on as one number.
fn word(d: &[u8], i: usize) -> u32
    requires { i + 4 ≤ length d.now }
    ensures { result ≡ packed (take 4 (drop i d.now)) }
{
    u32::from_le_bytes([d[i], d[i + 1], d[i + 2], d[i + 3]])
}

// The register `v` after sixteen bytes.
fn after_block<P: Polynomial>(v: u32, d: &[u8]) -> u32
    requires { length d.now ≡ 16 }
    ensures { result ≡ after P.Polynomial.poly v d.now }
{
    let a = word(d, 0);
    let b = word(d, 4);
    let c = word(d, 8);
    let e = word(d, 12);
    // the register's part last, since each block waits for it
    let rest = four::<P>(8, b) ^ four::<P>(4, c) ^ four::<P>(0, e);
    four::<P>(12, v ^ a) ^ rest
}

// The register `v` after one byte.
fn after_byte<P: Polynomial>(v: u32, b: u8) -> u32
    ensures { result ≡ after_byte P.Polynomial.poly v b }
{
    let w = v ^ u32::from(b);
    P::table()[(w & 255) as usize] ^ (w >> 8)
}

/// The register after the bytes of `bytes`, where it was `crc` before them.
pub fn update<P: Polynomial>(crc: u32, bytes: &[u8]) -> u32
    ensures { result ≡ after P.Polynomial.poly crc bytes.now }
{
    let mut v = crc;
    let blocks = bytes.chunks_exact(16);
    let rest = blocks.remainder();
    for block in blocks {
        v = after_block::<P>(v, block);
    }
    for byte in rest {
        v = after_byte::<P>(v, *byte);
    }
    v
}

/// The sum of `bytes`: the register begins as all ones, and all of its bits are turned in the end.
pub fn checksum<P: Polynomial>(bytes: &[u8]) -> u32
    ensures { result ≡ sum_of P.Polynomial.poly bytes.now }
{
    update::<P>(0xffff_ffff, bytes) ^ 0xffff_ffff
}

/// A sum continued over a second part: where `sum` is the sum of a first part, whichever that was,
/// the sum of that part and `bytes` joined.
pub fn append<P: Polynomial>(sum: u32, bytes: &[u8]) -> u32
    ensures { (bs : List ℕ) → sum ≡ sum_of P.Polynomial.poly bs
        → result ≡ sum_of P.Polynomial.poly (bs ++ bytes.now) }
{
    update::<P>(sum ^ 0xffff_ffff, bytes) ^ 0xffff_ffff
}

/// Two laws of the definition, over every polynomial: the register's steps are linear over xor,
/// and a second part goes on where the first ended.
pub fn laws_stand()
    ensures { Linear × Joined }
{}
