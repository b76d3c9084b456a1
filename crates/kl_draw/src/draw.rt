// Derived seeds, and what is drawn from them.
ghost use Rattle.std.specs.Prelude.{◌≡◌, ◌+◌, ◌*◌, ◌%◌, ◌^◌, IfOk, IsPermutation};
ghost use Rattle.std.specs.List.{range_with_len};
ghost use Rattle.kl_model.specs.Fit.{AreGaps, IsGap};
ghost use Rattle.kl_model.specs.Orders.{IsOrder};
ghost use Rattle.kl_draw.specs.Drawn.{gap_of, gaps_from, order_from, shuffled_by, sub_seed};

use kl_base::NoMemory;
use kl_model::Gaps;
use rand::seq::SliceRandom;
use rand_chacha::ChaCha20Rng;
use rand_core::SeedableRng;
use rand_core::utils::NextWord;
use sha2::{Digest, Sha256};
use std::alloc::Global;

/// How many sizes a gap may have: it is so many times 16 bytes at most.
const GAP_SIZES: u32 = 1 << 14;

/// The seed of one purpose under a label, which is the name of a kit's output: the SHA-256 digest (FIPS 180-4) of the seed, a zero byte,
/// the label, a zero byte and the purpose.
pub fn sub_seed(seed: &[u8; 32], label: &[u8], purpose: &[u8]) -> [u8; 32]
    ensures { result ≡ sub_seed seed.now label.now purpose.now }
{
    let mut hasher = Sha256::new();
    hasher.update(seed.as_slice());
    hasher.update(b"\0".as_slice());
    hasher.update(label);
    hasher.update(b"\0".as_slice());
    hasher.update(purpose);
    hasher.finalize()
}

/// The order of `n` drawn inputs under a derived seed: the shuffle of their numbers by the ChaCha20 stream (RFC 8439) from that seed. The
/// first number is that of the input that comes first. The only error is want of memory.
pub fn draw_order(alloc: Global, sub: &[u8; 32], n: u32) -> Result<Vec<u32>, NoMemory>
    ensures drawn { IfOk result (λ order. order.items ≡ order_from sub.now n) }
    ensures order { IfOk result (λ order. IsOrder n order.items) }
{
    let mut order = numbers(alloc, n)?;
    shuffle(&mut order, sub);
    Ok(order)
}

/// The numbers below `n`.
fn numbers(alloc: Global, n: u32) -> Result<Vec<u32>, NoMemory>
    ensures { IfOk result (λ v. v.items ≡ range_with_len 0 n) }
{
    let mut numbers = Vec::with_capacity(alloc, n as usize)?;
    for number in 0..n {
        numbers.push(number)?;
    }
    Ok(numbers)
}

/// Shuffles numbers by the stream from a derived seed.
fn shuffle(numbers: &mut [u32], sub: &[u8; 32])
    ensures drawn { numbers.new ≡ shuffled_by sub.now numbers.old }
    ensures permutation { IsPermutation numbers.old numbers.new }
{
    let mut words = ChaCha20Rng::from_seed(*sub);
    numbers.shuffle(&mut words);
}

/// The sizes of a kernel's gaps under a derived seed, in bytes: each is a multiple of 16 from 16 to 262,144, which a word of the ChaCha20
/// stream from that seed gives.
#[tactic(auto, unfolding(crate::specs::Drawn::gaps_from))]
pub fn draw_gaps(sub: &[u8; 32]) -> Gaps
    ensures drawn { result ≡ gaps_from sub.now }
    ensures sizes { AreGaps result }
{
    let mut words = ChaCha20Rng::from_seed(*sub);
    let text = gap_of(words.next_word());
    let rodata = gap_of(words.next_word());
    let rwdata = gap_of(words.next_word());
    let bss = gap_of(words.next_word());
    Gaps {
        text,
        rodata,
        rwdata,
        bss,
    }
}

/// The size of a gap that a word gives, in bytes.
fn gap_of(word: u32) -> u64
    ensures drawn { result ≡ gap_of word }
    ensures size { IsGap result }
{
    16 * (1 + u64::from(word % GAP_SIZES))
}
