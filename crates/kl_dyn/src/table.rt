// The symbol hash table (gABI, "Hash Table").
ghost use Rattle.std.specs.Prelude.{ℕ, List, ◌≡◌, ◌<◌, ◌≤◌, ◌^◌, ◌++◌, All, IfOk, OnOk, flat_map, length, map};
ghost use Rattle.std.specs.List.{range_with_len};
ghost use Rattle.kl_base.specs.declared.limits.TheConstants.{SYMBOL_COUNT_LIMIT};
ghost use Rattle.kl_model.specs.Sizes.{bucket_count};
ghost use Rattle.kl_model.specs.Tables.{buckets_of, chains_from, first_in, hash_words};
ghost use Rattle.kl_model.specs.Written.{bytes_of};

use crate::bytes::push_word;
use crate::hash::symbol_hash;
use crate::names::name_text;
use crate::size::{bucket_count, symbol_count};
use kl_base::NoMemory;
use kl_model::{Graph, Input};
use std::alloc::Global;

/// The chains of symbols that share a bucket. Symbols have the numbers from 1 on; 0 is none.
#[derive(Debug, Drop)]
struct Chains {
    /// The first symbol of each bucket.
    firsts: Vec<u32>,
    /// The next symbol of the bucket of each symbol.
    nexts: Vec<u32>,
}

/// The bucket of each dynamic name's symbol, in a table with so many buckets.
fn buckets_of(
    alloc: Global,
    inputs: &[Input],
    graph: &Graph,
    count: u32,
) -> Result<Vec<u32>, NoMemory>
    requires { count ≡ bucket_count graph.now }
    ensures buckets { IfOk result (λ v. v.items ≡ buckets_of inputs.now graph.now) }
    ensures within { IfOk result (λ v. All (λ b. b < count) v.items) }
{
    let mut buckets = Vec::with_capacity(alloc, graph.names.items().len())?;
    for name in graph.names.items() {
        buckets.push(symbol_hash(name_text(inputs, name)) % count)?;
    }
    Ok(buckets)
}

/// The chains of symbols, each of which is in one of so many buckets.
fn chains_of(alloc: Global, buckets: &[u32], count: u32) -> Result<Chains, NoMemory>
    requires within { All (λ b. b < count) buckets.now }
    requires few { length buckets.now < 2 ^ 31 }
    ensures firsts { IfOk result (λ c. c.firsts.items ≡ map (λ b. first_in b 1 buckets.now) (range_with_len 0 count)) }
    ensures nexts { IfOk result (λ c. c.nexts.items ≡ chains_from 1 buckets.now) }
{
    let mut firsts = vec![in alloc; 0; count as usize]?;
    let mut nexts = vec![in alloc; 0; buckets.len()]?;
    let mut rest = buckets.len();
    while rest > 0 {
        let symbol = rest as u32;
        rest -= 1;
        let bucket = buckets[rest] as usize;
        nexts[rest] = firsts[bucket];
        firsts[bucket] = symbol;
    }
    Ok(Chains { firsts, nexts })
}

/// Pushes numbers of four bytes.
fn push_words(bytes: &mut Vec<u8>, words: &[u32]) -> Result<(), NoMemory>
    ensures { OnOk result (bytes.new.items ≡ bytes.old.items ++ flat_map (bytes_of 4) words.now) }
{
    for word in words {
        push_word(bytes, *word)?;
    }
    Ok(())
}

/// Pushes the words of the hash table: how many buckets and symbols it has, and the chains.
pub fn push_hash(
    alloc: Global,
    bytes: &mut Vec<u8>,
    inputs: &[Input],
    graph: &Graph,
) -> Result<(), NoMemory>
    requires { length graph.now.names ≤ SYMBOL_COUNT_LIMIT }
    ensures { OnOk result (bytes.new.items ≡ bytes.old.items ++ flat_map (bytes_of 4) (hash_words inputs.now graph.now)) }
{
    let count = bucket_count(graph) as u32;
    let buckets = buckets_of(alloc, inputs, graph, count)?;
    let chains = chains_of(alloc, &buckets, count)?;
    push_word(bytes, count)?;
    push_word(bytes, symbol_count(graph) as u32)?;
    push_words(bytes, &chains.firsts)?;
    push_word(bytes, 0)?;
    push_words(bytes, &chains.nexts)
}
