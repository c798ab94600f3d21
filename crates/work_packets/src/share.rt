//! The first packets of a bucket, dealt to workers.

ghost use Rattle.std.specs.Prelude.{◌≡◌, ◌⊎◌, ◌+◌, ◌<◌, ◌∷◌, [], length, get_or, set, map, IfOk};
ghost use Rattle.std.specs.List.Sorted.{IsPermutation};
ghost use Rattle.work_packets.specs.Shares.{packets_in, sizes, AreNumberedFrom, AreEven};

use crate::packet::Packet;
use std::alloc::AllocError;

/// A worker with the packets that it is to run first.
#[derive(Debug, Drop)]
pub struct Share<T, W> {
    /// The worker's number, counted from 1. After 2^32 - 1 it rises no more.
    pub number: u32,
    pub worker: W,
    pub packets: Vec<Packet<T>>,
}

/// A share without packets for each worker.
fn empty_shares<T: Drop, W: Drop>(workers: Vec<W>) -> Result<Vec<Share<T, W>>, AllocError>
    ensures workers { IfOk result (λ shares. map (λ s. s.worker) shares.items ≡ workers.items) }
    ensures none { IfOk result (λ shares. packets_in shares.items ≡ []) }
    ensures sizes { IfOk result
        (λ shares. sizes shares.items ≡ map (λ w. 0) workers.items) }
    ensures numbers { IfOk result
        (λ shares. AreNumberedFrom 1 (map (λ s. s.number) shares.items)) }
{
    let alloc = *workers.allocator();
    let mut shares = Vec::new(alloc);
    let mut number: u32 = 1;
    for worker in workers {
        let packets = Vec::new(alloc);
        shares.push(Share {
            number,
            worker,
            packets,
        })?;
        number = number.saturating_add(1);
    }
    Ok(shares)
}

/// Adds a packet to the share at place `i`.
fn give<T: Drop, W: Drop>(
    shares: &mut Vec<Share<T, W>>,
    i: usize,
    p: Packet<T>,
) -> Result<(), AllocError>
    requires { i < length shares.old.items }
    ensures workers { IfOk result
        (λ _. map (λ s. s.worker) shares.new.items ≡ map (λ s. s.worker) shares.old.items) }
    ensures numbers { IfOk result
        (λ _. map (λ s. s.number) shares.new.items ≡ map (λ s. s.number) shares.old.items) }
    ensures packets { IfOk result
        (λ _. IsPermutation (p ∷ packets_in shares.old.items) (packets_in shares.new.items)) }
    ensures sizes { IfOk result (λ _. sizes shares.new.items
        ≡ set (sizes shares.old.items) i (get_or (sizes shares.old.items) i 0 + 1)) }
{
    let share = &mut shares[i];
    share.packets.push(p)?;
    Ok(())
}

/// The place after `i`; after the last one the first.
fn following(i: usize, count: usize) -> usize
    requires { i < count }
    ensures inside { result < count }
    ensures next { (result ≡ i + 1) ⊎ ((result ≡ 0) × (i + 1 ≡ count)) }
{
    if i + 1 == count { 0 } else { i + 1 }
}

/// Deals the packets to the workers in turn.
pub fn deal<T: Drop, W: Drop>(
    workers: Vec<W>,
    first: Vec<Packet<T>>,
) -> Result<Vec<Share<T, W>>, AllocError>
    requires { 0 < length workers.items }
    ensures workers { IfOk result (λ shares. map (λ s. s.worker) shares.items ≡ workers.items) }
    ensures packets { IfOk result (λ shares. IsPermutation first.items (packets_in shares.items)) }
    ensures even { IfOk result (λ shares. AreEven shares.items) }
    ensures numbers { IfOk result
        (λ shares. AreNumberedFrom 1 (map (λ s. s.number) shares.items)) }
{
    let mut shares = empty_shares(workers)?;
    let mut i = 0;
    for p in first {
        give(&mut shares, i, p)?;
        i = following(i, shares.len());
    }
    Ok(shares)
}
