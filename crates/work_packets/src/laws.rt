//! Laws of buckets, of packets and of runs.

ghost use Rattle.std.specs.Prelude.{◌≡◌, ℕ, ◌+◌, ◌≤◌, ◌↔◌, List, [], ◌∷◌, length, map};
ghost use Rattle.std.specs.List.{filter, sum_by};
ghost use Rattle.work_packets.specs.Buckets.{is_before, is_same};
ghost use Rattle.work_packets.specs.Packets.{HasItems, packets_of, packets_after};
ghost use Rattle.work_packets.specs.Steps.{BucketWork, RunsBucket, ran_by_all, pushed_by_all};
ghost use Rattle.work_packets.specs.declared.packet.Bucket.{Bucket};
ghost use Rattle.work_packets.specs.declared.packet.Bucket.TheVariants.{Prepare, Roots, Closure, Release};
ghost use Rattle.work_packets.specs.declared.packet.Packet.{Packet};

use crate::worker::PacketWorker;

/// Which buckets come after each, and which is the same.
pub fn buckets_have_an_order()
    ensures order { let all : List Bucket = Prepare ∷ Roots ∷ Closure ∷ Release ∷ [] in
        map (λ b. filter (is_before b) all) all
        ≡ (Roots ∷ Closure ∷ Release ∷ []) ∷ (Closure ∷ Release ∷ [])
        ∷ (Release ∷ []) ∷ [] ∷ [] }
    ensures same { let all : List Bucket = Prepare ∷ Roots ∷ Closure ∷ Release ∷ [] in
        map (λ b. filter (is_same b) all) all
        ≡ (Prepare ∷ []) ∷ (Roots ∷ []) ∷ (Closure ∷ []) ∷ (Release ∷ []) ∷ [] }
{}

/// A packet has 1 to 64 items.
pub fn packets_are_small<T>()
    ensures { (p : Packet T) → HasItems p
        ↔ (1 ≤ length p.items.items) × (length p.items.items ≤ 64) }
{}

/// A run of a bucket loses no packet and no worker: every packet that was there or was pushed is
/// run or left.
pub fn runs_lose_nothing<T, W: PacketWorker<T>>()
    ensures workers { (work : BucketWork W T) → RunsBucket W.steps work
        → length work.after ≡ length work.before }
    ensures run { (work : BucketWork W T) → RunsBucket W.steps work
        → length (ran_by_all work.logs)
        ≡ length work.first + length (packets_of work.bucket (pushed_by_all work.logs)) }
    ensures left { (work : BucketWork W T) → RunsBucket W.steps work
        → length work.later
        ≡ length (packets_after work.bucket (pushed_by_all work.logs)) }
    ensures all { (work : BucketWork W T) → RunsBucket W.steps work
        → length (ran_by_all work.logs) + length work.later
        ≡ length work.first + length (pushed_by_all work.logs) }
{}

/// Each worker is the one at its place after all of its steps: what no step changes stays, place by
/// place, and what rises by 1 in each step rises by the number of packets that were run.
pub fn workers_are_reached<T, W: PacketWorker<T>>()
    ensures stays { (f : W → ℕ) → ((w v : W) (p : Packet T) (q : List (Packet T))
        → W.steps w p q v → f v ≡ f w)
        → (work : BucketWork W T) → RunsBucket W.steps work
        → map f work.after ≡ map f work.before }
    ensures rises { (f : W → ℕ) → ((w v : W) (p : Packet T) (q : List (Packet T))
        → W.steps w p q v → f v ≡ f w + 1)
        → (work : BucketWork W T) → RunsBucket W.steps work
        → sum_by f work.after
        ≡ sum_by f work.before + length (ran_by_all work.logs) }
{}

/// What workers give away with packets and take in with packets is balanced, where a step gives
/// what the packets that it pushes carry, and takes what the packet that it runs carries.
pub fn packets_carry_a_balance<T, W: PacketWorker<T>>()
    ensures { (gave took : W → ℕ) (carried : Packet T → ℕ) → ((w v : W) (p : Packet T)
        (q : List (Packet T)) → W.steps w p q v
        → (gave v ≡ gave w + sum_by carried q) × (took v ≡ took w + carried p))
        → (work : BucketWork W T) → RunsBucket W.steps work
        → sum_by took work.after + sum_by gave work.before + sum_by carried work.later
        ≡ sum_by gave work.after + sum_by took work.before + sum_by carried work.first }
{}
