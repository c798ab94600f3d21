//! The packets of the roots.

ghost use Rattle.std.specs.Prelude.{◌≡◌, ◌++◌, ◌∷◌, [], IfOk, map};
ghost use Rattle.std.specs.List.{range_with_len};
ghost use Rattle.racing_collector.specs.Items.{AreRootPackets, items_of};
ghost use Rattle.racing_collector.specs.declared.item.RaceItem.TheVariants as items;

use crate::item::RaceItem;
use std::alloc::{AllocError, Global};
use trace_table::{GlobalRoot, Grey};
use work_packets::{Bucket, MAX_ITEMS, Packet};

/// The packets of `count` roots, in order, of the globals after them, and of the logged objects of
/// a nursery collection.
///
/// Fails if memory runs out.
pub(crate) fn root_packets(
    alloc: Global,
    count: u32,
    globals: Vec<GlobalRoot>,
    logged: Vec<Grey>,
) -> Result<Vec<Packet<RaceItem>>, AllocError>
    ensures items { IfOk result (λ ps. items_of ps.items
        ≡ (map (λ i. items.Register i) (range_with_len 0 count)
        ++ map (λ root. items.Global root) globals.items)
        ++ map (λ grey. items.Object grey) logged.items) }
    ensures packets { IfOk result (λ ps. AreRootPackets ps.items) }
{
    let mut packets = register_packets(alloc, count)?;
    add_globals(&mut packets, globals)?;
    for grey in logged {
        add(&mut packets, RaceItem::Object(grey))?;
    }
    Ok(packets)
}

/// Adds the globals.
fn add_globals(
    packets: &mut Vec<Packet<RaceItem>>,
    globals: Vec<GlobalRoot>,
) -> Result<(), AllocError>
    requires { AreRootPackets packets.old.items }
    ensures items { IfOk result (λ _. items_of packets.new.items
        ≡ items_of packets.old.items ++ map (λ root. items.Global root) globals.items) }
    ensures packets { IfOk result (λ _. AreRootPackets packets.new.items) }
{
    for root in globals {
        add(packets, RaceItem::Global(root))?;
    }
    Ok(())
}

/// The packets of the roots that are no globals.
fn register_packets(alloc: Global, count: u32) -> Result<Vec<Packet<RaceItem>>, AllocError>
    ensures items { IfOk result (λ ps. items_of ps.items
        ≡ map (λ i. items.Register i) (range_with_len 0 count)) }
    ensures packets { IfOk result (λ ps. AreRootPackets ps.items) }
{
    let mut packets = Vec::new(alloc);
    for place in 0..count {
        add(&mut packets, RaceItem::Register(place))?;
    }
    Ok(packets)
}

/// Adds an item to the last packet, or in a new packet if that one is full.
fn add(packets: &mut Vec<Packet<RaceItem>>, item: RaceItem) -> Result<(), AllocError>
    requires { AreRootPackets packets.old.items }
    ensures items { IfOk result (λ _. items_of packets.new.items
        ≡ items_of packets.old.items ++ item ∷ []) }
    ensures packets { IfOk result (λ _. AreRootPackets packets.new.items) }
{
    if let Some(last) = packets.last_mut() {
        if last.items.len() < MAX_ITEMS {
            last.items.push(item)?;
            return Ok(());
        }
    }
    let mut items = Vec::with_capacity(*packets.allocator(), MAX_ITEMS)?;
    items.push(item)?;
    packets.push(Packet {
        bucket: Bucket::Roots,
        items,
    })?;
    Ok(())
}
