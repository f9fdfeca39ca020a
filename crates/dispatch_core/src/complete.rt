// What becomes of the bios of a finished request.
ghost use Rattle.std.specs.Prelude.{◌≡◌, ◌+◌, ◌*◌, ◌≤◌, ◌<◌, ◌^◌, [], ◌∷◌, None, IfOk, OnOk, IfSome, IsSome, IsTrue, Some, drop, length, take, unwrap_or, ℕ};
ghost use Rattle.std.specs.FinMap as blocks;
ghost use Rattle.change_record.specs.Trail.{KeepsTrail};
ghost use Rattle.process_queue.specs.Merge.{bios_at};
ghost use Rattle.plain.specs.Runs.{IsFree};
ghost use Rattle.plain.specs.Steps.Finish.{content, with_blocks, with_zeros, after_effect, completed, result_of, rest_of_effect};
ghost use Rattle.dispatch_core.specs.Changes.{with_bios, without_bios};
ghost use Rattle.dispatch_core.specs.Counts.{blocks_put};
ghost use Rattle.dispatch_core.specs.Ranges.{total_count};
ghost use Rattle.dispatch_core.specs.Ready.{IsReady, HasBytes, HasPayload};
ghost use Rattle.dispatch_core.specs.WellFormed.{at};

use bytes::Bytes;
use change_record::{Change, Parts, Tape};
use overlay::Overlay;
use plain::SECTOR_BYTES;
use sector_core::{BioFields, BioResult, Block, Effect, OutOfMemory, Range, Slot};
use std::alloc::Global;

/// Gives every bio in these slots its result, and puts the blocks of a store or a discard.
pub fn complete(
    alloc: Global,
    parts: &mut Parts,
    tape: &mut Tape,
    slots: &[Slot],
    effect: Effect,
) -> Result<(), OutOfMemory>
    requires ready { IsReady parts.old.tables.bios slots.now effect }
    requires room { total_count parts.old.tables.bios slots.now + length slots.now ≤ tape.old.room }
    ensures tables { OnOk result (parts.new.tables ≡ record parts.old.tables {
      overlay = after_effect effect parts.old.tables.overlay (bios_at parts.old.tables.bios slots.now);
      bios = with_bios parts.old.tables.bios slots.now (completed effect parts.old.tables.overlay (bios_at parts.old.tables.bios slots.now));
    }) }
    ensures trail { KeepsTrail tape.old.current parts.old.tables tape.new.current parts.new.tables }
    ensures steps { tape.new.steps ≡ tape.old.steps }
    ensures count { OnOk result (length tape.new.current ≡ length tape.old.current + (length slots.now + blocks_put effect (total_count parts.old.tables.bios slots.now))) }
    ensures room { tape.old.room ≤ tape.new.room + (total_count parts.old.tables.bios slots.now + length slots.now) }
    ensures spare { tape.new.spare ≡ tape.old.spare }
{
    let mut rest = effect;
    for slot in slots {
        let done = done_bio(alloc, parts, *slot, &rest)?;
        let count = done.range.count;
        put_blocks(parts, tape, &done, &rest)?;
        let bio = tape.boxed(done)?;
        tape.exchange(
            parts,
            Change::BioSlot {
                slot: *slot,
                bio: Some(bio),
            },
        );
        rest = without_first(rest, count);
    }
    Ok(())
}

/// Drops every bio in these slots, and puts the blocks of a store or a discard.
pub fn drop_all(
    parts: &mut Parts,
    tape: &mut Tape,
    slots: &[Slot],
    effect: &Effect,
) -> Result<(), OutOfMemory>
    requires ready { IsReady parts.old.tables.bios slots.now effect.now }
    requires room { total_count parts.old.tables.bios slots.now + length slots.now ≤ tape.old.room }
    ensures tables { OnOk result (parts.new.tables ≡ record parts.old.tables {
      overlay = after_effect effect.now parts.old.tables.overlay (bios_at parts.old.tables.bios slots.now);
      bios = without_bios parts.old.tables.bios slots.now;
    }) }
    ensures trail { KeepsTrail tape.old.current parts.old.tables tape.new.current parts.new.tables }
    ensures steps { tape.new.steps ≡ tape.old.steps }
    ensures count { OnOk result (length tape.new.current ≡ length tape.old.current + (length slots.now + blocks_put effect.now (total_count parts.old.tables.bios slots.now))) }
    ensures room { tape.old.room ≤ tape.new.room + (total_count parts.old.tables.bios slots.now + length slots.now) }
    ensures spare { tape.new.spare ≡ tape.old.spare }
{
    for slot in slots {
        let bio = bio_without_result(parts, *slot)?;
        put_blocks(parts, tape, &bio, effect)?;
        tape.exchange(
            parts,
            Change::BioSlot {
                slot: *slot,
                bio: None,
            },
        );
    }
    Ok(())
}

// The bio in a slot, without its result.
fn bio_without_result(parts: &Parts, slot: Slot) -> Result<BioFields, OutOfMemory>
    requires { IsSome (at parts.now.tables.bios slot) }
    ensures { IfOk result (λ copy. IfSome (at parts.now.tables.bios slot) (λ bio. copy ≡ record bio { result = None })) }
{
    let Some(bio) = parts.pool().bio(slot) else {
        unreachable!()
    };
    Ok(BioFields {
        serial: bio.serial,
        range: bio.range,
        payload: bio.payload.clone()?,
        result: None,
    })
}

// The bio in a slot, with its result.
fn done_bio(
    alloc: Global,
    parts: &Parts,
    slot: Slot,
    effect: &Effect,
) -> Result<BioFields, OutOfMemory>
    requires taken { IsSome (at parts.now.tables.bios slot) }
    requires ends { IfSome (at parts.now.tables.bios slot) (λ bio. bio.range.start + bio.range.count < 2 ^ 64) }
    ensures { IfOk result (λ done. IfSome (at parts.now.tables.bios slot) (λ bio. done ≡ record bio { result = Some (result_of effect.now parts.now.tables.overlay bio) })) }
{
    let Some(bio) = parts.pool().bio(slot) else {
        unreachable!()
    };
    let done = completed_bio(alloc, parts.overlay(), bio, effect)?;
    Ok(done)
}

// Puts the bio's blocks into the overlay, where the effect is that of a store or a discard.
fn put_blocks(
    parts: &mut Parts,
    tape: &mut Tape,
    bio: &BioFields,
    effect: &Effect,
) -> Result<(), OutOfMemory>
    requires ends { bio.now.range.start + bio.now.range.count < 2 ^ 64 }
    requires long { HasPayload effect.now bio.now }
    requires room { bio.now.range.count ≤ tape.old.room }
    ensures tables { OnOk result (parts.new.tables ≡ record parts.old.tables { overlay = after_effect effect.now parts.old.tables.overlay (bio.now ∷ []) }) }
    ensures trail { KeepsTrail tape.old.current parts.old.tables tape.new.current parts.new.tables }
    ensures steps { tape.new.steps ≡ tape.old.steps }
    ensures count { OnOk result (length tape.new.current ≡ length tape.old.current + blocks_put effect.now bio.now.range.count) }
    ensures room { tape.old.room ≤ tape.new.room + bio.now.range.count }
    ensures spare { tape.new.spare ≡ tape.old.spare }
{
    match effect {
        Effect::Reads(_) => return Ok(()),
        Effect::Writes => {
            store(parts, tape, bio.range, bio.payload.clone()?)?;
            return Ok(());
        }
        Effect::Clears => {
            clear(parts, tape, bio.range)?;
            return Ok(());
        }
        Effect::Fails(_) => return Ok(()),
    }
}

// The bio with its result.
fn completed_bio(
    alloc: Global,
    overlay: &Overlay,
    bio: &BioFields,
    effect: &Effect,
) -> Result<BioFields, OutOfMemory>
    requires { bio.now.range.start + bio.now.range.count < 2 ^ 64 }
    ensures { IfOk result (λ done. done ≡ record bio.now { result = Some (result_of effect.now overlay.now bio.now) }) }
{
    let result = match effect {
        Effect::Reads(bytes) => BioResult::Read(content_of(alloc, overlay, bio.range, bytes)?),
        Effect::Writes => BioResult::Written,
        Effect::Clears => BioResult::Discarded,
        Effect::Fails(kind) => BioResult::IoError(*kind),
    };
    Ok(BioFields {
        serial: bio.serial,
        range: bio.range,
        payload: bio.payload.clone()?,
        result: Some(result),
    })
}

// The content of some sectors: the overlay's block where it has one, else the bytes of the image. Where it has none in the whole
// range the bytes are shared, so that those of a read are kept once.
fn content_of(
    alloc: Global,
    overlay: &Overlay,
    range: Range,
    bytes: &Bytes,
) -> Result<Bytes, OutOfMemory>
    requires { range.start + range.count < 2 ^ 64 }
    ensures { IfOk result (λ found. found ≡ content overlay.now range.start range.count bytes.now) }
{
    if is_free(overlay, range) {
        let mut found = bytes.clone()?;
        found.truncate(SECTOR_BYTES * range.count as usize);
        return Ok(found);
    }
    mixed_content(alloc, overlay, range, bytes.as_slice())
}

// Whether the overlay has no block in a range.
fn is_free(overlay: &Overlay, range: Range) -> bool
    requires { range.start + range.count < 2 ^ 64 }
    ensures { IsTrue result → (sector : ℕ) → range.start ≤ sector → sector < range.start + range.count → IsFree overlay.now sector }
{
    match overlay.next_stored(range.start) {
        Some(sector) => range.end() <= sector,
        None => true,
    }
}

// Likewise, block by block, into memory of its own.
fn mixed_content(
    alloc: Global,
    overlay: &Overlay,
    range: Range,
    bytes: &[u8],
) -> Result<Bytes, OutOfMemory>
    requires { range.start + range.count < 2 ^ 64 }
    ensures { IfOk result (λ found. found ≡ content overlay.now range.start range.count bytes.now) }
{
    let mut found = Vec::with_capacity(alloc, SECTOR_BYTES * range.count as usize)?;
    let mut rest = bytes;
    for sector in range.start..range.end() {
        let (first, others) = rest.split_at(rest.len().min(SECTOR_BYTES));
        found.extend_from_slice(block_or(overlay, sector, first))?;
        rest = others;
    }
    Ok(Bytes::from_vec(found)?)
}

// The overlay's block at a sector where it has one, else the image's bytes there.
fn block_or<'a>(overlay: &'a Overlay, sector: u64, image: &'a [u8]) -> &'a [u8]
    ensures { result.now ≡ unwrap_or (blocks.get overlay.now sector) image.now }
{
    match overlay.get(sector) {
        Some(block) => block.as_slice(),
        None => image,
    }
}

// Puts the blocks of a store into the overlay.
fn store(
    parts: &mut Parts,
    tape: &mut Tape,
    range: Range,
    payload: Bytes,
) -> Result<(), OutOfMemory>
    requires ends { range.start + range.count < 2 ^ 64 }
    requires long { 512 * range.count ≤ length payload }
    requires room { range.count ≤ tape.old.room }
    ensures tables { OnOk result (parts.new.tables ≡ record parts.old.tables { overlay = with_blocks parts.old.tables.overlay range.start range.count payload }) }
    ensures trail { KeepsTrail tape.old.current parts.old.tables tape.new.current parts.new.tables }
    ensures steps { tape.new.steps ≡ tape.old.steps }
    ensures count { OnOk result (length tape.new.current ≡ length tape.old.current + range.count) }
    ensures room { tape.old.room ≤ tape.new.room + range.count }
    ensures spare { tape.new.spare ≡ tape.old.spare }
{
    let mut rest = payload;
    for sector in range.start..range.end() {
        let block = first_block(tape, &mut rest)?;
        tape.try_exchange(
            parts,
            Change::Sector {
                sector,
                block: Some(block),
            },
        )?;
    }
    Ok(())
}

// Takes the block of the first sector off some bytes; its bytes are shared.
fn first_block(tape: &Tape, bytes: &mut Bytes) -> Result<Block, OutOfMemory>
    requires { 512 ≤ length bytes.old }
    ensures block { IfOk result (λ block. block ≡ take 512 bytes.old) }
    ensures rest { OnOk result (bytes.new ≡ drop 512 bytes.old) }
{
    let first = bytes.split_to(SECTOR_BYTES)?;
    Block::new(tape.allocator(), first)
}

// Puts blocks of zeros into the overlay.
fn clear(parts: &mut Parts, tape: &mut Tape, range: Range) -> Result<(), OutOfMemory>
    requires ends { range.start + range.count < 2 ^ 64 }
    requires room { range.count ≤ tape.old.room }
    ensures tables { OnOk result (parts.new.tables ≡ record parts.old.tables { overlay = with_zeros parts.old.tables.overlay range.start range.count }) }
    ensures trail { KeepsTrail tape.old.current parts.old.tables tape.new.current parts.new.tables }
    ensures steps { tape.new.steps ≡ tape.old.steps }
    ensures count { OnOk result (length tape.new.current ≡ length tape.old.current + range.count) }
    ensures room { tape.old.room ≤ tape.new.room + range.count }
    ensures spare { tape.new.spare ≡ tape.old.spare }
{
    for sector in range.start..range.end() {
        let zeros = Block::zeros(tape.allocator())?;
        tape.try_exchange(
            parts,
            Change::Sector {
                sector,
                block: Some(zeros),
            },
        )?;
    }
    Ok(())
}

// The effect without the bytes of its first sectors.
fn without_first(effect: Effect, count: u32) -> Effect
    requires { HasBytes count effect }
    ensures { result ≡ rest_of_effect count effect }
{
    match effect {
        Effect::Reads(bytes) => {
            let mut bytes = bytes;
            bytes.advance(SECTOR_BYTES * count as usize);
            return Effect::Reads(bytes);
        }
        Effect::Writes => return Effect::Writes,
        Effect::Clears => return Effect::Clears,
        Effect::Fails(kind) => return Effect::Fails(kind),
    }
}
