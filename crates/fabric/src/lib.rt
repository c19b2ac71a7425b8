// Unpack, pack and record: the calls on the packed fabric and its open table.
#![tactic(auto)]

ghost use Rattle.std.specs.Prelude.{◌≡◌, ◌+◌, ◌*◌, ◌≤◌, ◌<◌, ◌++◌, ◌||◌, not, eqb, ltb, length, take, drop};
ghost use Rattle.record.specs.Sizes.{file_size, row_size};
ghost use Rattle.carried.specs.Carried.{check_place};
ghost use Rattle.component.specs.Limits.{most_colours, most_components};
ghost use Rattle.fabric.specs.PackedFile.{header_bytes, packed_file};
ghost use Rattle.fabric.specs.Calls.{unpacked, unpacked_table, packed, packed_into, record_start, record_length};
ghost use Rattle.fabric.specs.Stages.{table_verdict};

use carried::CHECK_PLACE;
use component::{MOST_CHANNELS, MOST_COLOURS, MOST_COMPONENTS, Table};
use netlist::Size;
use order::MOST_SIGNALS;
use reader::Buffers;
use record::{HEADER_SIZE, RECORD_SIZE, ROW_SIZE};
use refusals::{Refusal, room_for};
use wiring::ENDS_SIZE;

/// What unpack answers, with so much space.
#[tactic(auto, using(crate::proofs::Unpacked::unpacked_roomy))]
pub fn unpack_answer(file: &[u8], space: usize) -> Result<Size, Refusal>
    ensures { result ≡ unpacked file.now space }
{
    let mut buffers = Buffers::new();
    let size = buffers.read(file)?.netlist.size;
    room_for(space, ROW_SIZE * size.components)?;
    Ok(size)
}

// The bytes of a slice at the front of lent memory, one by one. With std's `copy_from_slice` the archive would ask the C library for memmove here, since it is not known where the rows lie; a
// host need have memcpy and memset alone.
#[tactic(auto, using(digits::proofs::UpTo::filled_more), unfolding(digits::specs::UpTo::up_to))]
fn put_front(from: &[u8], to: &mut [u8])
    requires { length from.now ≤ length to.old }
    ensures { to.new ≡ from.now ++ drop (length from.now) to.old }
{
    for i in 0..from.len() {
        to[i] = from[i];
    }
}

/// Writes the open table of a file.
#[tactic(auto, using(crate::proofs::Unpacked::unpacked_roomy, crate::proofs::Unpacked::table_roomy))]
pub fn unpack(file: &[u8], table: &mut [u8]) -> Result<Size, Refusal>
    ensures answer { result ≡ unpacked file.now (length table.old) }
    ensures table { table.new ≡ unpacked_table file.now table.old }
{
    let mut buffers = Buffers::new();
    let netlist = buffers.read(file)?.netlist;
    let rows = netlist.table.bytes;
    room_for(table.len(), rows.len())?;
    put_front(rows, table);
    Ok(netlist.size)
}

/// The 13 bytes of component k in the file itself, or an empty part.
#[tactic(auto, using(reader::proofs::Accepted::accepted_long), unfolding(crate::specs::Calls::record_start, crate::specs::Calls::record_length))]
pub fn record(file: &[u8], k: usize) -> &[u8]
    ensures part { result.now ≡ take (record_length file.now k) (drop (record_start file.now k) file.now) }
    ensures place { result.ref_ptr ≡ (file.entry.ref_ptr.0, record_start file.now k + file.entry.ref_ptr.1) }
{
    let mut buffers = Buffers::new();
    let Ok(fabric) = buffers.read(file) else {
        return &file[0..0];
    };
    if fabric.netlist.size.components <= k {
        return &file[0..0];
    }
    let start = HEADER_SIZE + RECORD_SIZE * k;
    &file[start..start + RECORD_SIZE]
}

// Header bytes 0 to 2, where c is one less than the count of colours.
#[tactic(auto, using(crate::proofs::Packing::header_front))]
fn header_of(c: u8, components: u8, channels: u8) -> [u8; CHECK_PLACE]
    requires { c < 8 }
    ensures { result ≡ take check_place (header_bytes (c + 1) components channels 0) }
{
    [16 + c * 2, components, channels]
}

// Lays the whole file: header bytes 0 to 2, the records, and then the check byte.
fn put_file(c: u8, channels: u8, table: &Table, out: &mut [u8])
    requires { (c < 8) × (table.now.rows < 256) × (file_size table.now.rows ≤ length out.old) }
    ensures { out.new ≡ packed_file (c + 1) channels table.now.bytes.now table.now.rows ++ drop (file_size table.now.rows) out.old }
{
    let start = carried::put_header(out, header_of(c, table.rows as u8, channels));
    let total = carried::put_records(table, out, start);
    carried::put_check(out, total);
}

/// The refusals 6 to 8 of a table.
#[tactic(auto, using(crate::proofs::Writing::is_field, crate::proofs::Writing::row_kinds, crate::proofs::Writing::is_miswired, crate::proofs::Writing::is_wired))]
fn table_verdict(table: &Table, colours: u8, channels: u8) -> Result<(), Refusal>
    requires few { table.now.rows ≤ most_components }
    requires few_colours { colours ≤ most_colours }
    ensures { result ≡ table_verdict colours channels table.now.bytes.now table.now.rows }
{
    if let Some(k) = reader::first_bad_row(table, colours, channels) {
        return Err(Refusal::BadField(k));
    }
    let mut ends = [0; ENDS_SIZE];
    let mut order = [0; MOST_SIGNALS];
    wiring::wire(table, channels as usize, &mut ends, &mut order)?;
    Ok(())
}

// Whether a count is one of 1 to `most`.
fn within(count: u64, most: u64) -> bool
    ensures { result ≡ not (eqb count 0 || ltb most count) }
{
    (1..=most).contains(&count)
}

/// What pack answers, with so much space.
#[tactic(auto, using(crate::proofs::Writing::judged_refused, crate::proofs::Writing::judged_room), unfolding(crate::specs::Calls::packed))]
pub fn pack_answer(colours: u64, channels: u64, table: &[u8], space: usize) -> Result<(), Refusal>
    ensures { result ≡ packed colours channels table.now space }
{
    if table.len() % ROW_SIZE != 0 {
        return Err(Refusal::WrongLength);
    }
    let rows = table.len() / ROW_SIZE;
    let in_range = within(rows as u64, MOST_COMPONENTS as u64)
        & within(channels, MOST_CHANNELS as u64)
        & within(colours, MOST_COLOURS as u64);
    if !in_range {
        return Err(Refusal::CountRange);
    }
    table_verdict(&Table { rows, bytes: table }, colours as u8, channels as u8)?;
    room_for(space, HEADER_SIZE + RECORD_SIZE * rows)
}

/// Writes the packed file of a table.
pub fn pack(colours: u64, channels: u64, table: &[u8], file: &mut [u8]) -> Result<(), Refusal>
    ensures answer { result ≡ packed colours channels table.now (length file.old) }
    ensures file { file.new ≡ packed_into colours channels table.now file.old }
{
    pack_answer(colours, channels, table, file.len())?;
    let table = Table {
        rows: table.len() / ROW_SIZE,
        bytes: table,
    };
    put_file((colours - 1) as u8, channels as u8, &table, file);
    Ok(())
}
