// A file laid down piece by piece, its byte sum carried along: header bytes 0 to 2, the records, and last the check byte.
#![tactic(auto)]

ghost use Rattle.std.specs.Prelude.{◌≡◌, ◌+◌, ◌*◌, ◌≤◌, ◌<◌, ◌∷◌, ◌++◌, length, take, drop};
ghost use Rattle.std.proofs.Math.Seq.{paste};
ghost use Rattle.digits.specs.Sum.{negated};
ghost use Rattle.record.specs.Record.{record_bytes};
ghost use Rattle.record.specs.Table.{row, records};
ghost use Rattle.record.specs.Sizes.{header_size, record_size, file_size};
ghost use Rattle.carried.specs.Carried.{check_place, carried_sum};

use component::Table;
use record::{HEADER_SIZE, RECORD_SIZE};

// The memory and the sum carried stay two parameters: a struct that holds both needs at each of its functions a clause more, that
// the loan stays the same, and one on the count of records.

/// The check byte's place in the header.
pub const CHECK_PLACE: usize = 3;

/// Lays header bytes 0 to 2, and hands back the sum carried.
#[tactic(auto, using(crate::proofs::Carried::front_counted))]
pub fn put_header(out: &mut [u8], header: [u8; CHECK_PLACE]) -> u8
    requires { header_size ≤ length out.old }
    ensures { (out.new ≡ header ++ drop check_place out.old) × (result ≡ carried_sum out.new 0) }
{
    let carried = digits::byte_sum(&header);
    out[..CHECK_PLACE].copy_from_slice(&header);
    carried
}

// Lays record k behind the header and the records before it, and hands back the sum carried.
#[tactic(auto, using(crate::proofs::Carried::record_laid))]
fn put_record(table: &Table, k: usize, out: &mut [u8], carried: u8) -> u8
    requires { (k < table.now.rows) × (file_size k + record_size ≤ length out.old) × (carried ≡ carried_sum out.old k) }
    ensures laid { out.new ≡ paste out.old (file_size k) (record_bytes (row table.now.bytes.now k)) record_size }
    ensures counted { result ≡ carried_sum out.new (k + 1) }
{
    let record = record::record_bytes(table.row(k));
    let at = HEADER_SIZE + RECORD_SIZE * k;
    out[at..at + RECORD_SIZE].copy_from_slice(&record);
    digits::add_bytes(carried, &record)
}

/// Lays the records of a table's rows behind the header, and hands back the sum carried.
pub fn put_records(table: &Table, out: &mut [u8], carried: u8) -> u8
    requires { (file_size table.now.rows ≤ length out.old) × (carried ≡ carried_sum out.old 0) }
    ensures { (out.new ≡ take header_size out.old ++ records table.now.bytes.now table.now.rows ++ drop (file_size table.now.rows) out.old) × (result ≡ carried_sum out.new table.now.rows) }
{
    let mut so_far = carried;
    for k in 0..table.rows {
        so_far = put_record(table, k, out, so_far);
    }
    so_far
}

/// Lays the check byte, which brings the sum carried to 0.
pub fn put_check(out: &mut [u8], carried: u8)
    requires { header_size ≤ length out.old }
    ensures { out.new ≡ take check_place out.old ++ negated carried ∷ drop header_size out.old }
{
    out[CHECK_PLACE] = digits::negate(carried);
}
