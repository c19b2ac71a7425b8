// Reader of the packed fabric: refusals 1 to 8, the open table, the ends of the channels and the order of the signals.
#![tactic(auto)]

ghost use Rattle.std.specs.Prelude.{◌≡◌, ◌+◌, ◌*◌, ◌≤◌, ◌<◌, length, get_or, replicate, IfErr, IfOk, Result, Ok, Err};
ghost use Rattle.search.specs.First.{first};
ghost use Rattle.digits.specs.Packed.{fields};
ghost use Rattle.order.specs.Graph.{most_signals};
ghost use Rattle.record.specs.Sizes.{file_size, row_size, header_size};
ghost use Rattle.record.specs.Table.{open_table};
ghost use Rattle.component.specs.Limits.{most_colours, most_components, table_size};
ghost use Rattle.wiring.specs.Stages.{ends_size};
ghost use Rattle.reader.specs.File.{header_widths, header_fields, bad_row, bad_record};
ghost use Rattle.reader.specs.Reading.{reading};
ghost use Rattle.reader.specs.Stages.{header_read, Headed};
ghost use Rattle.reader.specs.View.{size_of, IsClear};

use component::{MOST_COMPONENTS, TABLE_SIZE, Table};
use netlist::{Fabric, Netlist, Size};
use order::MOST_SIGNALS;
use record::{HEADER_SIZE, RECORD_SIZE, ROW_SIZE};
use refusals::Refusal;
use wiring::ENDS_SIZE;

fn cut_header(x: u64) -> [u8; 6]
    ensures { result ≡ fields header_widths x }
{
    [
        (x / 268435456 % 16) as u8,
        (x / 33554432 % 8) as u8,
        (x / 16777216 % 2) as u8,
        (x / 65536 % 256) as u8,
        (x / 256 % 256) as u8,
        (x % 256) as u8,
    ]
}

#[tactic(auto, unfolding(crate::specs::File::header_fields))]
fn header(file: &[u8]) -> [u8; 6]
    requires { header_size ≤ length file.now }
    ensures { result ≡ header_fields file.now }
{
    cut_header(digits::word(file, 0, HEADER_SIZE))
}

// The refusals 2 to 5 of a file with these header fields.
#[tactic(auto, unfolding(crate::specs::Stages::header_read))]
fn read_header(h: [u8; 6], file: &[u8]) -> Result<Size, Refusal>
    requires { get_or h 1 0 < 8 }
    ensures { result ≡ header_read h file.now }
{
    let colours = usize::from(h[1]) + 1;
    let components = usize::from(h[3]);
    let channels = usize::from(h[4]);
    if (h[0] != 1) | (h[2] != 0) {
        return Err(Refusal::WrongEdition);
    }
    if (components == 0) | (MOST_COMPONENTS < components) | (channels == 0) {
        return Err(Refusal::CountRange);
    }
    if file.len() != HEADER_SIZE + RECORD_SIZE * components {
        return Err(Refusal::WrongLength);
    }
    if digits::byte_sum(file) != 0 {
        return Err(Refusal::ByteSum);
    }
    Ok(Size {
        colours,
        channels,
        components,
    })
}

// The refusals 1 to 5 of a file.
#[tactic(auto, using(crate::proofs::Facts::size_refused, crate::proofs::Facts::size_read, crate::proofs::Facts::is_short, crate::proofs::Tests::colours_lt))]
fn read_size(file: &[u8]) -> Result<Size, Refusal>
    ensures refused { IfErr result (λ refusal. reading file.now ≡ Err refusal) }
    ensures read { IfOk result (λ size. Headed file.now size) }
{
    if file.len() < HEADER_SIZE {
        return Err(Refusal::FileShort);
    }
    read_header(header(file), file)
}

/// The lowest row that is wrong.
// The bound on `colours` is a clause of each function that wants it: a `Size` with all its bounds would ask more of callers that use one, and a type for a count of
// colours would be taken apart wherever it is compared, shifted by and counted up to.
pub fn first_bad_row(table: &Table, colours: u8, channels: u8) -> Option<usize>
    requires { colours ≤ most_colours }
    ensures { result ≡ first (bad_row colours channels table.now.bytes.now) table.now.rows }
{
    search::first(table.rows, |k| {
        !component::row_ok(table.row(k), colours, channels)
    })
}

// The lowest record whose row is wrong, or whose last six bits are not 0.
fn first_bad_record(file: &[u8], table: &Table, colours: u8, channels: u8) -> Option<usize>
    requires file { file_size table.now.rows ≤ length file.now }
    requires few { colours ≤ most_colours }
    ensures { result ≡ first (bad_record colours channels file.now table.now.bytes.now) table.now.rows }
{
    search::first(table.rows, |k| {
        record::padded(file, HEADER_SIZE + RECORD_SIZE * k)
            || !component::row_ok(table.row(k), colours, channels)
    })
}

// Reads a file: the refusals 1 to 8. Of an accepted one it lays down the rows, 1 + the end that gives each signal, and an order of
// the signals.
#[tactic(auto, using(crate::proofs::Facts::read_field, crate::proofs::Facts::read_kinds, crate::proofs::Facts::read_miswired, crate::proofs::Facts::read_passed, crate::proofs::Facts::rows_front, crate::proofs::Facts::rows_long, crate::proofs::Facts::netlist_holds, crate::proofs::Facts::fabric_holds))]
fn read<'a>(
    file: &[u8],
    rows: &'a mut [u8; TABLE_SIZE],
    ends: &'a mut [u16; ENDS_SIZE],
    order: &'a mut [u16; MOST_SIGNALS],
) -> Result<Fabric<'a>, Refusal>
    requires { ends.old ≡ replicate ends_size 0 }
    ensures answer { size_of result ≡ reading file.now }
    ensures table { IfOk result (λ fabric. fabric.netlist.table.bytes.now ≡ open_table file.now fabric.netlist.size.components) }
{
    let size = read_size(file)?;
    record::put_rows(file, size.components, rows);
    let table = Table {
        rows: size.components,
        bytes: &rows[..ROW_SIZE * size.components],
    };
    if let Some(k) = first_bad_record(file, &table, size.colours as u8, size.channels as u8) {
        return Err(Refusal::BadField(k));
    }
    wiring::wire(&table, size.channels, ends, order)?;
    let netlist = Netlist { size, table };
    Ok(Fabric {
        netlist,
        ends,
        order,
    })
}

/// Memory that a file is read into.
#[derive(Drop)]
pub struct Buffers {
    rows: [u8; TABLE_SIZE],
    ends: [u16; ENDS_SIZE],
    order: [u16; MOST_SIGNALS],
}

impl Buffers {
    pub fn new() -> Buffers
        ensures { IsClear result }
    {
        Buffers {
            rows: [0; TABLE_SIZE],
            ends: [0; ENDS_SIZE],
            order: [0; MOST_SIGNALS],
        }
    }

    /// The fabric of a file, or the first of the refusals 1 to 8.
    pub fn read<'a>(&'a mut self, file: &[u8]) -> Result<Fabric<'a>, Refusal>
        requires { IsClear self.old }
        ensures answer { size_of result ≡ reading file.now }
        ensures table { IfOk result (λ fabric. fabric.netlist.table.bytes.now ≡ open_table file.now fabric.netlist.size.components) }
    {
        let Buffers { rows, ends, order } = self;
        read(file, rows, ends, order)
    }
}
