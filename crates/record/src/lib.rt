// A component's record: 13 bytes, and its row of the open table, 24 bytes.
#![tactic(auto)]

ghost use Rattle.std.specs.Prelude.{◌≡◌, ◌+◌, ◌*◌, ◌≤◌, [], ◌∷◌, ◌++◌, not, length, drop, replicate, eqb};
ghost use Rattle.digits.specs.Packed.{joined, fields, bytes};
ghost use Rattle.record.specs.Record.{upper_widths, lower_widths, record_row, record_pad, record_bytes};
ghost use Rattle.record.specs.Table.{row, open_table};
ghost use Rattle.record.specs.Sizes.{record_size, file_size, row_size};

// A row or a record is found by a product with these: the layout of the file and of the table that a caller lends. `put_rows` writes by the
// same products, since std says nothing of what a slice holds after `chunks_exact_mut`.

/// The bytes of a header.
pub const HEADER_SIZE: usize = 4;

/// The bytes of a record.
pub const RECORD_SIZE: usize = 13;

/// The bytes of a row.
pub const ROW_SIZE: usize = 24;

// The row of which x has the upper 51 bits and y the lower 47. Written out, since a line shows a field's place and width,
// which a loop over two tables would not, and a proof of the fields by `array::from_fn` stayed open.
fn cut_row(x: u64, y: u64) -> [u8; ROW_SIZE]
    ensures { result ≡ fields upper_widths x ++ fields lower_widths y }
{
    [
        (x >> 48 & 7) as u8,
        (x >> 40 & 255) as u8,
        (x >> 32 & 255) as u8,
        (x >> 24 & 255) as u8,
        (x >> 21 & 7) as u8,
        (x >> 18 & 7) as u8,
        (x >> 15 & 7) as u8,
        (x >> 12 & 7) as u8,
        (x >> 9 & 7) as u8,
        (x >> 6 & 7) as u8,
        (x >> 3 & 7) as u8,
        (x & 7) as u8,
        (y >> 44 & 7) as u8,
        (y >> 41 & 7) as u8,
        (y >> 38 & 7) as u8,
        (y >> 35 & 7) as u8,
        (y >> 32 & 7) as u8,
        (y >> 29 & 7) as u8,
        (y >> 26 & 7) as u8,
        (y >> 23 & 7) as u8,
        (y >> 15 & 255) as u8,
        (y >> 9 & 63) as u8,
        (y >> 3 & 63) as u8,
        (y & 7) as u8,
    ]
}

/// The row of the record at index `at`.
#[tactic(auto, using(crate::proofs::Record::record_cut))]
pub fn record_row(file: &[u8], at: usize) -> [u8; ROW_SIZE]
    requires { at + record_size ≤ length file.now }
    ensures { result ≡ record_row file.now at }
{
    let upper = digits::word(file, at, 7);
    let lower = digits::word(file, at + 7, 6);
    cut_row(upper / 32, (upper % 32 * 281474976710656 + lower) / 64)
}

/// Whether the last six bits of the record at index `at` are not 0.
#[tactic(auto, using(crate::proofs::Record::last_six))]
pub fn padded(file: &[u8], at: usize) -> bool
    requires { at + record_size ≤ length file.now }
    ensures { result ≡ not (eqb (record_pad file.now at) 0) }
{
    file[at + 12] % 64 != 0
}

// The 7 lowest bytes of u and the 6 lowest of v.
fn cut_bytes(u: u64, v: u64) -> [u8; RECORD_SIZE]
    ensures { result ≡ fields (bytes 7) u ++ fields (bytes 6) v }
{
    let mut record = [0; RECORD_SIZE];
    record[..7].copy_from_slice(&u.to_be_bytes()[1..]);
    record[7..].copy_from_slice(&v.to_be_bytes()[2..]);
    record
}

// The number of a map's 8 entries.
#[tactic(auto, using(crate::proofs::Record::map_fits, crate::proofs::Record::map_more))]
fn map_number(map: &[u8]) -> u64
    requires { length map.now ≡ 8 }
    ensures { result ≡ joined (replicate 8 3) map.now 0 }
{
    let mut number = 0;
    for entry in map {
        number = number * 8 + u64::from(*entry) % 8;
    }
    number
}

// The number of a kind and three ports.
fn ports_number(kind: u8, a: u8, b: u8, c: u8) -> u64
    ensures { result ≡ joined (3 ∷ 8 ∷ 8 ∷ 8 ∷ []) (kind ∷ a ∷ b ∷ c ∷ []) 0 }
{
    ((u64::from(kind) % 8 * 256 + u64::from(a)) * 256 + u64::from(b)) * 256 + u64::from(c)
}

// The number of a row's first 12 fields.
fn upper_number(row: [u8; ROW_SIZE]) -> u64
    ensures { result ≡ joined upper_widths row 0 }
{
    ports_number(row[0], row[1], row[2], row[3]) * 16777216 + map_number(&row[4..12])
}

// The number of the four fields that end a row.
fn tail_number(mask: u8, capacity: u8, filling: u8, colour: u8) -> u64
    ensures { result ≡ joined (8 ∷ 6 ∷ 6 ∷ 3 ∷ []) (mask ∷ capacity ∷ filling ∷ colour ∷ []) 0 }
{
    ((u64::from(mask) * 64 + u64::from(capacity) % 64) * 64 + u64::from(filling) % 64) * 8
        + u64::from(colour) % 8
}

// The number of a row's last 12 fields.
fn lower_number(row: [u8; ROW_SIZE]) -> u64
    ensures { result ≡ joined lower_widths row 12 }
{
    map_number(&row[12..20]) * 8388608 + tail_number(row[20], row[21], row[22], row[23])
}

/// The 13 bytes of a row.
#[tactic(auto, using(crate::proofs::Record::record_join))]
pub fn record_bytes(row: [u8; ROW_SIZE]) -> [u8; RECORD_SIZE]
    ensures { result ≡ record_bytes row }
{
    let upper = upper_number(row);
    let lower = lower_number(row);
    cut_bytes(upper * 32 + lower / 4398046511104, lower * 64)
}

/// Row `k` of a table. It takes bytes: `component::Table` stands above this crate and reads its rows by this function.
pub fn row_at(table: &[u8], k: usize) -> [u8; ROW_SIZE]
    requires { row_size * k + row_size ≤ length table.now }
    ensures { result ≡ row table.now k }
{
    let at = ROW_SIZE * k;
    let mut row = [0; ROW_SIZE];
    row.copy_from_slice(&table[at..at + ROW_SIZE]);
    row
}

/// Writes the rows of `n` records. It takes bytes: a `component::Table` is made of them once they are written.
#[tactic(auto, using(crate::proofs::Table::rows_none, crate::proofs::Table::rows_more))]
pub fn put_rows(file: &[u8], n: usize, table: &mut [u8])
    requires { (file_size n ≤ length file.now) × (row_size * n ≤ length table.old) }
    ensures { table.new ≡ open_table file.now n ++ drop (row_size * n) table.old }
{
    for k in 0..n {
        let at = ROW_SIZE * k;
        let row = record_row(file, HEADER_SIZE + RECORD_SIZE * k);
        table[at..at + ROW_SIZE].copy_from_slice(&row);
    }
}
