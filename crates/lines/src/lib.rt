// The text of the listing program.
#![tactic(auto)]

ghost use Rattle.std.specs.Prelude.{◌≡◌, ◌∷◌, ◌++◌, ◌+◌, ◌≤◌, ◌<◌, length, get_or, take, pos};
ghost use Rattle.arrayvec.specs.ArrayString.{array_string_len};
ghost use Rattle.lines.specs.Listing.{weight_line, weight_lines, sum_line, refusal_line, text_by, listing};

use arrayvec::ArrayString;
use itoa::{Buffer, Integer};
use refusals::Refusal;

/// Bytes that every listing fits in: at most 1,024 lines of at most 30 bytes, and the last line.
pub const TEXT_SIZE: usize = 32768;

// Entries of a table that has room for the weights of every fabric.
const ENTRIES: usize = 1024;

// The pieces are pushed and not displayed: the law of a Display says what is written, and not that writing succeeds.

// A blank and a number.
fn push_field<I: Integer>(text: &mut ArrayString<TEXT_SIZE>, number: I)
    requires { array_string_len text.old + 1 + I.MAX_STR_LEN ≤ 32768 }
    ensures bytes { text.new.bytes ≡ text.old.bytes ++ 32 ∷ I.text number }
    ensures few { array_string_len text.new ≤ array_string_len text.old + 1 + I.MAX_STR_LEN }
{
    text.push(' ');
    text.push_str(Buffer::new().format(number));
}

// The line of an entry, which is 8 times component plus colour; none where its weight is 0.
#[tactic(auto, unfolding(crate::specs::Listing::weight_line))]
fn push_weight(text: &mut ArrayString<TEXT_SIZE>, entry: usize, weight: i64)
    requires { (entry < 1024) × (array_string_len text.old + 66 ≤ 32768) }
    ensures bytes { text.new.bytes ≡ text.old.bytes ++ weight_line entry weight }
    ensures few { array_string_len text.new ≤ array_string_len text.old + 30 }
{
    if weight == 0 {
        return;
    }
    text.push('Q');
    push_field(text, entry / 8);
    push_field(text, entry % 8);
    push_field(text, weight);
    text.push('\n');
}

// The lines of all weights.
#[tactic(auto, unfolding(crate::specs::Listing::weight_lines))]
fn push_weights(text: &mut ArrayString<TEXT_SIZE>, weights: &[i64; ENTRIES])
    requires { array_string_len text.old ≡ 0 }
    ensures bytes { text.new.bytes ≡ weight_lines (length weights.now) (λ u. get_or weights.now u (pos 0)) }
    ensures few { array_string_len text.new ≤ 30720 }
{
    for (entry, &weight) in weights.iter().enumerate() {
        push_weight(text, entry, weight);
    }
}

// The line of the constant.
#[tactic(auto, unfolding(crate::specs::Listing::sum_line))]
fn push_sum(text: &mut ArrayString<TEXT_SIZE>, constant: i64)
    requires { array_string_len text.old + 26 ≤ 32768 }
    ensures { text.new.bytes ≡ text.old.bytes ++ sum_line constant }
{
    text.push_str("SUM");
    push_field(text, constant);
    text.push('\n');
}

// The line of a refusal.
#[tactic(auto, unfolding(crate::specs::Listing::refusal_line))]
fn push_refusal(text: &mut ArrayString<TEXT_SIZE>, number: u32, place: usize)
    requires { array_string_len text.old + 45 ≤ 32768 }
    ensures { text.new.bytes ≡ text.old.bytes ++ refusal_line number place }
{
    text.push_str("NO");
    push_field(text, number);
    push_field(text, place);
    text.push('\n');
}

// The first bytes of a file, at most so many.
fn first(file: &[u8], most: usize) -> &[u8]
    ensures { result.now ≡ take most file.now }
{
    file.get(..most).unwrap_or(file)
}

// The text for what check leaves.
#[tactic(auto, unfolding(crate::specs::Listing::text_by))]
fn text_by(outcome: Result<i64, Refusal>, weights: &[i64; ENTRIES]) -> ArrayString<TEXT_SIZE>
    ensures { result.bytes ≡ text_by outcome (length weights.now) (λ u. get_or weights.now u (pos 0)) }
{
    let mut text = ArrayString::new();
    match outcome {
        Ok(constant) => {
            push_weights(&mut text, weights);
            push_sum(&mut text, constant);
        }
        Err(refusal) => push_refusal(&mut text, u32::from(refusal), refusal.place()),
    }
    text
}

/// What the listing program prints: `Q component colour weight` for weights other than 0, ascending, a line each,
/// then `SUM K`, or `NO number place`. It is for the contents of fabric.bin (first 1,669 bytes) and proof.bin (first 16,385);
/// longer ones are cut.
pub fn listing(fabric: &[u8], proof: &[u8]) -> ArrayString<TEXT_SIZE>
    ensures { result.bytes ≡ listing fabric.now proof.now }
{
    let mut weights = [0; ENTRIES];
    let outcome = checking::check(first(fabric, 1669), first(proof, 16385), &mut weights);
    text_by(outcome, &weights)
}
