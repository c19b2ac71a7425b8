// The blocks of a file of proposals.
#![tactic(auto)]

ghost use Rattle.std.specs.Prelude.{◌≡◌, ◌+◌, ◌*◌, ◌≤◌, ◌<◌, length, IfNone, IfSome, Result};
ghost use Rattle.blocks.specs.Blocks.{term_count, blocks_found, StartsWhole, IsSplit};

use refusals::Refusal;

const MOST_TERMS: usize = 4096;

/// The most blocks of a file.
pub const MOST_BLOCKS: usize = 64;

/// The count of terms that stands at byte `i`, high byte first.
#[tactic(auto, unfolding(crate::specs::Blocks::term_count))]
pub fn term_count(file: &[u8], i: usize) -> usize
    requires { i + 2 ≤ length file.now }
    ensures { (result ≡ term_count file.now i) × (result < 65536) }
{
    usize::from(u16::from_be_bytes([file[i], file[i + 1]]))
}

/// The terms of a file's first block, and what follows them; none where their count is over 4,096 or the file ends before they do.
pub fn split_block(file: &[u8]) -> Option<(&[u8], &[u8])>
    ensures none { IfNone result (StartsWhole file.now → ⊥) }
    ensures some { IfSome result (λ parts. StartsWhole file.now × IsSplit file.now parts.0.now parts.1.now) }
{
    if file.len() < 2 {
        return None;
    }
    let count = term_count(file, 0);
    if MOST_TERMS < count {
        return None;
    }
    file[2..].split_at_checked(4 * count)
}

/// How many blocks fill the file; refused with 33 if none do.
pub fn blocks_in(file: &[u8]) -> Result<usize, Refusal>
    ensures { result ≡ blocks_found file.now }
{
    // Each block says its own length, so no chunks of std fit, and an iterator of its own could not say why it ends: at the file's end or before a bad block.
    let mut rest = file;
    let mut blocks = 0;
    while !rest.is_empty() {
        if blocks == MOST_BLOCKS {
            return Err(Refusal::BadBlocks);
        }
        let (_, after) = split_block(rest).ok_or(Refusal::BadBlocks)?;
        rest = after;
        blocks += 1;
    }
    Ok(blocks)
}
