// Damages of a file, and what a table says of them.
ghost use Rattle.std.specs.Prelude.{◌≡◌, ◌+◌, ◌<◌, ◌^◌, ◌++◌, length, replicate, slice_index, slice_set, bit_xor, IfOk};

use anyhow::{Context, ensure};
use std::alloc::Global;
use std::fmt;

// What is done to a file.
#[derive(Clone, Copy, PartialEq, Eq)]
pub enum Kind {
    // the byte at a place is turned by a mask
    Flip,
    // a byte is added at the end, so many times
    Append,
    // the first block gets a byte at its front, so many times, and its header counts them
    Insert,
}

impl fmt::Display for Kind {
    fn fmt<W: fmt::Write>(&self, f: &mut fmt::Formatter<W>) -> fmt::Result {
        let words = match self {
            Kind::Flip => "flipped bytes",
            Kind::Append => "trailing bytes",
            Kind::Insert => "longer first blocks",
        };
        write!(f, "{words}")
    }
}

// A row of the table of damages.
#[derive(Clone, Copy)]
pub struct Damage<'t> {
    pub kind: Kind,
    // which file
    pub file: &'t str,
    // at which place, or how many times
    pub number: usize,
    // the mask, or the byte
    pub byte: u8,
    // where the damaged file is refused, if it is
    pub refused_at: Option<usize>,
}

fn read_kind(word: &str) -> Option<Kind> {
    match word {
        "flip" => Some(Kind::Flip),
        "append" => Some(Kind::Append),
        "insert" => Some(Kind::Insert),
        _ => None,
    }
}

// The place of a refusal, or `ok`; none for another word.
fn read_refusal(word: &str) -> Option<Option<usize>> {
    match word {
        "ok" => Some(None),
        _ => Some(Some(word.parse::<usize>().ok()?)),
    }
}

pub(crate) fn read_damage(line: &str) -> Option<Damage<'_>> {
    let mut columns = line.split('\t');
    Some(Damage {
        kind: read_kind(columns.next()?)?,
        file: columns.next()?,
        number: columns.next()?.parse::<usize>().ok()?,
        byte: columns.next()?.parse::<u8>().ok()?,
        refused_at: read_refusal(columns.next()?)?,
    })
}

// A copy of a file, damaged as a row says.
pub(crate) fn damaged(alloc: Global, file: &[u8], damage: &Damage<'_>) -> anyhow::Result<Vec<u8>> {
    let Damage { number, byte, .. } = *damage;
    match damage.kind {
        Kind::Flip => flipped(alloc, file, number, byte),
        Kind::Append => appended(alloc, file, number, byte),
        Kind::Insert => inserted(alloc, file, number, byte),
    }
}

fn flipped(alloc: Global, file: &[u8], at: usize, mask: u8) -> anyhow::Result<Vec<u8>>
    ensures { IfOk result (λ v. v.items ≡ slice_set file.now at (bit_xor (slice_index file.now at) mask)) }
{
    ensure!(at < file.len(), "no byte {at} to flip");
    let mut copy = Vec::from_slice(alloc, file)?;
    copy[at] ^= mask;
    Ok(copy)
}

fn appended(alloc: Global, file: &[u8], count: usize, byte: u8) -> anyhow::Result<Vec<u8>>
    ensures { length file.now + count < 2 ^ 64 → IfOk result (λ v. v.items ≡ file.now ++ replicate count byte) }
{
    let mut copy = Vec::from_slice(alloc, file)?;
    copy.resize(file.len().saturating_add(count), byte)?;
    Ok(copy)
}

// The first header's last field counts the designations' bytes, which stand in its block.
fn counting_more(header: &[u8; 44], more: u32) -> Option<[u8; 44]> {
    let mut counting = *header;
    let field = counting.last_chunk_mut::<4>()?;
    *field = u32::from_be_bytes(*field).checked_add(more)?.to_be_bytes();
    Some(counting)
}

fn inserted(alloc: Global, file: &[u8], count: usize, byte: u8) -> anyhow::Result<Vec<u8>> {
    let (header, block) = file.split_first_chunk::<44>().context("no header")?;
    let header = counting_more(header, u32::try_from(count)?).context("too many")?;
    let mut copy = Vec::from_slice(alloc, &header)?;
    copy.resize(header.len().saturating_add(count), byte)?;
    copy.extend_from_slice(block)?;
    Ok(copy)
}
