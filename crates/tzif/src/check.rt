// The check of a whole file: one pass over its fields, in file order. No field is read twice, but for a transition's
// second, with which the next one is compared, and the newline after the footer's text, which is looked for first.
//
// A header has 44 bytes: the magic number, a version byte, 15 unused bytes and six counts of 4 bytes each: isut, isstd,
// leap, time, type, char. Each header has its block. Those of the first are for readers of 32-bit times: they are passed
// over, and only its magic number and version are judged.
ghost use Rattle.std.specs.Prelude.{◌≡◌, ℕ, List, Result, ◌<◌, ◌+◌, ◌*◌, ◌^◌, ◌≤◌, length, drop, IfOk, OnOk};
ghost use Rattle.tzif.specs.Fields.{Field, each as fields_of_each, first_wrong, wrong_place};
ghost use Rattle.tzif.specs.File.{times as times_of, types as types_of, others as others_of, first_block, second_header, rising_at, type_at, second_block, footer as footer_of, second_half, header_place, layout_at, fields_of, refused, checked};
ghost use Rattle.tzif.specs.Good.{Judged};
ghost use Rattle.tzif.specs.Places.{Placed, CutsAreTold};

use crate::field::{WrongAt, byte_in, count, number, number_in, offset, second, skip};
use crate::layout::{Counts, Layout};
use reading::line_length;
use timebase::fault::Fault;
use zone::offset::is_offset;

// The most bytes of a file.
pub const FILE_LIMIT: usize = 65_536;

// `TZif` as a number.
// (a number, since a constant can't call `from_be_bytes`)
const MAGIC: u32 = 0x545A_6966;

const HEADER_SIZE: usize = 44;

const TIMES_MOST: u32 = 2_000;

const TYPES_MOST: u32 = 256;

const NEWLINE: u8 = b'\n';

// How many bytes of a block are of no transition, type or leap second; its header stands at `at`.
fn others(file: &[u8], at: usize) -> usize
    requires { at + 44 ≤ length file.now }
    ensures value { result ≡ others_of file.now at }
    ensures few { result < 2 ^ 34 }
{
    let isuts = count(file, at + 20);
    let isstds = count(file, at + 24);
    let chars = count(file, at + 40);
    chars + isstds + isuts
}

// The size of the first block: counts of 32 bits, so that no sum of theirs leaves 64.
fn first_block(file: &[u8]) -> usize
    requires { 44 ≤ length file.now }
    ensures { result ≡ first_block file.now }
{
    let leaps = count(file, 28);
    let times = count(file, 32);
    let types = count(file, 36);
    times * 5 + types * 6 + leaps * 8 + others(file, 0)
}

// The second header, at `at`: it is of the first one's version, and its counts are judged.
fn second_header(file: &[u8], at: usize, version: u8) -> Result<Counts, WrongAt>
    ensures wrong { wrong_place result ≡ first_wrong file.now (second_header file.now at version) }
    ensures value { IfOk result (λ c. (c.times ≡ times_of file.now at) × (c.types ≡ types_of file.now at) × (c.others ≡ others_of file.now at)) }
    ensures near { OnOk result (at + 44 ≤ length file.now) }
{
    number_in(file, at, MAGIC, MAGIC)?;
    byte_in(file, at + 4, version, version)?;
    skip(file, at + 5, 23)?;
    number_in(file, at + 28, 0, 0)?;
    // usize has no From<u32>
    let times = number_in(file, at + 32, 0, TIMES_MOST)? as usize;
    let types = number_in(file, at + 36, 1, TYPES_MOST)? as usize;
    skip(file, at + 40, 4)?;
    Ok(Counts {
        times,
        types,
        others: others(file, at),
    })
}

// The checks of `count` elements, in order; the first wrong one ends them.
// The library's `try_for_each` tells its calls alone, so that here the same loop would stand in the proof.
fn each<T: Drop, F: Fn(usize) -> Result<T, WrongAt>>(count: usize, check: F) -> Result<(), WrongAt>
    requires { (k : ℕ) → k < count → F.pre check k }
    ensures { (file : List ℕ) (fields : ℕ → List Field) → ((k : ℕ) (r : Result T WrongAt) → k < count → F.post check k r → wrong_place r ≡ first_wrong file (fields k)) → wrong_place result ≡ first_wrong file (fields_of_each fields 0 count) }
{
    for k in 0..count {
        check(k)?;
    }
    Ok(())
}

// Transition second `k` of the block at `block`, past the one before it.
fn rising_at(file: &[u8], block: usize, k: usize) -> Result<(), WrongAt>
    requires { block + 8 * k < 2 ^ 64 }
    ensures { wrong_place result ≡ first_wrong file.now (rising_at file.now block k) }
{
    let at = block + 8 * k;
    skip(file, at, 8)?;
    if k > 0 && second(file, at) <= second(file, block + 8 * (k - 1)) {
        return Err(WrongAt { at });
    }
    Ok(())
}

// Type `k` of those from `at` on: an offset, and two bytes more.
fn type_at(file: &[u8], at: usize, k: usize) -> Result<usize, WrongAt>
    requires { at + 6 * k < 2 ^ 64 }
    ensures { wrong_place result ≡ first_wrong file.now (type_at file.now at k) }
{
    let place = at + 6 * k;
    skip(file, place, 4)?;
    if !is_offset(offset(file, place)) {
        return Err(WrongAt { at: place });
    }
    skip(file, place + 4, 2)
}

// The second block, at `block`; the place after it.
fn second_block(file: &[u8], block: usize, counts: Counts) -> Result<usize, WrongAt>
    requires { block ≤ length file.now }
    ensures wrong { wrong_place result ≡ first_wrong file.now (second_block file.now block counts.times counts.types counts.others) }
    ensures near { IfOk result (λ p. p ≡ block + 9 * counts.times + 6 * counts.types + counts.others) }
{
    let Counts {
        times,
        types,
        others,
    } = counts;
    let indexes = block + 8 * times;
    let records = block + 9 * times;
    each(times, |k| rising_at(file, block, k))?;
    each(times, |k| byte_in(file, indexes + k, 0, (types - 1) as u8))?;
    each(types, |k| type_at(file, records, k))?;
    skip(file, records + 6 * types, others)
}

// The place of the footer's text; the footer starts at `at`. The text is a line, and its newline is the file's last byte.
fn footer(file: &[u8], at: usize) -> Result<usize, WrongAt>
    ensures wrong { wrong_place result ≡ first_wrong file.now (footer_of file.now at) }
    ensures near { IfOk result (λ t. t ≡ at + 1) }
{
    byte_in(file, at, NEWLINE, NEWLINE)?;
    let text = at + 1;
    let end = skip(file, text, line_length(&file[text..]))?;
    byte_in(file, end, NEWLINE, NEWLINE)?;
    if end + 1 < file.len() {
        return Err(WrongAt { at: end + 1 });
    }
    Ok(text)
}

// The second header, at `header`, and all that follows it.
fn second_half(file: &[u8], header: usize, version: u8) -> Result<Layout, WrongAt>
    ensures wrong { wrong_place result ≡ first_wrong file.now (second_half file.now header version) }
    ensures value { IfOk result (λ l. l ≡ layout_at file.now header) }
{
    let counts = second_header(file, header, version)?;
    let block = header + HEADER_SIZE;
    let end = second_block(file, block, counts)?;
    let footer = footer(file, end)?;
    Ok(Layout {
        block,
        times: counts.times,
        types: counts.types,
        footer,
    })
}

// Goes through all fields of a file, and finds its parts.
fn parse(file: &[u8]) -> Result<Layout, WrongAt>
    ensures wrong { wrong_place result ≡ first_wrong file.now (fields_of file.now) }
    ensures value { IfOk result (λ l. l ≡ layout_at file.now (header_place file.now)) }
{
    number_in(file, 0, MAGIC, MAGIC)?;
    let version = byte_in(file, 4, b'2', b'3')?;
    skip(file, 5, 39)?;
    let header = skip(file, HEADER_SIZE, first_block(file))?;
    second_half(file, header, version)
}

impl From<WrongAt> for Fault {
    ghost from_gives = { λ wrong fault. fault ≡ refused wrong.at };

    // The refusal at a place, which is never past the limit.
    fn from(wrong: WrongAt) -> Fault {
        Fault::BadFile {
            at: wrong.at.min(FILE_LIMIT),
        }
    }
}

// Checks a file, and finds its parts. A bad file is refused with the place of its first wrong field, with its length if it
// is cut short, and with the limit if it is longer and right as far as that.
pub fn check(file: &[u8]) -> Result<Layout, Fault>
    ensures value { result ≡ checked file.now }
    ensures good { Judged file.now result }
    ensures place { Placed file.now result }
{
    let layout = parse(file)?;
    if FILE_LIMIT < file.len() {
        return Err(Fault::BadFile { at: FILE_LIMIT });
    }
    Ok(layout)
}

// The contract is the point, and the code only carries it: a file that is cut before the place of its refusal, or anywhere
// if it is good, is refused at its own length.
pub fn cuts_are_told()
    ensures { CutsAreTold }
{}
