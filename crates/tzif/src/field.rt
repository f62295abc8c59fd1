// The fields of a file. Each must be whole and hold what is right; one that isn't refuses the file, at the file's length
// if it is cut short, and at its own place if it is whole.
//
// The file goes with each place, and no cursor keeps them: the fields of a header, the second before a second and the length
// of the last line stand at places of their own.
ghost use Rattle.std.specs.Prelude.{◌≡◌, ℕ, ◌+◌, ◌≤◌, length, take, drop, IfOk, ◌<◌, ◌^◌};
ghost use Rattle.tzif.specs.Fields.{byte_at, number4, offset4, second8, anything, byte_in, number_in, wrong_at, wrong_place};

// The place of the first wrong field. It is no `Misread`, which `?` turns into another refusal.
#[derive(Clone, Copy, Debug, PartialEq, Eq)]
pub(crate) struct WrongAt {
    pub(crate) at: usize,
}

// The place after a field of `size` bytes at `at`, whatever it holds.
pub(crate) fn skip(file: &[u8], at: usize, size: usize) -> Result<usize, WrongAt>
    ensures wrong { wrong_place result ≡ wrong_at file.now (anything at size) }
    ensures near { IfOk result (λ p. (p ≡ at + size) × (p ≤ length file.now)) }
{
    match file.len().checked_sub(size) {
        Some(last) if at <= last => Ok(at + size),
        _ => Err(WrongAt { at: file.len() }),
    }
}

// The N bytes at `at`, from which the numbers of each size are made.
fn array<const N: usize>(file: &[u8], at: usize) -> [u8; N]
    requires { at + N ≤ length file.now }
    ensures { result ≡ take N (drop at file.now) }
{
    file[at..at + N].try_into().unwrap()
}

pub(crate) fn number(file: &[u8], at: usize) -> u32
    requires { at + 4 ≤ length file.now }
    ensures { result ≡ number4 file.now at }
{
    u32::from_be_bytes(array(file, at))
}

// A count, which is a 4-byte number. A cast, since usize has no From<u32>.
pub(crate) fn count(file: &[u8], at: usize) -> usize
    requires { at + 4 ≤ length file.now }
    ensures value { result ≡ number4 file.now at }
    ensures few { result < 2 ^ 32 }
{
    number(file, at) as usize
}

pub(crate) fn offset(file: &[u8], at: usize) -> i32
    requires { at + 4 ≤ length file.now }
    ensures { result ≡ offset4 file.now at }
{
    i32::from_be_bytes(array(file, at))
}

pub(crate) fn second(file: &[u8], at: usize) -> i64
    requires { at + 8 ≤ length file.now }
    ensures { result ≡ second8 file.now at }
{
    i64::from_be_bytes(array(file, at))
}

// The byte at `at`, which must be from `least` to `most`.
pub(crate) fn byte_in(file: &[u8], at: usize, least: u8, most: u8) -> Result<u8, WrongAt>
    ensures wrong { wrong_place result ≡ wrong_at file.now (byte_in file.now at least most) }
    ensures near { IfOk result (λ v. (v ≡ byte_at file.now at) × (at + 1 ≤ length file.now)) }
{
    skip(file, at, 1)?;
    let value = file[at];
    if !(least..=most).contains(&value) {
        return Err(WrongAt { at });
    }
    Ok(value)
}

// The 4-byte number at `at`, which must be from `least` to `most`.
// Not one function with `byte_in`: a test over any ordered type would say its order in the contract, and share two lines.
pub(crate) fn number_in(file: &[u8], at: usize, least: u32, most: u32) -> Result<u32, WrongAt>
    ensures wrong { wrong_place result ≡ wrong_at file.now (number_in file.now at least most) }
    ensures near { IfOk result (λ v. (v ≡ number4 file.now at) × (least ≤ v) × (v ≤ most)) }
{
    skip(file, at, 4)?;
    let value = number(file, at);
    if !(least..=most).contains(&value) {
        return Err(WrongAt { at });
    }
    Ok(value)
}
