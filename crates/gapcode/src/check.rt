//! Whether bytes spell lists. It takes no memory.

ghost use Rattle.std.specs.Prelude.{◌≡◌, ◌-◌, ◌*◌, ◌≤◌, ◌^◌, length, IfOk, Ok};
ghost use Rattle.std.specs.Result.{result_and};
ghost use Rattle.gapcode.specs.Bits.{bits_of, bits_from, number_of};
ghost use Rattle.gapcode.specs.Lists.{elements_at, list_at, lists_at, all_of, bits_after};
ghost use Rattle.gapcode.specs.Lists.{from_place};
ghost use Rattle.gapcode.specs.Lists.{first_of_byte, end_at};

use crate::code::code_from;
use crate::error::CodeError;

// The place after that many elements.
fn pass_elements(bytes: &[u8], place: u128, count: u64, bound: u64) -> Result<u128, CodeError>
    requires inside { place ≤ 8 * length bytes.now }
    requires bound { bound ≤ 2 ^ 32 }
    ensures exact { from_place (bits_of bytes.now) result
        ≡ bits_after (elements_at bound count 0 (bits_from bytes.now place)) }
    ensures inside { IfOk result (λ end. end ≤ 8 * length bytes.now) }
{
    let mut least = 0;
    let mut end = place;
    for _ in 0..count {
        let (gap, next) = code_from(bytes, end)?;
        if gap > bound - least {
            return Err(CodeError::Range);
        }
        least += gap;
        end = next;
    }
    Ok(end)
}

/// The place after a list.
#[tactic(auto, unfolding(crate::specs::Lists::list_at))]
pub(crate) fn pass_list(bytes: &[u8], place: u128, bound: u64) -> Result<u128, CodeError>
    requires inside { place ≤ 8 * length bytes.now }
    requires bound { bound ≤ 2 ^ 32 }
    ensures exact { from_place (bits_of bytes.now) result
        ≡ bits_after (list_at bound (bits_from bytes.now place)) }
    ensures inside { IfOk result (λ end. end ≤ 8 * length bytes.now) }
{
    let (code, next) = code_from(bytes, place)?;
    let degree = code.saturating_sub(1);
    if degree > bound {
        return Err(CodeError::Range);
    }
    pass_elements(bytes, next, degree, bound)
}

// The place after that many lists.
fn pass_lists(bytes: &[u8], count: usize, bound: u64) -> Result<u128, CodeError>
    requires { bound ≤ 2 ^ 32 }
    ensures exact { from_place (bits_of bytes.now) result
        ≡ bits_after (lists_at bound count (bits_of bytes.now)) }
    ensures inside { IfOk result (λ end. end ≤ 8 * length bytes.now) }
{
    let mut place = 0;
    for _ in 0..count {
        place = pass_list(bytes, place, bound)?;
    }
    Ok(place)
}

// The bits up to the next whole byte, as a number.
fn padding(bytes: &[u8], place: u128) -> u8
    requires { place ≤ 8 * length bytes.now }
    ensures { result ≡
        number_of (first_of_byte (8 * length bytes.now - place) (bits_from bytes.now place)) }
{
    let pad = ((8 * bytes.len() as u128 - place) % 8) as u32;
    if pad == 0 {
        return 0;
    }
    bytes[(place / 8) as usize] & ((1 << pad) - 1)
}

// Whether the bits from the place on are less than a byte, and zero bits.
#[tactic(auto, using(crate::proofs::WalkLemmas::left_len))]
fn pass_end(bytes: &[u8], place: u128) -> Result<(), CodeError>
    requires { place ≤ 8 * length bytes.now }
    ensures { result ≡ end_at (bits_from bytes.now place) }
{
    if padding(bytes, place) > 0 {
        return Err(CodeError::Padding);
    }
    if 8 * bytes.len() as u128 - place >= 8 {
        return Err(CodeError::Trailing);
    }
    Ok(())
}

/// Whether the bytes spell that many lists of numbers below the bound, or the first fault.
pub(crate) fn check(bytes: &[u8], count: usize, bound: u32) -> Result<(), CodeError>
    ensures { result ≡ result_and (all_of bound count bytes.now) (Ok tt) }
{
    let end = pass_lists(bytes, count, bound as u64)?;
    pass_end(bytes, end)
}
