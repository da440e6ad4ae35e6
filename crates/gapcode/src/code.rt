//! One code at a place among the bits of bytes.

ghost use Rattle.std.specs.Prelude.{◌≡◌, ◌-◌, ◌*◌, ◌<◌, ◌≤◌, ◌++◌, length, take, drop};
ghost use Rattle.std.specs.Prelude.{replicate, IfOk};
ghost use Rattle.gapcode.specs.Bits.{digits, bits_of, bits_from, window_of, with_rest_at, gamma_at};
ghost use Rattle.gapcode.specs.Bits.{most_digits};

use crate::error::CodeError;

/// How many bytes a look at one code can reach: 7 bits before it, 63 zero bits and a number of 64.
const REACH: usize = 17;

// The 64 bits from `shift` on.
fn shifted_word(nine: &[u8], shift: u32) -> u64
    requires nine { length nine.now ≡ 9 }
    requires shift { shift < 8 }
    ensures { digits most_digits result ≡ take most_digits (drop shift (bits_of nine.now)) }
{
    let word = u64::from_be_bytes([
        nine[0], nine[1], nine[2], nine[3], nine[4], nine[5], nine[6], nine[7],
    ]);
    (word << shift) | ((nine[8] as u64) >> (8 - shift))
}

// At most nine bytes, with zeros after them.
fn padded(tail: &[u8]) -> [u8; 9]
    requires { length tail.now ≤ 9 }
    ensures { result ≡ tail.now ++ replicate (9 - length tail.now) 0 }
{
    let mut nine = [0; 9];
    nine[..tail.len()].copy_from_slice(tail);
    nine
}

/// The next 64 bits, with zero bits past the end.
pub(crate) fn next_word(bytes: &[u8], position: u32) -> u64
    requires { position ≤ 8 * length bytes.now }
    ensures { digits most_digits result ≡ window_of (bits_from bytes.now position) }
{
    let index = (position / 8) as usize;
    let shift = position % 8;
    if index + 9 <= bytes.len() {
        shifted_word(&bytes[index..index + 9], shift)
    } else {
        shifted_word(&padded(&bytes[index..]), shift)
    }
}

// Decodes a code near the end too, and of any length.
#[cold]
#[inline(never)]
fn any_code(bytes: &[u8], position: u32) -> Result<(u64, u32), CodeError>
    requires first { position < 8 }
    requires inside { position ≤ 8 * length bytes.now }
    ensures exact { with_rest_at (bits_of bytes.now) result
        ≡ gamma_at (bits_from bytes.now position) }
    ensures inside { IfOk result (λ found. found.1 ≤ 8 * length bytes.now) }
{
    let front = next_word(bytes, position);
    let zeros = front.leading_zeros();
    let left = 8 * bytes.len().min(REACH) as u32 - position;
    if zeros == u64::BITS {
        if left < u64::BITS {
            return Err(CodeError::Ended);
        }
        return Err(CodeError::TooLong);
    }
    let len = 2 * zeros + 1;
    if left < len {
        return Err(CodeError::Ended);
    }
    if zeros < 32 {
        return Ok((front >> (63 - 2 * zeros), position + len));
    }
    Ok((
        next_word(bytes, position + zeros) >> (63 - zeros),
        position + len,
    ))
}

/// The number whose code begins in the first byte, at this bit, and the place after it.
///
/// It looks at 64 bits at once, and from 32 zero bits on at 64 more, never bit by bit.
pub(crate) fn code_at(bytes: &[u8], position: u32) -> Result<(u64, u32), CodeError>
    requires first { position < 8 }
    requires inside { position ≤ 8 * length bytes.now }
    ensures exact { with_rest_at (bits_of bytes.now) result
        ≡ gamma_at (bits_from bytes.now position) }
    ensures inside { IfOk result (λ found. found.1 ≤ 8 * length bytes.now) }
{
    if bytes.len() >= REACH {
        let front = next_word(bytes, position);
        let zeros = front.leading_zeros();
        if zeros < 32 {
            return Ok((front >> (63 - 2 * zeros), position + 2 * zeros + 1));
        }
    }
    any_code(bytes, position)
}

/// The number whose code begins at this bit of all, and the place after it.
pub(crate) fn code_from(bytes: &[u8], place: u128) -> Result<(u64, u128), CodeError>
    requires { place ≤ 8 * length bytes.now }
    ensures exact { with_rest_at (bits_of bytes.now) result ≡ gamma_at (bits_from bytes.now place) }
    ensures inside { IfOk result (λ found. found.1 ≤ 8 * length bytes.now) }
{
    let (_, rest) = bytes.split_at((place / 8) as usize);
    let (x, end) = code_at(rest, (place % 8) as u32)?;
    Ok((x, place - place % 8 + end as u128))
}
