//! What totals, one a superstep, gain.

ghost use Rattle.std.specs.Prelude.{◌≡◌, ◌/◌, ◌^◌};
ghost use Rattle.ball_model.specs.Figures.{gain_of};

/// The gain of totals, one a superstep: the sum over the supersteps i from 1 of the rise there divided by 2^i and
/// rounded down.
///
/// It measures how early the last total is reached: what is added at superstep 1 counts half, and what each further
/// superstep adds half as much. A total that falls adds nothing, and one total alone has no gain. A rise divided by
/// 2^128 or more is 0.
pub fn gain(totals: &[u128]) -> u128
    ensures { result ≡ gain_of totals.now }
{
    let mut sum = 0u128;
    for i in 1..totals.len() {
        sum += halved(totals[i].saturating_sub(totals[i - 1]), i);
    }
    sum
}

fn halved(x: u128, times: usize) -> u128
    ensures { result ≡ x / 2 ^ times }
{
    if times < 128 { x >> times } else { 0 }
}
