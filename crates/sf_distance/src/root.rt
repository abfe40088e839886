//! Whole square roots.

ghost use Rattle.std.specs.Prelude.{◌≡◌, ◌≤◌, ◌<◌, ◌*◌, ◌/◌, ◌^◌};
ghost use Rattle.sf_distance.specs.Mixed.{IsRoot};

/// The square root of a number, rounded down.
pub fn root(number: u128) -> u64
    requires { number < 2 ^ 126 }
    ensures { IsRoot number result }
{
    let mut high = power_above_root(number);
    let mut low = high / 2;
    while high - low > 1 {
        let middle = low + (high - low) / 2;
        if square(middle) <= number {
            low = middle;
        } else {
            high = middle;
        }
    }
    low
}

/// A power of two above the square root of a number, by how many bits the number has. Half of it, rounded down, is not above.
fn power_above_root(number: u128) -> u64
    requires { number < 2 ^ 126 }
    ensures some { 1 ≤ result }
    ensures small { result ≤ 2 ^ 63 }
    ensures above { number < result * result }
    ensures half { (result / 2) * (result / 2) ≤ number }
{
    let bits = 128 - number.leading_zeros();
    1 << ((bits + 1) / 2)
}

/// The square of a number.
fn square(number: u64) -> u128
    ensures { result ≡ number * number }
{
    u128::from(number) * u128::from(number)
}
