// Sums and products of residues, exact for every modulus up to 2 ^ 126.

ghost use Rattle.std.specs.Prelude.{◌≡◌, ◌<◌, ◌≤◌, ◌+◌, ◌*◌, ◌%◌, ◌^◌};

/// The residue of the sum of two residues.
pub fn add_mod(a: u128, b: u128, m: u128) -> u128
    requires first { a < m }
    requires second { b < m }
    requires modulus { m ≤ 2 ^ 126 }
    ensures { result ≡ (a + b) % m }
{
    let sum = a + b;
    if sum < m { sum } else { sum - m }
}

/// The residue of the product of two numbers, each of which may be a residue already. Where the product of their residues
/// is below 2 ^ 128 it is divided once; else the first residue is doubled and added along the binary digits of the second,
/// from the highest.
pub fn mul_mod(a: u128, b: u128, m: u128) -> u128
    requires positive { 0 < m }
    requires modulus { m ≤ 2 ^ 126 }
    ensures { result ≡ (a * b) % m }
{
    let left = residue_of(a, m);
    let right = residue_of(b, m);
    match left.checked_mul(right) {
        Some(product) => product % m,
        None => mul_by_doubling(left, right, m),
    }
}

/// A number below the modulus is its own residue, and is not divided.
fn residue_of(n: u128, m: u128) -> u128
    requires { 0 < m }
    ensures { result ≡ n % m }
{
    if n < m { n } else { n % m }
}

fn mul_by_doubling(a: u128, b: u128, m: u128) -> u128
    requires first { a < m }
    requires second { b < m }
    requires modulus { m ≤ 2 ^ 126 }
    ensures { result ≡ (a * b) % m }
{
    let mut digits = 126u32;
    let mut product = 0;
    while digits > 0 {
        digits -= 1;
        product = doubled_and_added(product, a, (b >> digits) % 2, m);
    }
    product
}

/// One digit: twice the product so far, and `a` once more where the digit is 1.
fn doubled_and_added(product: u128, a: u128, digit: u128, m: u128) -> u128
    requires residue { product < m }
    requires first { a < m }
    requires binary { digit < 2 }
    requires modulus { m ≤ 2 ^ 126 }
    ensures { result ≡ (2 * product + digit * a) % m }
{
    let twice = add_mod(product, product, m);
    if digit == 0 {
        twice
    } else {
        add_mod(twice, a, m)
    }
}
