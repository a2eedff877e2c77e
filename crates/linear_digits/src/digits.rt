// Rows digit by digit, where a plane has no whole word left: the products of two digits modulo 3 stand in a table. No branch depends on a
// vector's bytes, and no index but that of the table.
ghost use Rattle.std.specs.Prelude.{◌≡◌, ◌+◌, ◌*◌, ◌%◌, ◌^◌, ◌<◌, ◌≤◌};
ghost use Rattle.linear_model.specs.Tables.{sum, from};
ghost use Rattle.linear_model.specs.Digits.{digit_product};
ghost use Rattle.linear_model.specs.Products.{row_product, trit_term};
ghost use Rattle.linear_model.specs.Internal.Planes.{trit_of, trit_product};

use linear_words::bytes::byte_at;

// The products of two digits modulo 3.
const PRODUCTS: [[u8; 3]; 3] = [[0, 0, 0], [0, 1, 2], [0, 2, 1]];

fn product(a: usize, b: usize) -> u8
    requires { (a < 3) × (b < 3) }
    ensures { result ≡ digit_product a b }
{
    PRODUCTS[a][b]
}

// Digit `k` of bytes `x` and `u` of the two planes; both bits set count as 0.
fn digit(x: u8, u: u8, k: usize) -> usize
    requires { k < 8 }
    ensures { result ≡ trit_of x u k % 3 }
{
    usize::from(((x >> k) % 2 + 2 * ((u >> k) % 2)) % 3)
}

// The digits of bytes `x`, `u` times those of bytes `y`, `w`, one by one, added up modulo 3.
fn digits_product(x: u8, u: u8, y: u8, w: u8) -> u8
    ensures { result ≡ sum 8 (trit_product x u y w) % 3 }
{
    let mut acc: u8 = 0;
    for k in 0..8 {
        acc += product(digit(x, u, k), digit(y, w, k));
    }
    acc % 3
}

// What columns 8i to 8i + 7 of a row give with a vector of planes of `m` bytes, modulo 3.
fn byte_product(row: &[u8], v: &[u8], m: usize, i: usize) -> u8
    requires { m + i < 2 ^ 64 }
    ensures { result ≡ sum 8 (from (8 * i) (trit_term m row.now v.now)) % 3 }
{
    digits_product(
        byte_at(row, i),
        byte_at(row, m + i),
        byte_at(v, i),
        byte_at(v, m + i),
    )
}

// A row times a vector of planes of `m` bytes, modulo 3, from byte `first` on: `before` is what the columns before it give.
pub fn row_product(row: &[u8], v: &[u8], m: usize, first: usize, before: u8) -> u8
    requires { (m < 2 ^ 63) × (first ≤ m) × (before ≡ sum (8 * first) (trit_term m row.now v.now) % 3) }
    ensures { result ≡ row_product m row.now v.now }
{
    let mut acc = before;
    for i in first..m {
        acc = (acc + byte_product(row, v, m, i)) % 3;
    }
    acc
}
