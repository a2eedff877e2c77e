// Products of a matrix and a vector: the circulant product modulo 2, and rows of trits modulo 3. No branch depends on a vector's bytes.
ghost use Rattle.std.specs.Prelude.{◌≡◌, ◌++◌, ◌*◌, ◌/◌, length, drop};
ghost use Rattle.linear_model.specs.Products.{circulant_product, matrix_product};

use linear_circulant::circulant;
use linear_rows::rows;

// The circulant matrix of `key` times `label`, modulo 2.
pub fn circulant_product(key: &[u8], label: &[u8], out: &mut [u8])
    ensures { out.new ≡ circulant_product (length out.old) key.now label.now }
{
    circulant::circulant_product(key, label, out);
}

// The first `t` rows of a matrix times a vector, modulo 3. The vector's two planes are the halves of `v`, and a row has as many bytes.
pub fn matrix_product(rows: &[u8], v: &[u8], t: usize, out: &mut [u8])
    ensures { out.new ≡
        matrix_product (length out.old / 2) (length v.now / 2) t rows.now v.now
        ++ drop (2 * (length out.old / 2)) out.old }
{
    rows::matrix_product(rows, v, t, out);
}
