// For C: products of a matrix and a vector.
ghost use Rattle.std.specs.Prelude.{◌≡◌, ◌++◌, ◌*◌, ◌/◌, length, drop};
ghost use Rattle.linear_model.specs.Products.{circulant_product, matrix_product};

use linear::products;

// The circulant matrix of `key` times `label`, modulo 2.
#[unsafe(no_mangle)]
pub extern "C" fn circulant_product(key: &[u8], label: &[u8], out: &mut [u8])
    ensures { out.new ≡ circulant_product (length out.old) key.now label.now }
{
    products::circulant_product(key, label, out);
}

// The first `t` rows of a matrix times a vector, modulo 3.
#[unsafe(no_mangle)]
pub extern "C" fn matrix_product(rows: &[u8], v: &[u8], t: usize, out: &mut [u8])
    ensures { out.new ≡
        matrix_product (length out.old / 2) (length v.now / 2) t rows.now v.now
        ++ drop (2 * (length out.old / 2)) out.old }
{
    products::matrix_product(rows, v, t, out);
}
