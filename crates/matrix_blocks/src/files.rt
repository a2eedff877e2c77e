// A matrix file and its rows by themselves, each as long as its layout says.
ghost use Rattle.std.specs.Prelude.{◌≡◌, ◌≢◌, length, MatchResult};
ghost use Rattle.numbers.specs.declared.refusal.Refusal.TheVariants.{WrongLength};
ghost use Rattle.matrix_model.specs.File.{file_size, rows_size};
ghost use Rattle.matrix_blocks.specs.Layouts.{layout_in};

use crate::layouts::Layout;
use numbers::refusal::Refusal;

// A file: its rows stand in blocks.
#[derive(Clone, Copy)]
pub struct MatrixFile<'a> {
    pub layout: Layout,
    pub bytes: &'a [u8],
    pub ghost long: { length bytes.now ≡ file_size (layout_in layout) },
}

impl<'a> MatrixFile<'a> {
    // Bytes of another length are refused.
    pub fn new(layout: Layout, bytes: &'a [u8]) -> Result<Self, Refusal>
        ensures { MatchResult result (λ file. (file.layout ≡ layout) × (file.bytes.now ≡ bytes.now))
            (λ refusal. (refusal ≡ WrongLength) × (length bytes.now ≢ file_size (layout_in layout))) }
    {
        if bytes.len() != layout.file_size() {
            return Err(Refusal::WrongLength);
        }
        Ok(MatrixFile { layout, bytes })
    }
}

// Rows one after the other.
#[derive(Clone, Copy)]
pub struct MatrixRows<'a> {
    pub layout: Layout,
    pub bytes: &'a [u8],
    pub ghost long: { length bytes.now ≡ rows_size (layout_in layout) },
}

impl<'a> MatrixRows<'a> {
    // Bytes of another length are refused.
    pub fn new(layout: Layout, bytes: &'a [u8]) -> Result<Self, Refusal>
        ensures { MatchResult result (λ rows. (rows.layout ≡ layout) × (rows.bytes.now ≡ bytes.now))
            (λ refusal. (refusal ≡ WrongLength) × (length bytes.now ≢ rows_size (layout_in layout))) }
    {
        if bytes.len() != layout.rows_size() {
            return Err(Refusal::WrongLength);
        }
        Ok(MatrixRows { layout, bytes })
    }
}

// Rows where they stand: in the blocks of a file, or one after the other.
#[derive(Clone, Copy)]
pub enum Standing<'a> {
    InFile(MatrixFile<'a>),
    Alone(MatrixRows<'a>),
}
