// The numbers of one sort of matrix file. The specs cite this struct, so it stands by itself.
ghost use Rattle.matrix_model.specs.File.{Fits};

// Stays a clause of each function that eliminates: room for the elimination (`Eliminable`, `CarryingRoom`), since in this type it would ask
// more of `code_of` and of all that do without.
// The letter in byte 0 of its blocks, the set in byte 3, the bytes of a row, the rows of a full block, the rows in all.
#[derive(Clone, Copy)]
pub struct Layout {
    pub letter: u8,
    pub set: u8,
    pub row_bytes: usize,
    pub block_rows: usize,
    pub row_count: usize,
    pub ghost fits: { Fits (record { letter = letter; set = set; row_bytes = row_bytes; block_rows = block_rows; row_count = row_count }) },
}
