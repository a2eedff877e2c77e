// What a unit is begun with besides its halves, and each of its frames carries.
#[derive(Clone, Copy)]
pub struct Parameters {
    pub side: u8,
    pub session: u32,
    pub line: u8,
}
