// What a frame is read to: its kind, side, session, line and body length, or its refusal.
use numbers::refusal::Refusal;

#[derive(Clone, Copy)]
pub enum Header {
    Fields {
        kind: u8,
        side: u8,
        session: u32,
        line: u8,
        body: usize,
    },
    Refused(Refusal),
}
