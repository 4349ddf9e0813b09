// What the passes have formed so far: how many pairs and lines, and what is drawn of each notice for the lines (01, Expiry, 6.2; 01, Expiry, 6.3; 01, Calls, 9).
use rules::limits::NOTICE_PLACES;

#[derive(Drop)]
pub struct Formed {
    pub pairs: u64,
    pub lines: u64,
    pub drawn: [u64; NOTICE_PLACES],
}
