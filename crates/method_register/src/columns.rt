// What the passes read of the notices filed, lent together.

// Sellers, elevators, and lots: those filed, or what is drawn of them for a pass; each entry is a notice's (01, Expiry, 5.1; 01, Expiry, 6.1).
#[derive(Clone, Copy)]
pub struct NoticeColumns<'a> {
    pub sellers: &'a [u8],
    pub stands: &'a [u8],
    pub lots: &'a [u64],
}
