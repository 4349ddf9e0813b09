// What the steps read of the sections held, lent together.

// Settlement codes, positions, and the keys of the section codes; each entry is a section's (01, Book, 3; 01, Forms, 7).
#[derive(Clone, Copy)]
pub struct SectionColumns<'a> {
    pub codes: &'a [u8],
    pub positions: &'a [i64],
    pub keys: &'a [u64],
}
