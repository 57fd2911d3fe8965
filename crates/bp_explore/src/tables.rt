//! Hash tables of nodes. Nothing is proved of a table, since states are compared.

/// Returns the place of a hash in a table, whose size is a power of 2.
pub(crate) fn place_of(hash: u64, size: usize) -> usize {
    (hash as usize) & size.wrapping_sub(1)
}

/// Writes an entry to the first free place from that of its hash on.
pub(crate) fn note(table: &mut Vec<u32>, hash: u64, entry: u32) {
    let size = table.len();
    let mut place = place_of(hash, size);
    for _ in 0..size {
        if place >= table.len() {
            place = 0;
        }
        if place < table.len() && table[place] == 0 {
            table[place] = entry;
            return;
        }
        place = place.wrapping_add(1);
    }
}
