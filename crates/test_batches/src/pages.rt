//! Pages of a log with the small setup. Their bytes, checksums too, were worked out by hand from the format.

use log_page::PAGE;

/// Writes numbers over bytes, from an offset on.
pub fn put_numbers(bytes: &mut [u8], from: usize, numbers: &[u64]) {
    let mut at = from;
    for number in numbers {
        for byte in number.to_be_bytes() {
            if at < bytes.len() {
                bytes[at] = byte;
                at += 1;
            }
        }
    }
}

/// A page that begins with these 24 bytes, followed by these numbers.
pub fn page_of(head: [u64; 3], numbers: &[u64]) -> [u8; PAGE] {
    let mut page = [0; PAGE];
    put_numbers(&mut page, 0, &head);
    put_numbers(&mut page, 24, numbers);
    page
}

/// Batch number 1 of client 7, a count of 5 at (0, 0), as the first batch.
pub fn b1() -> [u8; PAGE] {
    page_of([0x6665_30d2_0ff3_0001, 0, 1], &[1, 7, 1, 1, 0, 0, 5])
}

/// Batch number 1 of client 8, a count of 3 at (0, 0), as the second batch.
pub fn b2() -> [u8; PAGE] {
    page_of([0x511d_7306_0ff2_0001, 1, 1], &[1, 8, 1, 1, 0, 0, 3])
}

/// Both batches in one block.
pub fn b12() -> [u8; PAGE] {
    page_of(
        [0xb4dc_6a97_0fef_0001, 0, 1],
        &[2, 7, 1, 1, 0, 0, 5, 8, 1, 1, 0, 0, 3],
    )
}

/// The head of a log with nothing before it.
pub fn head() -> [u8; PAGE] {
    head_after([0, 0, 0], 0x9ed9_5ae1)
}

/// The head of a log after a snapshot: its bytes from the number of batches before the log on, and the page's checksum.
/// Its book isn't known, and it has no window.
pub fn head_after(before: [u64; 3], checksum: u64) -> [u8; PAGE] {
    let mut page = [0; PAGE];
    let fields = [
        0x4848_4d2d_4c4f_470a,
        0x0000_0002_0000_0000,
        0x0000_0003_0000_0000,
        0x0000_0003_0200_0000,
        0x0000_0000_0200_0000,
        0x0000_0000_0402_0000,
        0x0000_0000_0064_0000,
        0x0000_0000_000a_0000,
    ];
    put_numbers(&mut page, 0, &fields);
    put_numbers(&mut page, 64, &before);
    put_numbers(&mut page, 98, &[u64::MAX]);
    put_numbers(&mut page, PAGE - 8, &[checksum]);
    page
}
