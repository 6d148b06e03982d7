//! Finds the blocks of a log in the bytes of its file.
ghost use Rattle.std.specs.Prelude.{◌≡◌, ◌+◌, ◌<◌, ◌≤◌, ◌^◌, List, length, Err, IfOk, IfErr};
ghost use Rattle.log_blocks.specs.Blocks.{Block};
ghost use Rattle.log_blocks.specs.Files.{bytes_from, page_count, pages_of, recovered};
ghost use Rattle.log_blocks.specs.Scanning.{IsScanned};

use crate::fault::LogFault;
use crate::scan::BlockScan;
use log_page::PAGE;

/// Copies a page of a file, with 00 behind the file's end.
fn copy_page(file: &[u8], at: usize, page: &mut [u8; PAGE])
    requires { at < 2 ^ 62 }
    ensures { page.new ≡ bytes_from at 4096 file.now }
{
    for i in 0..PAGE {
        page[i] = if at + i < file.len() { file[at + i] } else { 0 };
    }
}

/// Finds the blocks of a log whose first batch has this place, in the bytes behind its head page.
pub fn find_blocks(bytes: &[u8], first: u64) -> Result<BlockScan, LogFault>
    requires size { length bytes.now < 2 ^ 50 }
    requires first { first ≤ 2 ^ 62 }
    ensures ok { IfOk result (λ s. (blocks : List Block) ×
        IsScanned first (pages_of 0 (page_count bytes.now) bytes.now) s blocks) }
    ensures err { IfErr result (λ fault. recovered first bytes.now ≡ Err fault) }
{
    let mut scan = BlockScan::new(first);
    let mut page = [0; PAGE];
    let count = (bytes.len() + (PAGE - 1)) / PAGE;
    for i in 0..count {
        copy_page(bytes, PAGE * i, &mut page);
        match scan.take_page(&page) {
            Ok(_step) => {}
            Err(fault) => return Err(fault),
        }
    }
    Ok(scan)
}
