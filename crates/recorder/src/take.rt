//! Readings taken line by line into a block.
ghost use Rattle.std.specs.Prelude.{length};
ghost use Rattle.std.specs.Iterator.{at_most};

use readings::reading::{RECORD_LEN, Reading};
use recording::lines::line_at;

// The lines of a text that are still to come. A newline at the end begins no line; the library's `split` would give an empty one there.
#[derive(Drop)]
struct Lines<'a>(&'a [u8]);

impl<'a> Iterator for Lines<'a> {
    type Item = &'a [u8];

    ghost remaining = { λ lines. at_most (length lines.0.now) };

    fn next(&mut self) -> Option<&'a [u8]> {
        if self.0.is_empty() {
            return None;
        }
        let line = line_at(self.0, 0);
        self.0 = self.0.get(line.len() + 1..).unwrap_or(&[]);
        Some(line)
    }
}

/// Appends the reading of each good line to the block while it has room, and tells what is wrong with each bad line.
pub fn take_lines(
    rt: &HostRuntime,
    text: &[u8],
    block_size: u64,
    block: &mut Vec<u8>,
) -> anyhow::Result<()> {
    // Counted by hand, not by `enumerate`: the number of the last line is also the total that is printed.
    let mut lines = 0usize;
    let mut taken = 0usize;
    let mut bad = 0usize;
    let mut left_out = 0usize;
    for line in Lines(text) {
        lines = lines.saturating_add(1);
        match Reading::parse(line) {
            Err(error) => {
                println!(rt; "line {lines}, {error}")?;
                bad = bad.saturating_add(1);
            }
            Ok(_) if (block.len() as u64).saturating_add(RECORD_LEN as u64) > block_size => {
                left_out = left_out.saturating_add(1);
            }
            Ok(reading) => {
                let mut record = [0u8; RECORD_LEN];
                reading.write_to(&mut record);
                block.extend_from_slice(&record)?;
                taken = taken.saturating_add(1);
            }
        }
    }
    println!(rt;
        "lines {lines}, readings {taken}, bad lines {bad}, left out of the full block {left_out}"
    )?;
    Ok(())
}
