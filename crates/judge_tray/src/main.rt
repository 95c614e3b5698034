// Judges the tray on standard input, and prints what comes of it.
#![tactic(auto)]

ghost use Rattle.std.specs.Prelude.{◌≤◌, length, IfOk};

use reports::run::run_tray;
use reports::text::report_text;
use std::io;
use std::io::Read;

// One byte more than the longest tray whose thresholds make a policy has. Whatever follows these bytes, the report is the
// same: by then the run has its card count and its cards and knows of a byte after them, or it stopped before.
const MOST_BYTES: usize = 17_608;

// Fills the buffer with what the input has, and tells how much that is. A loop over a buffer of the whole size: `read_to_end`
// asks for 512 bytes first, and an input that keeps the bounds of messages drops what a read does not take.
fn read_into<R: Read>(input: &mut R, buffer: &mut [u8]) -> io::Result<usize>
    ensures { IfOk result (λ n. n ≤ length buffer.old) }
{
    let mut filled = 0;
    for _ in 0..buffer.len() {
        let count = input.read(&mut buffer[filled..])?;
        if count == 0 {
            break;
        }
        filled += count;
    }
    Ok(filled)
}

fn run(rt: &HostRuntime) -> anyhow::Result<()> {
    let mut buffer = vec![in rt.alloc(); 0u8; MOST_BYTES]?;
    let count = read_into(&mut rt.stdin(), &mut buffer)?;
    let report = run_tray(&buffer[0..count]);
    let text = report_text(rt.alloc(), &report)?;
    print!(rt; "{text}")?;
    Ok(())
}

fn main(rt: HostRuntime) -> anyhow::Result<()> {
    run(&rt)
}
