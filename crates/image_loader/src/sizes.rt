//! The tests of sizes and of operations.
ghost use Rattle.std.specs.Prelude.{◌≡◌, ◌↔◌, ◌≤◌, All, IsTrue};
ghost use Rattle.xmt_isa.specs.Valid.{HasSizes, HasOperations};

use xmt_isa::{FunctionEntry, Image, Instr};

fn has_slots(functions: &[FunctionEntry]) -> bool
    ensures { IsTrue result ↔ All (λ f. f.slots ≤ 512) functions.now }
{
    for item in functions {
        if 512 < item.slots {
            return false;
        }
    }
    true
}

/// The sizes are in their ranges.
pub fn has_sizes(image: &Image) -> bool
    ensures { IsTrue result ↔ HasSizes image.now }
{
    let words = image.words.len();
    if image.outer > 200 || words > 1 << 20 {
        return false;
    }
    1 <= image.code.len()
        && image.code.len() <= 4194304
        && image.lines.len() == image.code.len()
        && 1 <= image.functions.len()
        && image.functions.len() <= 1000
        && image.texts.len() <= 65536
        && image.symbols.len() <= 4096
        && words + 257 * image.outer as usize <= 1 << 20
        && (image.entry as usize) < image.functions.len()
        && has_slots(image.functions.as_slice())
}

fn have_operations(code: &[Instr]) -> bool
    ensures { IsTrue result ↔ All (λ i. (1 ≤ i.op) × (i.op ≤ 45)) code.now }
{
    for item in code {
        if item.op < 1 || 45 < item.op {
            return false;
        }
    }
    true
}

/// Each instruction's number is in the table.
pub fn has_operations(image: &Image) -> bool
    ensures { IsTrue result ↔ HasOperations image.now }
{
    have_operations(image.code.as_slice())
}
