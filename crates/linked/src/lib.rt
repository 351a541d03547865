// The listing for programs in C or Rust that link this library.
#![tactic(auto)]

ghost use Rattle.linked.specs.Linked.{Answered};

use runner::list::list;

// Writes the listing of a sheet at the start of the memory and answers its length. Answers 0, and writes nothing,
// where the memory is shorter than 65,536 bytes; no listing is empty.
#[unsafe(no_mangle)]
pub extern "C" fn magbolisu_list(sheet: &[u8], memory: &mut [u8]) -> usize
    ensures { Answered sheet.now memory.old result memory.new }
{
    list(sheet, memory).unwrap_or(0)
}
