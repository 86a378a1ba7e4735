//! An input read into a frame that is handed out.
ghost use Rattle.std.specs.Prelude.{◌≡◌, ◌≢◌, map, IfOk, IfErr};
ghost use Rattle.pl_csv_c.specs.Fault.{IsRefusedAs};
ghost use Rattle.pl_csv_c.specs.Reading.{IsReadInto, IsUnread, IsKeptRead};

use crate::alone::read_kept;
use crate::fault::refuse;
use crate::given::given_of;
use crate::handing::hand_out;
use crate::kept::KeptFrame;
use crate::views::FrameView;
use pl_csv::run::Refusal;
use std::alloc::Global;

// What an input means by words, kept.
fn read_given(alloc: Global, input: &[u8], words: &[&[u8]]) -> Result<KeptFrame, Refusal>
    ensures read { IfOk result (IsKeptRead (map (λ word. word.now) words.now) input.now) }
    ensures refused { IfErr result (IsUnread (map (λ word. word.now) words.now) input.now) }
{
    let given = match given_of(alloc, words) {
        Ok(given) => given,
        Err(refusal) => return Err(refusal),
    };
    let read = read_kept(alloc, input, &given.read);
    drop(given);
    match read {
        Ok(kept) => Ok(kept),
        Err(fault) => Err(Refusal::Polars(fault)),
    }
}

/// Reads an input into a frame, by the words, and hands it out. At any status but 0 nothing is written but the fault line.
#[unsafe(no_mangle)]
pub extern "C" fn pl_csv_read(
    alloc: Global,
    input: &[u8],
    words: &[&[u8]],
    frame: &mut FrameView,
    line: &mut [u8],
    line_len: &mut usize,
) -> u32
    // Status 0: the words have a meaning, by it the input means a frame, and what is handed out has its shape. No line is told.
    ensures read { result ≡ 0 → IsReadInto (map (λ word. word.now) words.now) input.now frame.new }
    ensures silent { result ≡ 0 → (line.new ≡ line.old) × (line_len.new ≡ 0) }

    // Each other status comes only by its cause, whose line is told, and nothing is handed out.
    ensures refused { result ≢ 0 → IsRefusedAs (IsUnread (map (λ word. word.now) words.now) input.now) result line.old line.new line_len.new }
    ensures same { result ≢ 0 → frame.new ≡ frame.old }
{
    let read = read_given(alloc, input, words);
    hand_out(alloc, read, frame, line, line_len)
}
