//! Frames that are handed out, and freed.
ghost use Rattle.std.specs.Prelude.{◌≡◌, ◌≢◌, IfSome};
ghost use Rattle.std.specs.Box.Ownership.{box_owns};
ghost use Rattle.std.specs.contracts.impls.GlobalAllocator.TheImpl.{ghosts};
ghost use types.Logic.{sem};
ghost use Rattle.pl_csv_c.specs.contracts.kept.KeptFrame.{the_row};
ghost use Rattle.pl_csv_c.specs.Fault.{IsRefusedAs};
ghost use Rattle.pl_csv_c.specs.Handing.{IsHandedOut, MayRefuse};

use crate::fault::refuse;
use crate::kept::KeptFrame;
use crate::views::FrameView;
use pl_csv::run::Refusal;
use pl_frame::error::PolarsError;
use std::alloc::Global;

// A value that may change threads, as it is.
fn crossing<T: Send>(value: T) -> T
    ensures { result ≡ value }
{
    value
}

// Puts a frame where it stands until it is freed. Refuses only want of memory.
fn boxed(alloc: Global, kept: KeptFrame) -> Option<Box<KeptFrame>>
    ensures { IfSome result (λ boxed. boxed.value ≡ kept) }
{
    match Box::new(alloc, crossing(kept)) {
        Ok(kept) => Some(kept),
        Err(_) => None,
    }
}

/// Hands out a frame that was read, or tells why there is none, and answers the status.
pub(crate) fn hand_out(
    alloc: Global,
    read: Result<KeptFrame, Refusal>,
    frame: &mut FrameView,
    line: &mut [u8],
    line_len: &mut usize,
) -> u32
    ensures handed { result ≡ 0 → IsHandedOut read frame.new }
    ensures silent { result ≡ 0 → (line.new ≡ line.old) × (line_len.new ≡ 0) }
    ensures refused { result ≢ 0 → IsRefusedAs (MayRefuse read) result line.old line.new line_len.new }
    ensures same { result ≢ 0 → frame.new ≡ frame.old }
{
    let kept = match read {
        Ok(kept) => kept,
        Err(refusal) => return refuse(alloc, refusal, line, line_len),
    };
    let width = kept.views.len();
    let height = kept.height;
    let Some(kept) = boxed(alloc, kept) else {
        let memory = Refusal::Polars(PolarsError::OutOfMemory);
        return refuse(alloc, memory, line, line_len);
    };
    let columns = kept.views.as_ptr();
    let handle = Box::into_raw(kept) as *mut u8;
    *frame = FrameView {
        handle,
        columns,
        width,
        height,
    };
    *line_len = 0;
    0
}

fn closed(frame: Box<KeptFrame>) {
    drop(frame);
}

/// Frees the frame at a handle, which its caller loses.
#[unsafe(no_mangle)]
pub unsafe extern "C" fn pl_csv_free_frame(alloc: Global, at: *mut u8)
    ghost value: { KeptFrame }
    requires* { sem 𝓛 (box_owns (ghosts.dealloc_token alloc) the_row at value) }
{
    closed(unsafe { Box::from_raw(alloc, at as *mut KeptFrame) });
}
