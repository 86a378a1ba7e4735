//! Bytes that a call hands out, in memory that stands until they are freed.
ghost use Rattle.std.specs.Prelude.{◌≡◌, length, OnOk, OnErr};
ghost use Rattle.std.specs.Box.Ownership.{box_owns};
ghost use Rattle.std.specs.contracts.impls.GlobalAllocator.TheImpl.{ghosts};
ghost use types.Logic.{sem};
ghost use Rattle.pl_csv_c.specs.contracts.bytes.KeptBytes.{the_row};

use std::alloc::{AllocError, Global};

/// Bytes, and the handle by which they are freed.
#[repr(C)]
#[derive(Drop)]
pub struct BytesView {
    pub handle: *mut u8,
    pub at: *const u8,
    pub len: usize,
}

/// Bytes that are kept until they are freed.
#[derive(Drop)]
pub struct KeptBytes {
    bytes: Vec<u8>,
}

// Bytes that are kept. Refuses only want of memory.
fn kept_of(alloc: Global, bytes: Vec<u8>) -> Result<Box<KeptBytes>, AllocError> {
    match Box::new(alloc, KeptBytes { bytes }) {
        Ok(kept) => Ok(kept),
        Err(_) => Err(AllocError),
    }
}

/// Hands bytes out. Refuses only want of memory; nothing is written then.
pub(crate) fn hand_out(alloc: Global, bytes: Vec<u8>, out: &mut BytesView) -> Result<(), AllocError>
    ensures len { OnOk result (out.new.len ≡ length bytes.items) }
    ensures same { OnErr result (out.new ≡ out.old) }
{
    let len = bytes.len();
    let kept = kept_of(alloc, bytes)?;
    let at = kept.bytes.as_ptr();
    let handle = Box::into_raw(kept) as *mut u8;
    *out = BytesView { handle, at, len };
    Ok(())
}

fn closed(bytes: Box<KeptBytes>) {
    drop(bytes);
}

/// Frees the bytes at a handle, which its caller loses.
#[unsafe(no_mangle)]
pub unsafe extern "C" fn pl_csv_free_bytes(alloc: Global, at: *mut u8)
    ghost value: { KeptBytes }
    requires* { sem 𝓛 (box_owns (ghosts.dealloc_token alloc) the_row at value) }
{
    closed(unsafe { Box::from_raw(alloc, at as *mut KeptBytes) });
}
