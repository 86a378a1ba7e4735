//! Views: where a frame's arrays lie, as C reads them. Their layout is that of the header `c/pl_csv.h`.

/// A text.
#[repr(C)]
#[derive(Drop)]
pub struct TextView {
    pub at: *const u8,
    pub len: usize,
}

/// A column: its name, its type, and where its arrays lie.
#[repr(C)]
#[derive(Drop)]
pub struct ColumnView {
    pub name: TextView,
    pub dtype: u32,
    pub unit: u32,
    pub precision: u32,
    pub scale: u32,
    pub present: *const bool,
    pub present_len: usize,
    pub numbers: *const i64,
    pub numbers_len: usize,
    pub words: *const u64,
    pub words_len: usize,
    pub ends: *const usize,
    pub ends_len: usize,
    pub bytes: *const u8,
    pub bytes_len: usize,
    pub categories: *const TextView,
    pub categories_len: usize,
    pub null_count: usize,
}

/// A frame: its handle, and where the views of its columns lie.
#[repr(C)]
#[derive(Drop)]
pub struct FrameView {
    pub handle: *mut u8,
    pub columns: *const ColumnView,
    pub width: usize,
    pub height: usize,
}

// The pointers own nothing, so a view may change threads, and a frame with it.
unsafe impl Send for TextView {}

unsafe impl Send for ColumnView {}
