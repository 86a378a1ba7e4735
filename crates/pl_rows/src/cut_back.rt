//! Cells that buffers lose again.
ghost use Rattle.std.specs.Prelude.{◌≡◌, ◌≤◌, length};
ghost use Rattle.pl_rows.specs.Plan.{states};
ghost use Rattle.pl_rows.specs.Steps.{without_last, cut_back};
ghost use Rattle.pl_cells.specs.InitBuffers.{state_of};

use pl_cells::buffer::Buffer;

// Takes the last cells of a buffer away.
fn remove_cells(buffer: &mut Buffer, count: usize)
    ensures { state_of buffer.new ≡ without_last count (state_of buffer.old) }
{
    let len = buffer.len();
    buffer.truncate(len.saturating_sub(count));
}

/// Takes the last cells of the first buffers away.
pub fn cut_back(buffers: &mut [Buffer], columns: usize, count: usize)
    requires { columns ≤ length buffers.old }
    ensures { states buffers.new ≡ cut_back columns count (states buffers.old) }
{
    for column in 0..columns {
        remove_cells(&mut buffers[column], count);
    }
}
