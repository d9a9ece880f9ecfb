//! Lines that say nothing.
ghost use Rattle.std.specs.Prelude.{◌≡◌, ◌++◌, replicate, OnOk};
ghost use Rattle.mon_text.specs.Lines.{is_blank_line};
ghost use Rattle.site_plan.specs.Walks.{is_remark, is_skipped, stop_at};

use mon_text::Stop;
use std::alloc::AllocError;

/// Whether a line of an operator's file says nothing.
pub fn is_skipped(line: &[u8]) -> bool
    ensures { result ≡ is_skipped line.now }
{
    is_remark(line) || is_blank(line)
}

fn is_remark(line: &[u8]) -> bool
    ensures { result ≡ is_remark line.now }
{
    line.first() == Some(&b'#')
}

fn is_blank(line: &[u8]) -> bool
    ensures { result ≡ is_blank_line line.now }
{
    line.iter().all(|byte| *byte == b' ')
}

/// Why a call stopped, with the number of the line for which it did.
pub fn stop_at<W: Drop>(line: u64, stop: Stop<W>) -> Stop<(u64, W)>
    ensures { result ≡ stop_at line stop }
{
    match stop {
        Stop::Refused(why) => Stop::Refused((line, why)),
        Stop::Memory => Stop::Memory,
    }
}

// Appends a byte so many times.
pub(crate) fn put_times(out: &mut Vec<u8>, byte: u8, count: usize) -> Result<(), AllocError>
    ensures { OnOk result (out.new.items ≡ out.old.items ++ replicate count byte) }
{
    for _ in 0..count {
        out.push(byte)?;
    }
    Ok(())
}
