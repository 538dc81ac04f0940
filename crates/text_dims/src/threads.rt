//! That positions and summaries may go to another thread and be shared with one.
use crate::points::{OffsetUtf16, Point, PointUtf16};
use crate::summary::TextSummary;

fn sends<X: Send>(_x: &X) {}

fn shares<X: Sync>(_x: &X) {}

/// Checked, and never run: positions and summaries are `Send` and `Sync`.
pub fn crosses_threads(
    summary: &TextSummary,
    point: &Point,
    utf16: &PointUtf16,
    offset: &OffsetUtf16,
) {
    sends(summary);
    shares(summary);
    sends(point);
    shares(point);
    sends(utf16);
    shares(utf16);
    sends(offset);
    shares(offset);
}
