//! The lines of a session and of its report, those of `session_lines` among them: which session a text is, or its
//! first bad line and what is wrong with it, and the text of each line that a report has.
#![tactic(auto)]

mod before;
mod decoding;
mod forms;
mod kept;
mod laws;
mod line_list;
mod report;
mod session;
mod text;

pub use decoding::decode;
pub use laws::old_sessions_stay;
pub use line_list::{MoreLines, MoreQueue};
pub use report::{
    DisplayAnswer, ExcerptAnswer, FoldAnswer, FoldRefusal, MeditAnswer, MoreReport, NumberAnswer,
    NumberAnswers, PartAnswer, SelectAnswer, SelectedAnswer, ShareAnswer, SplitRefusal,
    UnfoldAnswer,
};
pub use session::{MoreLine, MoreSession, TextRanges};
pub use session_lines::{DecodeFault, OutOfMemory, Word};
pub use text::write_line;
