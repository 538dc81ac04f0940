//! The lines of a session and of its report: which session a text is, or its first bad line and what is wrong with it, and
//! the text of each line that a report has.
#![tactic(auto)]

mod before;
mod cutting;
mod decoding;
mod fault;
mod forms;
mod header;
mod kept;
mod line_list;
mod line_value;
mod parts;
mod report;
mod returns;
mod session;
mod text;

pub use before::Before;
pub use cutting::{first_line, line_count};
pub use decoding::{decode, read_header, read_line};
pub use fault::{DecodeFault, LineFault, Word};
pub use kept::KeptLine;
pub use lamport_clock::OutOfMemory;
pub use line_list::{LineQueue, SessionLines};
pub use line_value::{is_text, members_of, value_of};
pub use parts::{id_of_value, pieces_of_value};
pub use report::{
    AnchorAnswer, FindAnswer, GiveAnswer, OffsetAnswer, PointAnswer, QueryAnswer, Report,
    SinceAnswer, TextEdits, TextHead, WhereAnswer,
};
pub use session::{Ids, Numbers, Session, SessionLine};
pub use text::{edit_fault_words, write_line, write_text};
