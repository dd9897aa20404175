//! The printed text of reports: the answers to queries, the shares of workers, and the journal.
//!
//! This layer uses the answers of `plan_ast`. The one fact that the layers above may use: the text
//! of a list of replies is the one that `specs/AnswersText.antt` gives it, and that of a report the
//! one that `specs/ReportText.antt` gives it, byte for byte.
#![tactic(auto)]

mod answers;
mod printing;
mod replies;
mod report;

pub use answers::answers_text;
pub use printing::report_text;
pub use replies::{QueryReply, Reply};
pub use report::{ClaimOf, Gap, Record, Report, Share};
