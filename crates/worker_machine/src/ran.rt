// What a run on one thread answers.
use report_text::Report;
use slot_station::{History, Memo};

/// What a run on one thread answers: its report, the history of the table that it ran on, and at
/// place w the elapsed times of the ranges of worker w, in their order.
#[derive(Drop)]
pub struct Ran {
    pub report: Report,
    pub history: History,
    pub times: Vec<Memo>,
}
