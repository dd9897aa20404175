// The printed text of answers.
ghost use Rattle.std.specs.Prelude.{◌≡◌, ◌++◌, IfOk, OnOk, flat_map, length, map, string_bytes};
ghost use Rattle.std.specs.Fmt.{signed_decimal};
ghost use Rattle.report_text.specs.AnswersText.{answer_lines, answers_bytes, comma_before};
ghost use Rattle.report_text.specs.AnswersText.{group_line, heading, line, reply_bytes, row_line};
ghost use Rattle.report_text.specs.AnswersText.{row_text, total_text, totals_text, value_or_dash};

use crate::replies::{QueryReply, Reply};
use col_table::ListOf;
use plan_ast::{AggValue, Answer, Group};
use std::alloc::{AllocError, Global};
use std::fmt::Write;

/// The answers of a report, in the order of the replies. An answer is the line `query Q lines N`
/// and its N lines. A query that ran out of memory is the line `query Q memory`.
///
/// A row is `row ` and its values. Totals are `total ` and their values. A group is `group `, the
/// values of its key, `: ` and its totals. Commas separate values. The least or greatest of nothing
/// is `-`.
pub fn answers_text(alloc: Global, replies: &[QueryReply]) -> Result<Vec<u8>, AllocError>
    ensures { IfOk result (λ text. text.items ≡ answers_bytes replies.now) }
{
    let mut text = String::new(alloc);
    write_replies(&mut text, replies)?;
    Ok(text.into_bytes())
}

// Adds the lines of each reply.
pub(crate) fn write_replies(text: &mut String, replies: &[QueryReply]) -> Result<(), AllocError>
    ensures { OnOk result (string_bytes text.new
        ≡ string_bytes text.old ++ answers_bytes replies.now) }
{
    for reply in replies {
        write_reply(text, reply)?;
    }
    Ok(())
}

// Adds the lines of a reply.
fn write_reply(text: &mut String, reply: &QueryReply) -> Result<(), AllocError>
    ensures { OnOk result (string_bytes text.new ≡ string_bytes text.old ++ reply_bytes reply.now) }
{
    write_heading(text, reply)?;
    match &reply.reply {
        Reply::Answer(answer) => write_answer(text, answer),
        Reply::Memory => Ok(()),
    }
}

// Adds the first line of a reply.
fn write_heading(text: &mut String, reply: &QueryReply) -> Result<(), AllocError>
    ensures { OnOk result (string_bytes text.new
        ≡ string_bytes text.old ++ line (heading reply.now.query reply.now.reply)) }
{
    let query = reply.query;
    match &reply.reply {
        Reply::Answer(answer) => {
            let lines = count_lines(answer);
            writeln!(text, "query {query} lines {lines}")
        }
        Reply::Memory => writeln!(text, "query {query} memory"),
    }
}

// The number of lines of an answer.
fn count_lines(answer: &Answer) -> usize
    ensures { result ≡ length (answer_lines answer.now) }
{
    match answer {
        Answer::Rows(rows) => rows.as_slice().len(),
        Answer::Totals(_) => 1,
        Answer::Groups(groups) => groups.as_slice().len(),
    }
}

// Adds the lines of an answer.
fn write_answer(text: &mut String, answer: &Answer) -> Result<(), AllocError>
    ensures { OnOk result (string_bytes text.new
        ≡ string_bytes text.old ++ flat_map line (answer_lines answer.now)) }
{
    match answer {
        Answer::Rows(rows) => write_rows(text, rows.as_slice()),
        Answer::Totals(values) => {
            text.push_str("total ")?;
            write_totals(text, values.as_slice())?;
            text.push_str("\n")
        }
        Answer::Groups(groups) => write_groups(text, groups.as_slice()),
    }
}

// Adds a line for each row.
fn write_rows(text: &mut String, rows: &[ListOf<i64>]) -> Result<(), AllocError>
    ensures { OnOk result (string_bytes text.new
        ≡ string_bytes text.old ++ flat_map line (map row_line rows.now)) }
{
    for row in rows {
        write_row(text, row.as_slice())?;
    }
    Ok(())
}

// Adds the line of a row.
fn write_row(text: &mut String, row: &[i64]) -> Result<(), AllocError>
    ensures { OnOk result (string_bytes text.new
        ≡ string_bytes text.old ++ line (row_line row.now)) }
{
    text.push_str("row ")?;
    write_values(text, row)?;
    text.push_str("\n")
}

// Adds a line for each group.
fn write_groups(text: &mut String, groups: &[Group]) -> Result<(), AllocError>
    ensures { OnOk result (string_bytes text.new
        ≡ string_bytes text.old ++ flat_map line (map group_line groups.now)) }
{
    for group in groups {
        write_group(text, group)?;
    }
    Ok(())
}

// Adds the line of a group.
fn write_group(text: &mut String, group: &Group) -> Result<(), AllocError>
    ensures { OnOk result (string_bytes text.new
        ≡ string_bytes text.old ++ line (group_line group.now)) }
{
    text.push_str("group ")?;
    write_values(text, group.key.as_slice())?;
    text.push_str(": ")?;
    write_totals(text, group.values.as_slice())?;
    text.push_str("\n")
}

// Adds values, with commas between them.
fn write_values(text: &mut String, values: &[i64]) -> Result<(), AllocError>
    ensures { OnOk result (string_bytes text.new ≡ string_bytes text.old ++ row_text values.now) }
{
    for (place, value) in values.iter().enumerate() {
        write_comma(text, place)?;
        write_value(text, *value)?;
    }
    Ok(())
}

// Adds totals, with commas between them.
fn write_totals(text: &mut String, values: &[AggValue]) -> Result<(), AllocError>
    ensures { OnOk result (string_bytes text.new
        ≡ string_bytes text.old ++ totals_text values.now) }
{
    for (place, value) in values.iter().enumerate() {
        write_comma(text, place)?;
        write_total(text, value)?;
    }
    Ok(())
}

// Adds a comma, except before the first value.
fn write_comma(text: &mut String, place: usize) -> Result<(), AllocError>
    ensures { OnOk result (string_bytes text.new ≡ string_bytes text.old ++ comma_before place) }
{
    if place == 0 {
        Ok(())
    } else {
        text.push_str(",")
    }
}

fn write_value(text: &mut String, value: i64) -> Result<(), AllocError>
    ensures { OnOk result (string_bytes text.new ≡ string_bytes text.old ++ signed_decimal value) }
{
    write!(text, "{value}")
}

fn write_total(text: &mut String, total: &AggValue) -> Result<(), AllocError>
    ensures { OnOk result (string_bytes text.new ≡ string_bytes text.old ++ total_text total.now) }
{
    match total {
        AggValue::Count(count) => write!(text, "{count}"),
        AggValue::Sum(sum) => write!(text, "{sum}"),
        AggValue::Least(least) => write_value_or_dash(text, *least),
        AggValue::Greatest(greatest) => write_value_or_dash(text, *greatest),
    }
}

// Adds a value, or a dash if there is none.
fn write_value_or_dash(text: &mut String, value: Option<i64>) -> Result<(), AllocError>
    ensures { OnOk result (string_bytes text.new ≡ string_bytes text.old ++ value_or_dash value) }
{
    match value {
        Some(value) => write_value(text, value),
        None => text.push_str("-"),
    }
}
