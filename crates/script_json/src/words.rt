// Names and words in a script, and numbers of any size.
ghost use Rattle.std.specs.Prelude.{◌≡◌, Ok, Err};
ghost use Rattle.serde_json.specs.Find.{as_str};
ghost use Rattle.serde_json.specs.View.{view};
ghost use Rattle.col_table.specs.Name.{is_name};
ghost use Rattle.script_json.specs.Forms.{Gives, Shows, kept, or_refuse, wrong_shape};
ghost use Rattle.script_json.specs.Format.{any_number, file_name, function, function_named};
ghost use Rattle.script_json.specs.Format.{is_file_name, name, operator, operator_named};

use crate::form::Form;
use crate::refusal::ScriptRefusal;
use crate::script::MAX_FILE_BYTES;
use col_table::{MAX_NAME_BYTES, Name, Text, is_plain};
use plan_ast::{Func, Op};
use serde_json::Value;
use std::alloc::Global;

// The text of a value.
fn text_of(alloc: Global, value: &Value) -> Result<&str, ScriptRefusal>
    ensures { Shows (λ text. text.now) (or_refuse wrong_shape (as_str (view value.now))) result }
{
    match value.as_str() {
        Some(text) => Ok(text),
        None => Err(ScriptRefusal::wrong_shape(alloc)),
    }
}

/// The name of a table or a column.
#[derive(Drop)]
pub(crate) struct NameForm;

impl Form for NameForm {
    type Made = Name;

    ghost reading = { λ _. name };

    fn read(&self, alloc: Global, value: &Value) -> Result<Name, ScriptRefusal> {
        named(alloc, text_of(alloc, value)?)
    }
}

// The name of this text. A text that is too long isn't copied.
fn named(alloc: Global, text: &str) -> Result<Name, ScriptRefusal>
    ensures { Gives (kept is_name text.now) result }
{
    if text.len() > MAX_NAME_BYTES {
        return Err(ScriptRefusal::bad_text(alloc));
    }
    match Name::new(String::from_str(alloc, text)?) {
        Ok(name) => Ok(name),
        Err(_bad) => Err(ScriptRefusal::bad_text(alloc)),
    }
}

/// The name of a file.
#[derive(Drop)]
pub(crate) struct FileForm;

impl Form for FileForm {
    type Made = Text;

    ghost reading = { λ _. file_name };

    fn read(&self, alloc: Global, value: &Value) -> Result<Text, ScriptRefusal> {
        let text = text_of(alloc, value)?;
        if !may_name_a_file(text) {
            return Err(ScriptRefusal::bad_text(alloc));
        }
        Ok(Text::of(String::from_str(alloc, text)?))
    }
}

fn may_name_a_file(text: &str) -> bool
    ensures { result ≡ is_file_name text.now }
{
    !text.is_empty() && text.len() <= MAX_FILE_BYTES && is_plain(text)
}

/// The operator of a filter.
#[derive(Drop)]
pub(crate) struct OperatorForm;

impl Form for OperatorForm {
    type Made = Op;

    ghost reading = { λ _. operator };

    fn read(&self, alloc: Global, value: &Value) -> Result<Op, ScriptRefusal> {
        match operator_of(text_of(alloc, value)?) {
            Some(op) => Ok(op),
            None => Err(ScriptRefusal::bad_text(alloc)),
        }
    }
}

fn operator_of(text: &str) -> Option<Op>
    ensures { result ≡ operator_named text.now }
{
    match text {
        "=" => Some(Op::Eq),
        "<>" => Some(Op::Ne),
        "<" => Some(Op::Lt),
        "<=" => Some(Op::Le),
        ">" => Some(Op::Gt),
        ">=" => Some(Op::Ge),
        _ => None,
    }
}

/// The function of an aggregate over a column.
#[derive(Drop)]
pub(crate) struct FunctionForm;

impl Form for FunctionForm {
    type Made = Func;

    ghost reading = { λ _. function };

    fn read(&self, alloc: Global, value: &Value) -> Result<Func, ScriptRefusal> {
        match function_of(text_of(alloc, value)?) {
            Some(func) => Ok(func),
            None => Err(ScriptRefusal::bad_text(alloc)),
        }
    }
}

fn function_of(text: &str) -> Option<Func>
    ensures { result ≡ function_named text.now }
{
    match text {
        "sum" => Some(Func::Sum),
        "min" => Some(Func::Min),
        "max" => Some(Func::Max),
        _ => None,
    }
}

/// Any whole number that an `i64` holds.
#[derive(Drop)]
pub(crate) struct AnyNumberForm;

impl Form for AnyNumberForm {
    type Made = i64;

    ghost reading = { λ _. any_number };

    fn read(&self, alloc: Global, value: &Value) -> Result<i64, ScriptRefusal> {
        let Some(written) = value.as_number() else {
            return Err(ScriptRefusal::wrong_shape(alloc));
        };
        match written.as_i64() {
            Some(number) => Ok(number),
            None => Err(ScriptRefusal::wrong_number(alloc)),
        }
    }
}
