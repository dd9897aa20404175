// The names of tables and columns.
ghost use Rattle.std.specs.Prelude.{◌≡◌, ◌∷◌, [], IfOk, IsTrue, codes};
ghost use Rattle.col_table.specs.Name.{is_name};

use col_table::Name;
use std::alloc::{AllocError, Global};

/// The name that a text is.
pub(crate) fn name(alloc: Global, text: &str) -> Result<Name, AllocError>
    requires { IsTrue (is_name text.now) }
    ensures { IfOk result (λ name. name ≡ text.now) }
{
    let text = String::from_str(alloc, text)?;
    Ok(Name::new(text).unwrap())
}

/// The names of the columns of a table like `t`.
pub(crate) fn heading_of_t(alloc: Global) -> Result<Vec<Name>, AllocError>
    ensures { IfOk result (λ names. names.items ≡ codes "k" ∷ codes "g" ∷ codes "v" ∷ []) }
{
    Ok(vec![in alloc; name(alloc, "k")?, name(alloc, "g")?, name(alloc, "v")?]?)
}

/// The names of the columns of a table like `u`.
pub(crate) fn heading_of_u(alloc: Global) -> Result<Vec<Name>, AllocError>
    ensures { IfOk result (λ names. names.items ≡ codes "k" ∷ codes "w" ∷ []) }
{
    Ok(vec![in alloc; name(alloc, "k")?, name(alloc, "w")?]?)
}
