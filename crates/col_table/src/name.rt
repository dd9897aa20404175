// Names of columns and tables.
ghost use Rattle.std.specs.Prelude.{◌≡◌, IfOk, IfErr};
ghost use Rattle.std.specs.String.{string_bytes};
ghost use Rattle.col_table.specs.Name.{IsName, is_name, is_plain};

use std::marker::Model;

/// The greatest number of bytes of a name.
pub const MAX_NAME_BYTES: usize = 64;

/// A text that is not a valid name, unchanged.
#[derive(Debug, Drop)]
pub struct BadName(pub String);

/// The name of a column: a text of 0 to 64 bytes without ASCII control characters.
///
/// Two names are equal exactly if their bytes are. The empty name is valid too.
#[derive(Clone, Debug, Drop)]
pub struct ColumnName {
    text: String,
}

// Clauses see the bytes of the name.
impl Model for ColumnName {
    ghost use Rattle.std.specs.Prelude.{List, ℕ};
    ghost use Rattle.std.specs.String.{string_bytes};
    ghost use Rattle.col_table.specs.Name.{IsName};

    ghost Value = { List ℕ };

    ghost view = { λ name. string_bytes name.text };

    ghost invariant = { λ name. IsName (string_bytes name.text) };
}

impl ColumnName {
    /// The name with this text. It has at most 64 bytes; none of its characters is below U+0020,
    /// and none is U+007F.
    ///
    /// Any other text comes back unchanged, in `BadName`. The call doesn't allocate.
    pub fn new(text: String) -> Result<ColumnName, BadName>
        ensures named { IfOk result (λ name.
            IsName (string_bytes text) × (name ≡ string_bytes text)) }
        ensures refused { IfErr result (λ bad. ¬ IsName (string_bytes text) × (bad.0 ≡ text)) }
    {
        if is_name(text.as_str()) {
            Ok(ColumnName { text })
        } else {
            Err(BadName(text))
        }
    }

    /// The text of the name.
    pub fn as_str(&self) -> &str
        ensures text { result.now ≡ self.now }
        ensures legal { IsName self.now }
    {
        self.text.as_str()
    }
}

impl PartialEq for ColumnName {
    ghost use Rattle.std.specs.Prelude.{nat_eq};
    ghost use Rattle.std.specs.Cmp as Cmp;
    ghost use Rattle.std.specs.Cmp.Lexicographic.{pointwise, nat_list_eq_equiv};

    ghost eq = { pointwise nat_eq };

    ghost laws = { Cmp.partial_equiv_from_equiv nat_list_eq_equiv };

    fn eq(&self, other: &ColumnName) -> bool {
        self.text == other.text
    }
}

impl Eq for ColumnName {
    ghost use Rattle.std.specs.Cmp.Lexicographic.{nat_list_eq_equiv};

    ghost laws = { nat_list_eq_equiv };
}

// Whether a text may be a name.
fn is_name(text: &str) -> bool
    ensures { result ≡ is_name text.now }
{
    text.len() <= MAX_NAME_BYTES && is_plain(text)
}

/// Whether a text has no ASCII control character. It doesn't allocate.
pub fn is_plain(text: &str) -> bool
    ensures { result ≡ is_plain text.now }
{
    text.bytes().all(|byte| byte >= 0x20 && byte != 0x7f)
}
