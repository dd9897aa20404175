// The byte order mark that the bytes of a text may begin with.
ghost use Rattle.std.specs.Prelude.{◌≡◌};
ghost use Rattle.col_table.specs.Mark.{without_mark};

/// The bytes after a byte order mark (EF BB BF), or all of them if they don't begin with one. It
/// doesn't allocate.
pub fn without_mark(bytes: &[u8]) -> &[u8]
    ensures { result.now ≡ without_mark bytes.now }
{
    match bytes.strip_prefix(b"\xEF\xBB\xBF") {
        Some(rest) => rest,
        None => bytes,
    }
}
