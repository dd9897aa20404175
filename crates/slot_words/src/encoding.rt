//! How numbers are packed into one word.
//!
//! Each function has a clause that the numbers can be read back from its word.

ghost use Rattle.std.specs.Prelude.{◌≡◌, ◌<◌, ◌≤◌, ◌^◌, pos, negsuc, ◌+ℤ◌, ◌-ℤ◌, ◌≤ℤ◌};
ghost use Rattle.slot_history.specs.declared.shape.TheConstants.{MOST_SLOTS};
ghost use Rattle.slot_words.specs.Encodings as words;

/// The state of a slot that is open with the task set `id`: `(id + 1) * 4 + 2`.
pub fn open_word(id: u32) -> u64
    ensures word { result ≡ words.open_word id }
    ensures kind { words.kind_in result ≡ 2 }
    ensures id { words.id_in result ≡ id }
{
    (u64::from(id) + 1) * 4 + 2
}

/// The word of an open slot with the tag, its lowest bit: the task set is shut or being finalised.
pub fn tagged(word: u64) -> u64
    requires { words.kind_in word ≡ 2 }
    ensures word { result ≡ words.tagged word }
    ensures kind { words.kind_in result ≡ 3 }
    ensures id { words.id_in result ≡ words.id_in word }
{
    word + 1
}

/// The state of a worker that is at a slot: `slot + 1`. A worker that is nowhere has the word 0.
pub fn at_word(slot: u32) -> u64
    ensures word { result ≡ words.at_word slot }
    ensures slot { slot < MOST_SLOTS → words.slot_in result ≡ slot }
{
    u64::from(slot) + 1
}

/// The word of a worker that is at a slot, with the mark for the task set `id`: `512 + 1024 * id`
/// more.
pub fn marked(word: u64, id: u32) -> u64
    requires { (0 < word) × (word ≤ 2 ^ 32) }
    ensures word { result ≡ words.marked word id }
    ensures slot { word < 512 → words.slot_in result ≡ words.slot_in word }
    ensures id { word < 512 → words.mark_in result ≡ id }
{
    word + 512 + 1024 * u64::from(id)
}

/// The cursor of a slot: `total * 2^32 + cursor`.
pub fn cursor_word(total: u32, cursor: u32) -> u64
    ensures word { result ≡ words.cursor_word total cursor }
    ensures total { words.total_in result ≡ total }
    ensures cursor { words.cursor_in result ≡ cursor }
{
    (u64::from(total) << 32) + u64::from(cursor)
}

/// The counter of a slot: `2^32 + count`. The count is minus the number of workers that paid before
/// the sweep, and after it the number that still have to pay.
pub fn counter_word(count: i64) -> u64
    requires { (negsuc 63 ≤ℤ count) × (count ≤ℤ pos 64) }
    ensures word { pos result ≡ pos words.zero_count +ℤ count }
    ensures count { count ≡ pos result -ℤ pos words.zero_count }
{
    ((1 << 32) + count) as u64
}
