// Thin wrappers of a `Vec` and a `String`, which contracts compare as lists.
ghost use Rattle.std.specs.Prelude.{◌≡◌};
ghost use Rattle.std.specs.String.{string_bytes};

use std::alloc::AllocError;
use std::marker::Model;

/// A `Vec` that contracts see as the list of its items, whatever its capacity.
#[derive(Debug, Drop)]
pub struct ListOf<T> {
    items: Vec<T>,
}

impl<T> Model for ListOf<T> {
    ghost use Rattle.std.specs.Prelude.{List};

    ghost Value = { List T };

    ghost view = { λ list. list.items.items };
}

impl<T> ListOf<T> {
    /// The same items. It doesn't allocate.
    pub fn of(items: Vec<T>) -> ListOf<T>
        ensures { result ≡ items.items }
    {
        ListOf { items }
    }

    /// The items, in order. It doesn't allocate.
    pub fn as_slice(&self) -> &[T]
        ensures { result.now ≡ self.now }
    {
        self.items.as_slice()
    }

    /// The same items. It doesn't allocate.
    pub fn into_vec(self) -> Vec<T>
        ensures { result.items ≡ self }
    {
        let ListOf { items } = self;
        items
    }
}

/// A `String` that contracts see as the list of its bytes, whatever its capacity.
#[derive(Debug, Drop)]
pub struct Text {
    text: String,
}

impl Model for Text {
    ghost use Rattle.std.specs.Prelude.{List, ℕ};
    ghost use Rattle.std.specs.String.{string_bytes};

    ghost Value = { List ℕ };

    ghost view = { λ text. string_bytes text.text };
}

impl Text {
    /// The same text. It doesn't allocate.
    pub fn of(text: String) -> Text
        ensures { result ≡ string_bytes text }
    {
        Text { text }
    }

    /// The text. It doesn't allocate.
    pub fn as_str(&self) -> &str
        ensures { result.now ≡ self.now }
    {
        self.text.as_str()
    }

    /// The same text. It doesn't allocate.
    pub fn into_string(self) -> String
        ensures { string_bytes result ≡ self }
    {
        let Text { text } = self;
        text
    }
}

impl<T: Clone> Clone for ListOf<T> {
    ghost use Rattle.std.specs.List.{AllZip};

    ghost is_clone = { AllZip T.is_clone };

    fn clone(&self) -> Result<ListOf<T>, AllocError> {
        let items = self.items.clone()?;
        Ok(ListOf { items })
    }
}
