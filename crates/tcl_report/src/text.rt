//! A text that grows.

ghost use Rattle.std.specs.Prelude.{◌≡◌, ◌++◌, OnErr, OnOk};
ghost use Rattle.std.specs.Fmt.{decimal, signed_decimal};

use std::alloc::{AllocError, Global};

/// The bytes of a text so far.
pub type Text = Vec<u8>;

/// Adds bytes to a text. Where there is no memory the text stays as it is.
pub fn add(text: &mut Text, bytes: &[u8]) -> Result<(), AllocError>
    ensures ok { OnOk result (text.new.items ≡ text.old.items ++ bytes.now) }
    ensures err { OnErr result (text.new.items ≡ text.old.items) }
{
    text.extend_from_slice(bytes)
}

/// Adds a number in decimal. Where there is no memory the text stays as it is.
pub fn add_number(alloc: Global, text: &mut Text, n: u64) -> Result<(), AllocError>
    ensures ok { OnOk result (text.new.items ≡ text.old.items ++ decimal n) }
    ensures err { OnErr result (text.new.items ≡ text.old.items) }
{
    let digits = n.to_string(alloc)?;
    add(text, digits.as_bytes())
}

/// Adds an integer in decimal. Where there is no memory the text stays as it is.
pub fn add_integer(alloc: Global, text: &mut Text, n: &i128) -> Result<(), AllocError>
    ensures ok { OnOk result (text.new.items ≡ text.old.items ++ signed_decimal n.now) }
    ensures err { OnErr result (text.new.items ≡ text.old.items) }
{
    let digits = n.to_string(alloc)?;
    add(text, digits.as_bytes())
}
