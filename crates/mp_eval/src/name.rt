//! The names of files.

ghost use Rattle.std.specs.Prelude.{◌≡◌};
ghost use Rattle.std.specs.List.{list_all};
ghost use Rattle.mp_eval.specs.Files as files;

/// The most bytes that a file's name may have.
pub const LONGEST_NAME: usize = 255;

/// Whether a file of that name can be asked for: the name is not empty, has at most 255 bytes, and these are 33 to 126.
pub(crate) fn can_be_asked(name: &[u8]) -> bool
    ensures { result ≡ files.can_be_asked name.now }
{
    !name.is_empty() && name.len() <= LONGEST_NAME && are_visible(name)
}

fn are_visible(name: &[u8]) -> bool
    ensures { result ≡ list_all files.is_visible name.now }
{
    name.iter().all(|c| is_visible(*c))
}

fn is_visible(c: u8) -> bool
    ensures { result ≡ files.is_visible c }
{
    33 <= c && c <= 126
}
