//! The contents of the files that were read.
ghost use Rattle.std.specs.Prelude.{◌≡◌, ◌≤◌, length};
ghost use Rattle.std.specs.List.{All};
ghost use Rattle.command_parts.specs.Contents.{bytes_of, content_at};

use std::marker::Model;

/// The content of a file, at most 1048576 bytes, which a contract sees as the list of these.
#[derive(Drop)]
pub struct Content<'a> {
    bytes: &'a [u8],
}

impl<'a> Model for Content<'a> {
    ghost use Rattle.std.specs.Prelude.{ℕ, ◌≤◌, List, length};

    ghost Value = { List ℕ };

    ghost view = { λ c. c.bytes.now };

    ghost invariant = { λ c. length c.bytes.now ≤ 1048576 };
}

impl<'a> Content<'a> {
    /// The content of the file at this index of the list, or the empty content if there is none.
    pub fn at(contents: &'a [Vec<u8>], place: usize) -> Content<'a>
        requires { All (λ c. length c.items ≤ 1048576) contents.now }
        ensures { result ≡ content_at (bytes_of contents.now) place }
    {
        match contents.get(place) {
            Some(content) => Content {
                bytes: content.as_slice(),
            },
            None => Content { bytes: b"" },
        }
    }

    /// Its bytes.
    pub fn bytes(&self) -> &'a [u8]
        ensures value { result.now ≡ self.now }
        ensures small { length result.now ≤ 1048576 }
    {
        self.bytes
    }
}
