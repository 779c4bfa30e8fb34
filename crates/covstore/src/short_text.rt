//! Texts. A short text is stored in place, without an allocation.

ghost use Rattle.std.specs.Prelude.{◌≡◌, ◌≤◌, IfOk, length};

use covdata::{Bytes, Memory};
use std::alloc::Allocator;
use std::marker::Model;

/// The length of the longest text that is stored in place. A checksum of geninfo(1) has 22 bytes.
const ROOM: usize = 23;

/// A text of at most 23 bytes, stored in place. Contracts see the bytes.
#[derive(Drop)]
struct InPlace {
    bytes: [u8; ROOM],
    len: u8,
    ghost within: { len ≤ 23 },
}

impl Model for InPlace {
    ghost use Rattle.std.specs.Prelude.{List, ℕ, take};

    ghost Value = { List ℕ };

    ghost view = { λ text. take text.len text.bytes };
}

impl InPlace {
    /// Copies `text`.
    fn of(text: &[u8]) -> InPlace
        requires { length text.now ≤ 23 }
        ensures { result ≡ text.now }
    {
        let mut bytes = [0; ROOM];
        bytes[..text.len()].copy_from_slice(text);
        InPlace {
            bytes,
            len: text.len() as u8,
        }
    }

    /// The bytes of the text.
    fn get(&self) -> &[u8]
        ensures { result.now ≡ self.now }
    {
        &self.bytes[..self.len as usize]
    }
}

/// The bytes of a text, in one of two forms.
#[derive(Drop)]
enum Form<A: Allocator> {
    /// In place.
    Short(InPlace),
    /// In an allocation of their own.
    Long(Bytes<A>),
}

/// A text that owns its bytes. Up to 23 bytes are stored in place, without an allocation. Contracts see the bytes.
#[derive(Drop)]
pub(crate) struct ShortText<A: Allocator> {
    form: Form<A>,
}

impl<A: Allocator> Model for ShortText<A> {
    ghost use Rattle.std.specs.Prelude.{List, ℕ};
    ghost use Rattle.covstore.specs.ShortText.{bytes_of};

    ghost Value = { List ℕ };

    ghost view = { λ text. bytes_of text.form };
}

impl<A: Allocator> ShortText<A> {
    /// Copies `text`.
    pub(crate) fn of(alloc: A, text: &[u8]) -> Result<ShortText<A>, Memory>
        ensures { IfOk result (λ copy. copy ≡ text.now) }
    {
        if text.len() <= ROOM {
            return Ok(ShortText {
                form: Form::Short(InPlace::of(text)),
            });
        }
        Ok(ShortText {
            form: Form::Long(Bytes::of(alloc, text)?),
        })
    }

    /// The bytes of the text.
    pub(crate) fn get(&self) -> &[u8]
        ensures { result.now ≡ self.now }
    {
        match &self.form {
            Form::Short(text) => text.get(),
            Form::Long(text) => text.get(),
        }
    }
}

// An `InPlace` is as large as a `Bytes`, so both forms have the same size.
const _: () = prove!(size_of::<InPlace>() <= 24);
