//! The names of a sheet as one text.

ghost use Rattle.std.specs.Prelude.{◌≡◌, ◌+◌, ◌^◌, ◌<◌, ◌≤◌, [], ◌∷◌, ◌++◌, length, IfOk, OnOk};
ghost use Rattle.cut_model.specs.declared.network.TheConstants.{MOST_ROUTERS};
ghost use Rattle.network_text.specs.NameTexts.{IsTextOf};

use crate::name::Name;
use cut_model::NoMemory;
use std::alloc::Global;
use text_forms::MOST_NAME_BYTES;

/// Names one behind the other, each with a blank before it, and where each begins; the last place is where
/// the text ends. Of `a` and `b2` the bytes are ` a b2`, and the places 0, 2 and 5.
#[derive(Drop)]
pub(crate) struct NameText {
    pub(crate) bytes: Vec<u8>,
    pub(crate) begins: Vec<u32>,
}

impl NameText {
    /// The text of these names, in their order. It takes room for 37 bytes a name and 4 for
    /// the last place, at once.
    ///
    /// # Errors
    /// [`NoMemory`] where memory was wanted.
    pub(crate) fn make(alloc: Global, names: &[Name]) -> Result<NameText, NoMemory>
        requires { length names.now ≤ MOST_ROUTERS }
        ensures { IfOk result (λ text. IsTextOf names.now text.bytes.items text.begins.items) }
    {
        let mut text = NameText {
            bytes: Vec::with_capacity(alloc, names.len() * (1 + MOST_NAME_BYTES))?,
            begins: Vec::with_capacity(alloc, names.len() + 1)?,
        };
        text.begins.push(0)?;
        for name in names {
            text.add(name)?;
        }
        Ok(text)
    }

    /// Puts a blank and a name behind the others, at most 33 bytes.
    ///
    /// # Errors
    /// [`NoMemory`] where memory was wanted. What was put of it means nothing then.
    fn add(&mut self, name: &Name) -> Result<(), NoMemory>
        requires { length self.old.bytes.items < 2 ^ 31 }
        ensures bytes { OnOk result (self.new.bytes.items ≡ self.old.bytes.items ++ 32 ∷ name.now) }
        ensures begins { OnOk result
            (self.new.begins.items ≡ self.old.begins.items ++ length self.new.bytes.items ∷ []) }
        ensures few { OnOk result (length self.new.bytes.items ≤ length self.old.bytes.items + 33) }
    {
        self.bytes.push(b' ')?;
        self.bytes.extend_from_slice(name.as_bytes())?;
        self.begins.push(self.bytes.len() as u32)?;
        Ok(())
    }
}
