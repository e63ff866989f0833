//! A network whose routers have names.

ghost use Rattle.std.specs.Prelude.{◌≡◌, ◌<◌, ◌≤◌, length, IfOk, Some, slice_get};
ghost use Rattle.std.specs.Arc.{arc_value};
ghost use Rattle.indexmap.specs.IndexSet.{IsUnique};
ghost use Rattle.network_text.specs.NameTexts.{blank_names_between};
ghost use Rattle.network_text.specs.Sheets.{IsSheet, number_of as router_named};
ghost use Rattle.text_forms.specs.declared.names.TheConstants.{MOST_NAME_BYTES};

use crate::name::Name;
use crate::name_text::NameText;
use cut_model::{Network, NoMemory};
use indexmap::IndexSet;
use std::alloc::Global;
use std::marker::Model;
use std::sync::Arc;

/// A network and the names of its routers. The names are kept to be found, and once more as a text, of
/// which stretches are written. Contracts see a `SheetView`.
#[derive(Drop)]
pub struct Sheet {
    net: Arc<Network>,
    names: IndexSet<Name>,
    text: NameText,
}

impl Model for Sheet {
    ghost use Rattle.std.specs.Arc.{arc_value};
    ghost use Rattle.network_text.specs.NameTexts.{IsNamed};
    ghost use Rattle.network_text.specs.Sheets.{SheetView};

    ghost Value = { SheetView };

    ghost view = { λ sheet. record { names = sheet.names.keys; net = arc_value sheet.net } };

    ghost invariant = { λ sheet.
        IsNamed sheet.names.keys (arc_value sheet.net) sheet.text.bytes.items sheet.text.begins.items };
}

impl Sheet {
    /// The sheet of a network and the names of its routers.
    ///
    /// # Errors
    /// [`NoMemory`] where memory was wanted.
    pub(crate) fn make(
        alloc: Global,
        net: Network,
        names: IndexSet<Name>,
    ) -> Result<Sheet, NoMemory>
        requires { IsSheet names.keys net }
        ensures { IfOk result (λ sheet. sheet ≡ record { names = names.keys; net = net }) }
    {
        let text = NameText::make(alloc, names.as_slice())?;
        let net = Arc::new(alloc, net)?;
        Ok(Sheet { net, names, text })
    }

    /// The network, to be shared by those that need it longer than the sheet. Behind `link a b 7` it has 2
    /// routers and the link between 0 and 1 of 7.
    #[inline]
    pub fn net(&self) -> &Arc<Network>
        ensures value { arc_value result.now ≡ self.now.net }
        ensures sheet { IsSheet self.now.names self.now.net }
    {
        &self.net
    }

    /// The number of the router with this name, below the network's number of routers; none exactly
    /// where no router has the name. One look-up, by a hash of the bytes of the name alone. Behind
    /// `link a b 7` that of `b` is `Some(1)`.
    pub fn number_of(&self, name: &[u8]) -> Option<u32>
        ensures { result ≡ router_named self.now.names name.now }
    {
        let names = &self.names;
        let name = Name::from_bytes(name)?;
        let number = names.get_index_of(&name)?;
        Some(number as u32)
    }

    /// The name of a router, 1 to [`MOST_NAME_BYTES`](text_forms::MOST_NAME_BYTES) bytes. Behind
    /// `link a b 7` that of router 1 is `b`.
    #[inline]
    pub fn name_of(&self, router: u32) -> &[u8]
        requires { router < length self.now.names }
        ensures value { slice_get self.now.names router ≡ Some result.now }
        ensures short { length result.now ≤ MOST_NAME_BYTES }
        ensures sheet { IsSheet self.now.names self.now.net }
    {
        // What the type keeps is known where one of its fields is looked at.
        let _names = &self.names;
        let name = self.names_between(router, router + 1);
        prove!(!name.is_empty());
        &name[1..]
    }

    /// The names of the routers from one number up to another one, which is left out, in number order and
    /// each with a blank before it: of a network of `a` and `b` those from 0 to 2 are ` a b`. Its cost is
    /// the same for any number of names.
    #[inline]
    pub fn names_between(&self, from: u32, to: u32) -> &[u8]
        requires order { from ≤ to }
        requires within { to ≤ length self.now.names }
        ensures value { result.now ≡ blank_names_between self.now.names from to }
        ensures sheet { IsSheet self.now.names self.now.net }
    {
        let bytes = self.text.bytes.as_slice();
        let begins = self.text.begins.as_slice();
        let begin = begins[from as usize] as usize;
        let end = begins[to as usize] as usize;
        prove!(begin <= end);
        prove!(end <= bytes.len());
        &bytes[begin..end]
    }
}
