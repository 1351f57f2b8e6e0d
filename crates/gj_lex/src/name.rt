//! Names of variables and of columns.

ghost use Rattle.std.specs.Prelude.{◌≡◌, ◌↔◌, IfOk, OnOk, IsErrOf, IsTrue};
ghost use Rattle.gj_lex.specs.Name.{IsName, IsNameByte};
ghost use Rattle.gj_lex.specs.declared.name.NameFault.TheVariants.{Memory};

use smallvec::SmallVec;
use std::alloc::{AllocError, Global};
use std::marker::Model;
use thiserror::Error;

/// The greatest length of a name.
const LONGEST: usize = 255;

/// So many bytes stand in the name itself; a longer name takes memory.
const INLINE: usize = 16;

/// A name: 1 to 255 visible ASCII bytes, none of them a `"`. Contracts see it as its list of bytes.
#[derive(Debug, Drop)]
pub struct Name {
    bytes: SmallVec<u8, INLINE>,
}

impl Model for Name {
    ghost use Rattle.std.specs.Prelude.{List, ℕ};
    ghost use Rattle.gj_lex.specs.Name.{IsName};

    ghost Value = { List ℕ };

    ghost view = { λ name. name.bytes.items };

    ghost invariant = { λ name. IsName name.bytes.items };
}

/// Why bytes were not made a name.
#[derive(Clone, Copy, Debug, PartialEq, Eq, Error)]
pub enum NameFault {
    /// The bytes are no name: none or more than 255, or one is not visible ASCII or is a `"`.
    #[error("not a name")]
    Form,
    /// There was no memory for the name.
    #[error("out of memory")]
    Memory(AllocError),
}

impl From<AllocError> for NameFault {
    ghost from_gives = { λ error fault. fault ≡ Memory error };

    fn from(error: AllocError) -> NameFault {
        NameFault::Memory(error)
    }
}

impl Name {
    /// The name of these bytes.
    ///
    /// `Form` comes exactly if the bytes are no name, and before any memory is taken.
    pub fn new(alloc: Global, bytes: &[u8]) -> Result<Name, NameFault>
        ensures name { IfOk result (λ name. name ≡ bytes.now) }
        ensures valid { OnOk result (IsName bytes.now) }
        ensures form { IsErrOf result NameFault.Form ↔ ¬ IsName bytes.now }
    {
        if !is_name(bytes) {
            return Err(NameFault::Form);
        }
        let bytes = SmallVec::from_slice(alloc, bytes)?;
        Ok(Name { bytes })
    }

    /// The bytes of the name: 1 to 255, each visible ASCII and none a `"`. It takes no memory.
    pub fn bytes(&self) -> &[u8]
        ensures value { result.now ≡ self.now }
        ensures name { IsName self.now }
    {
        self.bytes.as_slice()
    }

    /// An equal name.
    pub fn copy(&self, alloc: Global) -> Result<Name, AllocError>
        ensures { IfOk result (λ name. name ≡ self.now) }
    {
        let bytes = SmallVec::from_slice(alloc, self.bytes.as_slice())?;
        Ok(Name { bytes })
    }
}

/// Whether the bytes are a name.
fn is_name(bytes: &[u8]) -> bool
    ensures { IsTrue result ↔ IsName bytes.now }
{
    !bytes.is_empty()
        && bytes.len() <= LONGEST
        && bytes
            .iter()
            .all(|byte| byte.is_ascii_graphic() && *byte != b'"')
}
