ghost use Rattle.std.specs.Prelude.{◌≡◌, IfOk, if◌then◌else◌};
ghost use Rattle.std.specs.List.{list_all};
ghost use Rattle.std.specs.declared.option.Option.TheVariants.{Some, None};
ghost use Rattle.vfs_base.specs.Name.{is_name, is_name_byte, IsName};

use crate::list::{Bytes, List};
use crate::no_memory::NoMemory;
use std::marker::Model;

/// The name of an entry in a folder: 1 to 255 bytes, none of them zero or a slash.
///
/// The bytes need not be text, and `.` and `..` are names like others here.
/// Names stand in the order of their bytes.
#[derive(Clone, Debug, Drop, PartialEq, Eq, PartialOrd, Ord)]
pub struct Name {
    bytes: Bytes,
}

impl Model for Name {
    ghost use Rattle.std.specs.Prelude.{ℕ, List};
    ghost use Rattle.vfs_base.specs.Name.{IsName};

    ghost Value = { List ℕ };

    ghost view = { λ name. name.bytes };

    ghost invariant = { λ name. IsName name.bytes };

    ghost inverse = { λ bytes. record { bytes = bytes } };
}

impl Name {
    /// The name that these bytes are, or `None` where they break the rule of names.
    pub fn from_bytes(bytes: Bytes) -> Option<Name>
        ensures { result ≡ if is_name bytes then Some bytes else None }
    {
        if is_name(bytes.as_slice()) {
            Some(Name { bytes })
        } else {
            None
        }
    }

    pub fn as_bytes(&self) -> &[u8]
        ensures value { result.now ≡ self.now }
        ensures is_name { IsName self.now }
    {
        self.bytes.as_slice()
    }

    /// The same name in memory of its own.
    pub fn copy(&self) -> Result<Name, NoMemory>
        ensures { IfOk result (λ name. name ≡ self.now) }
    {
        Ok(self.clone()?)
    }
}

fn is_name(bytes: &[u8]) -> bool
    ensures { result ≡ is_name bytes.now }
{
    matches!(bytes.len(), 1..=255) && are_name_bytes(bytes)
}

fn are_name_bytes(bytes: &[u8]) -> bool
    ensures { result ≡ list_all is_name_byte bytes.now }
{
    bytes.iter().all(|&byte| byte != 0 && byte != b'/')
}
