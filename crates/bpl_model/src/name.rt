// Names.
ghost use Rattle.std.specs.Prelude.{◌≡◌, IfOk, bytes_eq};

use std::alloc::{AllocError, Global};
use std::marker::Model;

/// A name; contracts see its bytes.
pub struct Name {
    pub text: String,
}

// Written out: a derived drop is proved again wherever a value is dropped.
impl Drop for Name {
    fn drop(self) {
        let Name { text } = self;
        drop(text);
    }
}

impl Model for Name {
    ghost use Rattle.std.specs.Prelude.{string_bytes};
    ghost use Rattle.bpl_model.specs.Module.{Name as name};
    ghost use Rattle.bpl_model.specs.Codes.{coded_name};

    ghost Value = { name };

    ghost coded = { coded_name };

    ghost view = { λ a. string_bytes a.text };
}

impl Name {
    /// The name's bytes.
    pub fn as_bytes(&self) -> &[u8]
        ensures { result.now ≡ self.now }
    {
        self.text.as_str().as_bytes()
    }

    /// Whether the two are one name.
    pub fn equals(&self, other: &Name) -> bool
        ensures { result ≡ bytes_eq self.now other.now }
    {
        self.as_bytes() == other.as_bytes()
    }

    /// An equal name.
    pub fn copy(&self, alloc: Global) -> Result<Name, AllocError>
        ensures { IfOk result (λ n. n ≡ self.now) }
    {
        Ok(Name {
            text: String::from_str(alloc, self.text.as_str())?,
        })
    }
}

/// Equal names.
pub fn copy_names(alloc: Global, names: &[Name]) -> Result<Vec<Name>, AllocError>
    ensures { IfOk result (λ v. v.items ≡ names.now) }
{
    let mut copies = Vec::new(alloc);
    for name in names {
        copies.push(name.copy(alloc)?)?;
    }
    Ok(copies)
}
