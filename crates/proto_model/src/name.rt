//! Names of a protocol file.

ghost use Rattle.std.specs.Prelude.{◌≡◌, IfOk};
ghost use Rattle.proto_model.specs.Tokens.{AllWord};

use rv_base::NoMemory;
use std::alloc::Global;
use std::marker::Model;

/// The name of a protocol, message, variable or state. Contracts see it as its list of bytes, each
/// of which is an ASCII letter, a digit or `_`.
#[derive(Debug, Drop)]
pub struct Name {
    text: Vec<u8>,
}

impl Model for Name {
    ghost use Rattle.std.specs.Prelude.{ℕ, List};
    ghost use Rattle.std.specs.Coded.{coded_list, coded_ℕ};
    ghost use Rattle.proto_model.specs.Tokens.{AllWord};

    ghost Value = { List ℕ };

    ghost coded = { coded_list coded_ℕ };

    ghost view = { λ n. n.text.items };

    ghost invariant = { λ n. AllWord n.text.items };
}

impl Name {
    /// The name with these bytes, each of which is an ASCII letter, a digit or `_`.
    pub fn new(alloc: Global, bytes: &[u8]) -> Result<Name, NoMemory>
        requires { AllWord bytes.now }
        ensures { IfOk result (λ n. n ≡ bytes.now) }
    {
        let text = Vec::from_slice(alloc, bytes)?;
        Ok(Name { text })
    }

    /// An equal name in memory of its own.
    pub fn copy(&self, alloc: Global) -> Result<Name, NoMemory>
        ensures { IfOk result (λ copy. copy ≡ self.now) }
    {
        Name::new(alloc, self.bytes())
    }

    /// The bytes of the name.
    pub fn bytes(&self) -> &[u8]
        ensures value { result.now ≡ self.now }
        ensures word { AllWord self.now }
    {
        self.text.as_slice()
    }
}
