//! Names as text.

ghost use Rattle.std.specs.Prelude.{◌≡◌};
ghost use Rattle.proto_model.specs.Tokens.{AllWord};

/// The bytes of a name, which are ASCII, as text.
pub(crate) fn name_text(name: &[u8]) -> &str
    requires { AllWord name.now }
    ensures { result.now ≡ name.now }
{
    std::str::from_utf8(name).unwrap()
}
