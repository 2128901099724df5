//! The names of goods.
ghost use Rattle.std.specs.Prelude.{◌≡◌, ℕ, List};
ghost use Rattle.rp_table.specs.Names.{IsName};

use std::marker::Model;

/// The name of a good: 1 to `NAME_BYTES` bytes, each at least 0x20. It need not be text.
#[derive(Debug, Drop)]
pub struct Name {
    bytes: Vec<u8>,
}

impl Model for Name {
    ghost Value = { List ℕ };

    ghost view = { λ n. n.bytes.items };

    ghost invariant = { λ n. IsName n.bytes.items };
}

impl Name {
    /// Takes the bytes over; no memory is taken.
    pub fn new(bytes: Vec<u8>) -> Name
        requires { IsName bytes.items }
        ensures { result ≡ bytes.items }
    {
        Name { bytes }
    }

    /// The bytes as they were given.
    pub fn as_bytes(&self) -> &[u8]
        ensures bytes { result.now ≡ self.now }
        ensures valid { IsName self.now }
    {
        self.bytes.as_slice()
    }
}
