// What is recorded of a version.
ghost use Rattle.std.specs.Prelude.{◌≡◌, ◌-◌, ◌≤◌};
ghost use Rattle.archive.specs.Records.{kind_number, begun_record};

use nodes::Built;

/// How a version came about, by the kind byte that its record in a journal has: 0 for version 0, which begin makes.
#[derive(Clone, Copy, PartialEq, Eq, Debug, Default)]
pub enum Kind {
    #[default]
    Begun = 0,
    Insert = 2,
    Change = 3,
    Removal = 4,
}

// The same numbers for who casts a kind.
const _: () = prove!(Kind::Begun as u8 == 0);

const _: () = prove!(Kind::Insert as u8 == 2);

const _: () = prove!(Kind::Change as u8 == 3);

const _: () = prove!(Kind::Removal as u8 == 4);

impl Kind {
    /// The number of a kind of edit: its kind byte in a journal, and 0 for version 0.
    pub fn number(&self) -> u8
        ensures { result ≡ kind_number self.now }
    {
        *self as u8
    }
}

/// A version's record. What an edit does not have is 0; `Version::default()` is a record that no archive has written.
#[derive(Clone, Copy, PartialEq, Eq, Debug, Default)]
pub struct Version {
    pub parent: u32,
    pub edit: Kind,
    pub place: u32,
    pub level: u8,
    pub block: u32,
    pub root: u32,
    pub blocks: u32,
    pub readings: u32,
    pub written: u32,
}

// The record of version 0.
pub(crate) fn begun() -> Version
    ensures { result ≡ begun_record 0 }
{
    Version {
        written: 1,
        ..Version::default()
    }
}

impl Version {
    // The same record with what a walk built: its root, and how many nodes it wrote past those in use.
    pub(crate) fn walked(self, used: u32, built: Built) -> Version
        requires { used ≤ built.used }
        ensures { result ≡ record self { root = built.root; written = built.used - used } }
    {
        Version {
            root: built.root,
            written: built.used - used,
            ..self
        }
    }
}
