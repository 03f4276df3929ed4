// Looking through the table, and writing one entry of it.
ghost use Rattle.std.specs.Prelude.{◌≡◌, ◌≤◌, [], ◌∷◌, take};
ghost use Rattle.std.specs.List.{slice_get};
ghost use Rattle.sharing.specs.Remembering.{remembered};

use super::{Entry, Recent};

impl Recent {
    pub fn new() -> Recent
        ensures { remembered result ≡ [] }
    {
        Recent {
            entries: [Entry { block: 0 }; 32],
            next: 0,
            held: 0,
        }
    }

    /// The number that was remembered `age` rows before the newest.
    #[tactic(auto, using(crate::proofs::Turning::number_aged))]
    pub fn newest(&self, age: usize) -> Option<u32>
        ensures { result ≡ slice_get (remembered self.now) age }
    {
        if self.held <= age {
            return None;
        }
        let slot = (self.next + 31 - age) % 32;
        Some(self.entries[slot].block)
    }

    // Writes one entry, and keeps the newest `most`.
    fn write(&mut self, block: u32, most: usize)
        requires { (1 ≤ most) × (most ≤ 32) }
        ensures { remembered self.new ≡ take most (block ∷ remembered self.old) }
    {
        self.entries[self.next] = Entry { block };
        self.next = (self.next + 1) % 32;
        self.held = (self.held + 1).min(most);
    }

    /// Remembers a number, and forgets the oldest where there were 32.
    pub fn note(&mut self, block: u32)
        ensures { remembered self.new ≡ take 32 (block ∷ remembered self.old) }
    {
        self.write(block, 32);
    }
}
