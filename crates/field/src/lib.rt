// The landing field: thirteen zones, the landing sequence, the next fix and the legs, by value.
#![tactic(auto)]

ghost use Rattle.std.specs.Prelude.{◌≡◌};
ghost use Rattle.field.specs.Airspace.{queue_of, order_of};

use leg::Progress;

pub mod airspace;
pub mod zones;

// An aircraft (01, "The boxes"): a number that is not 0; the side to which a miss leads it, its fix; its speed in 64ths of a mile a minute; and its progress.
// Document 02 adds the miles waited, those past the ends of its legs since it entered (2.2); its own leg, in miles (2.7); and its desk, the one that let it
// in (2.10), which stands beside the fix so that an aircraft is as long as before.
#[derive(Clone, Copy)]
pub struct Aircraft {
    pub number: u16,
    pub fix: u8,
    pub desk: u8,
    pub speed: u16,
    pub progress: Progress,
    pub waited: f64,
    pub leg: f64,
}

// A zone (01, "The boxes"): a queue in an array of four, and how many are in it. The head, who came first, has place 1 and stands at index 0 of `aircraft`,
// place 4 at index 3.
#[derive(Clone, Copy)]
pub struct Zone {
    pub aircraft: [Aircraft; 4],
    pub length: usize,
}

impl Zone {
    // Those in the zone, within its length and its four places: first who came first, the head.
    pub fn queue(&self) -> &[Aircraft]
        ensures { result.now ≡ queue_of self.now }
    {
        &self.aircraft[..self.length.min(4)]
    }
}

// The landing sequence (01, "The boxes"): the numbers of those in the operation area, first to land first, at index 0, and how many they are.
#[derive(Clone, Copy)]
pub struct Sequence {
    pub numbers: [u16; 4],
    pub length: usize,
}

impl Sequence {
    // The numbers within the length and the four places: first to land first.
    pub fn order(&self) -> &[u16]
        ensures { result.now ≡ order_of self.now }
    {
        &self.numbers[..self.length.min(4)]
    }
}

// The lengths of the legs in miles, the same for either side (01, "The boxes").
#[derive(Clone, Copy)]
pub struct Legs {
    pub missed: f64,
    pub base: f64,
    pub intermediate: f64,
    pub final_approach: f64,
}

// The field (01, "The boxes"). Zone 1 stands at index 0 of `zones`, zone 13 at index 12.
#[derive(Clone, Copy)]
pub struct Field {
    pub zones: [Zone; 13],
    pub sequence: Sequence,
    pub next: u8,
    pub legs: Legs,
}
