// The limits of documents 01 and 02 that the code compares with, by the names and numbers of `specs/Limits.antt`.
#![tactic(auto)]

// The longest tick, in 64ths of a minute.
pub const LONGEST_TICK: u16 = 64;

// The highest speed, in 64ths of a nautical mile a minute.
pub const FASTEST: u16 = 512;

// The desks that share the field, numbered from 1.
pub const DESKS: u16 = 2;

// The longest leg of a practice file, in 64ths of a mile.
pub const LONGEST_LEG: u16 = 4096;

// The same length in miles, as a field holds it.
pub const LONGEST_LEG_MILES: f64 = 64.0;

// The longest leg of an aircraft's own, in miles.
pub const LONGEST_OWN_LEG_MILES: f64 = 128.0;

// The most requests of a practice file.
pub const MOST_REQUESTS: usize = 4096;

// The longest body 2 of a practice file, in bytes: six for each request.
pub const LONGEST_BODY: u32 = 6 * 4096;

// The longest practice file, in bytes.
pub const LONGEST_FILE: usize = 34 + 6 * MOST_REQUESTS;

// How many fields are kept at most.
pub const MOST_KEPT: usize = 8;

// The most miles past the ends of legs that are added up of an aircraft.
pub const MOST_WAITED: f64 = 4096.0;

// The most moves without an entry or a missed approach between them.
pub const MOST_MOVES: usize = 27;

// The most ticks of the longest kind after which every leg is flown out.
pub const MOST_TICKS: usize = 8192;

// The presses by which the button empties every field that requests reach.
pub const MOST_PRESSES: usize = MOST_MOVES * (MOST_TICKS + 1);
