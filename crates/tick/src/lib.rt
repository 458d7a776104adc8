// A tick (document 01, kind 12; document 02, 2.2 and 2.7): everyone flying advances (specs/Tick.antt).
#![tactic(auto)]

ghost use Rattle.std.specs.Prelude.{◌≡◌};
ghost use Rattle.tick.specs.Tick.{ticked_aircraft, ticked_zone, ticked};

use field::{Aircraft, Field, Zone};
use leg::{Progress, advance, waited_after};

// An aircraft after a tick: one that flies advances along its own leg and adds the miles past the end to those waited; one that waits
// stays as it is.
pub fn ticked_aircraft(amount: u16, a: Aircraft) -> Aircraft
    ensures { result ≡ ticked_aircraft amount a }
{
    match a.progress {
        Progress::Waiting => a,
        Progress::Flying(miles) => {
            let after = advance(miles, a.speed, amount, a.leg);
            Aircraft {
                progress: Progress::Flying(after.miles),
                waited: waited_after(a.waited, after.past),
                ..a
            }
        }
    }
}

// A zone that is flown in after a tick.
pub fn ticked_zone(amount: u16, q: Zone) -> Zone
    ensures { result ≡ ticked_zone amount q }
{
    let mut after = q;
    for a in &mut after.aircraft {
        *a = ticked_aircraft(amount, *a);
    }
    after
}

// The field after a tick: one new field, in which the zones that are flown in, 7 to 12, are written.
pub fn ticked(f: Field, amount: u16) -> Field
    ensures { result ≡ ticked f amount }
{
    let mut after = f;
    for q in &mut after.zones[6..12] {
        *q = ticked_zone(amount, *q);
    }
    after
}
