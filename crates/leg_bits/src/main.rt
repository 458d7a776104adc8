// Writes a line for each of some combinations of leg, speed, miles at the start and four tick amounts:
// the leg, the speed, the start and the miles waited before, then each amount with the miles after that tick, those past the leg's end and the
// miles waited, then 1 where the leg is flown out, else 0. Then a line for each of some misses: the missed leg, the leg of final, the miles
// flown of it, and the leg ahead.
// Miles are the 16 hexadecimal digits of the `f64`'s bit pattern, other numbers decimal. Where the start is not within the leg there is no line.
#![tactic(auto)]

ghost use Rattle.std.specs.Prelude.{◌<◌};

use leg::Progress;
use std::io;

// Speeds, in 64ths of a mile a minute.
const SPEEDS: [u16; 12] = [1, 2, 3, 63, 64, 65, 127, 255, 256, 333, 511, 512];

// Tick amounts, in 64ths of a minute: each of these four times over, or the four mixed ones.
const AMOUNTS: [u16; 6] = [1, 2, 3, 31, 63, 64];

const MIXED: [u16; 4] = [64, 1, 31, 3];

// The legs, in miles: six of whole 64ths, and seven off them. Whether 0.1 and four ticks fly the last two out hangs on the rounding.
fn length_of(i: usize) -> f64 {
    match i {
        0 => leg::of_sixty_fourths(1),
        1 => leg::of_sixty_fourths(63),
        2 => leg::of_sixty_fourths(64),
        3 => leg::of_sixty_fourths(100),
        4 => leg::of_sixty_fourths(4095),
        5 => leg::of_sixty_fourths(4096),
        6 => 0.015625000000000003,
        7 => 0.1,
        8 => 0.3333333333333333,
        9 => 2.7182818284590451,
        10 => 63.99999999999999,
        11 => 32.1,
        _ => 7.8500000000000005,
    }
}

// The miles at the start: 0, three off the grid of 4096ths (the last just above 2 ^ -53), just below the leg (2 ^ -53 of it less), and the leg.
fn start_of(i: usize, length: f64) -> f64 {
    match i {
        0 => 0.0,
        1 => 0.1,
        2 => 1e-9,
        3 => 1.1102230246251568e-16,
        4 => length - length * 1.1102230246251565e-16,
        _ => length,
    }
}

// The miles waited before: 0, some off the grid of 4096ths, and some that the ticks take to the most.
fn waited_of(i: usize) -> f64 {
    match i {
        0 => 0.0,
        1 => 0.1,
        _ => 4090.7,
    }
}

// The amount of tick j of list number `list`.
fn amount_of(list: usize, j: usize) -> u16
    requires { j < 4 }
{
    if list < 6 { AMOUNTS[list] } else { MIXED[j] }
}

// Writes miles as the 16 hexadecimal digits of their bit pattern.
fn print_miles(rt: &impl Print, miles: f64) -> io::Result<()> {
    if miles.is_nan() {
        print!(rt; "NaN")
    } else {
        print!(rt; "{:016x}", miles.to_bits())
    }
}

// Writes a space, and miles.
fn print_next(rt: &impl Print, miles: f64) -> io::Result<()> {
    print!(rt; " ")?;
    print_miles(rt, miles)
}

// Writes a tick amount, the miles after that tick, those past the end and the miles waited.
fn print_tick(rt: &impl Print, amount: u16, miles: f64, past: f64, waited: f64) -> io::Result<()> {
    print!(rt; " {amount}")?;
    print_next(rt, miles)?;
    print_next(rt, past)?;
    print_next(rt, waited)
}

// Writes the four ticks of one list of amounts, and yields the miles after them.
fn ticks(
    rt: &impl Print,
    start: f64,
    before: f64,
    speed: u16,
    list: usize,
    length: f64,
) -> io::Result<f64> {
    let mut miles = start;
    let mut waited = before;
    for j in 0..4 {
        let amount = amount_of(list, j);
        let after = leg::advance(miles, speed, amount, length);
        miles = after.miles;
        waited = leg::waited_after(waited, after.past);
        print_tick(rt, amount, miles, after.past, waited)?;
    }
    Ok(miles)
}

// Writes the line of one combination.
fn line(
    rt: &impl Print,
    length: f64,
    speed: u16,
    start: f64,
    before: f64,
    list: usize,
) -> io::Result<()> {
    print_miles(rt, length)?;
    print!(rt; " {speed}")?;
    print_next(rt, start)?;
    print_next(rt, before)?;
    let end = ticks(rt, start, before, speed, list, length)?;
    let flown_out = leg::flown_out(Progress::Flying(end), length);
    println!(rt; " {}", u8::from(flown_out))
}

// Writes the line of combination i: the start changes first, then the speed, then the leg. The tick amounts and the miles waited before change with each.
fn combination(rt: &impl Print, i: usize) -> io::Result<()> {
    let length = length_of(i / 72);
    let speed = SPEEDS[i / 6 % 12];
    let start = start_of(i % 6, length);
    if leg::within(Progress::Flying(start), length) {
        line(rt, length, speed, start, waited_of(i % 3), i % 7)?;
    }
    Ok(())
}

// Writes the line of miss i: the miles flown change first, then the leg of final, then the missed leg.
fn miss(rt: &impl Print, i: usize) -> io::Result<()> {
    let missed = length_of(i / 78);
    let final_leg = length_of(i / 6 % 13);
    let p = Progress::Flying(start_of(i % 6, final_leg));
    if leg::within(p, final_leg) {
        print_miles(rt, missed)?;
        print_next(rt, final_leg)?;
        print_next(rt, start_of(i % 6, final_leg))?;
        print_next(rt, leg::leg_after_miss(missed, p, final_leg))?;
        println!(rt)?;
    }
    Ok(())
}

// Writes the lines of all combinations of ticks.
fn combinations(rt: &impl Print) -> io::Result<()> {
    for i in 0..936 {
        combination(rt, i)?;
    }
    Ok(())
}

// Writes the lines of all misses.
fn misses(rt: &impl Print) -> io::Result<()> {
    for i in 0..1014 {
        miss(rt, i)?;
    }
    Ok(())
}

// Writes all lines.
fn main(rt: HostRuntime) -> io::Result<()> {
    combinations(&rt)?;
    misses(&rt)
}
