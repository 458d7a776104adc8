// A practice file played from the empty field: the answers to its requests, written into a lent log of numbers.
#![tactic(auto)]

ghost use Rattle.std.specs.Prelude.{◌≡◌, ◌++◌, ◌+◌, ◌*◌, ◌≤◌, ◌<◌, T, length, drop};
ghost use Rattle.std.proofs.lemmas.List.Edits.{sets};
ghost use Rattle.limits.specs.Limits.{most_requests};
ghost use Rattle.practice.specs.Requests.{requests_of};
ghost use Rattle.field.specs.Airspace.{empty_field};
ghost use Rattle.fits.specs.Fits.{legal_legs};
ghost use Rattle.playing.specs.Playing.{legs_in_miles, no_legs, answers_from, present_from, field_from, answers_of, played_of};
ghost use Rattle.playing.specs.Log.{log_entry, log_of};
ghost use Rattle.playing.specs.Asked.{MayBeAsked, IsTheStep};

use field::airspace::empty_field;
use field::{Field, Legs};
use finder::Indexed;
use indexed::{SteppedIndexed, step_indexed, step_indexed_unjudged, with_index};
use leg::of_sixty_fourths;
use practice::{FileLegs, check_file, file_legs, request_at};
use questions::counts::present_on;
use request::Request;
use rules::Answer;

// The caller's log, long enough for the requests of every file.
pub type Log = [u16; 28672];

// What playing a file tells beside the log: the file's number, how many requests were played, how many aircraft are present at the end, and
// the field at the end.
#[derive(Clone, Copy)]
pub struct Played {
    pub number: u16,
    pub requests: usize,
    pub present: usize,
    pub field: Field,
}

// The legs of a file as the field holds them.
pub fn legs_in_miles(legs: FileLegs) -> Legs
    ensures { result ≡ legs_in_miles legs }
{
    Legs {
        missed: of_sixty_fourths(legs.missed),
        base: of_sixty_fourths(legs.base),
        intermediate: of_sixty_fourths(legs.intermediate),
        final_approach: of_sixty_fourths(legs.final_approach),
    }
}

// Writes what the log holds of a request and its answer, from a place on.
fn put_entry(log: &mut [u16], at: usize, r: Request, a: Answer)
    requires at_in_bounds { at + 7 ≤ length log.old }
    requires zone_bound { a.zone < 65536 }
    ensures { log.new ≡ sets log.old at (log_entry (r, a)) }
{
    log[at] = r.kind as u16;
    log[at + 1] = a.number;
    log[at + 2] = a.aircraft;
    log[at + 3] = a.zone as u16;
    log[at + 4] = a.fix as u16;
    log[at + 5] = a.leader;
    log[at + 6] = a.along;
}

// Plays the requests of a body from the empty field into the log, each by a step that is asked only where neither 10 nor 25 is answered.
// From an empty field with legal legs that is so at every request. Two fields take turns, each with its index: the one before a request
// and the one after it.
fn play_body<S: Fn(Indexed, Request) -> SteppedIndexed>(
    body: &[u8],
    legs: Legs,
    step: S,
    log: &mut [u16],
) -> Played
    requires body_len_bound { (length (requests_of body.now) ≤ most_requests) × (7 * most_requests ≤ length log.old) }
    requires t { T (legal_legs legs) }
    requires callable { MayBeAsked (S.pre step) }
    requires steps { IsTheStep (S.post step) }
    ensures value { result ≡ record {
      number = 0;
      requests = length (requests_of body.now);
      present = present_from legs (requests_of body.now);
      field = field_from legs (requests_of body.now);
    } }
    ensures log_after { log.new ≡ sets log.old 0 (log_of (answers_from legs (requests_of body.now))) }
{
    let empty = with_index(empty_field(legs));
    let mut fields = [empty; 2];
    let mut i = 0;
    while let Some(r) = request_at(body, i) {
        let x = fields[i % 2];
        let s = step(x, r);
        let a = s.answer;
        put_entry(log, 7 * i, r, a);
        let next = s.after;
        i += 1;
        fields[i % 2] = next;
    }
    let reached = fields[i % 2];
    let last = reached.field;
    Played {
        number: 0,
        requests: i,
        present: present_on(last),
        field: last,
    }
}

// What playing a refused file tells.
fn nothing_played(number: u16) -> Played
    ensures { result ≡ record { number = number; requests = 0; present = 0; field = empty_field (legs_in_miles no_legs) } }
{
    let legs = FileLegs {
        missed: 0,
        base: 0,
        intermediate: 0,
        final_approach: 0,
    };
    Played {
        number,
        requests: 0,
        present: 0,
        field: empty_field(legs_in_miles(legs)),
    }
}

// Plays a practice file into the log by a step that is asked as in `play_body`. A refused file plays nothing.
fn play_by<S: Fn(Indexed, Request) -> SteppedIndexed>(file: &[u8], step: S, log: &mut Log) -> Played
    requires callable { MayBeAsked (S.pre step) }
    requires steps { IsTheStep (S.post step) }
    ensures value { result ≡ played_of file.now }
    ensures log_after { log.new ≡ log_of (answers_of file.now) ++ drop (7 * result.requests) log.old }
{
    let numbers: &mut [u16] = log;
    if let Err(refusal) = check_file(file) {
        return nothing_played(refusal.number());
    }
    play_body(&file[34..], legs_in_miles(file_legs(file)), step, numbers)
}

// Plays a practice file into the log, with no field judged. A refused file plays nothing.
pub fn play(file: &[u8], log: &mut Log) -> Played
    ensures value { result ≡ played_of file.now }
    ensures log_after { log.new ≡ log_of (answers_of file.now) ++ drop (7 * result.requests) log.old }
{
    play_by(file, step_indexed_unjudged, log)
}

// The same, with the field and its index judged before each request, and the field after it.
pub fn play_judged(file: &[u8], log: &mut Log) -> Played
    ensures value { result ≡ played_of file.now }
    ensures log_after { log.new ≡ log_of (answers_of file.now) ++ drop (7 * result.requests) log.old }
{
    play_by(file, step_indexed, log)
}
