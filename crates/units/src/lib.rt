// A unit table: the legality of an entry and of the table, and from ten numbers to the unit and back.
#![tactic(auto)]

ghost use Rattle.std.specs.Prelude.{◌≡◌, ◌+◌, ◌*◌, ◌≤◌, ◌<◌, T, length};
ghost use Rattle.standard.specs.declared.Kind.{Kind};
ghost use Rattle.standard.specs.Units as units;
ghost use Rattle.units.specs.Legal.{LegalWeights, LegalKind};
ghost use Rattle.units.specs.Entry.{taps_of, weights_of, entry_of};
ghost use Rattle.units.specs.First.{first_illegal};

use standard::{Kind, Taps, Unit, Weights};

pub mod samples;

// The three coefficients of one direction. Today each plane has the same ranges.
#[tactic(auto, unfolding(standard::specs::Units::legal_taps))]
pub fn legal_taps(plane: u32, c0: i32, c1: i32, c2: i32) -> bool
    ensures { result ≡ units.legal_taps plane c0 c1 c2 }
{
    (-5..=10).contains(&c0) && (-23..=8).contains(&c1) && (-17..=46).contains(&c2)
}

#[tactic(auto, unfolding(standard::specs::Units::legal_weights))]
pub fn legal_weights(w0: i32, w1: i32) -> bool
    ensures { result ≡ units.legal_weights w0 w1 }
{
    (-96..=31).contains(&w0) && (-32..=95).contains(&w1)
}

// Number k of entry e.
#[tactic(auto, unfolding(standard::specs::Units::field))]
pub fn field(t: &[i32], e: usize, k: usize) -> i32
    requires { 10 * e + k < length t.now }
    ensures { result ≡ units.field t.now e k }
{
    t[10 * e + k]
}

#[tactic(auto, unfolding(standard::specs::Units::legal_wiener))]
pub fn legal_wiener(plane: u32, t: &[i32], e: usize) -> bool
    requires { 10 * e + 10 ≤ length t.now }
    ensures { result ≡ units.legal_wiener plane t.now e }
{
    legal_taps(plane, field(t, e, 1), field(t, e, 2), field(t, e, 3))
        && legal_taps(plane, field(t, e, 4), field(t, e, 5), field(t, e, 6))
}

#[tactic(auto, unfolding(standard::specs::Units::legal_guided))]
pub fn legal_guided(t: &[i32], e: usize) -> bool
    requires { 10 * e + 10 ≤ length t.now }
    ensures { result ≡ units.legal_guided t.now e }
{
    (0..=15).contains(&field(t, e, 7)) && legal_weights(field(t, e, 8), field(t, e, 9))
}

// A number that the type does not use is not looked at.
#[tactic(auto, unfolding(standard::specs::Units::legal_entry, standard::specs::Units::is_type))]
pub fn legal_entry(plane: u32, t: &[i32], e: usize) -> bool
    requires { 10 * e + 10 ≤ length t.now }
    ensures { result ≡ units.legal_entry plane t.now e }
{
    match field(t, e, 0) {
        0 => true,
        1 => legal_wiener(plane, t, e),
        2 => legal_guided(t, e),
        _ => false,
    }
}

// The first entry that is not legal, or the number of entries. Stays a number: its promise is an equation with `first_illegal` of specs.
pub fn first_illegal(plane: u32, t: &[i32]) -> usize
    ensures { result ≡ first_illegal plane t.now }
{
    let n = t.len() / 10;
    for e in 0..n {
        if !legal_entry(plane, t, e) {
            return e;
        }
    }
    n
}

pub fn taps_at(t: &[i32], e: usize) -> Taps
    requires { 10 * e + 10 ≤ length t.now }
    ensures { result ≡ taps_of t.now e }
{
    Taps {
        v0: field(t, e, 1),
        v1: field(t, e, 2),
        v2: field(t, e, 3),
        h0: field(t, e, 4),
        h1: field(t, e, 5),
        h2: field(t, e, 6),
    }
}

pub fn weights_at(t: &[i32], e: usize) -> Weights
    requires e_in_bounds { 10 * e + 10 ≤ length t.now }
    requires t { T (units.legal_guided t.now e) }
    ensures { result ≡ weights_of t.now e }
{
    Weights {
        set: field(t, e, 7) as u32,
        w0: field(t, e, 8),
        w1: field(t, e, 9),
    }
}

// The unit of a legal entry: its kind takes only its own numbers.
#[tactic(auto, unfolding(standard::specs::Units::kind_of, standard::specs::Units::legal_entry, standard::specs::Units::is_type))]
pub fn unit_at(plane: u32, t: &[i32], e: usize) -> Unit
    requires e_in_bounds { 10 * e + 10 ≤ length t.now }
    requires t { T (units.legal_entry plane t.now e) }
    ensures { result.kind ≡ units.kind_of t.now e }
{
    let kind = match field(t, e, 0) {
        1 => Kind::Wiener(taps_at(t, e)),
        2 => Kind::SelfGuided(weights_at(t, e)),
        _ => Kind::None,
    };
    Unit { kind }
}

#[tactic(auto, unfolding(crate::specs::Entry::entry_of))]
pub fn wiener_entry(t: Taps) -> [i32; 10]
    ensures { result ≡ entry_of (Kind.Wiener t) }
{
    [1, t.v0, t.v1, t.v2, t.h0, t.h1, t.h2, 0, 0, 0]
}

#[tactic(auto, unfolding(crate::specs::Entry::entry_of))]
pub fn guided_entry(s: Weights) -> [i32; 10]
    requires { LegalWeights s }
    ensures { result ≡ entry_of (Kind.SelfGuided s) }
{
    [2, 0, 0, 0, 0, 0, 0, s.set as i32, s.w0, s.w1]
}

// The way back: ten numbers of a legal unit.
#[tactic(auto, unfolding(crate::specs::Entry::entry_of))]
pub fn entry_of(u: Unit) -> [i32; 10]
    requires { LegalKind u.kind }
    ensures { result ≡ entry_of u.kind }
{
    match u.kind {
        Kind::None => [0, 0, 0, 0, 0, 0, 0, 0, 0, 0],
        Kind::Wiener(t) => wiener_entry(t),
        Kind::SelfGuided(s) => guided_entry(s),
    }
}
