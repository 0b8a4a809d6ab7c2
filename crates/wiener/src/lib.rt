// The Wiener filter over a window: the horizontal pass by rows into scratch, then the vertical pass.
#![tactic(auto)]

pub mod taps; // taps.rt: the taps of three coefficients, repeated along rows
pub mod rounds; // rounds.rt: rounding and clip of a pass
pub mod sums; // sums.rt: the seven-tap sum of either pass, rounded and clipped
pub mod across; // across.rt: one row of the horizontal pass
pub mod down; // down.rt: one row of the vertical pass
pub mod window; // window.rt: both passes over a window

ghost use Rattle.wiener.specs.Mild.{Mild};

// What a pass does to a sum: add, shift right, clip.
#[derive(Clone, Copy)]
pub struct Rounding {
    pub add: i32,
    pub shift: u32,
    pub low: i32,
    pub high: i32,
    pub ghost mild: { Mild add shift low high },
}
