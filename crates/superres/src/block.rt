// A block of columns, row after row, and the blocks of a plane.
ghost use Rattle.std.specs.Prelude.{◌≡◌, ◌+◌, ◌*◌, ◌-◌, ◌≤◌, ◌<◌, pos, length, get_or};
ghost use Rattle.laws.specs.Runs.{stamp};
ghost use Rattle.laws.specs.Paint.{paint};
ghost use Rattle.laws.specs.Lists.{plane};
ghost use Rattle.superres.specs.Scaled.{scaled, Fit, Ready, Laid};

use super::positions::places;
use super::row::{edged, settle, sums};
use super::taps::{lay, table};

// A plane's numbers: rows of `cols` samples in, of `width` out; `last` is the last column that is read.
#[derive(Clone, Copy)]
pub struct Plan {
    pub start: usize,
    pub step: usize,
    pub last: usize,
    pub cols: usize,
    pub rows: usize,
    pub width: usize,
    pub top: u32,
}

// A plane that is read: its samples, and its numbers.
#[derive(Clone, Copy)]
pub struct Source<'a> {
    pub src: &'a [i32],
    pub p: Plan,
    ghost fit: { Fit p.start p.step p.last p.cols p.rows p.width p.top src.now (p.rows * p.width) },
}

// The taps of the table, row after row.
#[derive(Clone, Copy)]
pub struct Table<'a> {
    pub t: &'a [i16],
    ghost laid: { Laid t.now },
}

// n columns from x0 on, which read `need` samples from place q0 on.
#[derive(Clone, Copy)]
pub struct Part {
    pub x0: usize,
    pub n: usize,
    pub q0: usize,
    pub need: usize,
}

// A part of a plane, with the place and the tap row of each of its columns.
#[derive(Clone, Copy)]
pub struct Columns<'a> {
    pub s: Source<'a>,
    pub b: Part,
    pub ps: &'a [u16],
    pub fs: &'a [u16],
    pub taps: Table<'a>,
    ghost inside: { b.x0 + b.n ≤ s.p.width },
    ghost ready: { Ready s.p.start s.p.step b.x0 b.n b.q0 b.need ps.now fs.now },
}

// One row of a block.
fn block_row(out: &mut [i32], k: &Columns, y: usize, r: &mut [i16], line: &mut [i32])
    requires y_lt_rows { (y < k.now.s.p.rows) × (length r.old ≡ 1040) × (length line.old ≡ 1024) }
    requires room { k.now.s.p.rows * k.now.s.p.width ≤ length out.old }
    ensures { out.new ≡ stamp (λ x. scaled k.now.s.p.top k.now.s.p.start k.now.s.p.step k.now.s.p.last (λ c. get_or k.now.s.src.now (y * k.now.s.p.cols + c) (pos 0)) (k.now.b.x0 + x)) (y * k.now.s.p.width + k.now.b.x0) k.now.b.n out.old }
{
    let p = k.s.p;
    let b = k.b;
    edged(r, k.s.src, y * p.cols, b, p.last);
    sums(line, b.n, r, k.ps, k.fs, k.taps.t);
    settle(out, y * p.width + b.x0, line, b.n, p.top);
}

fn block_rows(out: &mut [i32], k: &Columns, r: &mut [i16], line: &mut [i32])
    requires n_bound { (length r.old ≡ 1040) × (length line.old ≡ 1024) }
    requires room { k.now.s.p.rows * k.now.s.p.width ≤ length out.old }
    ensures { out.new ≡ paint k.now.b.x0 0 k.now.b.n k.now.s.p.rows k.now.s.p.width (λ y. scaled k.now.s.p.top k.now.s.p.start k.now.s.p.step k.now.s.p.last (λ c. get_or k.now.s.src.now (y * k.now.s.p.cols + c) (pos 0))) out.old }
{
    for y in 0..k.s.p.rows {
        block_row(out, k, y, r, line);
    }
}

// n columns from x0 on, all rows: places and tap rows once, then row after row.
fn block(out: &mut [i32], s: &Source, taps: &Table, x0: usize, n: usize)
    requires le_n { (1 ≤ n) × (n ≤ 1024) × (x0 + n ≤ s.now.p.width) }
    requires room { s.now.p.rows * s.now.p.width ≤ length out.old }
    ensures { out.new ≡ paint x0 0 n s.now.p.rows s.now.p.width (λ y. scaled s.now.p.top s.now.p.start s.now.p.step s.now.p.last (λ c. get_or s.now.src.now (y * s.now.p.cols + c) (pos 0))) out.old }
{
    let mut ps = [0u16; 1024];
    let mut fs = [0u16; 1024];
    let mut r = [0i16; 1040];
    let mut line = [0i32; 1024];
    let p = s.p;
    places(&mut ps, &mut fs, p, x0, n);
    let q0 = (p.start + x0 * p.step) / 16384;
    let need = (p.start + (x0 + n - 1) * p.step) / 16384 - q0 + 8;
    let b = Part { x0, n, q0, need };
    let k = Columns {
        s: *s,
        b,
        ps: &ps,
        fs: &fs,
        taps: *taps,
    };
    block_rows(out, &k, &mut r, &mut line);
}

// Blocks of 1024 columns: their tables stay near, and are made once for all rows.
fn blocks(out: &mut [i32], s: &Source, taps: &Table)
    requires { length out.old ≡ s.now.p.rows * s.now.p.width }
    ensures { out.new ≡ plane (λ y. scaled s.now.p.top s.now.p.start s.now.p.step s.now.p.last (λ c. get_or s.now.src.now (y * s.now.p.cols + c) (pos 0))) s.now.p.width s.now.p.rows }
{
    for k in 0..s.p.width.div_ceil(1024) {
        block(out, s, taps, k * 1024, (s.p.width - k * 1024).min(1024));
    }
}

pub fn scale(out: &mut [i32], s: &Source)
    requires out_len { length out.old ≡ s.now.p.rows * s.now.p.width }
    ensures { out.new ≡ plane (λ y. scaled s.now.p.top s.now.p.start s.now.p.step s.now.p.last (λ c. get_or s.now.src.now (y * s.now.p.cols + c) (pos 0))) s.now.p.width s.now.p.rows }
{
    let tab = table();
    let mut t = [0i16; 512];
    lay(&mut t, &tab);
    blocks(out, s, &Table { t: &t });
}
