// The types that definitions and code share, and the numbers of refusals. The meaning is in specs/.
#![tactic(auto)]

ghost use Rattle.std.specs.Prelude.{◌≡◌};
ghost use Rattle.standard.specs.Answers.{refusal_number, job_refusal_number};

// Bit depth 8, 10 or 12.
#[derive(Clone, Copy)]
pub enum Depth {
    Eight,
    Ten,
    Twelve,
}

// Three vertical, then three horizontal Wiener coefficients.
#[derive(Clone, Copy)]
pub struct Taps {
    pub v0: i32,
    pub v1: i32,
    pub v2: i32,
    pub h0: i32,
    pub h1: i32,
    pub h2: i32,
}

// The set of a self-guided unit and its two weights.
#[derive(Clone, Copy)]
pub struct Weights {
    pub set: u32,
    pub w0: i32,
    pub w1: i32,
}

// A kind carries only its own numbers.
#[derive(Clone, Copy)]
pub enum Kind {
    None,
    Wiener(Taps),
    SelfGuided(Weights),
}

#[derive(Clone, Copy)]
pub struct Unit {
    pub kind: Kind,
}

// The numbers of one plane's restoration, in the job's order, as they come: nothing here is known to be legal.
#[repr(C)]
#[derive(Clone, Copy)]
pub struct Frame {
    pub plane: u32,
    pub sub_x: u32,
    pub sub_y: u32,
    pub depth: u32,
    pub frame_height: u32,
    pub upscaled_width: u32,
    pub unit_size: u32,
    pub frame_type: u32,
}

// The numbers of one plane's upscaling, as they come. use_superres: 0 clear, else set.
#[repr(C)]
#[derive(Clone, Copy)]
pub struct Scaling {
    pub plane: u32,
    pub sub_x: u32,
    pub sub_y: u32,
    pub depth: u32,
    pub frame_width: u32,
    pub upscaled_width: u32,
    pub frame_height: u32,
    pub use_superres: u32,
    pub in_rows: u32,
    pub in_cols: u32,
    pub out_rows: u32,
    pub out_cols: u32,
}

#[derive(Clone, Copy, Default)]
pub struct Counts {
    pub unit_rows: u32,
    pub unit_cols: u32,
    pub stripes: u32,
    pub rectangles: u32,
}

// One stripe's part of one unit column, or one 4x4 luma block: the unit it names, its place and size, its stripe and the plane's ends.
#[derive(Clone, Copy, Default)]
pub struct Geometry {
    pub unit_row: u32,
    pub unit_col: u32,
    pub x: u32,
    pub y: u32,
    pub w: u32,
    pub h: u32,
    pub stripe_start_y: i32,
    pub stripe_end_y: i32,
    pub plane_end_x: i32,
    pub plane_end_y: i32,
}

// Why a call is refused: the sixteen numbers of the table, in its order.
#[derive(Clone, Copy)]
pub enum Refusal {
    BadDepth,
    BadPlane,
    BadFrameType,
    BadFrameSide,
    BadUnitSize,
    WidthShrinks,
    BadShape,
    NotWider,
    BadEdgeRows,
    BadUnitTable,
    BadUnit,
    BadMarks,
    BadIndex,
    AlreadyRestored,
    BadSample,
    ShortScratch,
}

impl From<Refusal> for u32 {
    ghost from_gives = { λ why n. n ≡ refusal_number why };

    #[tactic(auto, unfolding(crate::specs::Answers::refusal_number))]
    fn from(why: Refusal) -> u32 {
        match why {
            Refusal::BadDepth => 1,
            Refusal::BadPlane => 2,
            Refusal::BadFrameType => 3,
            Refusal::BadFrameSide => 4,
            Refusal::BadUnitSize => 5,
            Refusal::WidthShrinks => 6,
            Refusal::BadShape => 7,
            Refusal::NotWider => 8,
            Refusal::BadEdgeRows => 9,
            Refusal::BadUnitTable => 10,
            Refusal::BadUnit => 11,
            Refusal::BadMarks => 12,
            Refusal::BadIndex => 13,
            Refusal::AlreadyRestored => 14,
            Refusal::BadSample => 15,
            Refusal::ShortScratch => 16,
        }
    }
}

// A job as it is read: its frame numbers, and how many entries its other sections have.
#[derive(Clone, Copy)]
pub struct Sections {
    pub frame: Frame,
    pub units: usize,
    pub deblocked: usize,
    pub cdef: usize,
}

// Why a job is refused: bytes that are no job, a bound of the job program, or a number of the table.
#[derive(Clone, Copy)]
pub enum JobRefusal {
    NoJob,
    OverBound,
    Table(Refusal),
}

impl From<Refusal> for JobRefusal {
    ghost use Rattle.standard.specs.declared.JobRefusal.TheVariants.{Table};

    ghost from_gives = { λ why job. job ≡ Table why };

    fn from(why: Refusal) -> JobRefusal {
        JobRefusal::Table(why)
    }
}

impl From<JobRefusal> for u32 {
    ghost from_gives = { λ why n. n ≡ job_refusal_number why };

    #[tactic(auto, unfolding(crate::specs::Answers::job_refusal_number))]
    fn from(why: JobRefusal) -> u32 {
        match why {
            JobRefusal::NoJob => 17,
            JobRefusal::OverBound => 18,
            JobRefusal::Table(why) => u32::from(why),
        }
    }
}

// What the job program prints of a job that is done, beside the restored rows.
#[derive(Clone, Copy)]
pub struct Report {
    pub plane: u32,
    pub width: u32,
    pub height: u32,
    pub stripes: u32,
    pub changed: u32,
    pub differs: u32,
}
